//! Sequences that are drawn: up to 60 lines, of up to 50 tasks and two workers.

ghost use Rattle.std.specs.Prelude.{◌<◌};

use super::agree;
use call_text::CallLine;
use executor_model::Event;
use live_engine::LiveLine;
use sched_time::{Ending, Which};
use std::alloc::Global;
use std::process::Abort;
use std::test::Fail;

/// How many workers there are. A third one asks for work now and then.
const WORKERS: u8 = 2;

/// How many lines a sequence has at most, and how many tasks it submits at most.
const MOST_LINES: u32 = 60;

const MOST_TASKS: u32 = 50;

/// What the next line is drawn from.
#[derive(Drop)]
struct Dice {
    /// A pseudo-random number, which is not 0.
    state: u64,
    /// How many tasks were submitted.
    tasks: u32,
    /// The moment that the clock showed last.
    now: u64,
    /// Of 8 lines, how many submit a task.
    submits: u32,
}

impl Dice {
    /// Dice for the sequence of this number.
    fn new(sequence: u64) -> Dice {
        let mut dice = Dice {
            state: sequence.wrapping_mul(0x9E37_79B9_7F4A_7C15) | 1,
            tasks: 0,
            now: 0,
            submits: 0,
        };
        dice.submits = 1 + dice.below(6);
        dice
    }

    /// A number below another one.
    fn below(&mut self, bound: u32) -> u32
        requires { 0 < bound }
        ensures { result < bound }
    {
        let x = self.state ^ (self.state << 13);
        let x = x ^ (x >> 7);
        self.state = x ^ (x << 17);
        (self.state >> 32) as u32 % bound
    }

    /// The next line.
    fn line(&mut self) -> LiveLine {
        if self.tasks < MOST_TASKS && self.below(8) < self.submits {
            self.tasks = self.tasks.saturating_add(1);
            return LiveLine::Call(self.submission());
        }
        match self.below(16) {
            0 => LiveLine::Call(self.rare_call()),
            1 => LiveLine::Call(self.policy()),
            2 => LiveLine::Call(CallLine::Cancel(self.task())),
            3 => LiveLine::Event(Event::Cancel(self.task())),
            4 | 5 | 6 => LiveLine::Event(self.clock()),
            7 | 8 | 9 | 10 | 11 => LiveLine::Event(Event::Start(self.worker())),
            _ => LiveLine::Event(Event::Finish(self.worker(), self.ending())),
        }
    }

    /// A task is submitted.
    fn submission(&mut self) -> CallLine {
        let first = u64::from(self.below(5));
        match self.below(4) {
            0 => CallLine::Execute,
            1 => CallLine::Rate(first, 1 + u64::from(self.below(3))),
            2 => CallLine::Fixed(first, 1 + u64::from(self.below(3))),
            _ => CallLine::Schedule(first),
        }
    }

    /// A call that asks, or sometimes one that shuts the executor.
    fn rare_call(&mut self) -> CallLine {
        match self.below(8) {
            0 | 1 => CallLine::Shutdown,
            2 => CallLine::ShutdownNow,
            _ => CallLine::Ask,
        }
    }

    /// A policy is set.
    fn policy(&mut self) -> CallLine {
        let value = self.below(2) == 0;
        match self.below(3) {
            0 => CallLine::Policy(Which::Continue, value),
            1 => CallLine::Policy(Which::Execute, value),
            _ => CallLine::Policy(Which::Remove, value),
        }
    }

    /// A task that was submitted, or one of the next two.
    fn task(&mut self) -> u32 {
        self.below(self.tasks.saturating_add(2))
    }

    /// The clock goes on by 0 to 3 ns, or sometimes back.
    fn clock(&mut self) -> Event {
        let moment = self.now.saturating_add(u64::from(self.below(5)));
        if moment > self.now {
            self.now = moment - 1;
            return Event::Clock(moment - 1);
        }
        Event::Clock(self.now / 2)
    }

    fn worker(&mut self) -> u8 {
        match self.below(9) {
            0 => 2,
            drawn => (drawn % 2) as u8,
        }
    }

    fn ending(&mut self) -> Ending {
        match self.below(6) {
            0 => Ending::Fault(3),
            _ => Ending::Value(7),
        }
    }
}

/// The sequence of this number.
fn draw(alloc: Global, sequence: u64) -> Result<Vec<LiveLine, Global>, Fail> {
    let mut dice = Dice::new(sequence);
    let mut lines = Vec::new(alloc);
    let length = 1 + dice.below(MOST_LINES);
    for _ in 0..length {
        lines.push(dice.line())?;
    }
    Ok(lines)
}

/// The lines but for the one at this place.
fn without(alloc: Global, lines: &[LiveLine], place: usize) -> Result<Vec<LiveLine, Global>, Fail> {
    let mut others = Vec::new(alloc);
    for (k, line) in lines.iter().enumerate() {
        if k != place {
            others.push(*line)?;
        }
    }
    Ok(others)
}

/// A sequence of which both do not tell the same, with no line that can be left out.
fn shortened(alloc: Global, lines: Vec<LiveLine, Global>) -> Result<Vec<LiveLine, Global>, Fail> {
    let mut kept = lines;
    for place in (0..kept.len()).rev() {
        let shorter = without(alloc, &kept, place)?;
        if !agree(alloc, WORKERS, &shorter)? {
            kept = shorter;
        }
    }
    Ok(kept)
}

/// Both tell the same of 1,000 sequences, from the one of this number on.
fn thousand_agree(rt: &impl Abort, alloc: Global, first: u64) -> Result<(), Fail> {
    for offset in 0..1_000u64 {
        let sequence = first.saturating_add(offset);
        let lines = draw(alloc, sequence)?;
        if !agree(alloc, WORKERS, &lines)? {
            let lines = shortened(alloc, lines)?;
            assert!(rt; false, "sequence {sequence}: {lines:?}");
        }
    }
    Ok(())
}

#[test]
fn sequences_of_the_first_thousand(rt: HostRuntime) -> Result<(), Fail> {
    thousand_agree(&rt, rt.alloc(), 0)
}

#[test]
fn sequences_of_the_second_thousand(rt: HostRuntime) -> Result<(), Fail> {
    thousand_agree(&rt, rt.alloc(), 1_000)
}

#[test]
fn sequences_of_the_third_thousand(rt: HostRuntime) -> Result<(), Fail> {
    thousand_agree(&rt, rt.alloc(), 2_000)
}

#[test]
fn sequences_of_the_fourth_thousand(rt: HostRuntime) -> Result<(), Fail> {
    thousand_agree(&rt, rt.alloc(), 3_000)
}

#[test]
fn sequences_of_the_fifth_thousand(rt: HostRuntime) -> Result<(), Fail> {
    thousand_agree(&rt, rt.alloc(), 4_000)
}

#[test]
fn sequences_of_the_sixth_thousand(rt: HostRuntime) -> Result<(), Fail> {
    thousand_agree(&rt, rt.alloc(), 5_000)
}

#[test]
fn sequences_of_the_seventh_thousand(rt: HostRuntime) -> Result<(), Fail> {
    thousand_agree(&rt, rt.alloc(), 6_000)
}

#[test]
fn sequences_of_the_eighth_thousand(rt: HostRuntime) -> Result<(), Fail> {
    thousand_agree(&rt, rt.alloc(), 7_000)
}

#[test]
fn sequences_of_the_ninth_thousand(rt: HostRuntime) -> Result<(), Fail> {
    thousand_agree(&rt, rt.alloc(), 8_000)
}

#[test]
fn sequences_of_the_tenth_thousand(rt: HostRuntime) -> Result<(), Fail> {
    thousand_agree(&rt, rt.alloc(), 9_000)
}
