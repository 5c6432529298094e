//! What the plain program keeps of the lines of a live input: a script.
ghost use Rattle.std.specs.Prelude.{◌≡◌};
ghost use Rattle.queue_code.specs.Calls as calls;

use crate::call_codes::{code_of, not_given};
use call_text::CallLine;
use executor_model::{Event, Happening, Line};
use executor_plain::trace_of_happenings;
use live_engine::LiveLine;
use queue_code::CodeCall;
use sched_time::LONGEST;
use std::alloc::{AllocError, Allocator};
use std::marker::Model;

/// The greatest number of calls.
const MOST_CALLS: usize = 65_536;

/// A number that so few calls never give out.
const UNNAMED: u32 = u32::MAX;

/// The calls so far with their moments, and what happened so far.
///
/// A contract sees it as a [`ScriptView`](../../specs/own/Scripts.antt).
#[derive(Drop)]
pub(crate) struct Script<A: Allocator> {
    /// The oldest first.
    calls: Vec<(u64, CodeCall), A>,
    /// The oldest first.
    happened: Vec<Happening, A>,
    /// How many numbers were given out.
    numbers: u32,
    moment: u64,
    /// 1 ns after the last accepted clock, and 0 before any.
    earliest: u64,
}

impl<A: Allocator> Model for Script<A> {
    ghost use Rattle.std.specs.Prelude.{◌≤◌, length};
    ghost use Rattle.live_plain.specs.own.Scripts.{ScriptView};

    ghost Value = { ScriptView };

    ghost view = { λ s. record { calls = s.calls.items; happened = s.happened.items; numbers = s.numbers; moment = s.moment; earliest = s.earliest } };

    ghost invariant = { λ s. s.numbers ≤ length s.calls.items };
}

impl<A: Allocator + Copy> Script<A> {
    ghost use Rattle.std.specs.Prelude.{◌≡◌, ℕ, ◌+◌, ◌<◌, ◌≤◌, ◌↔◌, if◌then◌else◌, length, reverse, [], IfOk, OnOk, IsTrue};
    ghost use Rattle.sched_time.specs.Times.{longest};
    ghost use Rattle.queue_code.specs.Calls.{IsPlanned, most_calls_of_code};
    ghost use Rattle.executor_model.specs.Answers.{is_accepted};
    ghost use Rattle.executor_model.specs.Flows.{history_from, lines_of};
    ghost use Rattle.live_engine.specs.LiveLines.{LiveHistory, after_line, after_meant, meant_in};
    ghost use Rattle.live_engine.specs.declared.live_line.LiveLine.TheVariants as l;
    ghost use Rattle.live_plain.specs.PlainLines.{IsPlain};
    ghost use Rattle.live_plain.specs.own.Scripts.{NamesGiven, Shows, blank, happening_there, with_call, with_event};

    /// A script before any line.
    pub(crate) fn new(alloc: A) -> Script<A>
        ensures { result ≡ blank }
    {
        Script {
            calls: Vec::new(alloc),
            happened: Vec::new(alloc),
            numbers: 0,
            moment: 0,
            earliest: 0,
        }
    }

    /// Takes a line. `false` where it is not plain.
    pub(crate) fn take(&mut self, line: LiveLine) -> Result<bool, AllocError>
        ensures plain { IfOk result
            (λ taken. (workers : ℕ) (so_far : LiveHistory) → Shows workers so_far self.old
            → (IsTrue taken ↔ IsPlain so_far (meant_in so_far line))) }
        ensures shows { IfOk result
            (λ taken. (workers : ℕ) (so_far : LiveHistory) → Shows workers so_far self.old
            → IsTrue taken → Shows workers (after_line workers so_far line) self.new) }
    {
        match line {
            LiveLine::Event(event) => self.take_event(event),
            LiveLine::Call(call) => self.take_call(call),
        }
    }

    /// Takes the line of an event.
    fn take_event(&mut self, event: Event) -> Result<bool, AllocError>
        ensures plain { IfOk result (λ taken. IsTrue taken) }
        ensures shows { OnOk result
            ((workers : ℕ) (so_far : LiveHistory) → Shows workers so_far self.old
            → Shows workers (after_line workers so_far (l.Event event)) self.new) }
    {
        self.meet(event)?;
        Ok(true)
    }

    /// Takes the line of a call: where it cancels a number that was not given out, it is that of the event. `false` where it is not
    /// plain.
    fn take_call(&mut self, call: CallLine) -> Result<bool, AllocError>
        ensures plain { IfOk result
            (λ taken. (workers : ℕ) (so_far : LiveHistory) → Shows workers so_far self.old
            → (IsTrue taken ↔ IsPlain so_far (meant_in so_far (l.Call call)))) }
        ensures shows { IfOk result
            (λ taken. (workers : ℕ) (so_far : LiveHistory) → Shows workers so_far self.old
            → IsTrue taken → Shows workers (after_line workers so_far (l.Call call)) self.new) }
    {
        match not_given(self.numbers, call) {
            Some(task) => self.take_event(Event::Cancel(task)),
            None => self.take_made(call),
        }
    }

    /// Takes the line of a call that is made, if it is plain, and else answers `false`.
    fn take_made(&mut self, call: CallLine) -> Result<bool, AllocError>
        requires given { NamesGiven self.old.numbers call }
        ensures plain { IfOk result
            (λ taken. (workers : ℕ) (so_far : LiveHistory) → Shows workers so_far self.old
            → (IsTrue taken ↔ IsPlain so_far (l.Call call))) }
        ensures shows { IfOk result
            (λ taken. (workers : ℕ) (so_far : LiveHistory) → Shows workers so_far self.old
            → IsTrue taken → Shows workers (after_meant workers so_far (l.Call call)) self.new) }
    {
        let moment = self.moment.max(self.earliest);
        if !self.has_room(moment) {
            return Ok(false);
        }
        let Some(code) = code_of(self.numbers, call) else {
            return Ok(false);
        };
        self.make(moment, code)?;
        Ok(true)
    }

    /// Whether one call more may be made, at this moment.
    fn has_room(&self, moment: u64) -> bool
        ensures { IsTrue result
            ↔ ((length self.now.calls < most_calls_of_code) × (moment ≤ longest)) }
    {
        self.calls.len() < MOST_CALLS && moment <= LONGEST
    }

    /// An event comes.
    fn meet(&mut self, event: Event) -> Result<(), AllocError>
        ensures { OnOk result (self.new ≡ with_event self.old event) }
    {
        let happening = self.happening_of(event);
        self.happened.push(happening)?;
        if let Event::Clock(moment) = event {
            self.show(moment);
        }
        Ok(())
    }

    /// The happening that an event is. A cancel of a number that was not given out names no task.
    fn happening_of(&self, event: Event) -> Happening
        ensures { result ≡ happening_there self.now event }
    {
        match event {
            Event::Clock(moment) => Happening::Clock(moment),
            Event::Start(worker) => Happening::Start(worker),
            Event::Finish(worker, ending) => Happening::Finish(worker, ending),
            Event::Cancel(task) if task < self.numbers => Happening::Cancel(task),
            Event::Cancel(_) => Happening::Cancel(UNNAMED),
        }
    }

    /// The clock shows a moment, which is accepted or not.
    fn show(&mut self, moment: u64)
        ensures { self.new
            ≡ record self.old {
              moment = if is_accepted self.old.moment moment then moment
                  else self.old.moment;
              earliest = if is_accepted self.old.moment moment then moment + 1
                  else self.old.earliest;
            } }
    {
        if self.moment <= moment && moment <= LONGEST {
            self.moment = moment;
            self.earliest = moment + 1;
        }
    }

    /// A call is made.
    fn make(&mut self, moment: u64, code: CodeCall) -> Result<(), AllocError>
        requires few { length self.old.calls < most_calls_of_code }
        ensures { OnOk result (self.new ≡ with_call self.old (moment, code)) }
    {
        let planned = (moment, code);
        let is_task = submits(&planned.1);
        self.calls.push(planned)?;
        self.happened.push(Happening::Call)?;
        self.moment = moment;
        if is_task {
            self.numbers += 1;
        }
        Ok(())
    }

    /// The lines of the trace.
    pub(crate) fn trace(&self, alloc: A, workers: u8) -> Result<Vec<Line, A>, AllocError>
        requires { IsPlanned self.now.calls }
        ensures { IfOk result
            (λ lines. lines.items
            ≡ lines_of self.now.calls
            (history_from self.now.calls workers [] (reverse self.now.happened))) }
    {
        trace_of_happenings(alloc, &self.calls, workers, &self.happened)
    }
}

/// Whether a call submits a task.
fn submits(code: &CodeCall) -> bool
    ensures { result ≡ calls.submits_task code.now }
{
    matches!(code, CodeCall::Submit { .. } | CodeCall::Illegal { .. })
}
