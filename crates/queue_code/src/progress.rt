//! What a check has met of a list of instructions, and what it has met after one instruction more.
use crate::instr::Instr;

/// The loop that is open.
#[derive(Clone, Copy)]
pub(crate) struct OpenLoop {
    /// How often it is made.
    pub(crate) times: u32,
    /// How far the base of an iteration is above that of the one before, in nanoseconds.
    pub(crate) every: u64,
    /// How many tasks are made before it.
    pub(crate) start: u128,
    /// How many calls it has so far.
    pub(crate) calls: u128,
    /// The offset of its first call.
    pub(crate) first: u64,
}

/// What was met so far.
///
/// The numbers are wide enough for any list of instructions: until a fault is met, no sum of them wraps.
#[derive(Clone, Copy)]
pub(crate) struct Progress {
    /// The loop that has begun and not ended.
    pub(crate) open_loop: Option<OpenLoop>,
    /// How many calls are made, those of the open loop left out.
    pub(crate) calls: u128,
    /// How many tasks are made, those of the open loop once.
    pub(crate) tasks: u128,
    /// The moment of the last call, that of the first iteration in an open loop.
    pub(crate) last: u128,
}

impl Progress {
    ghost use Rattle.std.specs.Prelude.{◌≡◌, ℕ, ◌^◌, ◌<◌, IfSome};
    ghost use Rattle.queue_code.specs.own.Walks.{walk_opening, last_shift, loop_after, walk_calls_after, after_loop, walk_after};
    ghost use Rattle.queue_code.specs.own.Sizes.{IsBounded};

    /// Before the first instruction.
    pub(crate) fn new() -> Progress
        ensures { result ≡ walk_opening }
    {
        Progress {
            open_loop: None,
            calls: 0,
            tasks: 0,
            last: 0,
        }
    }

    /// How much later a call is made in the last iteration than in the first.
    pub(crate) fn last_shift(&self) -> u128
        ensures value { result ≡ last_shift self.now.open_loop }
        ensures limit { result < 2 ^ 96 }
    {
        match &self.open_loop {
            Some(inner) => u128::from(inner.times.saturating_sub(1)) * u128::from(inner.every),
            None => 0,
        }
    }

    /// How many calls there are with this one, those of an open loop left out.
    pub(crate) fn calls_after(&self) -> u128
        requires { self.now.calls < 2 ^ 64 }
        ensures { result ≡ walk_calls_after self.now.open_loop self.now.calls }
    {
        match self.open_loop {
            Some(_) => self.calls,
            None => self.calls + 1,
        }
    }

    /// What was met after an instruction more.
    pub(crate) fn after(&self, instr: &Instr) -> Progress
        requires { (n : ℕ) × (n < 2 ^ 64) × IsBounded n self.now }
        ensures { result ≡ walk_after self.now instr.now }
    {
        match instr {
            Instr::Loop(times, every) => Progress {
                open_loop: Some(OpenLoop {
                    times: *times,
                    every: *every,
                    start: self.tasks,
                    calls: 0,
                    first: 0,
                }),
                ..*self
            },
            Instr::EndLoop => self.after_loop(),
            Instr::Halt => *self,
            _ => Progress {
                open_loop: self.loop_after(instr.offset()),
                calls: self.calls_after(),
                tasks: self.tasks + u128::from(instr.tasks()),
                last: u128::from(instr.offset()),
            },
        }
    }

    /// The open loop after a call with this offset.
    fn loop_after(&self, offset: u64) -> Option<OpenLoop>
        requires { IfSome self.now.open_loop (λ l. l.calls < 2 ^ 64) }
        ensures { result ≡ loop_after self.now.open_loop offset }
    {
        let Some(inner) = self.open_loop else {
            return None;
        };
        let first = if inner.calls == 0 {
            offset
        } else {
            inner.first
        };
        Some(OpenLoop {
            calls: inner.calls + 1,
            first,
            ..inner
        })
    }

    /// What was met after the end of the open loop, all iterations of which are counted then.
    fn after_loop(&self) -> Progress
        requires { (n : ℕ) × (n < 2 ^ 64) × IsBounded n self.now }
        ensures { result ≡ after_loop self.now self.now.open_loop }
    {
        let Some(inner) = self.open_loop else {
            return *self;
        };
        let times = u128::from(inner.times);
        Progress {
            open_loop: None,
            calls: self.calls + times * inner.calls,
            tasks: inner.start + times * self.tasks.saturating_sub(inner.start),
            last: self.last_shift() + self.last,
        }
    }
}
