ghost use Rattle.std.specs.Prelude.{◌≡◌};
ghost use Rattle.queue_code.specs.Codes.{tasks_by};
ghost use Rattle.queue_code.specs.Checks.{offset_of, makes_call};
ghost use Rattle.sched_time.specs.Policies.{policy_text};

use sched_time::{Timing, Which};
use std::fmt;

/// An instruction of queue code.
///
/// The first number of an instruction that makes a call is its offset, in nanoseconds: the call is made that
/// long after the base, which is 0 outside a loop and in a loop's first iteration.
#[derive(Clone, Copy, Debug, PartialEq, Eq)]
pub enum Instr {
    /// Submits a task, which gets the next number. Behind the offset stand how often the task runs, and the
    /// delay from the call to its first run, in nanoseconds. With a period or a fixed delay of 0 each run
    /// of the task may start as soon as the one before has ended.
    Submit(u64, Timing, u64),
    /// Submits a task with a period, or a fixed delay, that is zero or negative. It gets the next number too.
    Illegal(u64),
    /// Cancels the task with this number.
    CancelFixed(u64, u32),
    /// Cancels a task of this iteration: the one before which this number of tasks of the iteration come.
    CancelHere(u64, u32),
    /// Sets a policy. Behind the offset stand the policy and what it is set to.
    SetPolicy(u64, Which, bool),
    /// Shuts the executor down.
    Shutdown(u64),
    /// Shuts the executor down at once: what waits is ended.
    ShutdownNow(u64),
    /// Asks the executor how it stands.
    Ask(u64),
    /// Begins a loop: the instructions up to the next [`EndLoop`](Instr::EndLoop) are executed this number of
    /// times, and each iteration's base is this number of nanoseconds above that of the one before.
    Loop(u32, u64),
    /// Ends a loop.
    EndLoop,
    /// Ends the code.
    Halt,
}

impl Instr {
    /// The offset of a call, and 0 where the instruction makes none.
    pub(crate) fn offset(&self) -> u64
        ensures { result ≡ offset_of self.now }
    {
        match self {
            Instr::Submit(offset, ..)
            | Instr::Illegal(offset)
            | Instr::CancelFixed(offset, _)
            | Instr::CancelHere(offset, _)
            | Instr::SetPolicy(offset, ..)
            | Instr::Shutdown(offset)
            | Instr::ShutdownNow(offset)
            | Instr::Ask(offset) => *offset,
            Instr::Loop(..) | Instr::EndLoop | Instr::Halt => 0,
        }
    }

    /// Whether it makes a call.
    pub(crate) fn is_call(&self) -> bool
        ensures { result ≡ makes_call self.now }
    {
        !matches!(self, Instr::Loop(..) | Instr::EndLoop | Instr::Halt)
    }

    /// How many tasks it makes.
    pub(crate) fn tasks(&self) -> u32
        ensures { result ≡ tasks_by self.now }
    {
        match self {
            Instr::Submit(..) | Instr::Illegal(_) => 1,
            _ => 0,
        }
    }
}

impl fmt::Display for Instr {
    ghost use Rattle.std.specs.Prelude.{Some};
    ghost use Rattle.queue_code.specs.Listings.{instr_text};

    ghost output = { λ i. Some (instr_text i) };

    fn fmt<W: fmt::Write>(&self, f: &mut fmt::Formatter<W>) -> fmt::Result {
        match self {
            Instr::Submit(offset, Timing::Once, delay) => write!(
                f,
                "submit {offset} schedule {delay}"
            ),
            Instr::Submit(offset, Timing::Rate(period), first) => {
                let period = period.nanos();
                write!(f, "submit {offset} rate {first} {period}")
            }
            Instr::Submit(offset, Timing::Fixed(delay), first) => {
                let delay = delay.nanos();
                write!(f, "submit {offset} fixed {first} {delay}")
            }
            Instr::Illegal(offset) => write!(f, "illegal {offset}"),
            Instr::CancelFixed(offset, task) => write!(f, "cancel {offset} task {task}"),
            Instr::CancelHere(offset, nth) => write!(f, "cancel {offset} here {nth}"),
            Instr::SetPolicy(offset, which, value) => {
                let which = policy_text(*which);
                write!(f, "policy {offset} {which} {value}")
            }
            Instr::Shutdown(offset) => write!(f, "shutdown {offset}"),
            Instr::ShutdownNow(offset) => write!(f, "shutdown_now {offset}"),
            Instr::Ask(offset) => write!(f, "ask {offset}"),
            Instr::Loop(times, every) => write!(f, "loop {times} every {every}"),
            Instr::EndLoop => write!(f, "endloop"),
            Instr::Halt => write!(f, "halt"),
        }
    }
}

/// The word of a policy.
fn policy_text(which: Which) -> &'static str
    ensures { result.now ≡ policy_text which }
{
    match which {
        Which::Continue => "continue",
        Which::Execute => "execute",
        Which::Remove => "remove",
    }
}
