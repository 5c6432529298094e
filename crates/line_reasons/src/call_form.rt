//! The forms of calls' lines, and the numbers in them.

ghost use Rattle.std.specs.Prelude.{◌≡◌, ℕ, ◌≤◌, ◌↔◌};
ghost use Rattle.line_reasons.specs.Numbers.{FitsInCall, least_in_call};

use sched_time::LONGEST;
use std::fmt;

/// The forms of which a call's line has one.
#[derive(Clone, Copy, Debug, PartialEq, Eq)]
pub enum CallForm {
    Schedule,
    Execute,
    Rate,
    Fixed,
    Cancel,
    Policy,
    Shutdown,
    ShutdownNow,
    Ask,
}

impl fmt::Display for CallForm {
    fn fmt<W: fmt::Write>(&self, f: &mut fmt::Formatter<W>) -> fmt::Result {
        f.write_str(match self {
            CallForm::Schedule => "call schedule D",
            CallForm::Execute => "call execute",
            CallForm::Rate => "call rate F P",
            CallForm::Fixed => "call fixed F D",
            CallForm::Cancel => "call cancel K",
            CallForm::Policy => "call policy WHICH VALUE",
            CallForm::Shutdown => "call shutdown",
            CallForm::ShutdownNow => "call shutdown_now",
            CallForm::Ask => "call ask",
        })
    }
}

/// A number in a call's line.
#[derive(Clone, Copy, Debug, PartialEq, Eq)]
pub enum CallNumber {
    /// The delay of a task that runs once, in nanoseconds.
    Delay,
    /// The delay before the first run at a rate, in nanoseconds.
    RateFirst,
    /// The period of a rate, in nanoseconds.
    Period,
    /// The delay before the first run with a fixed delay, in nanoseconds.
    FixedFirst,
    /// The fixed delay, in nanoseconds.
    FixedDelay,
    /// The task of a cancel.
    Task,
}

impl CallNumber {
    /// What the number is.
    pub fn name(self) -> &'static str {
        match self {
            CallNumber::Delay | CallNumber::FixedDelay => "delay",
            CallNumber::RateFirst | CallNumber::FixedFirst => "first delay",
            CallNumber::Period => "period",
            CallNumber::Task => "task",
        }
    }

    /// The least number that fits: 1 of a period and of a fixed delay, else 0.
    pub fn least(self) -> u64
        ensures { result ≡ least_in_call self }
    {
        match self {
            CallNumber::Period | CallNumber::FixedDelay => 1,
            _ => 0,
        }
    }

    /// The greatest number that fits.
    pub fn most(self) -> u64
        ensures { (n : ℕ) → ((least_in_call self ≤ n) × (n ≤ result)) ↔ FitsInCall self n }
    {
        match self {
            CallNumber::Task => 4_294_967_295,
            _ => LONGEST,
        }
    }

    /// A line that has such a number.
    pub fn example(self) -> &'static str {
        match self {
            CallNumber::Delay => "call schedule 5",
            CallNumber::RateFirst | CallNumber::Period => "call rate 5 10",
            CallNumber::FixedFirst | CallNumber::FixedDelay => "call fixed 5 10",
            CallNumber::Task => "call cancel 2",
        }
    }

    /// The form of the lines that have such a number.
    pub fn form(self) -> CallForm {
        match self {
            CallNumber::Delay => CallForm::Schedule,
            CallNumber::RateFirst | CallNumber::Period => CallForm::Rate,
            CallNumber::FixedFirst | CallNumber::FixedDelay => CallForm::Fixed,
            CallNumber::Task => CallForm::Cancel,
        }
    }
}
