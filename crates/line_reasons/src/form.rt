//! The forms of lines of events and of calls, and the numbers in them.

ghost use Rattle.std.specs.Prelude.{◌≡◌, ℕ, ◌≤◌, ◌↔◌};
ghost use Rattle.line_reasons.specs.Numbers.{FitsNumber, IsOfUse, least_number};

use crate::call_form::{CallForm, CallNumber};
use crate::choice::Choice;
use executor_model::MOST_WORKERS;
use std::fmt;

/// The forms of which a line of an event or of a call has one, as far as its words tell.
#[derive(Clone, Copy, Debug, PartialEq, Eq)]
pub enum Form {
    Clock,
    Start,
    /// One of the two of a finish.
    Finish,
    FinishOk,
    FinishFail,
    Cancel,
    /// One of those of the calls.
    AnyCall,
    Call(CallForm),
}

impl fmt::Display for Form {
    fn fmt<W: fmt::Write>(&self, f: &mut fmt::Formatter<W>) -> fmt::Result {
        match self {
            Form::Clock => f.write_str("clock T"),
            Form::Start => f.write_str("start W"),
            Form::Finish => f.write_str("finish W ok V or finish W fail C"),
            Form::FinishOk => f.write_str("finish W ok V"),
            Form::FinishFail => f.write_str("finish W fail C"),
            Form::Cancel => f.write_str("cancel K"),
            Form::AnyCall => write!(f, "call and {}", Choice::Call),
            Form::Call(form) => write!(f, "{form}"),
        }
    }
}

/// A number in a line of an event or of a call.
#[derive(Clone, Copy, Debug, PartialEq, Eq)]
pub enum EventNumber {
    /// The moment of a clock, in nanoseconds.
    Moment,
    /// The worker of a start.
    Starter,
    /// The worker of a finish.
    Finisher,
    /// The value of a run.
    Value,
    /// The code of a run that failed.
    Code,
    /// The task of a cancel.
    Task,
    /// One in a call's line.
    Call(CallNumber),
}

impl EventNumber {
    /// What the number is.
    pub fn name(self) -> &'static str {
        match self {
            EventNumber::Moment => "moment",
            EventNumber::Starter | EventNumber::Finisher => "worker",
            EventNumber::Value => "value",
            EventNumber::Code => "code",
            EventNumber::Task => "task",
            EventNumber::Call(number) => number.name(),
        }
    }

    /// The least number that fits: 0, or 1 of a period.
    pub fn least(self) -> u64
        ensures { result ≡ least_number self }
    {
        match self {
            EventNumber::Call(number) => number.least(),
            _ => 0,
        }
    }

    /// The greatest number that fits.
    pub fn most(self) -> u64
        ensures { (n : ℕ) → ((least_number self ≤ n) × (n ≤ result)) ↔ FitsNumber self n }
    {
        match self {
            EventNumber::Moment | EventNumber::Value => u64::MAX,
            EventNumber::Starter | EventNumber::Finisher => 255,
            EventNumber::Code | EventNumber::Task => 4_294_967_295,
            EventNumber::Call(number) => number.most(),
        }
    }

    /// The greatest number that is of use, which is told where one is too large: a worker is one of [`MOST_WORKERS`], although a
    /// line may name another one, up to [`most`](EventNumber::most).
    pub fn most_of_use(self) -> u64
        ensures { (n : ℕ) → ((least_number self ≤ n) × (n ≤ result)) ↔ IsOfUse self n }
    {
        match self {
            EventNumber::Starter | EventNumber::Finisher => MOST_WORKERS as u64 - 1,
            _ => self.most(),
        }
    }

    /// Whether the number is one of nanoseconds.
    pub(crate) fn is_in_nanoseconds(self) -> bool {
        match self {
            EventNumber::Moment => true,
            EventNumber::Call(number) => number != CallNumber::Task,
            _ => false,
        }
    }

    /// A line that has such a number.
    pub fn example(self) -> &'static str {
        match self {
            EventNumber::Moment => "clock 5",
            EventNumber::Starter => "start 0",
            EventNumber::Finisher | EventNumber::Value => "finish 0 ok 7",
            EventNumber::Code => "finish 0 fail 3",
            EventNumber::Task => "cancel 2",
            EventNumber::Call(number) => number.example(),
        }
    }

    /// The forms of the lines that have such a number.
    pub fn form(self) -> Form {
        match self {
            EventNumber::Moment => Form::Clock,
            EventNumber::Starter => Form::Start,
            EventNumber::Finisher => Form::Finish,
            EventNumber::Value => Form::FinishOk,
            EventNumber::Code => Form::FinishFail,
            EventNumber::Task => Form::Cancel,
            EventNumber::Call(number) => Form::Call(number.form()),
        }
    }
}
