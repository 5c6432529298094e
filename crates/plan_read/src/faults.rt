//! Why a text is no plan.

ghost use Rattle.std.specs.Prelude.{◌≡◌};
ghost use Rattle.plan_read.specs.declared.faults.ReadError.TheVariants as errors;

use std::alloc::{AllocError, AllocFailed};
use thiserror::Error;

/// What is wrong with a plan text.
#[derive(Clone, Copy, Debug, PartialEq, Eq, Error)]
pub enum PlanFaultKind {
    /// It has more than 1,048,576 bytes, or that to which it is migrated has.
    #[error("TooLong")]
    TooLong,
    /// It is no UTF-8, or no TOML document.
    #[error("Toml")]
    Toml,
    /// `version` is missing, or neither of the integers 1 and 2; or the text is of version 2, and was to be migrated to it.
    #[error("Version")]
    Version,
    /// A table has a key that does not belong there.
    #[error("UnknownKey")]
    UnknownKey,
    /// A key is missing.
    #[error("Missing")]
    Missing,
    /// A value is not what its key wants: of another type, or an `op` or a `which` that is none.
    #[error("WrongType")]
    WrongType,
    /// A unit is none of "ns", "us", "ms" and "s", and of "min", "h" and "d" in version 2.
    #[error("BadUnit")]
    BadUnit,
    /// A `times` is not 1 to 65,536.
    #[error("BadTimes")]
    BadTimes,
    /// A moment, an offset or an `every` is below 0.
    #[error("Negative")]
    Negative,
    /// A name is not 1 to 32 ASCII letters, digits, `-` and `_`.
    #[error("BadName")]
    BadName,
    /// A submission has the name of one before it.
    #[error("DuplicateName")]
    DuplicateName,
    /// A cancel names no submission that stands before it.
    #[error("UnknownName")]
    UnknownName,
    /// A cancel names a submission of an earlier block that is repeated.
    #[error("Ambiguous")]
    Ambiguous,
    /// A block begins before the last call of those before it, an offset is below that of the call
    /// before it, or a call of a repeated block comes after the next iteration begins.
    #[error("OutOfOrder")]
    OutOfOrder,
    /// A moment, an offset, a delay, a period or an `every` is above 2^62 nanoseconds.
    #[error("TooLarge")]
    TooLarge,
    /// There are more blocks or calls than a plan may have.
    #[error("TooMany")]
    TooMany,
    /// Memory ran out. It says nothing of the text.
    #[error("Memory")]
    Memory,
}

/// What is wrong with a plan text, and where.
#[derive(Clone, Copy, Debug, PartialEq, Eq, Error)]
#[error("{kind} block {block} call {call}")]
pub struct PlanFault {
    pub kind: PlanFaultKind,
    /// The block, numbered from 1; 0 where the fault is in no block.
    pub block: u32,
    /// The call in its block, numbered from 1; 0 where the fault is in no call.
    pub call: u32,
}

/// Where a fault is looked for: 0 stands for no block and for no call.
#[derive(Clone, Copy)]
pub struct Place {
    pub block: u32,
    pub call: u32,
}

impl Place {
    /// The text as a whole, and its top.
    pub fn top() -> Place
        ensures { result ≡ record { block = 0; call = 0 } }
    {
        Place { block: 0, call: 0 }
    }

    /// A fault of this kind at this place.
    pub fn fault(self, kind: PlanFaultKind) -> ReadError
        ensures { result
            ≡ errors.Fault (record { kind = kind; block = self.block; call = self.call }) }
    {
        ReadError::Fault(PlanFault {
            kind,
            block: self.block,
            call: self.call,
        })
    }
}

/// Why the reading of a plan ends without one.
#[derive(Clone, Copy)]
pub enum ReadError {
    /// Memory ran out.
    Memory,
    /// The text has a fault.
    Fault(PlanFault),
}

impl From<AllocError> for ReadError {
    ghost from_gives = { λ _ e. e ≡ errors.Memory };

    fn from(_error: AllocError) -> ReadError {
        ReadError::Memory
    }
}

impl<T: Drop> From<AllocFailed<T>> for ReadError {
    ghost from_gives = { λ _ e. e ≡ errors.Memory };

    fn from(_error: AllocFailed<T>) -> ReadError {
        ReadError::Memory
    }
}
