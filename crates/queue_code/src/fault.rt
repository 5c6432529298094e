use std::alloc::AllocError;
use thiserror::Error;

/// Why a list of instructions is no code, or why a text was not made.
#[derive(Clone, Copy, Debug, PartialEq, Eq, Error)]
pub enum CodeFault {
    /// A halt is not the last instruction, or the last instruction is no halt.
    #[error("the halt is missing or not the last instruction")]
    NoHalt,
    /// A loop begins in a loop.
    #[error("a loop in a loop")]
    Nested,
    /// A loop ends that has not begun, or the halt stands in a loop.
    #[error("a loop without its beginning or its end")]
    Unclosed,
    /// A loop has no call.
    #[error("a loop without a call")]
    Empty,
    /// A cancel names a task that is not made before it.
    #[error("a cancel of a task that is not made before it")]
    BadTask,
    /// A moment, a delay or a loop's step is more than 2^62 nanoseconds.
    #[error("more than 2^62 nanoseconds")]
    TooLarge,
    /// A call is made before the one in front of it, or an iteration begins before the one in front of it ends.
    #[error("a call before the one in front of it")]
    Order,
    /// A loop has no iteration or more than 65,536, or there are more than 65,536 calls.
    #[error("more than 65,536 calls, or a loop that is not made 1 to 65,536 times")]
    TooMany,
    /// The memory was refused.
    #[error("out of memory")]
    Memory,
}

impl From<AllocError> for CodeFault {
    ghost use Rattle.std.specs.Prelude.{◌≡◌};
    ghost use Rattle.queue_code.specs.declared.fault.CodeFault.TheVariants.{Memory};

    ghost from_gives = { λ _ e. e ≡ Memory };

    fn from(_: AllocError) -> CodeFault {
        CodeFault::Memory
    }
}
