//! Why a listing is not written whole.
use sched_engine::{CodeError, RunError};
use std::alloc::AllocError;

/// Why a listing is not written whole.
#[derive(Clone, Copy, Debug)]
pub enum ListingError {
    /// There is no code to list: nothing was written.
    Code(CodeError),
    /// The writer was at fault: a front of the listing was written.
    Write,
}

impl From<CodeError> for ListingError {
    ghost use Rattle.std.specs.Prelude.{◌≡◌};
    ghost use Rattle.plan_list.specs.declared.error.ListingError.TheVariants.{Code};

    ghost from_gives = { λ error e. e ≡ Code error };

    fn from(error: CodeError) -> ListingError {
        ListingError::Code(error)
    }
}

impl From<AllocError> for ListingError {
    ghost use Rattle.std.specs.Prelude.{◌≡◌};
    ghost use Rattle.sched_engine.specs.declared.report.CodeError.TheVariants.{Memory};
    ghost use Rattle.plan_list.specs.declared.error.ListingError.TheVariants.{Code};

    ghost from_gives = { λ _ e. e ≡ Code Memory };

    fn from(_: AllocError) -> ListingError {
        ListingError::Code(CodeError::Memory)
    }
}

impl From<ListingError> for RunError {
    ghost use Rattle.std.specs.Prelude.{◌≡◌};
    ghost use Rattle.plan_list.specs.ListingTexts.{told_of_listing};

    ghost from_gives = { λ error e. e ≡ told_of_listing error };

    fn from(error: ListingError) -> RunError {
        match error {
            ListingError::Code(error) => RunError::from(error),
            ListingError::Write => RunError::Write,
        }
    }
}
