//! Why a live run does not begin.

use sched_engine::RunError;
use std::alloc::AllocError;

/// Why a live run does not begin: nothing was read, written or noted.
#[derive(Clone, Copy, Debug)]
pub enum OpenError {
    /// The number of workers is not 1 to 64.
    Workers,
    /// Memory ran out.
    Memory,
}

impl From<AllocError> for OpenError {
    ghost use Rattle.std.specs.Prelude.{◌≡◌};
    ghost use Rattle.live_engine.specs.declared.opening.OpenError.TheVariants.{Memory};

    ghost from_gives = { λ _ e. e ≡ Memory };

    fn from(_: AllocError) -> OpenError {
        OpenError::Memory
    }
}

impl From<OpenError> for RunError {
    ghost use Rattle.std.specs.Prelude.{◌≡◌};
    ghost use Rattle.live_engine.specs.LiveRuns.{told_of_opening};

    ghost from_gives = { λ error e. e ≡ told_of_opening error };

    fn from(error: OpenError) -> RunError {
        match error {
            OpenError::Workers => RunError::Workers,
            OpenError::Memory => RunError::Memory,
        }
    }
}
