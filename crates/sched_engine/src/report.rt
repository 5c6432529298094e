use plan_read::PlanFault;
use std::alloc::AllocError;
use thiserror::Error;

/// What a run did.
#[derive(Clone, Copy, Debug, PartialEq, Eq)]
pub struct Report {
    /// How many events were taken.
    pub events: u32,
    /// How many lines were written.
    pub lines: u64,
}

/// Why a plan text gives no code.
#[derive(Clone, Copy, Debug)]
pub enum CodeError {
    /// The text is no plan, or there was no memory to read it.
    Plan(PlanFault),
    /// Memory ran out.
    Memory,
}

/// Why a run is not opened: nothing was read or written.
#[derive(Clone, Copy, Debug)]
pub enum OpenError {
    /// The plan text is no plan, or there was no memory to read it.
    Plan(PlanFault),
    /// The number of workers is not 1 to 64.
    Workers,
    /// The limit on events is 0.
    Limit,
    /// Memory ran out.
    Memory,
}

/// Why a run that was opened stopped before its input ended.
#[derive(Clone, Copy, Debug)]
pub enum StopError {
    /// This line, counted from 1, is no event line.
    EventLine(u64),
    /// A further event follows as many as the limit allows.
    Full,
    /// The reader was at fault.
    Read,
    /// The writer was at fault.
    Write,
    /// Memory ran out.
    Memory,
}

/// Why a run ended before its input did, as its caller is told.
#[derive(Clone, Copy, Debug, PartialEq, Eq, Error)]
pub enum RunError {
    /// The plan text is no plan, or there was no memory to read it.
    #[error("plan: {0}")]
    Plan(PlanFault),
    /// The number of workers is not 1 to 64.
    #[error("the number of workers is not 1 to 64")]
    Workers,
    /// The limit on events is 0.
    #[error("the limit on events is 0")]
    Limit,
    /// This line, counted from 1, is no event line.
    #[error("event line {0}")]
    EventLine(u64),
    /// A further event follows as many as the limit allows.
    #[error("full")]
    Full,
    /// The reader was at fault, or interrupted 1,000 times in a row.
    #[error("read fault")]
    Read,
    /// The writer was at fault, took nothing, or was interrupted 1,000 times in a row.
    #[error("write fault")]
    Write,
    /// A run by a pool did not come to what it was to come to. No other run answers so.
    #[error("lost")]
    Lost,
    /// Memory ran out.
    #[error("out of memory")]
    Memory,
}

impl From<AllocError> for RunError {
    ghost use Rattle.std.specs.Prelude.{◌≡◌};
    ghost use Rattle.sched_engine.specs.declared.report.RunError.TheVariants.{Memory};

    ghost from_gives = { λ _ e. e ≡ Memory };

    fn from(_: AllocError) -> RunError {
        RunError::Memory
    }
}

impl From<AllocError> for OpenError {
    ghost use Rattle.std.specs.Prelude.{◌≡◌};
    ghost use Rattle.sched_engine.specs.declared.report.OpenError.TheVariants.{Memory};

    ghost from_gives = { λ _ e. e ≡ Memory };

    fn from(_: AllocError) -> OpenError {
        OpenError::Memory
    }
}

impl From<CodeError> for OpenError {
    ghost use Rattle.std.specs.Prelude.{◌≡◌};
    ghost use Rattle.sched_engine.specs.Stages.{opening_of};

    ghost from_gives = { λ error e. e ≡ opening_of error };

    fn from(error: CodeError) -> OpenError {
        match error {
            CodeError::Plan(fault) => OpenError::Plan(fault),
            CodeError::Memory => OpenError::Memory,
        }
    }
}

impl From<CodeError> for RunError {
    ghost use Rattle.std.specs.Prelude.{◌≡◌};
    ghost use Rattle.sched_engine.specs.Stages.{told_of_code};

    ghost from_gives = { λ error e. e ≡ told_of_code error };

    fn from(error: CodeError) -> RunError {
        match error {
            CodeError::Plan(fault) => RunError::Plan(fault),
            CodeError::Memory => RunError::Memory,
        }
    }
}

impl From<OpenError> for RunError {
    ghost use Rattle.std.specs.Prelude.{◌≡◌};
    ghost use Rattle.sched_engine.specs.Stages.{told_of_opening};

    ghost from_gives = { λ error e. e ≡ told_of_opening error };

    fn from(error: OpenError) -> RunError {
        match error {
            OpenError::Plan(fault) => RunError::Plan(fault),
            OpenError::Workers => RunError::Workers,
            OpenError::Limit => RunError::Limit,
            OpenError::Memory => RunError::Memory,
        }
    }
}

impl From<StopError> for RunError {
    ghost use Rattle.std.specs.Prelude.{◌≡◌};
    ghost use Rattle.sched_engine.specs.Stages.{told_of_stop};

    ghost from_gives = { λ error e. e ≡ told_of_stop error };

    fn from(error: StopError) -> RunError {
        match error {
            StopError::EventLine(line) => RunError::EventLine(line),
            StopError::Full => RunError::Full,
            StopError::Read => RunError::Read,
            StopError::Write => RunError::Write,
            StopError::Memory => RunError::Memory,
        }
    }
}
