use sched_engine::RunError;
use thiserror::Error;

/// Why there is no audit of a run.
#[derive(Clone, Copy, Debug, PartialEq, Eq, Error)]
pub enum AuditError {
    /// The run wrote no whole trace: the plan, the number of workers or the limit was refused, or
    /// memory ran out.
    #[error("{0}")]
    Run(RunError),
    /// The trace has more bytes than a check takes.
    #[error("the trace has more than 67,108,864 bytes")]
    TooLong,
    /// Memory ran out while the trace was checked.
    #[error("out of memory")]
    Memory,
}
