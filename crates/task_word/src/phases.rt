/// How far a task is. The bit of a cancel is not part of it.
#[derive(Clone, Copy, Debug, PartialEq, Eq)]
pub enum Phase {
    /// Not submitted.
    Vacant,
    /// Waits for its run.
    New,
    /// Is run.
    Running,
    /// Its last run is done.
    Done,
    /// Its last run failed.
    Failed,
}
