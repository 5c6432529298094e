//! Why a pool that ran, or the writing of what it did, did not end well.
ghost use Rattle.std.specs.Prelude.{◌≡◌};
ghost use Rattle.pool_engine.specs.own.Ended.{stop_of_last};

use sched_engine::RunError;

/// Why the text of an ended book was not written whole.
#[derive(Clone, Copy, Debug)]
pub enum LastError {
    /// The book is not as it has to be: nothing was written.
    Lost,
    /// The writer was at fault: a front of the text was written.
    Write,
}

/// Why a pool that was to run over all clocks of the input did not end well.
#[derive(Clone, Copy, Debug)]
pub enum PoolStop {
    /// It took as many events as the limit allows, and their text was written.
    Full,
    /// The writer was at fault: a front of the text was written.
    Write,
    /// The ended book is not as it has to be: nothing was written.
    Lost,
    /// Memory ran out, or a thread could not be made: nothing was written.
    Memory,
}

impl LastError {
    /// What the run by a pool comes to then.
    pub fn stop(self) -> PoolStop
        ensures { result ≡ stop_of_last self }
    {
        match self {
            LastError::Lost => PoolStop::Lost,
            LastError::Write => PoolStop::Write,
        }
    }
}

impl From<PoolStop> for RunError {
    ghost use Rattle.std.specs.Prelude.{◌≡◌};
    ghost use Rattle.pool_engine.specs.PoolRuns.{told_of_pool_stop};

    ghost from_gives = { λ stop e. e ≡ told_of_pool_stop stop };

    fn from(stop: PoolStop) -> RunError {
        match stop {
            PoolStop::Full => RunError::Full,
            PoolStop::Write => RunError::Write,
            PoolStop::Lost => RunError::Lost,
            PoolStop::Memory => RunError::Memory,
        }
    }
}
