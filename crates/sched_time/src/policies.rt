ghost use Rattle.std.specs.Prelude.{◌≡◌};
ghost use Rattle.sched_time.specs.Policies.{default_policies, set_policy};

/// The three policies of an executor, as `ScheduledThreadPoolExecutor` has them.
#[derive(Clone, Copy, Debug, PartialEq, Eq)]
pub enum Which {
    /// Whether periodic tasks go on after a shutdown
    /// (`setContinueExistingPeriodicTasksAfterShutdownPolicy`).
    Continue,
    /// Whether delayed tasks still run after a shutdown
    /// (`setExecuteExistingDelayedTasksAfterShutdownPolicy`).
    Execute,
    /// Whether a cancelled task leaves the queue at once (`setRemoveOnCancelPolicy`).
    Remove,
}

/// The values of an executor's policies.
#[derive(Clone, Copy, Debug, PartialEq, Eq)]
pub struct Policies {
    /// Whether periodic tasks go on after a shutdown.
    pub continues: bool,
    /// Whether delayed tasks that are not due at a shutdown still run after it.
    pub executes: bool,
    /// Whether a task that is cancelled while it waits leaves the queue at once.
    pub removes: bool,
}

impl Policies {
    /// The policies before any is set: periodic tasks do not go on, delayed ones do, and a cancelled task stays in
    /// the queue (Java SE 17, `ScheduledThreadPoolExecutor`).
    pub fn defaults() -> Policies
        ensures { result ≡ default_policies }
    {
        Policies {
            continues: false,
            executes: true,
            removes: false,
        }
    }

    /// The policies after one is set.
    pub fn with(self, which: Which, value: bool) -> Policies
        ensures { result ≡ set_policy which value self }
    {
        match which {
            Which::Continue => Policies {
                continues: value,
                ..self
            },
            Which::Execute => Policies {
                executes: value,
                ..self
            },
            Which::Remove => Policies {
                removes: value,
                ..self
            },
        }
    }
}
