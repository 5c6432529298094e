//! The run that an event started, as numbers.
ghost use Rattle.std.specs.Prelude.{◌≡◌};
ghost use Rattle.sched_c.specs.Calls.{last_start, no_start, start_in};

use executor_model::{Answer, Line, Message};

/// A run that was started.
#[repr(C)]
#[derive(Clone, Copy, Debug, PartialEq, Eq)]
pub struct Started {
    /// The number of the run, from 0.
    pub run: u64,
    /// The due moment of the run, at most 2^63 nanoseconds.
    pub due: u64,
    /// The task.
    pub task: u32,
    /// The worker.
    pub worker: u32,
}

impl Started {
    /// No run.
    pub fn none() -> Started
        ensures { result ≡ no_start }
    {
        Started {
            run: 0,
            due: 0,
            task: 0,
            worker: 0,
        }
    }

    /// The run that a message says was started.
    fn of(message: Message) -> Option<Started>
        ensures { result ≡ start_in message }
    {
        match message {
            Message::Answer(
                Answer::Start {
                    worker,
                    task,
                    run,
                    due,
                },
            ) => Some(Started {
                run,
                due,
                task,
                worker: u32::from(worker),
            }),
            _ => None,
        }
    }

    /// The run that the last of some lines says was started.
    pub fn last_of(lines: &[Line]) -> Option<Started>
        ensures { result ≡ last_start lines.now }
    {
        Started::of(lines.last()?.message())
    }
}
