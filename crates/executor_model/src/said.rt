//! What a line says, in 24 bytes: the shapes of [`Message`] nest, and each nesting takes eight bytes for its tag.
ghost use Rattle.std.specs.Prelude.{◌≡◌, ◌↔◌, true};
ghost use Rattle.executor_model.specs.Said.{said_of, message_of};
ghost use Rattle.executor_model.specs.declared.types.Answer.TheVariants as answer;
ghost use Rattle.executor_model.specs.declared.types.Message.TheVariants as message;

use crate::types::{Answer, CancelEffect, EventError, Kind, Message, Outcome, Refusal};
use sched_time::Which;

/// A [`Message`] without nesting, the narrow fields first: the variants and the fields mean what those of [`Answer`] mean, and a
/// finish has a variant for each [`Outcome`].
#[derive(Clone, Copy, Debug, PartialEq, Eq)]
pub enum Said {
    Submit {
        kind: Kind,
        task: u32,
        due: u64,
    },
    Refuse {
        refusal: Refusal,
        task: u32,
    },
    Cancel {
        effect: CancelEffect,
        task: u32,
    },
    Outside {
        effect: CancelEffect,
        task: u32,
    },
    Purge,
    Policy {
        which: Which,
        value: bool,
    },
    Shutdown,
    ShutdownAgain,
    ShutdownNow,
    Ask {
        shutdown: bool,
        terminated: bool,
        queue: u32,
        running: u32,
    },
    Clock,
    Start {
        worker: u8,
        task: u32,
        run: u64,
        due: u64,
    },
    Idle {
        worker: u8,
    },
    Done {
        worker: u8,
        task: u32,
        run: u64,
        value: u64,
    },
    Failed {
        worker: u8,
        task: u32,
        run: u64,
        code: u32,
    },
    Again {
        worker: u8,
        task: u32,
        run: u64,
        due: u64,
    },
    Dropped {
        worker: u8,
        task: u32,
        run: u64,
    },
    Ended {
        worker: u8,
        task: u32,
        run: u64,
    },
    Error(EventError),
    End(u32),
}

impl Said {
    /// What this message says.
    #[inline(always)]
    pub fn of(message: Message) -> Said
        ensures { result ≡ said_of message }
    {
        match message {
            Message::Answer(answer) => Said::of_answer(answer),
            Message::End(task) => Said::End(task),
        }
    }

    /// What this answer says.
    #[inline(always)]
    fn of_answer(answer: Answer) -> Said
        ensures { result ≡ said_of (message.Answer answer) }
    {
        match answer {
            Answer::Submit { task, kind, due } => Said::Submit { kind, task, due },
            Answer::Refuse { task, refusal } => Said::Refuse { refusal, task },
            Answer::Cancel { task, effect } => Said::Cancel { effect, task },
            Answer::Outside { task, effect } => Said::Outside { effect, task },
            Answer::Purge => Said::Purge,
            Answer::Policy { which, value } => Said::Policy { which, value },
            Answer::Shutdown => Said::Shutdown,
            Answer::ShutdownAgain => Said::ShutdownAgain,
            Answer::ShutdownNow => Said::ShutdownNow,
            Answer::Ask {
                queue,
                running,
                shutdown,
                terminated,
            } => {
                Said::Ask {
                    shutdown,
                    terminated,
                    queue,
                    running,
                }
            }
            Answer::Clock => Said::Clock,
            Answer::Start {
                worker,
                task,
                run,
                due,
            } => Said::Start {
                worker,
                task,
                run,
                due,
            },
            Answer::Idle { worker } => Said::Idle { worker },
            Answer::Finish {
                worker,
                task,
                run,
                outcome,
            } => { Said::finish(worker, task, run, outcome) }
            Answer::Error(error) => Said::Error(error),
        }
    }

    /// What the answer to a finish says.
    #[inline(always)]
    pub fn finish(worker: u8, task: u32, run: u64, outcome: Outcome) -> Said
        ensures said { result ≡ said_of (message.Answer (answer.Finish worker task run outcome)) }
        ensures message { message_of result
            ≡ message.Answer (answer.Finish worker task run outcome) }
    {
        match outcome {
            Outcome::Done(value) => Said::Done {
                worker,
                task,
                run,
                value,
            },
            Outcome::Failed(code) => Said::Failed {
                worker,
                task,
                run,
                code,
            },
            Outcome::Again(due) => Said::Again {
                worker,
                task,
                run,
                due,
            },
            Outcome::Dropped => Said::Dropped { worker, task, run },
            Outcome::Ended => Said::Ended { worker, task, run },
        }
    }

    /// The message that says this.
    #[inline(always)]
    pub fn message(self) -> Message
        ensures { result ≡ message_of self }
    {
        match self {
            Said::Submit { kind, task, due } => Message::Answer(Answer::Submit { task, kind, due }),
            Said::Refuse { refusal, task } => Message::Answer(Answer::Refuse { task, refusal }),
            Said::Cancel { effect, task } => Message::Answer(Answer::Cancel { task, effect }),
            Said::Outside { effect, task } => Message::Answer(Answer::Outside { task, effect }),
            Said::Purge => Message::Answer(Answer::Purge),
            Said::Policy { which, value } => Message::Answer(Answer::Policy { which, value }),
            Said::Shutdown => Message::Answer(Answer::Shutdown),
            Said::ShutdownAgain => Message::Answer(Answer::ShutdownAgain),
            Said::ShutdownNow => Message::Answer(Answer::ShutdownNow),
            Said::Ask {
                shutdown,
                terminated,
                queue,
                running,
            } => {
                Message::Answer(Answer::Ask {
                    queue,
                    running,
                    shutdown,
                    terminated,
                })
            }
            Said::Clock => Message::Answer(Answer::Clock),
            Said::Start {
                worker,
                task,
                run,
                due,
            } => {
                Message::Answer(Answer::Start {
                    worker,
                    task,
                    run,
                    due,
                })
            }
            Said::Idle { worker } => Message::Answer(Answer::Idle { worker }),
            Said::Done {
                worker,
                task,
                run,
                value,
            } => { finish(worker, task, run, Outcome::Done(value)) }
            Said::Failed {
                worker,
                task,
                run,
                code,
            } => { finish(worker, task, run, Outcome::Failed(code)) }
            Said::Again {
                worker,
                task,
                run,
                due,
            } => { finish(worker, task, run, Outcome::Again(due)) }
            Said::Dropped { worker, task, run } => finish(worker, task, run, Outcome::Dropped),
            Said::Ended { worker, task, run } => finish(worker, task, run, Outcome::Ended),
            Said::Error(error) => Message::Answer(Answer::Error(error)),
            Said::End(task) => Message::End(task),
        }
    }
}

/// The message of the answer to a finish.
#[inline(always)]
fn finish(worker: u8, task: u32, run: u64, outcome: Outcome) -> Message
    ensures { result ≡ message.Answer (answer.Finish worker task run outcome) }
{
    Message::Answer(Answer::Finish {
        worker,
        task,
        run,
        outcome,
    })
}

/// Two of them compare as equal exactly when they are the same.
pub fn said_equality_tells()
    ensures { (a b : Said) → (⟦<Said as PartialEq>⟧.eq a b ≡ true) ↔ (a ≡ b) }
{}
