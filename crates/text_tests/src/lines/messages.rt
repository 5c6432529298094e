//! What lines of a trace tell, in few words: macros, so that they stand in constants.

macro_rules! submit {
    ($task:expr, $kind:ident, $due:expr) => {
        executor_model::Message::Answer(executor_model::Answer::Submit {
            task: $task,
            kind: executor_model::Kind::$kind,
            due: $due,
        })
    };
}

macro_rules! refuse {
    ($task:expr, $refusal:ident) => {
        executor_model::Message::Answer(executor_model::Answer::Refuse {
            task: $task,
            refusal: executor_model::Refusal::$refusal,
        })
    };
}

macro_rules! cancel {
    ($task:expr, $effect:ident) => {
        executor_model::Message::Answer(executor_model::Answer::Cancel {
            task: $task,
            effect: executor_model::CancelEffect::$effect,
        })
    };
}

macro_rules! outside {
    ($task:expr, $effect:ident) => {
        executor_model::Message::Answer(executor_model::Answer::Outside {
            task: $task,
            effect: executor_model::CancelEffect::$effect,
        })
    };
}

macro_rules! policy {
    ($which:ident, $value:expr) => {
        executor_model::Message::Answer(executor_model::Answer::Policy {
            which: sched_time::Which::$which,
            value: $value,
        })
    };
}

/// How far the executor is: tasks that wait and are run, and whether it is shut and is terminated.
macro_rules! ask {
    ($queue:expr, $running:expr, $shutdown:expr, $terminated:expr) => {
        executor_model::Message::Answer(executor_model::Answer::Ask {
            queue: $queue,
            running: $running,
            shutdown: $shutdown,
            terminated: $terminated,
        })
    };
}

macro_rules! start {
    ($worker:expr, $task:expr, $run:expr, $due:expr) => {
        executor_model::Message::Answer(executor_model::Answer::Start {
            worker: $worker,
            task: $task,
            run: $run,
            due: $due,
        })
    };
}

macro_rules! idle {
    ($worker:expr) => {
        executor_model::Message::Answer(executor_model::Answer::Idle { worker: $worker })
    };
}

macro_rules! finish {
    ($worker:expr, $task:expr, $run:expr, $outcome:expr) => {
        executor_model::Message::Answer(executor_model::Answer::Finish {
            worker: $worker,
            task: $task,
            run: $run,
            outcome: $outcome,
        })
    };
}

macro_rules! error {
    ($error:ident) => {
        executor_model::Message::Answer(executor_model::Answer::Error(
            executor_model::EventError::$error,
        ))
    };
}

/// An answer of one word.
macro_rules! word {
    ($answer:ident) => {
        executor_model::Message::Answer(executor_model::Answer::$answer)
    };
}

pub(crate) use ask;
pub(crate) use cancel;
pub(crate) use error;
pub(crate) use finish;
pub(crate) use idle;
pub(crate) use outside;
pub(crate) use policy;
pub(crate) use refuse;
pub(crate) use start;
pub(crate) use submit;
pub(crate) use word;
