//! What the executor answers, as the lines of a trace have it.

use executor_model::{Answer, Kind, Refusal};
use live_core::{Asked, Begun, Ended, Submitted};

/// A task's number, as a line spells it. No test has one of 2^32 or more.
fn spelled(number: u64) -> u32 {
    u32::try_from(number).unwrap_or(u32::MAX)
}

/// The answer to a submission.
pub fn submit_answer(submitted: Submitted, kind: Kind) -> Answer {
    match submitted {
        Submitted::Accepted { task, due } => Answer::Submit {
            task: spelled(task.number),
            kind,
            due,
        },
        Submitted::Rejected { number } => Answer::Refuse {
            task: spelled(number),
            refusal: Refusal::Rejected,
        },
    }
}

/// The answer to an orderly shutdown, which is the first call to shut down or not.
pub fn shutdown_answer(is_first: bool) -> Answer {
    if is_first {
        Answer::Shutdown
    } else {
        Answer::ShutdownAgain
    }
}

/// The answer to an ask.
pub fn ask_answer(asked: Asked) -> Answer {
    Answer::Ask {
        queue: u32::try_from(asked.queue).unwrap_or(u32::MAX),
        running: u32::try_from(asked.running).unwrap_or(u32::MAX),
        shutdown: asked.shutdown,
        terminated: asked.terminated,
    }
}

/// The answer to a start that begins this run, or none.
pub fn start_answer(worker: u8, begun: Option<Begun>) -> Answer {
    match begun {
        None => Answer::Idle { worker },
        Some(begun) => Answer::Start {
            worker,
            task: spelled(begun.task.number),
            run: begun.run,
            due: begun.due,
        },
    }
}

/// The answer to a finish that ends this run.
pub fn finish_answer(worker: u8, ended: Ended) -> Answer {
    Answer::Finish {
        worker,
        task: spelled(ended.task.number),
        run: ended.run,
        outcome: ended.outcome,
    }
}
