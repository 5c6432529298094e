//! What the executor answers, as the lines of a trace have it.
ghost use Rattle.std.specs.Prelude.{◌≡◌, ◌^◌, ◌<◌, IfOk, IfErr, IfSome};
ghost use Rattle.sched_time.specs.declared.timing.Timing as timings;
ghost use Rattle.executor_model.specs.Answers.{bare, kind_of};
ghost use Rattle.executor_model.specs.declared.types.Answer.TheVariants as answers;
ghost use Rattle.live_core.specs.Said.{number_of, submit_reply};
ghost use Rattle.live_core.specs.Events.{finish_reply, start_reply};
ghost use Rattle.live_core.specs.Shutting as shutting;
ghost use Rattle.live_engine.specs.declared.stops.PieceEnd.TheVariants as e;
ghost use Rattle.live_engine.specs.own.LiveSteps as steps;

use crate::stops::PieceEnd;
use executor_model::{Answer, Kind, Refusal};
use live_core::{Asked, Begun, CallError, Ended, Submitted};

/// The answer to a submission, whose number is below 2^32.
pub(crate) fn submit_answer(submitted: Submitted, kind: Kind) -> Answer
    requires { number_of submitted < 2 ^ 32 }
    ensures { (timing : timings.Timing) → kind ≡ kind_of timing
        → bare result ≡ submit_reply timing submitted }
{
    match submitted {
        Submitted::Accepted { task, due } => Answer::Submit {
            task: task.number as u32,
            kind,
            due,
        },
        Submitted::Rejected { number } => Answer::Refuse {
            task: number as u32,
            refusal: Refusal::Rejected,
        },
    }
}

/// Why a line is not taken whose call is not made. A line that fits, and is meant as it stands, lacks room or memory alone.
pub(crate) fn stop_of(error: CallError) -> PieceEnd
    ensures { result ≡ steps.stop_of error }
{
    match error {
        CallError::NoTask | CallError::Illegal | CallError::TooLong => PieceEnd::Refused,
        CallError::TooFar | CallError::Full => PieceEnd::Full,
        CallError::Memory => PieceEnd::Memory,
    }
}

/// The answer to an orderly shutdown, which is the first call to shut down or not.
pub(crate) fn shutdown_answer(is_first: bool) -> Answer
    ensures { result ≡ shutting.shutdown_answer is_first }
{
    if is_first {
        return Answer::Shutdown;
    }
    Answer::ShutdownAgain
}

/// The answer to an ask. More tasks than a line can spell are more than there is memory for.
pub(crate) fn ask_answer(asked: Asked) -> Result<Answer, PieceEnd>
    ensures answer { IfOk result
        (λ answer. answer ≡ answers.Ask asked.queue asked.running asked.shutdown asked.terminated) }
    ensures memory { IfErr result (λ end. end ≡ e.Memory) }
{
    let Ok(queue) = u32::try_from(asked.queue) else {
        return Err(PieceEnd::Memory);
    };
    let Ok(running) = u32::try_from(asked.running) else {
        return Err(PieceEnd::Memory);
    };
    Ok(Answer::Ask {
        queue,
        running,
        shutdown: asked.shutdown,
        terminated: asked.terminated,
    })
}

/// The answer to a start that begins this run, of a task whose number is below 2^32, or none.
pub(crate) fn start_answer(worker: u8, begun: Option<Begun>) -> Answer
    requires { IfSome begun (λ b. b.task.number < 2 ^ 32) }
    ensures { bare result ≡ start_reply worker begun }
{
    let Some(begun) = begun else {
        return Answer::Idle { worker };
    };
    Answer::Start {
        worker,
        task: begun.task.number as u32,
        run: begun.run,
        due: begun.due,
    }
}

/// The answer to a finish that ends this run, of a task whose number is below 2^32.
pub(crate) fn finish_answer(worker: u8, ended: Ended) -> Answer
    requires { ended.task.number < 2 ^ 32 }
    ensures { bare result ≡ finish_reply worker ended }
{
    Answer::Finish {
        worker,
        task: ended.task.number as u32,
        run: ended.run,
        outcome: ended.outcome,
    }
}
