//! What C calls.
ghost use Rattle.std.specs.Prelude.{◌≡◌, length, take};
ghost use Rattle.sched_time.specs.declared.timing.Ending.TheVariants as endings;
ghost use Rattle.sched_time.specs.declared.timing.Timing.TheVariants as timings;
ghost use Rattle.timers_c.specs.Calls.{holding, Answers, Makes, Frees, Reserves, TakesSubmission, TakesCancel, TakesPurge, TakesPoll, TakesFinish, TakesPolicy, TakesShutdown, TakesShutdownNow, TakesAsk, ReadsDue, ReadsHead, ReadsTask, Reads, ReadsEnded};
ghost use Rattle.timers_c.specs.Many.{FinishesMany, PollsMany};
ghost use Rattle.timers_c.specs.Texts.{Copies};

use crate::refs::{Gone, Ref};
use crate::runs::{End, Ending, Run};
use crate::slot::Slot;
use crate::state::{Counts, State, TaskState};
use crate::submission::Submission;
use crate::{life, many, reading, running, shutting, submitting, text};
use line_copy::Copied;
use sched_time::Ending as HowItEnded;
use std::alloc::Global;

/// Makes timers in an empty slot, before anything happened, for 1 to 255 workers.
#[unsafe(no_mangle)]
pub extern "C" fn timers_ref_new(alloc: Global, slot: &mut Slot, workers: u32) -> u32
    ensures { Answers result
        (λ status. Makes status workers (holding slot.old.full slot.old.held.value)
        (holding slot.new.full slot.new.held.value)) }
{
    life::new(alloc, slot, workers).number()
}

/// Frees the timers of a slot, which is empty then.
#[unsafe(no_mangle)]
pub extern "C" fn timers_ref_free(alloc: Global, slot: &mut Slot) -> u32
    ensures { Answers result
        (λ status. Frees status (holding slot.old.full slot.old.held.value)
        (holding slot.new.full slot.new.held.value)) }
{
    life::free(alloc, slot).number()
}

/// Makes at least so many slots. It is no call, and has no line.
#[unsafe(no_mangle)]
pub extern "C" fn timers_ref_reserve(alloc: Global, slot: &mut Slot, tasks: u32) -> u32
    ensures { Answers result
        (λ status. Reserves status tasks (holding slot.old.full slot.old.held.value)
        (holding slot.new.full slot.new.held.value)) }
{
    life::reserve(alloc, slot, tasks).number()
}

/// Submits a task for one run, `delay` nanoseconds after the moment of the call.
#[unsafe(no_mangle)]
pub extern "C" fn timers_ref_schedule(
    alloc: Global,
    slot: &mut Slot,
    now: u64,
    delay: u64,
    user_data: u64,
    task: &mut Ref,
) -> u32
    ensures { Answers result
        (λ status. TakesSubmission status now timings.Once delay user_data task.new
        (holding slot.old.full slot.old.held.value) (holding slot.new.full slot.new.held.value)) }
{
    let submission = Submission::Once { delay };
    submitting::submit(alloc, slot, now, submission, user_data, task).number()
}

/// Submits a task for one run at once.
#[unsafe(no_mangle)]
pub extern "C" fn timers_ref_execute(
    alloc: Global,
    slot: &mut Slot,
    now: u64,
    user_data: u64,
    task: &mut Ref,
) -> u32
    ensures { Answers result
        (λ status. TakesSubmission status now timings.Once 0 user_data task.new
        (holding slot.old.full slot.old.held.value) (holding slot.new.full slot.new.held.value)) }
{
    let submission = Submission::Once { delay: 0 };
    submitting::submit(alloc, slot, now, submission, user_data, task).number()
}

/// Submits a task that runs first `first` nanoseconds after the moment of the call, and then at a fixed rate.
#[unsafe(no_mangle)]
pub extern "C" fn timers_ref_rate(
    alloc: Global,
    slot: &mut Slot,
    now: u64,
    first: u64,
    period: u64,
    user_data: u64,
    task: &mut Ref,
) -> u32
    ensures { Answers result
        (λ status. TakesSubmission status now (timings.Rate period) first user_data task.new
        (holding slot.old.full slot.old.held.value) (holding slot.new.full slot.new.held.value)) }
{
    let submission = Submission::Rate { first, period };
    submitting::submit(alloc, slot, now, submission, user_data, task).number()
}

/// Submits a task that runs first `first` nanoseconds after the moment of the call, and then `delay` nanoseconds after the end of
/// each run.
#[unsafe(no_mangle)]
pub extern "C" fn timers_ref_fixed(
    alloc: Global,
    slot: &mut Slot,
    now: u64,
    first: u64,
    delay: u64,
    user_data: u64,
    task: &mut Ref,
) -> u32
    ensures { Answers result
        (λ status. TakesSubmission status now (timings.Fixed delay) first user_data task.new
        (holding slot.old.full slot.old.held.value) (holding slot.new.full slot.new.held.value)) }
{
    let submission = Submission::Fixed { first, delay };
    submitting::submit(alloc, slot, now, submission, user_data, task).number()
}

/// Cancels the task of a number, whatever the slot of the ref.
#[unsafe(no_mangle)]
pub extern "C" fn timers_ref_cancel(
    alloc: Global,
    slot: &mut Slot,
    task: &Ref,
    effect: &mut u32,
) -> u32
    ensures { Answers result
        (λ status. TakesCancel status task.now effect.new
        (holding slot.old.full slot.old.held.value) (holding slot.new.full slot.new.held.value)) }
{
    submitting::cancel(alloc, slot, *task, effect).number()
}

/// Takes the tasks out of the queue that were cancelled while they waited, and are kept.
#[unsafe(no_mangle)]
pub extern "C" fn timers_ref_purge(alloc: Global, slot: &mut Slot) -> u32
    ensures { Answers result
        (λ status. TakesPurge status (holding slot.old.full slot.old.held.value)
        (holding slot.new.full slot.new.held.value)) }
{
    submitting::purge(alloc, slot).number()
}

/// A worker that has no run under way begins one of the first task that is due.
#[unsafe(no_mangle)]
pub extern "C" fn timers_ref_poll(
    alloc: Global,
    slot: &mut Slot,
    now: u64,
    worker: u32,
    run: &mut Run,
) -> u32
    ensures { Answers result
        (λ status. TakesPoll status now worker run.new (holding slot.old.full slot.old.held.value)
        (holding slot.new.full slot.new.held.value)) }
{
    running::poll(alloc, slot, now, worker, run).number()
}

/// Polls for the worker of each run in turn, at one moment, until one begins none, and writes to `begun` how many began one.
#[unsafe(no_mangle)]
pub extern "C" fn timers_ref_poll_many(
    alloc: Global,
    slot: &mut Slot,
    now: u64,
    runs: &mut [Run],
    begun: &mut usize,
) -> u32
    ensures { Answers result
        (λ status. PollsMany status now runs.old runs.new begun.new
        (holding slot.old.full slot.old.held.value) (holding slot.new.full slot.new.held.value)) }
{
    many::poll_many(alloc, slot, now, runs, begun).number()
}

/// The run of a worker has ended with a value.
#[unsafe(no_mangle)]
pub extern "C" fn timers_ref_finish(
    alloc: Global,
    slot: &mut Slot,
    now: u64,
    worker: u32,
    value: u64,
    end: &mut End,
) -> u32
    ensures { Answers result
        (λ status. TakesFinish status now worker (endings.Value value) end.new
        (holding slot.old.full slot.old.held.value) (holding slot.new.full slot.new.held.value)) }
{
    let ending = HowItEnded::Value(value);
    running::finish(alloc, slot, now, worker, ending, end).number()
}

/// The run of a worker has failed, with a code.
#[unsafe(no_mangle)]
pub extern "C" fn timers_ref_fail(
    alloc: Global,
    slot: &mut Slot,
    now: u64,
    worker: u32,
    code: u32,
    end: &mut End,
) -> u32
    ensures { Answers result
        (λ status. TakesFinish status now worker (endings.Fault code) end.new
        (holding slot.old.full slot.old.held.value) (holding slot.new.full slot.new.held.value)) }
{
    let ending = HowItEnded::Fault(code);
    running::finish(alloc, slot, now, worker, ending, end).number()
}

/// Ends the runs of workers in turn, at one moment, as far as there is room for their ends, until one is refused, and writes to
/// `ended` how many were ended.
#[unsafe(no_mangle)]
pub extern "C" fn timers_ref_finish_many(
    alloc: Global,
    slot: &mut Slot,
    now: u64,
    endings: &[Ending],
    ends: &mut [End],
    ended: &mut usize,
) -> u32
    ensures { Answers result
        (λ status. FinishesMany status now (take (length ends.old) endings.now) ends.old ends.new
        ended.new (holding slot.old.full slot.old.held.value)
        (holding slot.new.full slot.new.held.value)) }
{
    many::finish_many(alloc, slot, now, endings, ends, ended).number()
}

/// The moment at which the first task that waits is due.
#[unsafe(no_mangle)]
pub extern "C" fn timers_ref_next_due(alloc: Global, slot: &mut Slot, due: &mut u64) -> u32
    ensures { Answers result
        (λ status. ReadsDue status due.new (holding slot.old.full slot.old.held.value)
        (holding slot.new.full slot.new.held.value)) }
{
    reading::read_due(alloc, slot, due).number()
}

/// The due moment of the head of the queue, which waits or is kept.
#[unsafe(no_mangle)]
pub extern "C" fn timers_ref_head_due(alloc: Global, slot: &mut Slot, due: &mut u64) -> u32
    ensures { Answers result
        (λ status. ReadsHead status due.new (holding slot.old.full slot.old.held.value)
        (holding slot.new.full slot.new.held.value)) }
{
    reading::read_head(alloc, slot, due).number()
}

/// How far the task of a number is, whatever the slot of the ref.
#[unsafe(no_mangle)]
pub extern "C" fn timers_ref_task_of(
    alloc: Global,
    slot: &mut Slot,
    task: &Ref,
    state: &mut TaskState,
) -> u32
    ensures { Answers result
        (λ status. ReadsTask status task.now state.new (holding slot.old.full slot.old.held.value)
        (holding slot.new.full slot.new.held.value)) }
{
    reading::read_task(alloc, slot, *task, state).number()
}

/// How far the timers are. It is no call, and has no line.
#[unsafe(no_mangle)]
pub extern "C" fn timers_ref_state_of(alloc: Global, slot: &mut Slot, state: &mut State) -> u32
    ensures { Answers result
        (λ status. Reads status state.new (holding slot.old.full slot.old.held.value)
        (holding slot.new.full slot.new.held.value)) }
{
    reading::read(alloc, slot, state).number()
}

/// Asks how many tasks there are, by a call that has a line.
#[unsafe(no_mangle)]
pub extern "C" fn timers_ref_ask(
    alloc: Global,
    slot: &mut Slot,
    now: u64,
    counts: &mut Counts,
) -> u32
    ensures { Answers result
        (λ status. TakesAsk status now counts.new (holding slot.old.full slot.old.held.value)
        (holding slot.new.full slot.new.held.value)) }
{
    shutting::ask(alloc, slot, now, counts).number()
}

/// Sets the policy of a number.
#[unsafe(no_mangle)]
pub extern "C" fn timers_ref_set_policy(
    alloc: Global,
    slot: &mut Slot,
    now: u64,
    policy: u32,
    value: bool,
) -> u32
    ensures { Answers result
        (λ status. TakesPolicy status now policy value (holding slot.old.full slot.old.held.value)
        (holding slot.new.full slot.new.held.value)) }
{
    shutting::set_policy(alloc, slot, now, policy, value).number()
}

/// Shuts the timers down in order, and writes to `first` 1 where they were not shut before, and else 0.
#[unsafe(no_mangle)]
pub extern "C" fn timers_ref_shutdown(
    alloc: Global,
    slot: &mut Slot,
    now: u64,
    first: &mut u32,
) -> u32
    ensures { Answers result
        (λ status. TakesShutdown status now first.new (holding slot.old.full slot.old.held.value)
        (holding slot.new.full slot.new.held.value)) }
{
    shutting::shut_down(alloc, slot, now, first).number()
}

/// Shuts the timers down at once.
#[unsafe(no_mangle)]
pub extern "C" fn timers_ref_shutdown_now(alloc: Global, slot: &mut Slot, now: u64) -> u32
    ensures { Answers result
        (λ status. TakesShutdownNow status now (holding slot.old.full slot.old.held.value)
        (holding slot.new.full slot.new.held.value)) }
{
    shutting::shut_down_now(alloc, slot, now).number()
}

/// The task at a place, from 0 on, of those that the last call ended.
#[unsafe(no_mangle)]
pub extern "C" fn timers_ref_ended(
    alloc: Global,
    slot: &mut Slot,
    place: usize,
    gone: &mut Gone,
) -> u32
    ensures { Answers result
        (λ status. ReadsEnded status place gone.new (holding slot.old.full slot.old.held.value)
        (holding slot.new.full slot.new.held.value)) }
{
    reading::read_ended(alloc, slot, place, gone).number()
}

/// Copies the text of the lines of the last call, from line `from` on, counted from 0, into the caller's buffer: whole lines, as long
/// as 128 bytes of room are left.
#[unsafe(no_mangle)]
pub extern "C" fn timers_ref_text(
    alloc: Global,
    slot: &mut Slot,
    from: usize,
    out: &mut [u8],
    copied: &mut Copied,
) -> u32
    ensures { Answers result
        (λ status. Copies status from out.old out.new copied.new
        (holding slot.old.full slot.old.held.value) (holding slot.new.full slot.new.held.value)) }
{
    text::text(alloc, slot, from, out, copied).number()
}
