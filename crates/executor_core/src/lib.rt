//! An executor on one thread: it is told what happens, and answers each event in lines.
//!
//! # Usage
//!
//! A [`Core`] is made of a [`Code`](queue_code::Code), which makes the calls of a plan, each at its moment.
//! [`event`](Core::event) hands it what happens outside: the clock shows a moment, a worker asks for work, a worker's run has ended, a task is to be cancelled.
//! Each answer is a [`Line`] at the end of a list. The core reads no clock, runs no task and starts no thread. What happens, what it
//! is answered and the equations that fix each answer are those of `executor_model`, whose types this crate passes on.
//!
//! ```rust
//! // At moment 0 task 0 is submitted, for one run 5 nanoseconds later.
//! let instrs = vec![in alloc; Instr::Submit(0, Timing::Once, 5), Instr::Halt]?;
//! let mut core = Core::new(alloc, Code::check(alloc, instrs)?, 1, 100)?;
//! let mut lines = Vec::new(alloc);
//! core.event(Event::Clock(5), &mut lines)?;
//! core.event(Event::Start(0), &mut lines)?;
//! core.event(Event::Finish(0, Ending::Value(7)), &mut lines)?;
//!
//! assert_eq!(rt; lines.len(), 4); // of the submission, the clock, the start and the finish
//! let finish = Answer::Finish {
//!     worker: 0,
//!     task: 0,
//!     run: 0,
//!     outcome: Outcome::Done(7),
//! };
//! assert_eq!(rt; lines.pop(), Some(Line::new(5, Message::Answer(finish))));
//! ```
//!
//! # Single happenings
//!
//! A layer that decides itself what happens next, as a pool of workers or a checker of traces, takes an event apart.
//! [`count`](Core::count) takes it, unless the core is [`full`](Core::full). As long as the event
//! [reaches a call](Core::reaches_call) of the plan that call comes next, and then the event itself, as the lines there show;
//! cancels that a layer notes may stand between. [`happen`](Core::happen) makes any happening that [may come](Core::may_come),
//! and takes no memory: the list has [`room`](Core::room) lines free.
//!
//! [`need`](Core::need) names what the step that would follow moves of the [`words`](Core::words), so that a layer can move words
//! of its own first; [`sweeps`](Core::sweeps) tells whom a sweep would end. Each kind of happening has a step of its own as well
//! ([`make_call`](Core::make_call), [`move_clock`](Core::move_clock), [`start`](Core::start), [`finish`](Core::finish),
//! [`cancel`](Core::cancel), [`purge`](Core::purge)), and a need of its own but for a clock and a purge, which move no word.
//!
//! A layer that needs both, what a happening moves and its step, hands what [`foresee`](Core::foresee) tells to
//! [`happen_foreseen`](Core::happen_foreseen): the outcome of a finish is then worked out once. Of the others it tells the need
//! alone, which is a look at the head of the queue, or at one task.
//!
//! # Behaviour
//!
//! A call of the plan is made at its own moment, also where the clock jumps past it: before an accepted clock all
//! calls with a moment of at most its own are made, in their order, and then the clock is moved. A worker that
//! starts gets the first task that is due, or is idle. A task with one run is done with its value; one at a fixed
//! rate, or with a fixed delay, waits for its next run. A run that fails is the last one of its task. A cancelled
//! task that waits starts no more, and stays in the queue until a sweep, a purge, or a start at or after its due moment that is not
//! refused and gets no task before it, unless the remove policy is true; one whose run is under way runs on to the end, and its outcome is dropped.
//! [`words`](Core::words) shows how far each task has come.
//!
//! After a shutdown no task is accepted. The first shutdown ends, a line for each, the tasks that its policies say, as
//! does the continue or the execute policy that is set to false later: periodic tasks unless they are to continue, and those with one run that are
//! not due yet unless they are to be executed. A periodic task that runs at the shutdown ends with its run, unless
//! the policy at the end of the run says that it continues. An ended task is cancelled.
//!
//! A shutdown at once ends each task that waits, a line for each, whatever the policies say and whether the executor was shut
//! before or not, and the kept tasks leave the queue. From then on nothing starts. Runs that are under way go on to their ends, and
//! that of a periodic task is its last one, also where the policy then says that it continues.
//!
//! # Order and ties
//!
//! Of the tasks that are due the one with the earliest due moment starts first, and of those with the same one the
//! one that was submitted first, also where it has run before. No run starts before its due moment, and no two
//! runs of one task overlap.
//!
//! # Errors
//!
//! An event that makes no sense, as a clock that goes back, is no error of the call: it is answered by
//! [`Answer::Error`], and changes nothing but the number of events taken. [`Core::new`] and `event` fail with a
//! [`CoreError`]. After [`CoreError::Full`] and [`CoreError::Memory`] from `event` the core and the lines are as
//! they were.
//!
//! # Memory and cost
//!
//! A [`Line`] takes 32 bytes, and a happening that is kept, a [`KeptHappening`], 16: the shapes of [`Message`] (40 bytes) and
//! [`Happening`] (24) nest, so a list holds neither.
//!
//! `Core::new` takes all memory that the core needs for itself: for each task some 80 bytes, and 8 for each worker. It
//! keeps the code, and fetches the calls from it one after the other: however often a loop of the code is made, its
//! calls take no memory. `event` takes memory for lines alone, and none where the list has room for one line, one for
//! each call that is left and one for each task that is not cancelled. A clock costs what the calls that it reaches
//! cost; a submission, a start, a finish and a cancel cost what the queue of waiting tasks does
//! (see [`DelayQueue`](delay_queue::DelayQueue)), and a start and a purge also what the kept tasks that leave cost. Setting a policy
//! that does not sweep costs the same whatever it holds, and asking how far the executor is a look at each worker. A sweep
//! goes over all tasks where there may be one that it ends: at a shutdown at once where a task waits, where periodic tasks do
//! not go on and one of them waits, and the first time that delayed tasks are not executed. Each other sweep costs nothing
//! but the kept tasks that leave.
//!
//! # Tests
//!
//! They stand in `core_tests`, under `src/plainly/cores`, beside those of the plain program.
#![tactic(auto)]

mod error;
mod foreseen;
mod laws;
mod machine;
pub mod plan_table;
mod room;

pub use error::CoreError;
pub use executor_model::{
    Answer, CancelEffect, Event, EventError, Happening, KeptHappening, Kind, Line, MOST_WORKERS,
    Message, Need, Outcome, Refusal, Said, Stage, Task, line_equality_tells,
    most_workers_is_the_limit, said_equality_tells,
};
pub use foreseen::{Foreseen, RunEnd};
pub use laws::{core_error_equality_tells, live_and_plan_give_the_same_lines};
pub use machine::Core;
pub use room::make_room;
