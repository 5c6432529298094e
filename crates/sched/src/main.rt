//! Runs a plan of scheduled tasks, over lines of events or by a pool of threads.
//!
//! It prints the plan's code and its tasks too, checks and draws traces of it, migrates it to the next version of plans, and says why
//! a plan, a line of events or a trace is refused. With no plan, it answers calls that come beside the events.
//!
//! # Usage
//!
//! ```text
//! sched run PLAN --workers N [--limit N]
//! sched pool PLAN --workers N [--limit N]
//! sched code PLAN
//! sched tasks PLAN
//! sched check PLAN TRACE --workers N
//! sched migrate PLAN
//! sched draw PLAN TRACE --workers N [--from T] [--to T] [--marks M]
//! sched live --workers N [--plan FILE]
//! sched lint [PLAN] [--events FILE | --trace FILE --workers N | --calls FILE] [--strict]
//! ```
//!
//! PLAN is the file of the plan, and TRACE that of a trace. There are 1 to 64 workers, and a run takes at most 1 to
//! 4,294,967,295 events, 1,000,000 where the limit is left out. Events come on standard input, and the trace goes to
//! standard output. The FILE of `live` is written: it gets the plan of the calls. A file that is read may be named `-`, which is
//! standard input: one of a command's at most, and none of `run` and `pool`, whose events come there.
//!
//! `sched --version` tells the version and the toolchain. `sched run --help` has the forms of plans, events and traces, `sched code
//! --help` that of a listing, `sched tasks --help` that of the tasks, `sched check --help` what a check finds, `sched migrate --help`
//! which plans are migrated, `sched draw --help` what a picture shows, `sched live --help` the forms of calls, and `sched lint --help`
//! what is told of a plan that is refused.
//!
//! # Behaviour
//!
//! The words of the command line become one value, [`Asked`](command_line::Asked), before anything is opened. Then at most 1,048,577
//! bytes of the plan file are read, and [`run`](sched_engine::run) does the rest: it answers all that it read before it
//! reads more. `code` writes the listing of the plan's code instead ([`write_listing`](sched_engine::write_listing)), and `tasks` a
//! line for each task that it submits ([`write_tasks`](plan_list::write_tasks)).
//! `pool` does it by [`run_pool`](pool_engine::run_pool): standard input has clocks alone, all of which are read first, and a run's
//! value is its number. `check` reads the plan, then at most 67,108,865 bytes of the trace file, and writes `conforms`, or `breaks N` with the
//! number of a line from 1 ([`check`](trace_check::check)). `migrate` writes the plan of a text of version 1 as one of version 2
//! ([`migrate`](plan_read::migrate)). `draw` reads what `check` does, and writes the picture of the trace ([`draw`](trace_svg::draw))
//! or, where it is none of the plan, `breaks N`. `live` answers lines of events and of calls on standard input as they come
//! ([`live_engine::run`]), and writes the plan of the calls to FILE once they end
//! ([`plan_text`](call_journal::plan_text)). `lint` reads the plan, and then the events or the trace, and writes `fine`, or tells what is
//! wrong in one line on standard error ([`reason_of`](plan_reasons::reason_of), [`reason_of_events`](line_reasons::reason_of_events),
//! [`reason_of_trace`](trace_reasons::reason_of_trace)). No clock of the machine is read. All but `pool` and `lint` is done by
//! [`answer_alone`](sched_program::answer_alone); all but `pool` waits for no other thread, and returns.
//!
//! # Order and ties
//!
//! Lines stand in the order of the events, and before each clock those of the calls that it reaches; in a live run all of them stand
//! in the order of the lines that they answer. Of tasks that are
//! due the one that was due first starts first, and of those with the same due moment the one that was submitted first.
//!
//! # Errors
//!
//! The first fault ends the program: one of the command line, with status 2, then one of the plan file, of the plan, of
//! the trace file, and of the run, the picture or the writing, each with status 1 and told by one line on standard error. What was
//! answered before is written. A trace that breaks is status 1 too, with nothing on standard error. What `lint` finds wrong is status 1
//! and a line on standard error, which begins with the file's name. Where standard error
//! is closed, the status alone tells the fault. Of a live run the first fault is told, and else that of the plan that it leaves,
//! `TooMany` for more than 65,536 calls and `TooLong` for a text that no plan may have, and else that of FILE, which is written
//! after a fault of the run too, and not touched at a fault of the plan. A file is told as not read where it can't be opened, where a
//! read of it fails, or where 1,000 reads of it in a row are interrupted, and as not written in the same way.
//!
//! # Memory and cost
//!
//! A run takes what [`sched_engine::run`] takes, the text of the plan, and while the plan is read its tree. Its memory does not
//! grow with the number of events, nor with the calls that a repeated block makes, but for the tables of its tasks and for room
//! for a line for each call that one clock reaches. A live run takes what [`live_engine::run`] takes, and where FILE is named the
//! calls, the tree of their plan and its text. A check takes the text of the trace, and what a core takes; a drawing its lines and
//! the text of the picture too. A lint of a trace takes what a check takes, and its lines, and checks a trace that breaks again for
//! each line that could stand, and for each number of workers.
//!
//! # Tests
//!
//! They stand in `program_tests`. `tools/sizes` runs the built program at the greatest sizes.
#![tactic(auto)]

use byte_ends::Writing;
use sched_program::program;
use std::process::ExitCode;

fn main(rt: HostRuntime) -> ExitCode {
    let mut faults = Writing::new(rt.stderr());
    program(&rt, &rt, &mut faults)
}
