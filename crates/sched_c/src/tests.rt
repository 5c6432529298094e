//! Tests of the calls, as a program in C makes them.

use crate::exports::{
    sched_ref_cancel, sched_ref_clock, sched_ref_fail, sched_ref_finish, sched_ref_free,
    sched_ref_new, sched_ref_start, sched_ref_started, sched_ref_state_of, sched_ref_task_of,
    sched_ref_text,
};
use crate::fault::Fault;
use crate::slot::Slot;
use crate::started::Started;
use crate::state::{State, TaskState};
use crate::status::Status;
use line_copy::Copied;
use std::alloc::Global;
use std::process::Abort;

/// The plan of one delayed task, and of one at a fixed rate.
const PLAN: &str = "version = 1
[[block]]
[[block.call]]
op = \"schedule\"
name = \"once\"
delay = 5
[[block.call]]
op = \"rate\"
name = \"beat\"
first = 7
period = 10
";

/// A slot with an executor of the plan.
fn executor(rt: &impl Abort, alloc: Global, limit: u64) -> Slot {
    let mut slot = Slot::empty(alloc);
    let mut fault = Fault::none();
    let status = sched_ref_new(alloc, &mut slot, PLAN.as_bytes(), 2, limit, &mut fault);
    assert_eq!(rt; status, Status::Done.number());
    slot
}

/// An event, as its call has it.
#[derive(Clone, Copy)]
enum Told {
    Clock(u64),
    Start(u32),
    Finish(u32, u64),
    Fail(u32, u32),
    Cancel(u32),
}

/// Tells the event, and answers the number of the status.
fn tell(alloc: Global, slot: &mut Slot, event: Told) -> u32 {
    match event {
        Told::Clock(moment) => sched_ref_clock(alloc, slot, moment),
        Told::Start(worker) => sched_ref_start(alloc, slot, worker),
        Told::Finish(worker, value) => sched_ref_finish(alloc, slot, worker, value),
        Told::Fail(worker, code) => sched_ref_fail(alloc, slot, worker, code),
        Told::Cancel(task) => sched_ref_cancel(alloc, slot, task),
    }
}

/// Whether the text of the lines from a number on that answer the last event is this one, in a buffer of so many bytes at most.
fn says(alloc: Global, slot: &mut Slot, first: usize, out: &mut [u8], text: &str) -> bool {
    let mut copied = Copied::none();
    let status = sched_ref_text(alloc, slot, first, out, &mut copied);
    match out.get(..copied.bytes) {
        Some(front) => status == Status::Done.number() && front == text.as_bytes(),
        None => false,
    }
}

/// Tells each event to an executor with room for ten, and checks its status and the text of its lines.
fn play(rt: &impl Abort, alloc: Global, rows: &[(Told, u32, &str)]) {
    let mut slot = executor(rt, alloc, 10);
    let mut out = [0u8; 512];
    for (event, status, text) in rows {
        assert!(rt; tell(alloc, &mut slot, *event) == *status, "{text}");
        assert!(rt; says(alloc, &mut slot, 0, &mut out, text), "{text}");
    }
    assert!(rt; sched_ref_free(alloc, &mut slot) == 0);
}

/// A run that is done, one that fails, and a cancel that comes too late.
const RUNS: &[(Told, u32, &str)] = &[
    (
        Told::Clock(7),
        0,
        "0 submit 0 schedule due 5\n0 submit 1 rate due 7\n7 clock\n",
    ),
    (Told::Start(1), 0, "7 start 1 task 0 run 0 due 5\n"),
    (Told::Finish(1, 9), 0, "7 finish 1 task 0 run 0 done 9\n"),
    (Told::Start(0), 0, "7 start 0 task 1 run 0 due 7\n"),
    (Told::Fail(0, 3), 0, "7 finish 0 task 1 run 0 failed 3\n"),
    (Told::Cancel(0), 0, "7 outside 0 no\n"),
];

#[test]
fn a_run_is_told(rt: HostRuntime) {
    play(&rt, rt.alloc(), RUNS);
}

/// The status of a worker that no event names.
const NO_WORKER: u32 = 10;

/// Workers that no event names: they are refused, and the lines stay those of the last event.
const WORKERS: &[(Told, u32, &str)] = &[
    (Told::Start(255), 0, "0 error no worker\n"),
    (Told::Start(256), NO_WORKER, "0 error no worker\n"),
    (Told::Finish(257, 1), NO_WORKER, "0 error no worker\n"),
    (
        Told::Fail(4_294_967_295, 1),
        NO_WORKER,
        "0 error no worker\n",
    ),
];

#[test]
fn a_worker_that_no_event_names_is_refused(rt: HostRuntime) {
    assert!(rt; Status::NoWorker.number() == NO_WORKER);
    play(&rt, rt.alloc(), WORKERS);
}

#[test]
fn a_small_buffer_takes_a_line_at_a_time(rt: HostRuntime) {
    let alloc = rt.alloc();
    let mut slot = executor(&rt, alloc, 10);
    assert!(rt; sched_ref_clock(alloc, &mut slot, 7) == 0);
    let mut out = [0u8; 128];
    assert!(rt; says(alloc, &mut slot, 1, &mut out, "0 submit 1 rate due 7\n"));
    let mut copied = Copied::none();
    assert!(rt; sched_ref_text(alloc, &mut slot, 3, &mut out, &mut copied) == 0);
    assert!(rt; copied == Copied::none());
    assert!(rt; sched_ref_free(alloc, &mut slot) == 0);
}

#[test]
fn the_state_is_read(rt: HostRuntime) {
    let alloc = rt.alloc();
    let mut slot = executor(&rt, alloc, 10);
    assert_eq!(rt; sched_ref_clock(alloc, &mut slot, 6), 0);
    let mut state = State::none();
    assert_eq!(rt; sched_ref_state_of(alloc, &mut slot, &mut state), 0);
    let there = State {
        now: 6,
        lines: 3,
        tasks: 2,
        taken: 1,
        ripe: 1,
    };
    assert_eq!(rt; state, there);
    let mut task = TaskState::none();
    assert_eq!(rt; sched_ref_start(alloc, &mut slot, 0), 0);
    assert_eq!(rt; sched_ref_task_of(alloc, &mut slot, 0, &mut task), 0);
    let running = TaskState {
        phase: 2,
        run: 0,
        cancelled: 0,
    };
    assert_eq!(rt; task, running);
    assert_eq!(rt;
        sched_ref_task_of(alloc, &mut slot, 2, &mut task),
        Status::UnknownTask.number()
    );
    assert_eq!(rt; sched_ref_free(alloc, &mut slot), 0);
}

#[test]
fn an_empty_slot_is_told(rt: HostRuntime) {
    let alloc = rt.alloc();
    let mut slot = Slot::empty(alloc);
    let empty = Status::NoExecutor.number();
    assert_eq!(rt; sched_ref_clock(alloc, &mut slot, 1), empty);
    assert_eq!(rt;
        sched_ref_state_of(alloc, &mut slot, &mut State::none()),
        empty
    );
    assert_eq!(rt;
        sched_ref_task_of(alloc, &mut slot, 0, &mut TaskState::none()),
        empty
    );
    assert_eq!(rt;
        sched_ref_text(alloc, &mut slot, 0, &mut [], &mut Copied::none()),
        empty
    );
    assert_eq!(rt; sched_ref_free(alloc, &mut slot), empty);
}

/// Numbers of workers and limits that are refused.
const REFUSED: &[(u32, u64, Status)] = &[
    (65, 1, Status::Workers),
    (257, 1, Status::Workers),
    (64, 0, Status::Limit),
    (64, (1 << 32) + 1, Status::Limit),
];

#[test]
fn what_is_refused_is_told(rt: HostRuntime) {
    let alloc = rt.alloc();
    let mut slot = Slot::empty(alloc);
    let mut fault = Fault::none();
    let text = b"version = 1\n[[block]]\ncall = [{ op = \"none\" }]\n";
    let status = sched_ref_new(alloc, &mut slot, text, 1, 1, &mut fault);
    assert_eq!(rt; status, Status::NoPlan.number());
    let wrong_type = Fault {
        kind: 6,
        block: 1,
        call: 1,
    };
    assert_eq!(rt; fault, wrong_type);
    for (workers, limit, status) in REFUSED {
        let told = sched_ref_new(
            alloc,
            &mut slot,
            PLAN.as_bytes(),
            *workers,
            *limit,
            &mut fault,
        );
        assert!(rt; told == status.number(), "{workers} workers, limit {limit}");
    }
    assert!(rt; sched_ref_free(alloc, &mut slot) == Status::NoExecutor.number());
}

#[test]
fn a_slot_that_is_taken_and_a_full_executor_are_told(rt: HostRuntime) {
    let alloc = rt.alloc();
    let mut fault = Fault::none();
    let mut slot = executor(&rt, alloc, 1);
    let status = sched_ref_new(alloc, &mut slot, PLAN.as_bytes(), 1, 1, &mut fault);
    assert!(rt; status == Status::HasExecutor.number());
    assert_eq!(rt; sched_ref_clock(alloc, &mut slot, 1), 0);
    assert_eq!(rt; sched_ref_clock(alloc, &mut slot, 2), Status::Full.number());
    assert_eq!(rt; sched_ref_free(alloc, &mut slot), 0);
}

/// A plan whose fault stands in the third call of the second block: its name is empty.
const THIRD_CALL_OF_TWO: &str = "version = 1
[[block]]
call = [{ op = \"execute\", name = \"a\" }]
[[block]]
call = [{ op = \"execute\", name = \"b\" }, { op = \"ask\" }, { op = \"execute\", name = \"\" }]
";

#[test]
fn a_fault_names_its_block_and_its_call(rt: HostRuntime) {
    let alloc = rt.alloc();
    let mut slot = Slot::empty(alloc);
    let mut fault = Fault::none();
    let text = THIRD_CALL_OF_TWO.as_bytes();
    let status = sched_ref_new(alloc, &mut slot, text, 1, 1, &mut fault);
    assert_eq!(rt; status, Status::NoPlan.number());
    assert_eq!(rt; (fault.kind, fault.block, fault.call), (10, 2, 3));
}

#[test]
fn a_start_is_told(rt: HostRuntime) {
    let alloc = rt.alloc();
    let mut slot = executor(&rt, alloc, 10);
    let mut started = Started::none();
    assert_eq!(rt; sched_ref_clock(alloc, &mut slot, 7), 0);
    assert_eq!(rt;
        sched_ref_started(alloc, &mut slot, &mut started),
        Status::NotStarted.number()
    );
    assert_eq!(rt; sched_ref_start(alloc, &mut slot, 1), 0);
    assert_eq!(rt; sched_ref_started(alloc, &mut slot, &mut started), 0);
    let run = Started {
        run: 0,
        due: 5,
        task: 0,
        worker: 1,
    };
    assert_eq!(rt; started, run);
    assert_eq!(rt; sched_ref_free(alloc, &mut slot), 0);
    assert_eq!(rt;
        sched_ref_started(alloc, &mut slot, &mut started),
        Status::NoExecutor.number()
    );
    assert_eq!(rt; started, Started::none());
}
