//! Lines of calls that were answered, and of the tasks that they ended.
mod usage;

use call_lines::{Last, Said, all_spelled, line_at, line_count};
use executor_model::{Answer, CancelEffect, Kind, Line, Message, Outcome, Refusal};
use live_core::{Asked, TaskRef};
use sched_time::Which;
use std::process::Abort;
use timers::{Finished, Run};

/// What calls were answered, by the answer that is told.
const ANSWERS: &[(Said, Answer)] = &[
    (
        Said::Submit {
            kind: Kind::Rate,
            task: 7,
            due: 20,
        },
        Answer::Submit {
            task: 7,
            kind: Kind::Rate,
            due: 20,
        },
    ),
    (
        Said::Reject { task: 7 },
        Answer::Refuse {
            task: 7,
            refusal: Refusal::Rejected,
        },
    ),
    (
        Said::Outside {
            effect: CancelEffect::Yes,
            task: 7,
        },
        Answer::Outside {
            task: 7,
            effect: CancelEffect::Yes,
        },
    ),
    (Said::Purge, Answer::Purge),
    (
        Said::Policy {
            which: Which::Remove,
            value: true,
        },
        Answer::Policy {
            which: Which::Remove,
            value: true,
        },
    ),
    (Said::Shutdown { first: true }, Answer::Shutdown),
    (Said::Shutdown { first: false }, Answer::ShutdownAgain),
    (Said::ShutdownNow, Answer::ShutdownNow),
    (
        Said::Ask(Asked {
            queue: 3,
            running: 2,
            shutdown: true,
            terminated: false,
        }),
        Answer::Ask {
            queue: 3,
            running: 2,
            shutdown: true,
            terminated: false,
        },
    ),
];

/// The task of this number.
fn task(number: u64) -> TaskRef {
    TaskRef { number, slot: 0 }
}

/// The line of a clock.
const CLOCK: Message = Message::Answer(Answer::Clock);

/// Checks that a call was answered at the moment `now` so that it has these lines, each with its moment, and no more.
fn has_lines(rt: &impl Abort, last: Last, now: u64, ended: &[TaskRef], lines: &[(u64, Message)]) {
    assert!(rt; all_spelled(last, now, ended), "{last:?}");
    assert!(rt; line_count(last, now, ended) == lines.len(), "{last:?}");
    for place in 0..lines.len() {
        let (moment, message) = lines[place];
        let line = Line::new(moment, message);
        assert!(rt; line_at(last, now, ended, place) == Some(line), "{place}");
    }
    assert!(rt;
        line_at(last, now, ended, lines.len()).is_none(),
        "{last:?}"
    );
}

/// Checks that a call that was answered so has the line of this answer alone.
fn tells(rt: &impl Abort, said: Said, answer: Answer) {
    let lines = [(9, Message::Answer(answer))];
    has_lines(rt, Last::Call { said }, 9, &[], &lines);
}

#[test]
fn calls_are_told(rt: HostRuntime) {
    for (said, answer) in ANSWERS {
        tells(&rt, *said, *answer);
    }
}

#[test]
fn a_run_is_told(rt: HostRuntime) {
    let (worker, run, due, user_data) = (1, 4, 20, 70);
    let begun = Run {
        task: task(7),
        run,
        due,
        user_data,
    };
    let told = Answer::Start {
        worker,
        task: 7,
        run,
        due,
    };
    tells(&rt, Said::begun(worker, Some(begun)), told);
}

#[test]
fn no_run_is_told(rt: HostRuntime) {
    tells(&rt, Said::begun(1, None), Answer::Idle { worker: 1 });
}

#[test]
fn the_end_of_a_run_is_told(rt: HostRuntime) {
    let (worker, run, user_data) = (1, 4, 70);
    let outcome = Outcome::Done(6);
    let ended = Finished {
        task: task(7),
        run,
        outcome,
        user_data,
    };
    let told = Answer::Finish {
        worker,
        task: 7,
        run,
        outcome,
    };
    tells(&rt, Said::finished(worker, ended), told);
}

#[test]
fn tasks_that_were_ended_follow(rt: HostRuntime) {
    let said = Said::ShutdownNow;
    let last = Last::Event { moment: 8, said };
    let lines = [
        (8, CLOCK),
        (9, Message::Answer(Answer::ShutdownNow)),
        (9, Message::End(3)),
        (9, Message::End(5)),
    ];
    has_lines(&rt, last, 9, &[task(3), task(5)], &lines);
}

#[test]
fn a_line_has_room_for_32_bits(rt: HostRuntime) {
    let most = (1 << 32) - 1;
    let call = Last::Call {
        said: Said::ShutdownNow,
    };
    assert!(rt; all_spelled(call, 9, &[task(most)]));
    assert!(rt; !all_spelled(call, 9, &[task(2), task(most + 1)]));
    let said = Said::Reject { task: most + 1 };
    assert!(rt; !all_spelled(Last::Call { said }, 9, &[]));
}

#[test]
fn before_any_call_there_is_no_line(rt: HostRuntime) {
    has_lines(&rt, Last::Nothing, 0, &[], &[]);
    has_lines(&rt, Last::Clock { moment: 4 }, 4, &[], &[(4, CLOCK)]);
}
