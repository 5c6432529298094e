//! Which runs and lines a window shows.
use super::*;
use executor_model::{Answer, Message, Outcome};
use trace_draw::{Bar, Finish, place, whole_window};

/// The bars of the whole trace.
const BARS: &[Bar] = &[
    Bar {
        worker: 0,
        task: 0,
        run: 0,
        due: 10,
        first: 10,
        finish: Some(Finish {
            moment: 15,
            outcome: Outcome::Again(20),
        }),
    },
    Bar {
        worker: 1,
        task: 1,
        run: 0,
        due: 10,
        first: 12,
        finish: None,
    },
    Bar {
        worker: 0,
        task: 0,
        run: 1,
        due: 20,
        first: 20,
        finish: Some(Finish {
            moment: 30,
            outcome: Outcome::Failed(3),
        }),
    },
];

#[test]
fn the_whole_trace_is_shown(rt: HostRuntime) -> Result<(), Fail> {
    let shown = drawn(rt.alloc(), TRACE, 0, 30, 2000)?;
    assert!(rt; shown.window().from() == 0 && shown.window().to() == 30 && shown.workers() == 2);
    assert!(rt; shown.bars() == BARS);
    assert!(rt; shown.marks().len() == 7 && shown.ticks().len() == 7);
    Ok(())
}

/// The trace of the page.
const OF_THE_PAGE: &str = "\
    0 submit 0 schedule due 5\n5 clock\n5 start 0 task 0 run 0 due 5\n9 clock\n9 finish 0 task 0 run 0 done 7\n";

#[test]
fn the_page_shows_this(rt: HostRuntime) -> Result<(), Fail> {
    let lines = lines_of(rt.alloc(), OF_THE_PAGE)?;
    let whole = whole_window(&lines);
    assert!(rt; whole.from() == 0 && whole.to() == 9);
    let shown = picture(rt.alloc(), &lines, 1, whole, 2_000)?;
    assert!(rt; shown.bars().len() == 1 && shown.marks().len() == 3 && shown.ticks().len() == 5);
    assert!(rt; place(whole, 900, 5) == 500);
    Ok(())
}

#[test]
fn a_window_may_cut_a_run_at_both_sides(rt: HostRuntime) -> Result<(), Fail> {
    let shown = drawn(rt.alloc(), TRACE, 21, 23, 2000)?;
    assert!(rt; shown.bars() == &BARS[1..] && shown.marks().is_empty());
    Ok(())
}

/// Windows, and how many bars and marks they show: both ends of a window are shown.
const COUNTS: &[(u64, u64, usize, usize)] = &[
    (9, 9, 0, 0),
    (10, 10, 1, 1),
    (15, 15, 2, 1),
    (16, 16, 1, 0),
    (1, 9, 0, 0),
    (0, 12, 2, 3),
    (31, u64::MAX, 1, 0),
];

#[test]
fn both_ends_of_a_window_are_shown(rt: HostRuntime) -> Result<(), Fail> {
    for (from, to, bars, marks) in COUNTS {
        let shown = drawn(rt.alloc(), TRACE, *from, *to, 2000)?;
        assert!(rt;
            shown.bars().len() == *bars && shown.marks().len() == *marks,
            "{from}"
        );
    }
    Ok(())
}

/// Lines that are marks too.
const OTHER_MARKS: &str =
    "0 end 3\n0 error busy\n0 policy remove true\n0 ask queue 1 running 0 shutdown no terminated no\n";

#[test]
fn all_but_starts_and_finishes_are_marks(rt: HostRuntime) -> Result<(), Fail> {
    let shown = drawn(rt.alloc(), TRACE, 15, 30, 2000)?;
    let marks = shown.marks();
    assert!(rt; marks.len() == 4);
    assert!(rt; marks[0].message() == Message::Answer(Answer::Idle { worker: 0 }));
    assert!(rt; marks[1].message() == Message::Answer(Answer::Clock));
    assert!(rt; marks[3].message() == Message::Answer(Answer::ShutdownNow));
    let shown = drawn(rt.alloc(), OTHER_MARKS, 0, 0, 2000)?;
    assert!(rt; shown.bars().is_empty() && shown.marks().len() == 4);
    Ok(())
}

#[test]
fn purges_are_not_shown(rt: HostRuntime) -> Result<(), Fail> {
    let shown = drawn(rt.alloc(), "0 purge\n5 clock\n5 purge\n", 0, 5, 2000)?;
    assert!(rt; shown.bars().is_empty() && shown.marks().len() == 1);
    Ok(())
}

/// A trace of two runs and a clock.
const RUNS: &str = "1 start 0 task 0 run 0 due 1\n1 start 1 task 1 run 0 due 1\n2 clock\n";

/// Traces with the most marks and bars, and the number that is too many.
const MOST: &[(&str, u64, Option<u64>)] = &[
    (TRACE, 7, None),
    (TRACE, 6, Some(7)),
    (RUNS, 2, None),
    (RUNS, 1, Some(2)),
    (RUNS, 0, Some(1)),
];

#[test]
fn one_too_many_is_refused(rt: HostRuntime) -> Result<(), Fail> {
    for (text, most, wanted) in MOST {
        let error = answered(rt.alloc(), text, 0, 30, *most)?.err();
        let wanted = wanted.map(|marks| PictureError::Crowded { marks });
        assert!(rt; error == wanted, "{most}: {text}");
    }
    Ok(())
}

/// Errors, and how they are told.
const ERRORS: &[(PictureError, &str)] = &[
    (
        PictureError::Crowded { marks: 2001 },
        "2001 marks or bars in the window are too many",
    ),
    (PictureError::Memory, "out of memory"),
];

#[test]
fn errors_are_told(rt: HostRuntime) -> Result<(), Fail> {
    for (error, wanted) in ERRORS {
        let told = error.to_string(rt.alloc())?;
        assert!(rt; told.as_str() == *wanted, "{told}");
    }
    Ok(())
}
