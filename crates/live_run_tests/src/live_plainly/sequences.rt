//! All sequences of so many lines, over several alphabets.

use super::{agree, read_lines};
use live_engine::LiveLine;
use std::alloc::Global;
use std::process::Abort;
use std::test::Fail;

/// How many sequences of so many letters there are.
fn how_many(letters: usize, length: usize) -> usize {
    let mut count: usize = 1;
    for _ in 0..length {
        count = count.saturating_mul(letters);
    }
    count
}

/// The sequence of this number.
fn spell(
    alphabet: &[LiveLine],
    length: usize,
    number: usize,
    lines: &mut Vec<LiveLine, Global>,
) -> Result<(), Fail> {
    lines.clear();
    let mut rest = number;
    for _ in 0..length {
        if let Some(line) = alphabet.get(rest.checked_rem(alphabet.len()).unwrap_or(0)) {
            lines.push(*line)?;
        }
        rest = rest.checked_div(alphabet.len()).unwrap_or(0);
    }
    Ok(())
}

/// Both tell the same of each sequence of so many letters, with one worker. The lines of the text are the letters.
fn all_agree(rt: &impl Abort, alloc: Global, text: &str, length: usize) -> Result<(), Fail> {
    let alphabet = read_lines(alloc, text)?;
    assert!(rt; !alphabet.is_empty(), "no letters");
    let mut lines = Vec::new(alloc);
    for number in 0..how_many(alphabet.len(), length) {
        spell(&alphabet, length, number, &mut lines)?;
        assert!(rt; agree(alloc, 1, &lines)?, "{lines:?}");
    }
    Ok(())
}

#[test]
fn one_run_and_its_cancels(rt: HostRuntime) -> Result<(), Fail> {
    let text = "call schedule 0\ncall cancel 0\ncancel 0\nstart 0\nfinish 0 ok 7\n";
    all_agree(&rt, rt.alloc(), text, 6)
}

#[test]
fn cancels_of_numbers_that_come_later(rt: HostRuntime) -> Result<(), Fail> {
    let text = "call schedule 1\ncancel 0\ncancel 1\ncall cancel 1\nclock 2\n";
    all_agree(&rt, rt.alloc(), text, 6)
}

#[test]
fn runs_at_a_rate(rt: HostRuntime) -> Result<(), Fail> {
    let text = "call rate 0 1\nclock 1\nclock 2\nstart 0\nfinish 0 ok 7\n";
    all_agree(&rt, rt.alloc(), text, 6)
}

#[test]
fn runs_with_a_fixed_delay(rt: HostRuntime) -> Result<(), Fail> {
    let text = "call fixed 1 1\nclock 2\nstart 0\nfinish 0 ok 7\nfinish 0 fail 3\n";
    all_agree(&rt, rt.alloc(), text, 6)
}

#[test]
fn one_run_and_asks(rt: HostRuntime) -> Result<(), Fail> {
    let text =
        "call schedule 0\ncall cancel 0\ncancel 0\nclock 1\nstart 0\nfinish 0 ok 7\ncall ask\n";
    all_agree(&rt, rt.alloc(), text, 5)
}

#[test]
fn cancels_of_two_tasks_and_of_none(rt: HostRuntime) -> Result<(), Fail> {
    let text = "call schedule 1\ncancel 0\ncancel 1\ncancel 2\ncall cancel 1\nclock 2\nstart 0\n";
    all_agree(&rt, rt.alloc(), text, 5)
}

#[test]
fn tasks_that_run_again(rt: HostRuntime) -> Result<(), Fail> {
    let text =
        "call rate 0 1\ncall fixed 1 1\nclock 1\nclock 2\nstart 0\nfinish 0 ok 7\nfinish 0 fail 3\n";
    all_agree(&rt, rt.alloc(), text, 5)
}

#[test]
fn shutdowns_and_tasks_that_run_again(rt: HostRuntime) -> Result<(), Fail> {
    let text = "call rate 0 1\ncall schedule 1\ncall policy continue true\ncall shutdown\n\
        clock 1\nstart 0\nfinish 0 ok 7\n";
    all_agree(&rt, rt.alloc(), text, 5)
}

#[test]
fn sweeps(rt: HostRuntime) -> Result<(), Fail> {
    let text = "call schedule 1\ncall fixed 1 1\ncall policy execute false\ncall shutdown\n\
        call shutdown_now\ncall cancel 0\ncall ask\n";
    all_agree(&rt, rt.alloc(), text, 5)
}

#[test]
fn tasks_that_are_kept(rt: HostRuntime) -> Result<(), Fail> {
    let text =
        "call execute\ncall schedule 1\ncall cancel 1\ncall policy remove true\nstart 0\nclock 2\ncall ask\n";
    all_agree(&rt, rt.alloc(), text, 5)
}

#[test]
fn ends_of_runs_once_shut(rt: HostRuntime) -> Result<(), Fail> {
    let text =
        "call rate 0 1\ncall shutdown_now\ncancel 0\nstart 0\nfinish 0 ok 7\nfinish 0 fail 3\ncall ask\n";
    all_agree(&rt, rt.alloc(), text, 5)
}
