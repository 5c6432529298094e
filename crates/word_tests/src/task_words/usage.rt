//! The examples of the comments, as they stand there: `tools/docs` compares them.
use std::alloc::AllocGlobal;
use std::process::Abort;
use std::test::Fail;
use task_word::{CancelAnswer, Moved, TaskState, TaskWords, WordError};

/// A task is run, and cancelled before its end is written.
fn run_page(rt: &(impl Abort + AllocGlobal)) -> Result<(), WordError> {
    let alloc = rt.alloc();
    // example: task_word
    let (words, mut core) = TaskWords::new(alloc, 1)?; // of task 0
    core.submit(&words, 0); // task 0 waits for run 0
    assert!(rt; core.start(&words, 0) == Moved::Yes); // it is run

    let mut handle = core.split(&words)?; // for another thread
    assert!(rt; handle.state(&words, 0) == TaskState::Running);
    assert!(rt; handle.cancel(&words, 0) == CancelAnswer::Yes);
    assert!(rt; core.done(&words, 0) == Moved::Cancelled); // its end is not written

    core.join(&words, handle);
    let last = words.close(alloc, core)?;
    assert_eq!(rt; last.as_slice(), [(1 << 63) + 2].as_slice());
    // end of example
    Ok(())
}

#[test]
fn the_page_is_run(rt: HostRuntime) -> Result<(), Fail> {
    Ok(run_page(&rt)?)
}

#[test]
fn one_cancel_wins(rt: HostRuntime) -> Result<(), Fail> {
    let alloc = rt.alloc();
    // example: task_word::HandleSeat::cancel
    let (words, mut core) = TaskWords::new(alloc, 2)?;
    core.submit(&words, 0);
    let mut handle = core.split(&words)?;
    assert!(rt; handle.cancel(&words, 0) == CancelAnswer::Yes);
    assert!(rt; handle.cancel(&words, 0) == CancelAnswer::No); // it was cancelled before
    assert!(rt; handle.cancel(&words, 1) == CancelAnswer::Absent); // it is not submitted
    assert!(rt; core.start(&words, 0) == Moved::Cancelled);
    // end of example
    Ok(())
}
