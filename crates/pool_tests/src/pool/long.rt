//! Runs that are long: of many clocks, and of a task that is run many times.
use super::scripts::play;
use super::{Counting, RunNumber};
use crate::told::{AMPLE, are_told};
use executor_model::{Answer, Message};
use std::alloc::Global;
use std::sync::atomic::Ordering;
use std::test::Fail;

/// How many clocks a run has: more than two bytes count.
const CLOCKS: u64 = 65_537;

/// A clock behind all clocks of a run, which tells of their lines.
const BEHIND: &str =
    "advance 65537 | Advanced(Ok(Applied { first: 65537, count: 1, work: None }))\n";

/// A run with all these clocks, and the clock behind them.
fn script_of_clocks(alloc: Global) -> Result<String, Fail> {
    let mut script = String::from_str(alloc, "run")?;
    for moment in 0..CLOCKS {
        write!(script, " {moment}")?;
    }
    write!(script, " | Ran(Ok(()))\n{BEHIND}")?;
    Ok(script)
}

/// Each clock of a run is applied, and its line is the one of that place. A clock behind them tells of all those lines.
#[test]
fn each_of_many_clocks_is_applied(rt: HostRuntime) -> Result<(), Fail> {
    let script = script_of_clocks(rt.alloc())?;
    let (said, came) = play(&rt, "version = 1\n", 1, AMPLE, &RunNumber, script.as_str())?;
    are_told(&rt, "many clocks", &said, script.as_str())?;
    assert!(rt; came.lines.len() == 65_538);
    for (place, line) in came.lines.iter().enumerate() {
        assert!(rt; line.moment() == place as u64);
        assert!(rt; line.message() == Message::Answer(Answer::Clock));
    }
    Ok(())
}

/// A task at a fixed rate of one.
const EACH_NANOSECOND: &str =
    "version = 1\n[[block]]\ncall = [{ op = 'rate', name = 'a', first = 0, period = 1 }]\n";

/// The task is due at the moments 0 to 299.
#[test]
fn a_job_is_told_the_number_of_each_of_many_runs(rt: HostRuntime) -> Result<(), Fail> {
    let job = Counting::new();
    let script = "run 299 | Ran(Ok(()))";
    let (said, _) = play(&rt, EACH_NANOSECOND, 1, AMPLE, &job, script)?;
    are_told(&rt, "many runs", &said, script)?;
    assert!(rt; job.astray.load(Ordering::SeqCst) == 0);
    assert!(rt; job.runs.load(Ordering::SeqCst) == 300);
    Ok(())
}
