//! Races of workers, handles and a clock, over and over: each task ends once, each cancel that is won has its line, and the lines
//! conform, whoever comes first.
use super::race::{Race, run_races};
use std::test::Fail;
use worker_pool::PoolError;

/// Tasks with one run.
const ONCE: &str = "version = 1\n[[block]]\ntimes = 64\nevery = 0\n\
                    call = [{ op = 'schedule', name = 'a', delay = 0 }]\n";

/// Tasks that run again and again.
const PERIODIC: &str = "version = 1\n[[block]]\ntimes = 32\nevery = 0\n\
                        call = [{ op = 'rate', name = 'a', first = 0, period = 1 },\n\
                        { op = 'fixed', name = 'b', first = 0, delay = 2 }]\n";

/// A shutdown ends tasks of each kind that wait: those with one run, since it is a second one, and the others.
const SHUT: &str = "version = 1\n[[block]]\ntimes = 16\nevery = 0\n\
                    call = [{ op = 'schedule', name = 'a', delay = 0 },\n\
                    { op = 'schedule', name = 'b', delay = 9 },\n\
                    { op = 'rate', name = 'c', first = 0, period = 1 },\n\
                    { op = 'fixed', name = 'd', first = 0, delay = 1 }]\n\
                    [[block]]\nat = 1\n\
                    call = [{ op = 'policy', which = 'execute', value = false },\n\
                    { op = 'policy', which = 'continue', value = true },\n\
                    { op = 'shutdown' },\n\
                    { op = 'policy', which = 'continue', value = false, at = 1 }]\n";

/// A shutdown at once ends tasks of each kind that wait, whatever the policies are.
const STOPPED: &str = "version = 1\n[[block]]\ntimes = 16\nevery = 0\n\
                       call = [{ op = 'execute', name = 'a' },\n\
                       { op = 'schedule', name = 'b', delay = 9 },\n\
                       { op = 'rate', name = 'c', first = 0, period = 1 },\n\
                       { op = 'fixed', name = 'd', first = 0, delay = 1 }]\n\
                       [[block]]\nat = 1\n\
                       call = [{ op = 'policy', which = 'continue', value = true },\n\
                       { op = 'shutdown_now' },\n\
                       { op = 'shutdown_now', at = 1 }]\n";

/// Two workers and two handles over tasks with one run.
const RACE: Race<'static> = Race {
    plan: ONCE,
    workers: 2,
    handles: 2,
    limit: 100_000,
    moments: &[0],
    beside: 0,
    turns: 0,
    ran: Ok(()),
    all_end: true,
};

#[test]
fn each_task_is_done_or_cancelled(rt: HostRuntime) -> Result<(), Fail> {
    run_races(&rt, &RACE)
}

#[test]
fn many_handles_race_many_workers(rt: HostRuntime) -> Result<(), Fail> {
    let race = Race {
        workers: 8,
        handles: 16,
        ..RACE
    };
    run_races(&rt, &race)
}

#[test]
fn jobs_may_take_long(rt: HostRuntime) -> Result<(), Fail> {
    let race = Race {
        turns: 2_000,
        ..RACE
    };
    run_races(&rt, &race)
}

/// A race over a plan that may leave some tasks as they are, with these moments and a clock beside.
fn clocked<'a>(plan: &'a str, moments: &'a [u64]) -> Race<'a> {
    Race {
        plan,
        moments,
        beside: 1,
        all_end: false,
        ..RACE
    }
}

#[test]
fn periodic_tasks_are_cancelled_between_runs(rt: HostRuntime) -> Result<(), Fail> {
    run_races(&rt, &clocked(PERIODIC, &[0, 1, 2, 5]))
}

#[test]
fn a_shutdown_comes_in_between(rt: HostRuntime) -> Result<(), Fail> {
    run_races(&rt, &clocked(SHUT, &[0, 1, 2, 9]))
}

#[test]
fn a_shutdown_at_once_comes_in_between(rt: HostRuntime) -> Result<(), Fail> {
    run_races(&rt, &clocked(STOPPED, &[0, 1, 2, 9]))
}

#[test]
fn a_limit_ends_all(rt: HostRuntime) -> Result<(), Fail> {
    let race = Race {
        limit: 40,
        ran: Err(PoolError::Full),
        ..clocked(ONCE, &[0; 40])
    };
    run_races(&rt, &race)
}
