//! The listings and cores of plans, and where there are none.
use super::scripted::script;
use super::*;
use plan_list::write_listing;
use sched_engine::core_of;
use scripted_runs::ends::{Script, Taking, Trouble};

/// What the writing of a listing to a writer with a script answered, and the writer.
fn listed(alloc: Global, plan: &str, script: Script) -> (Result<(), RunError>, Taking) {
    let mut writer = Writing::new(Taking::new(alloc, script));
    let answer = write_listing(alloc, plan.as_bytes(), &mut writer).map_err(RunError::from);
    (answer, writer.into_inner())
}

/// A plan, and the listing of its code.
const LISTINGS: &[(&str, &str)] = &[
    ("version = 1", "0 halt\n"),
    (
        "version = 1
[[block]]
at = 100
times = 3
every = 10
call = [
  { op = \"schedule\", name = \"a\", delay = 50 },
  { at = 4, op = \"cancel\", name = \"a\" },
]
",
        "0 loop 3 every 10\n1 submit 100 schedule 50\n2 cancel 104 here 0\n3 endloop\n4 halt\n",
    ),
    (
        "version = 1
[[block]]
at = 7
times = 2
every = 10
call = [
  { op = \"execute\", name = \"a\" },
  { at = 5, op = \"shutdown_now\" },
  { at = 5, op = \"shutdown\" },
]
",
        "0 loop 2 every 10\n1 submit 7 schedule 0\n2 shutdown_now 12\n3 shutdown 12\n4 endloop\n5 halt\n",
    ),
];

/// Checks the listing of a plan.
fn lists(rt: &(impl AllocGlobal + Abort), plan: &str, listing: &str) {
    let (answer, writer) = listed(rt.alloc(), plan, Script::smooth(65_536));
    assert!(rt; answer == Ok(()), "{plan}: {answer:?}");
    assert!(rt; writer.taken() == listing.as_bytes(), "{plan}");
}

#[test]
fn lists_the_code_of_a_plan(rt: HostRuntime) {
    lists(&rt, ONE_DELAY.plan, "0 submit 0 schedule 5\n1 halt\n");
    for (plan, listing) in LISTINGS {
        lists(&rt, plan, listing);
    }
}

#[test]
fn lists_nothing_of_a_text_that_is_no_plan(rt: HostRuntime) {
    let (answer, writer) = listed(rt.alloc(), "version = 3", Script::smooth(65_536));
    assert!(rt; answer == Err(NO_VERSION));
    assert!(rt; writer.taken().is_empty());
}

/// A writer takes so many bytes of 29, and then none.
#[test]
fn tells_a_writer_that_takes_no_more(rt: HostRuntime) {
    for left in [0usize, 1, 28, 29] {
        let script = script(left, 0, 2, Trouble::TakesNothing);
        let (answer, _) = listed(rt.alloc(), ONE_DELAY.plan, script);
        let wanted = if left < 29 {
            Err(RunError::Write)
        } else {
            Ok(())
        };
        assert!(rt; answer == wanted, "{left}: {answer:?}");
    }
}

/// How many tasks the core of the example has, which takes so many events, and how many events it took.
fn numbers_of_core(alloc: Global, limit: u32) -> Result<(usize, u32), OpenError> {
    let core = core_of(alloc, ONE_DELAY.plan.as_bytes(), 2, limit)?;
    Ok((core.tasks(), core.taken()))
}

#[test]
fn gives_the_core_of_a_plan(rt: HostRuntime) {
    assert!(rt; matches!(numbers_of_core(rt.alloc(), 9), Ok((1, 0))));
    assert!(rt; matches!(numbers_of_core(rt.alloc(), 0), Err(OpenError::Limit)));
}
