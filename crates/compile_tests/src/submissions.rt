//! The submissions of plans, and their names.
use crate::calls::read_plan;
use crate::listed::EACH_KIND;
use executor_model::Kind;
use plan_compile::{Submissions, names_of_tasks};
use refusing_allocator::Refusing;
use std::test::Fail;

/// The names of its tasks, by their numbers.
const NAMES: &[&str] = &[
    "once", "at-once", "by_rate", "F", "once", "at-once", "by_rate", "F", "never", "nor-this",
];

#[test]
fn names_each_task(rt: HostRuntime) -> Result<(), Fail> {
    let plan = read_plan(rt.alloc(), EACH_KIND.as_bytes())?;
    let names = names_of_tasks(rt.alloc(), &plan)?;
    assert!(rt; names.len() == NAMES.len());
    for (name, text) in names.iter().zip(NAMES.iter()) {
        assert!(rt; name.as_str() == *text, "{text}");
    }
    Ok(())
}

#[test]
fn gives_each_submission(rt: HostRuntime) -> Result<(), Fail> {
    let plan = read_plan(rt.alloc(), EACH_KIND.as_bytes())?;
    let mut submissions = Submissions::new(&plan);
    let first = submissions.next().ok_or("none")?;
    assert!(rt; first.task == 0 && first.kind == Kind::Schedule);
    assert!(rt; first.moment == 100 && first.due == Some(150));
    assert!(rt; first.name.as_str() == "once");
    let mut count = 0u32;
    let mut illegal = 0u32;
    for submission in submissions {
        count = count.saturating_add(1);
        illegal = illegal.saturating_add(u32::from(submission.due.is_none()));
        assert!(rt; submission.task == count);
    }
    assert!(rt; count == 9 && illegal == 2, "{count} {illegal}");
    Ok(())
}

#[test]
fn names_take_memory(rt: HostRuntime) -> Result<(), Fail> {
    let plan = read_plan(rt.alloc(), EACH_KIND.as_bytes())?;
    let heap = Refusing::new(rt.alloc());
    heap.refuse(1);
    assert!(rt; names_of_tasks(&heap, &plan).is_err());
    assert!(rt; names_of_tasks(&heap, &plan)?.len() == 10);
    assert!(rt; heap.used() == 0);
    Ok(())
}
