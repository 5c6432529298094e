//! Memory: how much is taken, and where it is refused.
use super::*;
use crate::calls::read_plan;
use refusing_allocator::Refusing;
use std::io;
use std::io::Write;

/// A plan of so many tasks, which one block makes.
const MANY_TASKS: &str =
    "version = 1\n[[block]]\ntimes = 65536\nevery = 1\ncall = [ { op = \"execute\", name = \"a\" } ]\n";

/// The same of one task.
const ONE_TASK: &str =
    "version = 1\n[[block]]\ntimes = 1\nevery = 1\ncall = [ { op = \"execute\", name = \"a\" } ]\n";

/// A writer that keeps how many bytes it took, and of an allocator how many bytes were in use at most when it took some.
#[derive(Drop)]
struct Tally<'a> {
    heap: &'a Refusing<Global>,
    taken: usize,
    most_used: usize,
}

impl<'a> Write for Tally<'a> {
    fn write(&mut self, buf: &[u8]) -> io::Result<usize> {
        self.taken = self.taken.saturating_add(buf.len());
        self.most_used = self.most_used.max(self.heap.used());
        Ok(buf.len())
    }

    fn flush(&mut self) -> io::Result<()> {
        Ok(())
    }
}

/// How many bytes the lines of a plan's tasks are, and how many bytes of memory were in use when some were written.
fn tallied(rt: &(impl AllocGlobal + Abort), plan: &str) -> (usize, usize) {
    let heap = Refusing::new(rt.alloc());
    let mut writer = Writing::new(Tally {
        heap: &heap,
        taken: 0,
        most_used: 0,
    });
    let answer = write(&heap, plan, &mut writer);
    assert!(rt; answer == Ok(()), "{answer:?}");
    assert!(rt; heap.used() == 0);
    let tally = writer.into_inner();
    (tally.taken, tally.most_used)
}

#[test]
fn memory_does_not_grow_with_times(rt: HostRuntime) {
    let (taken, used) = tallied(&rt, MANY_TASKS);
    // Three times the 316,570 digits of the numbers, and 28 bytes more a line.
    assert!(rt; taken == 2_784_718);
    assert!(rt; tallied(&rt, ONE_TASK) == (31, used));
}

/// How many bytes of memory the plan of a text takes.
fn taken_by_plan(alloc: Global, text: &str) -> Result<usize, PlanFault> {
    let heap = Refusing::new(alloc);
    let plan = read_plan(&heap, text.as_bytes())?;
    let taken = heap.used();
    drop(plan);
    Ok(taken)
}

#[test]
fn a_page_is_all_that_the_lines_take(rt: HostRuntime) -> Result<(), Fail> {
    let plan = taken_by_plan(rt.alloc(), MANY_TASKS)?;
    // The 65,536 bytes of the page, and of the text nothing.
    assert!(rt; tallied(&rt, MANY_TASKS) == (2_784_718, plan.saturating_add(65_536)));
    Ok(())
}

#[test]
fn all_lines_of_many_tasks_are_written(rt: HostRuntime) {
    let (answer, text) = written(rt.alloc(), MANY_TASKS);
    assert!(rt; answer == Ok(()));
    assert!(rt; text.len() == 2_784_718);
    let front = b"0 a schedule submitted 0 due 0\n1 a schedule submitted 1 due 1\n";
    assert!(rt; text.as_slice().starts_with(front));
    let end = b"\n65535 a schedule submitted 65535 due 65535\n";
    assert!(rt; text.as_slice().ends_with(end));
}

/// Whether the growth of this number is refused; nothing is written then, and all memory is given back.
fn is_refused(rt: &(impl AllocGlobal + Abort), number: u64) -> bool {
    let heap = Refusing::new(rt.alloc());
    heap.refuse(number);
    let mut writer = Writing::new(Vec::new(rt.alloc()));
    let answer = write(&heap, EACH_KIND, &mut writer);
    let text = writer.into_inner();
    assert!(rt; heap.used() == 0, "{number}");
    if !heap.has_refused() {
        assert!(rt; answer == Ok(()), "{number}: {answer:?}");
        assert!(rt; text.as_slice() == ITS_TASKS.as_bytes(), "{number}");
        return false;
    }
    let memory = PlanFault {
        kind: PlanFaultKind::Memory,
        block: 0,
        call: 0,
    };
    let is_told = answer == Err(RunError::Memory) || answer == Err(RunError::Plan(memory));
    assert!(rt; is_told, "{number}: {answer:?}");
    assert!(rt; text.is_empty(), "{number}");
    true
}

#[test]
fn each_growth_is_refused_in_turn(rt: HostRuntime) {
    let mut refused = 0u32;
    for number in 1..1_000u64 {
        if !is_refused(&rt, number) {
            break;
        }
        refused = refused.saturating_add(1);
    }
    assert!(rt; 0 < refused && refused < 999, "{refused}");
}
