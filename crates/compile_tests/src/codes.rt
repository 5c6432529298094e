//! The codes of plans by hand, and the calls of each code beside a plain list of the plan's calls.
ghost use Rattle.queue_code.specs.Cursors.{IsCursorOf};

use crate::calls::{compile, listing, read_plan};
use linked_list_allocator::LocalHeap;
use plan_compile::CompileFault;
use plan_read::{Block, Op, Plan, Target};
use queue_code::{Code, CodeCall, CodeFault, Cursor};
use sched_time::Timing;
use std::alloc::{AllocError, Global};
use std::process::Abort;
use std::test::Fail;

/// Whether the cursor fetches these calls next.
fn makes(cursor: &mut Cursor, code: &Code<Global>, calls: &[(u64, CodeCall)]) -> bool
    requires { IsCursorOf code.now cursor.old }
    ensures { IsCursorOf code.now cursor.new }
{
    for call in calls {
        if cursor.fetch(code) != Some(*call) {
            return false;
        }
    }
    true
}

/// How many instructions a code executes to make so many calls, those of its plan; none where it makes others, or more.
fn steps_of_calls(
    alloc: Global,
    code: &Code<Global>,
    plan: &Plan<Global>,
    count: usize,
) -> Result<Option<u64>, AllocError> {
    let calls = counted(alloc, plan)?;
    let mut cursor = Cursor::new(code);
    if calls.len() != count || !makes(&mut cursor, code, &calls) {
        return Ok(None);
    }
    let steps = cursor.steps();
    let is_over = cursor.fetch(code).is_none();
    Ok(if is_over { Some(steps) } else { None })
}

/// The calls of a plan, one after the other: those of each iteration of each block, its submissions counted.
fn counted(alloc: Global, plan: &Plan<Global>) -> Result<Vec<(u64, CodeCall)>, AllocError> {
    let mut calls = Vec::new(alloc);
    // The number with which the last iteration of each block begins.
    let mut starts = Vec::new(alloc);
    let mut task = 0;
    for block in plan.blocks() {
        let mut base = block.at();
        starts.push(task)?;
        for _ in 0..block.times() {
            starts.pop();
            starts.push(task)?;
            task = count(&mut calls, &starts, base, block)?;
            base = base.wrapping_add(block.every());
        }
    }
    Ok(calls)
}

/// Adds the calls of an iteration, the last of those that `starts` has, and answers how many submissions there are.
fn count(
    calls: &mut Vec<(u64, CodeCall)>,
    starts: &[u32],
    base: u64,
    block: &Block<Global>,
) -> Result<u32, AllocError> {
    let mut task = starts.last().copied().unwrap_or(0);
    for call in block.calls() {
        let made = made_of(starts, task, &call.op);
        calls.push((base.wrapping_add(call.at), made))?;
        if call.op.is_submission() {
            task = task.wrapping_add(1);
        }
    }
    Ok(task)
}

/// The call of an operation.
fn made_of(starts: &[u32], task: u32, op: &Op) -> CodeCall {
    match op {
        Op::Schedule { delay, .. } => submit(task, Timing::Once, delay.nanos()),
        Op::Execute { .. } => submit(task, Timing::Once, 0),
        Op::Rate { first, period, .. } => match period {
            Some(period) => submit(task, Timing::Rate(*period), first.nanos()),
            None => CodeCall::Illegal { task },
        },
        Op::Fixed { first, delay, .. } => match delay {
            Some(delay) => submit(task, Timing::Fixed(*delay), first.nanos()),
            None => CodeCall::Illegal { task },
        },
        Op::Cancel(target) => CodeCall::Cancel {
            task: number_in(starts, target),
        },
        Op::Policy { which, value } => CodeCall::SetPolicy {
            which: *which,
            value: *value,
        },
        Op::Shutdown => CodeCall::Shutdown,
        Op::ShutdownNow => CodeCall::ShutdownNow,
        Op::Ask => CodeCall::Ask,
    }
}

fn submit(task: u32, timing: Timing, delay: u64) -> CodeCall {
    CodeCall::Submit {
        task,
        timing,
        delay,
    }
}

/// The number of a submission, counted on from the beginning of its block.
fn number_in(starts: &[u32], target: &Target) -> u32 {
    let mut number = starts.get(target.block).copied().unwrap_or(0);
    for _ in 0..target.sub {
        number = number.wrapping_add(1);
    }
    number
}

/// A plan, the listing of its code, and how many calls it makes.
struct Row {
    name: &'static str,
    text: &'static str,
    listing: &'static str,
    calls: usize,
}

/// Rows: the name of each, how many calls its plan makes, the plan, and the listing of its code.
macro_rules! rows {
    ($($name:literal, $calls:literal calls: $text:expr => $listing:expr;)*) => {
        &[$(Row { name: $name, text: $text, listing: $listing, calls: $calls }),*]
    };
}

/// Three iterations of a submission and its cancel.
const A_REPEATED_BLOCK: &str = "version = 1\n[[block]]\nat = 100\ntimes = 3\nevery = 10\n\
    call = [{ op = 'schedule', name = 'a', delay = 50 }, { op = 'cancel', name = 'a', at = 4 }]";

const A_LOOP: &str =
    "0 loop 3 every 10\n1 submit 100 schedule 50\n2 cancel 104 here 0\n3 endloop\n4 halt\n";

const ROWS: &[Row] = rows! {
    "a repeated block is a loop", 6 calls: A_REPEATED_BLOCK => A_LOOP;

    "the code follows the text and not the iterations", 65_536 calls:
    "version = 1\n[[block]]\ntimes = 65536\nevery = 1\ncall = [{ op = 'ask' }]"
    => "0 loop 65536 every 1\n1 ask 0\n2 endloop\n3 halt\n";

    "submissions that are illegal keep their place", 5 calls:
    "version = 1\n[[block]]\ncall = [\
     { op = 'schedule', name = 'a', delay = -5 }, { op = 'rate', name = 'b', first = 1, period = 0 },\
     { op = 'shutdown' }, { op = 'fixed', name = 'c', first = 1, delay = -1 },\
     { op = 'rate', name = 'd', first = 1, period = 1 }]"
    => "0 submit 0 schedule 0\n1 illegal 0\n2 shutdown 0\n3 illegal 0\n4 submit 0 rate 1 1\n5 halt\n";

    "times of different units are compiled in nanoseconds", 2 calls:
    "version = 2\n[[block]]\nat = 1\nat_unit = 'min'\ntimes = 2\nevery = 1\nevery_unit = 'h'\n\
     [[block.call]]\nop = 'rate'\nname = 'a'\nfirst = 500\nfirst_unit = 'ms'\nperiod = 1\nperiod_unit = 'd'"
    => "0 loop 2 every 3600000000000\n1 submit 60000000000 rate 500000000 86400000000000\n2 endloop\n3 halt\n";

    "iterations may be at one moment", 4 calls:
    "version = 1\n[[block]]\nat = 3\ntimes = 2\nevery = 0\n\
     call = [{ op = 'fixed', name = 'a', first = 2, delay = 6 }, { op = 'ask' }]"
    => "0 loop 2 every 0\n1 submit 3 fixed 2 6\n2 ask 3\n3 endloop\n4 halt\n";

    "the greatest numbers are taken", 65_536 calls:
    "version = 1\n[[block]]\ntimes = 2\nevery = 4611686018427387904\n\
     call = [{ op = 'rate', name = 'a', first = 4611686018427387904, period = 4611686018427387904 }]\n\
     [[block]]\nat = 4611686018427387904\ntimes = 65534\nevery = 0\ncall = [{ op = 'ask' }]"
    => "0 loop 2 every 4611686018427387904\n\
        1 submit 0 rate 4611686018427387904 4611686018427387904\n2 endloop\n\
        3 loop 65534 every 0\n4 ask 4611686018427387904\n5 endloop\n6 halt\n";

    // Blocks that are repeated stand between others, with cancels of each kind.
    "cancels name their own iteration or a number", 19 calls:
    "version = 1\n[[block]]\ncall = [\
     { op = 'rate', name = 'a', first = 1, period = 0 }, { op = 'schedule', name = 'b', delay = 0 },\
     { op = 'cancel', name = 'a' }]\n\
     [[block]]\nunit = 'us'\ntimes = 2\nevery = 1\ncall = [\
     { op = 'schedule', name = 'c', delay = 0 }, { op = 'fixed', name = 'd', first = 0, delay = 0 },\
     { op = 'cancel', name = 'd', at = 1 }, { op = 'cancel', name = 'b', at = 1 }]\n\
     [[block]]\nat = 2000\ncall = [{ op = 'schedule', name = 'e', delay = 0 }, { op = 'cancel', name = 'e' }]\n\
     [[block]]\nat = 2000\ntimes = 2\nevery = 0\ncall = [\
     { op = 'schedule', name = 'f', delay = 0 }, { op = 'cancel', name = 'e' }, { op = 'cancel', name = 'f' }]"
    => "0 illegal 0\n1 submit 0 schedule 0\n2 cancel 0 task 0\n\
        3 loop 2 every 1000\n4 submit 0 schedule 0\n5 illegal 0\n6 cancel 1000 here 1\n7 cancel 1000 task 1\n8 endloop\n\
        9 submit 2000 schedule 0\n10 cancel 2000 task 6\n\
        11 loop 2 every 0\n12 submit 2000 schedule 0\n13 cancel 2000 task 6\n14 cancel 2000 here 0\n15 endloop\n16 halt\n";

    "policies a shutdown and questions are compiled", 9 calls:
    "version = 1\n[[block]]\nat = 5\nunit = 'us'\ncall = [\
     { op = 'policy', which = 'continue', value = true }, { op = 'policy', which = 'execute', value = false },\
     { op = 'ask', at = 1 }]\n\
     [[block]]\nat = 6000\ntimes = 3\nevery = 2\ncall = [\
     { op = 'policy', which = 'remove', value = true }, { op = 'shutdown', at = 2 }]"
    => "0 policy 5000 continue true\n1 policy 5000 execute false\n2 ask 6000\n\
        3 loop 3 every 2\n4 policy 6000 remove true\n5 shutdown 6002\n6 endloop\n7 halt\n";

    "an execute is a schedule without a delay", 11 calls:
    "version = 1\n[[block]]\nat = 5\ncall = [\
     { op = 'schedule', name = 'a', delay = 0 }, { op = 'execute', name = 'b', at = 1 },\
     { op = 'cancel', name = 'b', at = 1 }]\n\
     [[block]]\nat = 20\nunit = 'us'\ntimes = 2\nevery = 10\ncall = [\
     { op = 'execute', name = 'c' }, { op = 'execute', name = 'd', at = 4 },\
     { op = 'cancel', name = 'd', at = 4 }, { op = 'cancel', name = 'b', at = 10 }]"
    => "0 submit 5 schedule 0\n1 submit 6 schedule 0\n2 cancel 6 task 1\n\
        3 loop 2 every 10000\n4 submit 20000 schedule 0\n5 submit 24000 schedule 0\n\
        6 cancel 24000 here 1\n7 cancel 30000 task 1\n8 endloop\n9 halt\n";

    "a shutdown at once is compiled", 8 calls:
    "version = 1\n[[block]]\ncall = [{ op = 'shutdown_now', at = 3 }, { op = 'shutdown', at = 3 }]\n\
     [[block]]\nat = 4\ntimes = 2\nevery = 2\ncall = [\
     { op = 'execute', name = 'a' }, { op = 'shutdown_now', at = 1 }, { op = 'cancel', name = 'a', at = 2 }]"
    => "0 shutdown_now 3\n1 shutdown 3\n\
        2 loop 2 every 2\n3 submit 4 schedule 0\n4 shutdown_now 5\n5 cancel 6 here 0\n6 endloop\n7 halt\n";

    "a plan without calls has a halt alone", 0 calls: "version = 1" => "0 halt\n";
    "an empty list of blocks", 0 calls: "version = 1\nblock = []" => "0 halt\n";
    "a late block without calls", 0 calls: "version = 1\n[[block]]\nat = 4611686018427387904" => "0 halt\n";
    "many iterations without calls", 0 calls:
    "version = 1\n[[block]]\ntimes = 65536\nevery = 4611686018427387904" => "0 halt\n";

    "one iteration is no loop", 1 calls:
    "version = 1\n[[block]]\nat = 7\ntimes = 1\nevery = 0\ncall = [{ op = 'ask', at = 2 }]" => "0 ask 9\n1 halt\n";
    "one iteration every nanosecond", 1 calls:
    "version = 1\n[[block]]\nat = 7\ntimes = 1\nevery = 1\ncall = [{ op = 'ask', at = 2 }]" => "0 ask 9\n1 halt\n";
    "one iteration as rarely as can be", 1 calls:
    "version = 1\n[[block]]\nat = 7\ntimes = 1\nevery = 4611686018427387904\ncall = [{ op = 'ask', at = 2 }]"
    => "0 ask 9\n1 halt\n";
};

/// Checks the listing of the code of a row's plan, and which calls it makes.
fn has_its_code(
    rt: &(impl AllocGlobal + Abort),
    row: &Row,
    plan: &Plan<Global>,
) -> Result<(), Fail> {
    let code = compile(rt.alloc(), plan)?;
    let listed = listing(rt.alloc(), &code)?;
    assert!(rt; listed.as_str() == row.listing, "{}: {listed}", row.name);
    let steps = steps_of_calls(rt.alloc(), &code, plan, row.calls)?;
    assert!(rt; steps.is_some(), "{}", row.name);
    Ok(())
}

#[test]
fn each_plan_has_its_code(rt: HostRuntime) -> Result<(), Fail> {
    for row in ROWS {
        let plan = read_plan(rt.alloc(), row.text.as_bytes())?;
        has_its_code(&rt, row, &plan)?;
    }
    Ok(())
}

#[test]
fn a_loop_is_walked_by_its_instructions(rt: HostRuntime) -> Result<(), Fail> {
    let plan = read_plan(rt.alloc(), A_REPEATED_BLOCK.as_bytes())?;
    let code = compile(rt.alloc(), &plan)?;
    let steps = steps_of_calls(rt.alloc(), &code, &plan, 6)?;
    assert!(rt; steps.unwrap_or(0) >= 9);
    Ok(())
}

#[test]
fn the_fault_has_its_text(rt: HostRuntime) -> Result<(), Fail> {
    let text = format!(in rt.alloc(); "{}", CompileFault::Memory)?;
    assert!(rt; text.as_str() == "out of memory");
    Ok(())
}

/// What is told where a heap is to have room for the listing of a code, which is to be this one.
fn told_of_listing<'h>(
    heap: &'h LocalHeap,
    code: &Code<&'h LocalHeap>,
    wanted: &str,
) -> &'static str {
    match listing(heap, code) {
        Ok(text) if text.as_str() == wanted => "listed",
        Ok(_) => "another listing",
        Err(CodeFault::Memory) => "memory",
        Err(_) => "another fault",
    }
}

/// The same where it is to have room for the code of a plan before.
fn told_of_plan(heap: &LocalHeap, plan: &Plan<Global>, wanted: &str) -> &'static str {
    match compile(heap, plan) {
        Ok(code) => told_of_listing(heap, &code, wanted),
        Err(CompileFault::Memory) => "memory",
    }
}

/// Whether a heap has room to compile a plan and to list its code, whose listing is then this one; all memory is given back.
fn lists_over(rt: &impl Abort, heap: &LocalHeap, plan: &Plan<Global>, wanted: &str) -> bool {
    let told = told_of_plan(heap, plan, wanted);
    assert!(rt; heap.used() == 0);
    assert!(rt; told == "listed" || told == "memory", "{told}");
    told == "listed"
}

/// How many heaps have no room for a plan's code and its listing, and how many behind them have.
fn heaps_without_and_with_room(
    rt: &(impl AllocGlobal + Abort),
    plan: &Plan<Global>,
) -> Result<(u32, u32), AllocError> {
    let mut refused = 0u32;
    let mut made = 0u32;
    for step in 0..100usize {
        let heap = LocalHeap::new(rt.alloc(), 64 + 16 * step)?;
        if lists_over(rt, &heap, plan, A_LOOP) {
            made = made.saturating_add(1);
        } else {
            assert!(rt; made == 0, "{step}");
            refused = refused.saturating_add(1);
        }
    }
    Ok((refused, made))
}

/// Heaps from one that has room for hardly anything up to one that has room for all, so that each growth is the first
/// that is refused in one of them.
#[test]
fn a_plan_without_memory_is_not_compiled(rt: HostRuntime) -> Result<(), Fail> {
    let plan = read_plan(rt.alloc(), A_REPEATED_BLOCK.as_bytes())?;
    let (refused, made) = heaps_without_and_with_room(&rt, &plan)?;
    assert!(rt; refused > 0 && made > 0, "{refused} {made}");
    Ok(())
}
