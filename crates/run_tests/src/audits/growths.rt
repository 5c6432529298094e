//! Want of memory: of the growths of a call each is refused in turn, and all before and behind it are granted.
mod calls;
mod events;

use calls::{Call, wants_memory};
use refusing_allocator::Refusing;
use std::process::Abort;
use std::test::Fail;

/// A plan that sweeps at its shutdown.
const PLAN: &str = "\
version = 1

[[block]]
call = [
  { op = \"policy\", which = \"execute\", value = false },
  { op = \"schedule\", name = \"a\", delay = 1 },
  { op = \"schedule\", name = \"b\", delay = 100 },
  { op = \"rate\", name = \"c\", first = 3, period = 3 },
  { op = \"shutdown\", at = 5 },
  { op = \"shutdown\", at = 6 },
  { op = \"ask\", at = 6 },
]
";

/// Its code.
const LISTING: &str = "\
0 policy 0 execute false
1 submit 0 schedule 1
2 submit 0 schedule 100
3 submit 0 rate 3 3
4 shutdown 5
5 shutdown 6
6 ask 6
7 halt
";

/// Events of one worker.
const EVENTS: &str = "clock 6\nstart 0\nfinish 0 ok 9\n";

/// Their trace.
const TRACE: &str = "\
0 policy execute false
0 submit 0 schedule due 1
0 submit 1 schedule due 100
0 submit 2 rate due 3
5 shutdown
5 end 1
5 end 2
6 shutdown again
6 ask queue 1 running 0 shutdown yes terminated no
6 clock
6 start 0 task 0 run 0 due 1
6 finish 0 task 0 run 0 done 9
";

/// What is wanting of the trace where the text of the first events was written, from none of them to all.
const WANTING: [&str; 4] = [
    TRACE,
    "6 start 0 task 0 run 0 due 1\n6 finish 0 task 0 run 0 done 9\n",
    "6 finish 0 task 0 run 0 done 9\n",
    "",
];

/// Whether a text is that of the first events, of none or all of them too.
fn is_front(text: &[u8]) -> bool {
    for wanting in WANTING {
        if TRACE.as_bytes().strip_suffix(wanting.as_bytes()) == Some(text) {
            return true;
        }
    }
    false
}

/// Refuses a call its first growth, then its second and so on, until it asks for no growth of that number. All memory is given
/// back each time, want of memory is told only where a growth was refused, and it is told.
fn refuse_each(rt: &(impl AllocGlobal + Abort), call: Call) -> Result<(), Fail> {
    let mut told = 0u32;
    for number in 1..1_000u64 {
        let heap = Refusing::new(rt.alloc());
        let is_told = wants_memory(rt, call, &heap, number)?;
        assert!(rt; heap.used() == 0, "{call:?} {number}");
        if !heap.has_refused() {
            assert!(rt; !is_told && told > 0, "{call:?} {number}");
            return Ok(());
        }
        told = told.saturating_add(u32::from(is_told));
    }
    Err("a growth was refused each time".into())
}

/// The calls whose growths are refused.
const CALLS: &[Call] = &[
    Call::ReadPlan,
    Call::Migrate,
    Call::Compile,
    Call::Listing,
    Call::Event,
    Call::Run,
    Call::WriteListing,
    Call::Check,
    Call::RunAndCheck,
];

#[test]
fn each_growth_is_refused_in_turn(rt: HostRuntime) -> Result<(), Fail> {
    for call in CALLS {
        refuse_each(&rt, *call)?;
    }
    Ok(())
}
