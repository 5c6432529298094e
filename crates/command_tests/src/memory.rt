//! Memory: what a command takes comes back, also where it is refused some.

use crate::command_lines::words_of;
use byte_ends::{Pieces, Writing};
use command_line::{Asked, AskedAlone};
use command_work::ProgramError;
use refusing_allocator::Refusing;
use sched_engine::RunError;
use sched_program::answer_alone;
use std::alloc::Global;
use std::io;
use std::process::Abort;
use std::test::Fail;

/// The plan of one delayed task.
const ONE_DELAY: &str =
    "version = 1\n\n[[block]]\n\n[[block.call]]\nop = \"schedule\"\nname = \"a\"\ndelay = 5\n";

/// A trace of that plan.
const TRACE: &str = "0 submit 0 schedule due 5\n5 clock\n5 start 0 task 0 run 0 due 5\n7 clock\n\
7 finish 0 task 0 run 0 done 7\n";

/// The same trace, whose third line has a worker that is not there.
const BREAKS: &str = "0 submit 0 schedule due 5\n5 clock\n5 start 1 task 0 run 0 due 5\n";

/// Events of which the trace tells.
const EVENTS: &str = "clock 5\nstart 0\nclock 7\nfinish 0 ok 7\n";

/// Calls and events that take an executor of its own through the same.
const LINES: &str =
    "call schedule 5\nclock 5\nstart 0\ncall execute\ncall cancel 1\nfinish 0 ok 7\n";

/// What is done over the plan of one delayed task in the file `plan`, and over the traces in `trace` and `breaks`.
fn answer(heap: &Refusing<Global>, asked: AskedAlone<'_>) -> Result<u8, ProgramError> {
    let lines = match asked {
        AskedAlone::Live(_) => LINES,
        _ => EVENTS,
    };
    let mut events = Pieces::new(lines.as_bytes(), 100);
    let mut out = Writing::new(io::sink());
    let open = |path: &str| {
        let bytes = match path {
            "trace" => TRACE,
            "breaks" => BREAKS,
            _ => ONE_DELAY,
        };
        Ok(Pieces::new(bytes.as_bytes(), 100))
    };
    let create = |_: &str| Ok(Writing::new(io::sink()));
    answer_alone(heap, &asked, open, create, &mut events, &mut out)
}

/// Refuses each growth of a command in turn: it tells want of memory, and all comes back. The last time nothing is refused, and the
/// command ends with this status.
fn gives_back(rt: &(impl AllocGlobal + Abort), asked: AskedAlone<'_>, status: u8) {
    let heap = Refusing::new(rt.alloc());
    let mut has_all = false;
    for number in 1u64..10_000 {
        heap.refuse(number);
        let answer = answer(&heap, asked);
        assert!(rt;
            heap.used() == 0,
            "{asked:?} at growth {number}: {}",
            heap.used()
        );
        if !heap.has_refused() {
            assert!(rt; answer == Ok(status));
            has_all = number > 1;
            break;
        }
        assert!(rt;
            answer == Err(ProgramError::Run(RunError::Memory)),
            "{asked:?} at growth {number}: {answer:?}"
        );
    }
    assert!(rt; has_all, "{asked:?}");
}

/// Commands, and the statuses with which they end.
const COMMANDS: &str = "0 | sched run plan --workers 1 --limit 100
0 | sched code plan
0 | sched tasks plan
0 | sched check plan trace --workers 1
1 | sched check plan breaks --workers 1
0 | sched migrate plan
0 | sched draw plan trace --workers 1 --marks 10
1 | sched draw plan breaks --workers 1 --marks 10
0 | sched live --workers 1
0 | sched live --workers 1 --plan calls";

#[test]
fn each_command_gives_back_what_it_took(rt: HostRuntime) -> Result<(), Fail> {
    for row in COMMANDS.lines() {
        let (status, line) = row.split_once(" | ").ok_or("no command")?;
        let arguments = words_of(rt.alloc(), line)?;
        let Ok(Asked::Alone(asked)) = Asked::parse(rt.alloc(), &arguments) else {
            return Err("no command of one thread".into());
        };
        gives_back(&rt, asked, status.parse::<u8>()?);
    }
    Ok(())
}
