//! Listings, line by line.
use super::code_of;
use queue_code::{Instr, listing};
use sched_time::{LONGEST, Span, TimeError, Timing, Unit, Which, span};
use std::test::Fail;

/// So many nanoseconds.
fn nanos(value: i64) -> Result<Span, TimeError> {
    span(value, Unit::Ns)
}

/// Rows: a name, instructions that stand by their names, and the listing of their code.
macro_rules! rows {
    ($($name:literal: [$($instr:tt)*] => $text:literal;)*) => {
        &[$(($name, &instrs![$($instr)*], $text)),*]
    };
}

#[test]
fn each_code_has_its_listing(rt: HostRuntime) -> Result<(), Fail> {
    let rows: &[(&str, &[Instr], &str)] = rows! {
        "submissions, cancels and a loop": [
            Submit(0, Timing::Once, 0), Illegal(0), CancelFixed(1, 1), Loop(2, 30), Submit(12, Timing::Rate(nanos(3)?), 4),
            Submit(12, Timing::Fixed(nanos(5)?), LONGEST), CancelHere(40, 1), EndLoop, Halt
        ] => "0 submit 0 schedule 0\n1 illegal 0\n2 cancel 1 task 1\n3 loop 2 every 30\n4 submit 12 rate 4 3\n\
              5 submit 12 fixed 4611686018427387904 5\n6 cancel 40 here 1\n7 endloop\n8 halt\n";
        "policies, shutdowns and a question": [
            SetPolicy(0, Which::Continue, true), SetPolicy(1, Which::Execute, false),
            SetPolicy(LONGEST, Which::Remove, true), Shutdown(LONGEST), ShutdownNow(LONGEST), Ask(LONGEST), Halt
        ] => "0 policy 0 continue true\n1 policy 1 execute false\n\
              2 policy 4611686018427387904 remove true\n3 shutdown 4611686018427387904\n\
              4 shutdown_now 4611686018427387904\n5 ask 4611686018427387904\n6 halt\n";
        "a question as often as can be": [Loop(65_536, 1), Ask(0), EndLoop, Halt]
        => "0 loop 65536 every 1\n1 ask 0\n2 endloop\n3 halt\n";
        "an iteration's cancel": [Loop(3, 10), Submit(100, Timing::Once, 50), CancelHere(104, 0), EndLoop, Halt]
        => "0 loop 3 every 10\n1 submit 100 schedule 50\n2 cancel 104 here 0\n3 endloop\n4 halt\n";
        "an illegal submission as often as can be": [Loop(65_536, 1), Illegal(0), EndLoop, Halt]
        => "0 loop 65536 every 1\n1 illegal 0\n2 endloop\n3 halt\n";
        "illegal submissions and a shutdown": [
            Submit(0, Timing::Once, 0), Illegal(0), Shutdown(0), Illegal(0), Submit(0, Timing::Rate(nanos(1)?), 1), Halt
        ] => "0 submit 0 schedule 0\n1 illegal 0\n2 shutdown 0\n3 illegal 0\n4 submit 0 rate 1 1\n5 halt\n";
    };
    for (name, instrs, text) in rows {
        let listed = listing(rt.alloc(), &code_of(rt.alloc(), instrs)?)?;
        assert_eq!(rt; listed.as_str(), *text, "{name}");
    }
    Ok(())
}
