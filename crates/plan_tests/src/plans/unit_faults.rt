//! Faults of version 2 by their order: two at once, and times of different units beside one another.
use super::*;

/// Headers of version 2 with two faults, each in both orders.
const TELLS_THE_FIRST_FAULT_OF_A_HEADER: &str =
    r#"UnknownKey block 1 call 0 | unit = "s" ⇄ at_unit = 1
UnknownKey block 1 call 0 | unit = "year" ⇄ every_unit = "year"
UnknownKey block 1 call 0 | delay_unit = 1 ⇄ at = "1"
WrongType block 1 call 0 | at_unit = "year" ⇄ every_unit = 1
WrongType block 1 call 0 | every_unit = "year" ⇄ at_unit = 1
WrongType block 1 call 0 | at_unit = "year" ⇄ at = "1"
WrongType block 1 call 0 | at_unit = "year" ⇄ every = 1.0
WrongType block 1 call 0 | every_unit = "year" ⇄ times = "2"
WrongType block 1 call 0 | every_unit = "year" ⇄ call = 1
WrongType block 1 call 0 | at_unit = 1 ⇄ times = 0
BadUnit block 1 call 0 | at_unit = "year" ⇄ times = 0
BadUnit block 1 call 0 | every_unit = "year" ⇄ times = 65537
BadUnit block 1 call 0 | at_unit = "year" ⇄ times = 2
BadUnit block 1 call 0 | every_unit = "year" ⇄ times = 2
BadUnit block 1 call 0 | at_unit = "year" ⇄ at = -1
BadUnit block 1 call 0 | at_unit = "year" ⇄ every = -1
BadUnit block 1 call 0 | every_unit = "year" ⇄ at = -1
BadUnit block 1 call 0 | at_unit = "year" ⇄ at = 9223372036854775807
BadUnit block 1 call 0 | every_unit = "year" ⇄ at = 4611686018427387905
BadUnit block 1 call 0 | at_unit = "year" ⇄ times = 65536 / every = 0 / call = [{ op = "ask" }, { op = "ask" }]
BadUnit block 1 call 0 | at_unit = "year" ⇄ call = [{}]
BadTimes block 1 call 0 | at = -1 / at_unit = "d" ⇄ times = 0
Missing block 1 call 0 | at = -1 / at_unit = "d" ⇄ times = 2 / every_unit = "d"
Negative block 1 call 0 | at = 53376 / at_unit = "d" ⇄ every = -1 / every_unit = "h"
Negative block 1 call 0 | at = -1 / at_unit = "min" ⇄ every = 53376 / every_unit = "d""#;

/// Calls of version 2 with two faults, each in both orders.
const TELLS_THE_FIRST_FAULT_OF_A_CALL: &str =
    r#"Missing block 1 call 1 | at_unit = "year" ⇄ name = "a"
Missing block 1 call 1 | at_unit = 1 ⇄ every_unit = "s"
WrongType block 1 call 1 | at_unit = "year" ⇄ op = "run"
WrongType block 1 call 1 | delay_unit = "year" ⇄ op = 1
UnknownKey block 1 call 1 | op = "execute" / name = "a" ⇄ delay_unit = "year"
UnknownKey block 1 call 1 | op = "execute" / name = 1 ⇄ delay_unit = "s"
UnknownKey block 1 call 1 | op = "ask" / at_unit = "year" ⇄ every_unit = "s"
UnknownKey block 1 call 1 | op = "schedule" / name = "a" ⇄ unit = "s"
Missing block 1 call 1 | op = "schedule" / name = "a" ⇄ delay_unit = "year"
Missing block 1 call 1 | op = "schedule" / name = "a" ⇄ delay_unit = 1
Missing block 1 call 1 | op = "rate" / name = "a" / period = 1 ⇄ first_unit = "s"
WrongType block 1 call 1 | op = "schedule" / delay = 1 / delay_unit = "year" ⇄ name = 1
WrongType block 1 call 1 | op = "schedule" / name = "a" / delay_unit = "year" ⇄ delay = "1"
WrongType block 1 call 1 | op = "schedule" / name = "a" / delay = 1 / delay_unit = "year" ⇄ at_unit = 1
WrongType block 1 call 1 | op = "fixed" / name = "a" / first = 1 / delay = 1 / first_unit = "year" ⇄ delay_unit = 1
WrongType block 1 call 1 | op = "rate" / name = "a" / first = 1 / period = 1 / period_unit = "year" ⇄ first_unit = 1
WrongType block 1 call 1 | op = "policy" / value = true / at_unit = "year" ⇄ which = "x"
WrongType block 1 call 1 | op = "execute" / name = "" ⇄ at_unit = 1
BadUnit block 1 call 1 | op = "execute" / name = "" ⇄ at_unit = "year"
BadUnit block 1 call 1 | op = "schedule" / name = "" / delay = 1 ⇄ delay_unit = "year"
BadUnit block 1 call 1 | op = "rate" / name = "" / first = 1 / period = 1 ⇄ period_unit = "year"
BadUnit block 1 call 1 | op = "cancel" / name = "a" ⇄ at_unit = "year"
BadUnit block 1 call 1 | op = "ask" / at = -1 ⇄ at_unit = "year"
BadUnit block 1 call 1 | op = "schedule" / name = "a" / delay = 1 / at = -1 ⇄ delay_unit = "year"
BadUnit block 1 call 1 | op = "ask" / at = 4611686018427387905 ⇄ at_unit = "year"
BadUnit block 1 call 1 | op = "schedule" / name = "a" / delay = 4611686018427387905 ⇄ at_unit = "year"
BadUnit block 1 call 1 | op = "rate" / name = "a" / first = 1 / period = 53376 / period_unit = "d" ⇄ first_unit = "year"
BadName block 1 call 1 | op = "schedule" / delay = 53376 / delay_unit = "d" ⇄ name = ""
UnknownName block 1 call 1 | op = "cancel" / at = 53376 / at_unit = "d" ⇄ name = "a"
Negative block 1 call 1 | op = "schedule" / name = "a" / delay = 53376 / delay_unit = "d" ⇄ at = -1 / at_unit = "h""#;

/// Blocks and calls of version 2 behind others.
const ORDERS_TIMES_OF_DIFFERENT_UNITS: &str =
    r#"BadUnit block 1 call 2 | call = [{ op = "execute", name = "a" }, { op = "execute", name = "a", at_unit = "year" }]
BadUnit block 1 call 2 | call = [{ op = "execute", name = "a" }, { at_unit = "year", name = "a", op = "execute" }]
BadUnit block 1 call 2 | call = [{ op = "execute", name = "a" }, { op = "schedule", name = "a", delay = 1, delay_unit = "year" }]
DuplicateName block 1 call 2 | call = [{ op = "execute", name = "a" }, { op = "schedule", name = "a", delay = 53376, delay_unit = "d" }]
BadUnit block 1 call 2 | call = [{ op = "ask", at = 1, at_unit = "s" }, { op = "ask", at = 1, at_unit = "year" }]
OutOfOrder block 1 call 2 | call = [{ op = "ask", at = 1, at_unit = "s" }, { op = "ask", at = 999, at_unit = "ms" }]
plan 2 | call = [{ op = "ask", at = 1, at_unit = "s" }, { op = "ask", at = 1000, at_unit = "ms" }]
OutOfOrder block 1 call 2 | call = [{ op = "ask", at = 1, at_unit = "d" }, { op = "ask", at = 23, at_unit = "h" }]
plan 2 | call = [{ op = "ask", at = 1, at_unit = "d" }, { op = "ask", at = 24, at_unit = "h" }]
OutOfOrder block 1 call 2 | call = [{ op = "ask", at = 1, at_unit = "h" }, { op = "ask", at = 59, at_unit = "min" }]
plan 2 | call = [{ op = "ask", at = 1, at_unit = "h" }, { op = "ask", at = 60, at_unit = "min" }]
OutOfOrder block 1 call 2 | call = [{ op = "ask", at = 1, at_unit = "min" }, { op = "ask", at = 59999999999 }]
plan 2 | call = [{ op = "ask", at = 1, at_unit = "min" }, { op = "ask", at = 60000000000 }]
OutOfOrder block 1 call 1 | times = 2 / every = 1 / every_unit = "h" / call = [{ op = "ask", at = 61, at_unit = "min" }]
plan 2 | times = 2 / every = 1 / every_unit = "h" / call = [{ op = "ask", at = 60, at_unit = "min" }]
plan 2 | times = 2 / every = 53375 / every_unit = "d" / call = [{ op = "ask", at = 86018427387904 }]
TooLarge block 1 call 1 | times = 2 / every = 53375 / every_unit = "d" / call = [{ op = "ask", at = 86018427387905 }]
TooLarge block 1 call 1 | times = 3 / every = 53375 / every_unit = "d" / call = [{ op = "ask" }]
BadUnit block 2 call 0 | at = 100 / call = [{ op = "ask" }] / [[block]] / at = 99 / at_unit = "year"
BadUnit block 2 call 0 | at = 100 / call = [{ op = "ask" }] / [[block]] / at_unit = "year" / at = 99
OutOfOrder block 2 call 0 | at = 1 / at_unit = "min" / call = [{ op = "ask" }] / [[block]] / at = 59 / at_unit = "s"
plan 2 | at = 1 / at_unit = "min" / call = [{ op = "ask" }] / [[block]] / at = 60 / at_unit = "s"
plan 2 | at = 1 / at_unit = "min" / [[block]] / at = 59 / at_unit = "s"
plan 2 | at_unit = "min" / every_unit = "d" / [[block]] / at_unit = "h"
OutOfOrder block 2 call 0 | times = 2 / every = 1 / every_unit = "d" / call = [{ op = "ask", at = 1, at_unit = "h" }] / [[block]] / at = 24 / at_unit = "h"
plan 2 | times = 2 / every = 1 / every_unit = "d" / call = [{ op = "ask", at = 1, at_unit = "h" }] / [[block]] / at = 25 / at_unit = "h"
Ambiguous block 2 call 1 | times = 2 / every = 0 / call = [{ op = "execute", name = "a" }] / [[block]] / call = [{ op = "cancel", name = "a", at = -1, at_unit = "h" }]
BadUnit block 2 call 1 | times = 2 / every = 0 / call = [{ op = "execute", name = "a" }] / [[block]] / call = [{ op = "cancel", name = "a", at_unit = "year" }]"#;

#[test]
fn tells_faults_by_their_order(rt: HostRuntime) -> Result<(), Fail> {
    tells_each(&rt, HEADER_2, TELLS_THE_FIRST_FAULT_OF_A_HEADER)?;
    tells_each(&rt, CALL_2, TELLS_THE_FIRST_FAULT_OF_A_CALL)?;
    tells_each(&rt, HEADER_2, ORDERS_TIMES_OF_DIFFERENT_UNITS)
}
