//! Faults of headers: each by itself, two at once, and those of a later block.
use super::*;

/// Faults of a header.
const REFUSES_AT_THE_HEADER: &str = r#"UnknownKey block 1 call 0 | x = 1
UnknownKey block 1 call 0 | name = "a"
WrongType block 1 call 0 | at = "0"
WrongType block 1 call 0 | unit = 1
WrongType block 1 call 0 | times = "1"
WrongType block 1 call 0 | every = 0.5
WrongType block 1 call 0 | call = 1
WrongType block 1 call 0 | call = [{}, 1]
BadUnit block 1 call 0 | unit = ""
BadUnit block 1 call 0 | unit = "NS"
BadTimes block 1 call 0 | times = -1
BadTimes block 1 call 0 | times = 65537 / every = 0
Missing block 1 call 0 | times = 65536
Negative block 1 call 0 | every = -1
TooLarge block 1 call 0 | at = 4611686018427387905
TooLarge block 1 call 0 | every = 4611686018427387905
TooLarge block 1 call 0 | unit = "s" / at = 9223372036854775807"#;

/// Headers with two faults, each in both orders.
const TELLS_THE_FIRST_FAULT_OF_A_HEADER: &str = r#"UnknownKey block 1 call 0 | x = 1 ⇄ at = "0"
WrongType block 1 call 0 | times = "2" ⇄ unit = "year"
BadUnit block 1 call 0 | unit = "year" ⇄ times = 0
BadTimes block 1 call 0 | times = 65537 ⇄ at = 0
Missing block 1 call 0 | times = 2 ⇄ at = -1
Negative block 1 call 0 | every = -1 ⇄ at = 4611686018427387905"#;

/// Faults of a second block, behind one that begins at 100.
const REFUSES_A_HEADER_AFTER_ANOTHER_BLOCK: &str =
    r#"OutOfOrder block 2 call 0 | call = [{ op = "schedule", name = "a", delay = 1, at = 5 }] / [[block]] / at = 104 / call = [{ op = "schedule", name = "b", delay = 1 }, { op = "cancel", name = "b" }]
OutOfOrder block 2 call 0 | call = [{ op = "schedule", name = "a", delay = 1, at = 5 }] / [[block]] / call = [{ op = "schedule", name = "b", delay = 1 }, { op = "cancel", name = "b" }]
TooLarge block 2 call 0 | call = [{ op = "schedule", name = "a", delay = 1, at = 5 }] / [[block]] / at = 104 / every = 4611686018427387905 / call = [{ op = "schedule", name = "b", delay = 1 }, { op = "cancel", name = "b" }]
OutOfOrder block 2 call 0 | call = [{ op = "schedule", name = "a", delay = 1, at = 5 }] / [[block]] / at = 104 / times = 65536 / every = 0 / call = [{ op = "schedule", name = "b", delay = 1 }, { op = "cancel", name = "b" }]
TooMany block 2 call 0 | call = [{ op = "schedule", name = "a", delay = 1, at = 5 }] / [[block]] / at = 105 / times = 65536 / every = 0 / call = [{ op = "schedule", name = "b", delay = 1 }, { op = "cancel", name = "b" }]
OutOfOrder block 2 call 0 | times = 3 / every = 10 / call = [{ op = "schedule", name = "a", delay = 1, at = 5 }] / [[block]] / at = 124 / call = [{ op = "schedule", name = "b", delay = 1 }, { op = "cancel", name = "b" }]
OutOfOrder block 2 call 0 | unit = "us" / call = [{ op = "schedule", name = "a", delay = 1, at = 5 }] / [[block]] / at = 104999 / call = [{ op = "schedule", name = "b", delay = 1 }, { op = "cancel", name = "b" }]
plan | [[block]] / at = 99 / [[block]] / at = 99"#;

#[test]
fn tells_faults_of_headers(rt: HostRuntime) -> Result<(), Fail> {
    tells_each(&rt, HEADER, REFUSES_AT_THE_HEADER)?;
    tells_each(&rt, HEADER, TELLS_THE_FIRST_FAULT_OF_A_HEADER)?;
    tells_each(&rt, LATE_BLOCK, REFUSES_A_HEADER_AFTER_ANOTHER_BLOCK)
}
