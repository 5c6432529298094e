//! Faults of calls: each by itself, two at once, and those of a later call.
use super::*;

/// Faults of a call.
const REFUSES_AT_A_CALL: &str = r#"WrongType block 1 call 1 | op = 1
WrongType block 1 call 1 | op = "rates"
Missing block 1 call 1 | op = "schedule"
Missing block 1 call 1 | op = "schedule" / name = "a"
Missing block 1 call 1 | op = "execute"
Missing block 1 call 1 | op = "execute" / at = 1
Missing block 1 call 1 | op = "rate" / name = "a" / first = 1
Missing block 1 call 1 | op = "rate" / name = "a" / period = 1
Missing block 1 call 1 | op = "rate" / first = 1 / period = 1
Missing block 1 call 1 | op = "fixed" / name = "a" / first = 1
Missing block 1 call 1 | op = "fixed" / name = "a" / delay = 1
Missing block 1 call 1 | op = "fixed" / first = 1 / delay = 1
Missing block 1 call 1 | op = "cancel"
UnknownKey block 1 call 1 | op = "schedule" / name = "a" / delay = 1 / first = 1
UnknownKey block 1 call 1 | op = "execute" / name = "a" / delay = 0
UnknownKey block 1 call 1 | op = "execute" / name = "a" / first = 0
UnknownKey block 1 call 1 | op = "execute" / name = "a" / period = 1
UnknownKey block 1 call 1 | op = "execute" / delay = 0
UnknownKey block 1 call 1 | op = "rate" / name = "a" / first = 1 / delay = 1
UnknownKey block 1 call 1 | op = "fixed" / name = "a" / first = 1 / period = 1
UnknownKey block 1 call 1 | op = "cancel" / name = "a" / value = true
WrongType block 1 call 1 | op = "schedule" / name = "a" / delay = 1.5
WrongType block 1 call 1 | op = "schedule" / name = 1 / delay = 1
WrongType block 1 call 1 | op = "execute" / name = 1
WrongType block 1 call 1 | op = "execute" / name = "a" / at = "0"
WrongType block 1 call 1 | op = "Execute" / name = "a"
WrongType block 1 call 1 | op = "rate" / name = "a" / first = "1" / period = 1
WrongType block 1 call 1 | op = "rate" / name = "a" / first = 1 / period = "1"
WrongType block 1 call 1 | op = "fixed" / name = "a" / first = 1 / delay = 1.0
WrongType block 1 call 1 | op = "cancel" / name = 1
WrongType block 1 call 1 | op = "cancel" / name = "a" / at = "0"
BadName block 1 call 1 | op = "schedule" / name = "a b" / delay = 1
BadName block 1 call 1 | op = "schedule" / name = "é" / delay = 1
BadName block 1 call 1 | op = "execute" / name = ""
BadName block 1 call 1 | op = "execute" / name = "a b"
BadName block 1 call 1 | op = "rate" / name = "" / first = 1 / period = 1
BadName block 1 call 1 | op = "fixed" / name = "" / first = 1 / delay = 1
Negative block 1 call 1 | op = "schedule" / name = "a" / delay = 1 / at = -1
Negative block 1 call 1 | op = "execute" / name = "a" / at = -1
TooLarge block 1 call 1 | op = "schedule" / name = "a" / delay = 1 / at = 4611686018427387905
TooLarge block 1 call 1 | op = "execute" / name = "a" / at = 4611686018427387905
plan | op = "execute" / name = "a" / at = 4611686018427387904
plan | op = "execute" / name = "a"
TooLarge block 1 call 1 | op = "rate" / name = "a" / first = 4611686018427387905 / period = 1
TooLarge block 1 call 1 | op = "rate" / name = "a" / first = 1 / period = 4611686018427387905
TooLarge block 1 call 1 | op = "fixed" / name = "a" / first = 4611686018427387905 / delay = 1
TooLarge block 1 call 1 | op = "fixed" / name = "a" / first = 1 / delay = 9223372036854775807"#;

/// Faults of a policy, of both kinds of shutdown and of a question.
const REFUSES_A_POLICY_A_SHUTDOWN_AND_A_QUESTION: &str = r#"WrongType block 1 call 1 | op = "Policy"
WrongType block 1 call 1 | op = "invokeAll"
WrongType block 1 call 1 | op = "shutdownNow"
WrongType block 1 call 1 | op = "shutdown_no"
Missing block 1 call 1 | op = "policy"
Missing block 1 call 1 | op = "policy" / which = "remove"
Missing block 1 call 1 | op = "policy" / value = true
UnknownKey block 1 call 1 | op = "policy" / which = "remove" / value = true / name = "a"
UnknownKey block 1 call 1 | op = "shutdown" / name = "a"
UnknownKey block 1 call 1 | op = "shutdown" / value = true
UnknownKey block 1 call 1 | op = "shutdown_now" / name = "a"
UnknownKey block 1 call 1 | op = "shutdown_now" / which = "remove"
UnknownKey block 1 call 1 | op = "shutdown_now" / delay = 0
UnknownKey block 1 call 1 | op = "ask" / which = "remove"
UnknownKey block 1 call 1 | op = "ask" / delay = 1
WrongType block 1 call 1 | op = "policy" / which = "" / value = true
WrongType block 1 call 1 | op = "policy" / which = "Remove" / value = true
WrongType block 1 call 1 | op = "policy" / which = true / value = true
WrongType block 1 call 1 | op = "policy" / which = "remove" / value = 1
WrongType block 1 call 1 | op = "policy" / which = "remove" / value = "true"
WrongType block 1 call 1 | op = "policy" / which = "remove" / value = true / at = "0"
WrongType block 1 call 1 | op = "shutdown" / at = 0.5
WrongType block 1 call 1 | op = "shutdown_now" / at = 0.5
WrongType block 1 call 1 | op = "ask" / at = true
Negative block 1 call 1 | op = "policy" / which = "remove" / value = true / at = -1
Negative block 1 call 1 | op = "shutdown" / at = -1
Negative block 1 call 1 | op = "shutdown_now" / at = -1
Negative block 1 call 1 | op = "ask" / at = -9223372036854775808
TooLarge block 1 call 1 | op = "policy" / which = "remove" / value = true / at = 4611686018427387905
TooLarge block 1 call 1 | op = "shutdown" / at = 4611686018427387905
TooLarge block 1 call 1 | op = "shutdown_now" / at = 4611686018427387905
plan | op = "shutdown_now" / at = 4611686018427387904
plan | op = "shutdown_now"
TooLarge block 1 call 1 | op = "ask" / at = 9223372036854775807"#;

/// Calls with two faults, each in both orders.
const TELLS_THE_FIRST_FAULT_OF_A_CALL: &str = r#"Missing block 1 call 1 | x = 1 ⇄ name = 1
WrongType block 1 call 1 | op = "run" ⇄ x = 1
UnknownKey block 1 call 1 | op = "schedule" / x = 1 ⇄ delay = 1
Missing block 1 call 1 | op = "schedule" ⇄ delay = "1"
WrongType block 1 call 1 | op = "schedule" / name = "" ⇄ delay = "1"
BadName block 1 call 1 | op = "cancel" / name = "" ⇄ at = -1
UnknownName block 1 call 1 | op = "cancel" / name = "a" ⇄ at = -1
Negative block 1 call 1 | op = "schedule" / name = "a" / at = -1 ⇄ delay = 4611686018427387905
UnknownKey block 1 call 1 | op = "execute" / name = "" ⇄ delay = -1
BadName block 1 call 1 | op = "execute" / name = "" ⇄ at = -1
UnknownKey block 1 call 1 | op = "policy" / x = 1 ⇄ which = 1
Missing block 1 call 1 | op = "policy" ⇄ which = "x"
WrongType block 1 call 1 | op = "policy" / which = "x" ⇄ value = true / at = -1
UnknownKey block 1 call 1 | op = "shutdown" / name = "" ⇄ at = -1
UnknownKey block 1 call 1 | op = "shutdown_now" / x = 1 / at = "1"
UnknownKey block 1 call 1 | at = "1" / x = 1 / op = "shutdown_now"
WrongType block 1 call 1 | op = "ask" ⇄ at = "-1""#;

/// Faults of a second call.
const TELLS_THE_FIRST_FAULT_OF_A_LATER_CALL: &str =
    r#"DuplicateName block 1 call 2 | call = [{ op = "schedule", name = "a", delay = 1, at = 2 }, { op = "schedule", name = "a", delay = 1, at = -1 }]
DuplicateName block 1 call 2 | call = [{ op = "schedule", name = "a", delay = 1, at = 2 }, { at = -1, delay = 1, name = "a", op = "schedule" }]
DuplicateName block 1 call 2 | call = [{ op = "schedule", name = "a", delay = 1, at = 2 }, { op = "execute", name = "a", at = 2 }]
DuplicateName block 1 call 2 | call = [{ op = "execute", name = "a", at = 2 }, { op = "schedule", name = "a", delay = 1, at = 2 }]
DuplicateName block 1 call 2 | call = [{ op = "execute", name = "a" }, { op = "execute", name = "a" }]
OutOfOrder block 1 call 2 | call = [{ op = "execute", name = "a", at = 2 }, { op = "execute", name = "b", at = 1 }]
plan | call = [{ op = "execute", name = "a", at = 2 }, { op = "cancel", name = "a", at = 2 }]
OutOfOrder block 1 call 2 | call = [{ op = "execute", name = "a", at = 2 }, { op = "shutdown_now", at = 1 }]
UnknownName block 1 call 2 | call = [{ op = "schedule", name = "a", delay = 1, at = 2 }, { op = "cancel", name = "b", at = -1 }]
Negative block 1 call 2 | call = [{ op = "schedule", name = "a", delay = 1, at = 2 }, { op = "cancel", name = "a", at = -1 }]
TooLarge block 1 call 2 | call = [{ op = "schedule", name = "a", delay = 1, at = 2 }, { op = "cancel", name = "a", at = 4611686018427387905 }]
OutOfOrder block 1 call 2 | call = [{ op = "schedule", name = "a", delay = 1, at = 2 }, { op = "cancel", name = "a", at = 1 }]
OutOfOrder block 1 call 2 | call = [{ op = "schedule", name = "a", delay = 1, at = 2 }, { op = "cancel", name = "a" }]
TooLarge block 1 call 2 | call = [{ op = "schedule", name = "a", delay = 1, at = 2 }, { op = "schedule", name = "b", delay = 4611686018427387905, at = 1 }]
TooLarge block 1 call 2 | call = [{ op = "schedule", name = "a", delay = 1, at = 2 }, { op = "rate", name = "b", first = 0, period = 4611686018427387905, at = 1 }]"#;

#[test]
fn tells_faults_of_calls(rt: HostRuntime) -> Result<(), Fail> {
    tells_each(&rt, CALL, REFUSES_AT_A_CALL)?;
    tells_each(&rt, CALL, REFUSES_A_POLICY_A_SHUTDOWN_AND_A_QUESTION)?;
    tells_each(&rt, CALL, TELLS_THE_FIRST_FAULT_OF_A_CALL)?;
    tells_each(&rt, HEADER, TELLS_THE_FIRST_FAULT_OF_A_LATER_CALL)
}
