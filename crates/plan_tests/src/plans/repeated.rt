//! Calls of blocks that are repeated.
use super::*;

/// Policies, shutdowns of both kinds and questions in repeated blocks; none is a submission that a cancel could name.
const REFUSES_POLICIES_SHUTDOWNS_AND_QUESTIONS: &str =
    r#"OutOfOrder block 1 call 2 | times = 2 / every = 4 / call = [{ op = "ask", at = 4 }, { op = "policy", which = "continue", value = false, at = 3 }]
OutOfOrder block 1 call 2 | times = 2 / every = 9 / call = [{ op = "ask", at = 4 }, { op = "policy", which = "continue", value = false, at = 10 }]
TooLarge block 1 call 2 | times = 2 / every = 4611686018427387900 / call = [{ op = "ask", at = 4 }, { op = "policy", which = "continue", value = false, at = 5 }]
TooMany block 1 call 0 | times = 32769 / every = 0 / call = [{ op = "policy", which = "continue", value = false }, { op = "policy", which = "continue", value = false }]
plan | times = 32768 / every = 9 / call = [{ op = "policy", which = "continue", value = false }, { op = "policy", which = "continue", value = false, at = 9 }]
UnknownName block 1 call 2 | call = [{ op = "policy", which = "continue", value = false }, { op = "cancel", name = "ask" }]
OutOfOrder block 1 call 2 | times = 2 / every = 4 / call = [{ op = "ask", at = 4 }, { op = "shutdown", at = 3 }]
OutOfOrder block 1 call 2 | times = 2 / every = 9 / call = [{ op = "ask", at = 4 }, { op = "shutdown", at = 10 }]
TooLarge block 1 call 2 | times = 2 / every = 4611686018427387900 / call = [{ op = "ask", at = 4 }, { op = "shutdown", at = 5 }]
TooMany block 1 call 0 | times = 32769 / every = 0 / call = [{ op = "shutdown" }, { op = "shutdown" }]
plan | times = 32768 / every = 9 / call = [{ op = "shutdown" }, { op = "shutdown", at = 9 }]
UnknownName block 1 call 2 | call = [{ op = "shutdown" }, { op = "cancel", name = "ask" }]
OutOfOrder block 1 call 2 | times = 2 / every = 4 / call = [{ op = "ask", at = 4 }, { op = "shutdown_now", at = 3 }]
OutOfOrder block 1 call 2 | times = 2 / every = 9 / call = [{ op = "ask", at = 4 }, { op = "shutdown_now", at = 10 }]
TooLarge block 1 call 2 | times = 2 / every = 4611686018427387900 / call = [{ op = "ask", at = 4 }, { op = "shutdown_now", at = 5 }]
TooMany block 1 call 0 | times = 32769 / every = 0 / call = [{ op = "shutdown_now" }, { op = "shutdown_now" }]
plan | times = 32768 / every = 9 / call = [{ op = "shutdown_now" }, { op = "shutdown_now", at = 9 }]
UnknownName block 1 call 2 | call = [{ op = "shutdown_now" }, { op = "cancel", name = "ask" }]
OutOfOrder block 1 call 2 | times = 2 / every = 4 / call = [{ op = "ask", at = 4 }, { op = "ask", at = 3 }]
OutOfOrder block 1 call 2 | times = 2 / every = 9 / call = [{ op = "ask", at = 4 }, { op = "ask", at = 10 }]
TooLarge block 1 call 2 | times = 2 / every = 4611686018427387900 / call = [{ op = "ask", at = 4 }, { op = "ask", at = 5 }]
TooMany block 1 call 0 | times = 32769 / every = 0 / call = [{ op = "ask" }, { op = "ask" }]
plan | times = 32768 / every = 9 / call = [{ op = "ask" }, { op = "ask", at = 9 }]
UnknownName block 1 call 2 | call = [{ op = "ask" }, { op = "cancel", name = "ask" }]"#;

/// Calls of blocks by their headers and offsets.
const REFUSES_CALLS_OF_A_REPEATED_BLOCK: &str =
    r#"OutOfOrder block 1 call 1 | times = 2 / every = 4 / call = [{ op = "schedule", name = "a", delay = 1, at = 5 }]
plan | times = 2 / every = 4 / call = [{ op = "schedule", name = "a", delay = 1, at = 4 }]
OutOfOrder block 1 call 1 | times = 2 / every = 4 / call = [{ op = "execute", name = "a", at = 5 }]
plan | times = 2 / every = 4 / call = [{ op = "execute", name = "a", at = 4 }]
plan | times = 1 / every = 4 / call = [{ op = "schedule", name = "a", delay = 1, at = 5 }]
TooLarge block 1 call 1 | times = 65536 / every = 4611686018427387904 / call = [{ op = "schedule", name = "a", delay = 1, at = 0 }]
plan | times = 2 / every = 4611686018427387904 / call = [{ op = "schedule", name = "a", delay = 1, at = 0 }]
TooLarge block 1 call 1 | times = 65536 / every = 4611686018427387904 / call = [{ op = "ask" }]
TooLarge block 1 call 1 | times = 2 / every = 4611686018427387904 / call = [{ op = "schedule", name = "a", delay = 1, at = 1 }]
TooLarge block 1 call 1 | at = 1 / times = 2 / every = 4611686018427387904 / call = [{ op = "schedule", name = "a", delay = 1, at = 0 }]
plan | at = 4 / times = 3 / every = 2305843009213693948 / call = [{ op = "schedule", name = "a", delay = 1, at = 4 }]
TooLarge block 1 call 1 | at = 4 / times = 3 / every = 2305843009213693948 / call = [{ op = "schedule", name = "a", delay = 1, at = 5 }]"#;

/// As many calls as a plan may have, and more.
const TAKES_65536_CALLS_OF_A_PLAN: &str =
    r#"plan | times = 65536 / every = 0 / call = [{ op = "schedule", name = "a", delay = 1 }]
plan | times = 65536 / every = 0 / call = [{ op = "schedule", name = "a", delay = 1 }] / [[block]]
plan | times = 65535 / every = 0 / call = [{ op = "schedule", name = "a", delay = 1 }] / [[block]] / call = [{ op = "schedule", name = "b", delay = 1 }]
plan | times = 32768 / every = 0 / call = [{ op = "schedule", name = "a", delay = 1 }, { op = "cancel", name = "a" }]
plan | times = 32768 / every = 0 / call = [{ op = "execute", name = "a" }, { op = "cancel", name = "a" }]
TooMany block 1 call 0 | times = 32769 / every = 0 / call = [{ op = "execute", name = "a" }, { op = "shutdown_now" }]
TooMany block 2 call 0 | times = 65536 / every = 0 / call = [{ op = "schedule", name = "a", delay = 1 }] / [[block]] / call = [{ op = "schedule", name = "b", delay = 1 }]
TooMany block 2 call 0 | times = 32768 / every = 0 / call = [{ op = "schedule", name = "a", delay = 1 }, { op = "cancel", name = "a" }] / [[block]] / call = [{ op = "schedule", name = "b", delay = 1 }]
TooMany block 1 call 0 | times = 32769 / every = 0 / call = [{ op = "schedule", name = "a", delay = 1 }, { op = "cancel", name = "a" }]"#;

#[test]
fn tells_calls_of_repeated_blocks(rt: HostRuntime) -> Result<(), Fail> {
    tells_each(&rt, HEADER, REFUSES_POLICIES_SHUTDOWNS_AND_QUESTIONS)?;
    tells_each(&rt, HEADER, REFUSES_CALLS_OF_A_REPEATED_BLOCK)?;
    tells_each(&rt, HEADER, TAKES_65536_CALLS_OF_A_PLAN)
}
