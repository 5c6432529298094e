//! Policies, and what they are set to.
use sched_time::Which;
use std::process::Abort;
use trace_text::{split_truth, split_which};

/// Texts by the policy at their front, and what follows the space behind it.
const POLICIES: &[(&str, Option<(Which, &[u8])>)] = &[
    ("continue true\n", Some((Which::Continue, b"true\n"))),
    ("execute true\n", Some((Which::Execute, b"true\n"))),
    ("remove true\n", Some((Which::Remove, b"true\n"))),
    ("removes true\n", None),
    ("remove", None),
];

/// Texts by what a policy is set to at their front, and what follows the newline behind it.
const TRUTHS: &[(&str, Option<(bool, &[u8])>)] = &[
    ("true\nx", Some((true, b"x"))),
    ("false\n", Some((false, b""))),
    ("false", None),
    ("True\n", None),
];

#[test]
fn a_policy_to_the_space_behind_it(rt: HostRuntime) {
    for (text, wanted) in POLICIES {
        assert!(rt; split_which(text.as_bytes()) == *wanted, "{text}");
    }
}

#[test]
fn what_a_policy_is_set_to_and_the_newline(rt: HostRuntime) {
    for (text, wanted) in TRUTHS {
        assert!(rt; split_truth(text.as_bytes()) == *wanted, "{text}");
    }
}
