//! The lines at the front of a snapshot.
ghost use Rattle.std.specs.Prelude.{◌^◌, ◌++◌, MatchOption, codes};
ghost use Rattle.trace_text.specs.Reading.{Any, IsRead, IsUnread};
ghost use Rattle.snapshot_text.specs.Spelling.{FitTwo, FitsHead, head_text, number_text, policies_text, run_text, shut_text, size_text, time_text};

use crate::head::Head;
use crate::words::{split_flag, split_two, strip};
use sched_time::Policies;
use task_table::Frame;

/// How a snapshot begins.
pub const VERSION: &[u8] = b"sched snapshot 1\n";

/// The lines at the front, and what follows them. `None` exactly when they are not there.
pub fn split_head(bytes: &[u8]) -> Option<(Head, &[u8])>
    ensures { MatchOption result (IsUnread head_text FitsHead bytes.now)
        (λ r. IsRead head_text FitsHead bytes.now r.0 r.1.now) }
{
    let Some(rest) = strip(bytes, VERSION) else {
        return None;
    };
    let Some((progress, rest)) = split_two(rest, b"lines ", b" written ", b"\n") else {
        return None;
    };
    let Some((size, rest)) = split_size(rest) else {
        return None;
    };
    let Some((time, rest)) = split_two(rest, b"moment ", b" earliest ", b"\n") else {
        return None;
    };
    let Some((numbers, rest)) = split_two(rest, b"numbers ", b" accepted ", b"\n") else {
        return None;
    };
    let Some((policies, rest)) = split_policies(rest) else {
        return None;
    };
    let Some((ends, rest)) = split_ends(rest) else {
        return None;
    };
    let head = Head {
        lines: progress.0,
        written: progress.1,
        table: Frame {
            moment: time.0,
            workers: size.0,
            slots: size.1,
            policies,
            shut: ends.0,
            stopped: ends.1,
        },
        earliest: time.1,
        count: numbers.0,
        accepted: numbers.1,
    };
    Some((head, rest))
}

/// How many workers there are, and how many slots, and what follows them. `None` exactly when they are not there.
fn split_size(bytes: &[u8]) -> Option<((u8, u32), &[u8])>
    ensures { MatchOption result (IsUnread size_text (FitTwo (2 ^ 8) (2 ^ 32)) bytes.now)
        (λ r. IsRead size_text (FitTwo (2 ^ 8) (2 ^ 32)) bytes.now (r.0.0, r.0.1) r.1.now) }
{
    let Some((size, rest)) = split_two(bytes, b"workers ", b" slots ", b"\n") else {
        return None;
    };
    if size.0 > u8::MAX as u64 {
        return None;
    }
    if size.1 > u32::MAX as u64 {
        return None;
    }
    Some(((size.0 as u8, size.1 as u32), rest))
}

/// The policies, and what follows them. `None` exactly when they are not there.
fn split_policies(bytes: &[u8]) -> Option<(Policies, &[u8])>
    ensures { MatchOption result (IsUnread policies_text Any bytes.now)
        (λ r. IsRead policies_text Any bytes.now r.0 r.1.now) }
{
    let Some((continues, rest)) = split_flag(bytes, b"continue ") else {
        return None;
    };
    let Some((executes, rest)) = split_flag(rest, b"execute ") else {
        return None;
    };
    let Some((removes, rest)) = split_flag(rest, b"remove ") else {
        return None;
    };
    let policies = Policies {
        continues,
        executes,
        removes,
    };
    Some((policies, rest))
}

/// Whether a call to shut down was made, and one at once, and what follows. `None` exactly when that is not there.
fn split_ends(bytes: &[u8]) -> Option<((bool, bool), &[u8])>
    ensures { MatchOption result (IsUnread shut_text Any bytes.now)
        (λ r. IsRead shut_text Any bytes.now (r.0.0, r.0.1) r.1.now) }
{
    let Some((shut, rest)) = split_flag(bytes, b"shut ") else {
        return None;
    };
    let Some((stopped, rest)) = split_flag(rest, b"stopped ") else {
        return None;
    };
    Some(((shut, stopped), rest))
}
