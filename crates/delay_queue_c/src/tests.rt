//! Tests of the calls.
ghost use Rattle.std.specs.Prelude.{◌≡◌, false};

use crate::entry::DqEntry;
use crate::insert::{dq_insert_unchecked, dq_ref_try_insert};
use crate::life::{dq_ref_free, dq_ref_new};
use crate::look::{dq_ref_contains, dq_ref_due_of, dq_ref_len, dq_ref_peek, dq_ref_touched};
use crate::many::{dq_ref_insert_many, dq_ref_poll_many};
use crate::poll::{dq_ref_poll, dq_ref_remove};
use crate::slot::Slot;
use crate::status::Status;
use std::process::Abort;
use std::test::Fail;

const NO_ENTRY: DqEntry = DqEntry { due: 0, task: 0 };

#[test]
fn an_entry_goes_in_and_comes_out(rt: HostRuntime) -> Result<(), Fail> {
    let alloc = rt.alloc();
    let mut slot = Slot::empty(alloc);
    let mut out = NO_ENTRY;
    let made = [
        dq_ref_new(alloc, &mut slot, 3),
        dq_ref_new(alloc, &mut slot, 3),
    ];
    assert_eq!(rt; made, [0, 4]);
    let inserted = [
        dq_ref_try_insert(alloc, &mut slot, 5, 0),
        dq_ref_try_insert(alloc, &mut slot, 6, 0),
        dq_ref_try_insert(alloc, &mut slot, 3, 3),
        dq_ref_try_insert(alloc, &mut slot, 3, 2),
    ];
    assert_eq!(rt; inserted, [0, 6, 5, 0]);
    let polled = [
        dq_ref_poll(alloc, &mut slot, 2, &mut out),
        dq_ref_poll(alloc, &mut slot, 3, &mut out),
    ];
    assert_eq!(rt; (polled, out.due, out.task), ([1, 0], 3, 2));
    let removed = [
        dq_ref_remove(alloc, &mut slot, 0),
        dq_ref_remove(alloc, &mut slot, 0),
    ];
    assert_eq!(rt; removed, [0, 1]);
    let freed = [dq_ref_free(alloc, &mut slot), dq_ref_free(alloc, &mut slot)];
    assert_eq!(rt; freed, [0, 3]);
    Ok(())
}

#[test]
fn a_queue_shows_its_entries(rt: HostRuntime) -> Result<(), Fail> {
    let alloc = rt.alloc();
    let mut slot = Slot::empty(alloc);
    let mut out = NO_ENTRY;
    let mut due = 0;
    let mut count = 0;
    let mut touched = 9;
    assert_eq!(rt; dq_ref_new(alloc, &mut slot, 2), 0);
    assert_eq!(rt; dq_ref_peek(alloc, &mut slot, &mut out), 1);
    assert_eq!(rt; dq_ref_touched(alloc, &mut slot, &mut touched), 0);
    assert_eq!(rt; touched, 0);
    assert_eq!(rt; dq_ref_try_insert(alloc, &mut slot, 7, 1), 0);
    assert_eq!(rt; dq_ref_peek(alloc, &mut slot, &mut out), 0);
    assert_eq!(rt; dq_ref_due_of(alloc, &mut slot, 1, &mut due), 0);
    assert_eq!(rt; dq_ref_len(alloc, &mut slot, &mut count), 0);
    assert_eq!(rt; (out.due, out.task, due, count), (7, 1, 7, 1));
    let there = [
        dq_ref_contains(alloc, &mut slot, 0),
        dq_ref_contains(alloc, &mut slot, 1),
    ];
    assert_eq!(rt; there, [1, 0]);
    assert_eq!(rt; dq_ref_free(alloc, &mut slot), 0);
    Ok(())
}

#[test]
fn an_entry_goes_in_unchecked(rt: HostRuntime) -> Result<(), Fail> {
    let alloc = rt.alloc();
    let mut slot = Slot::empty(alloc);
    let mut due = 0;
    if dq_ref_new(alloc, &mut slot, 1) == 0 {
        dq_insert_unchecked(alloc, &mut slot, 7, 0);
    }
    assert_eq!(rt; dq_ref_due_of(alloc, &mut slot, 0, &mut due), 0);
    assert_eq!(rt; due, 7);
    assert_eq!(rt; dq_ref_free(alloc, &mut slot), 0);
    Ok(())
}

#[test]
fn many_entries_go_in_and_come_out(rt: HostRuntime) -> Result<(), Fail> {
    let alloc = rt.alloc();
    let mut slot = Slot::empty(alloc);
    let mut count = 9;
    let mut out = [NO_ENTRY; 4];
    let entries = [
        DqEntry { due: 5, task: 1 },
        DqEntry { due: 4, task: 0 },
        DqEntry { due: 4, task: 1 },
    ];
    let empty = dq_ref_insert_many(alloc, &mut slot, &entries, &mut count);
    assert_eq!(rt; (empty, count), (3, 0));
    assert_eq!(rt; dq_ref_new(alloc, &mut slot, 2), 0);
    let inserted = dq_ref_insert_many(alloc, &mut slot, &entries, &mut count);
    assert_eq!(rt; (inserted, count), (6, 2));
    let polled = dq_ref_poll_many(alloc, &mut slot, 9, &mut out, &mut count);
    assert_eq!(rt;
        (polled, count, out[0].task, out[1].task, out[2].due),
        (0, 2, 0, 1, 0)
    );
    assert_eq!(rt; dq_ref_free(alloc, &mut slot), 0);
    Ok(())
}

#[test]
fn a_slot_without_a_queue_is_told(rt: HostRuntime) -> Result<(), Fail> {
    let alloc = rt.alloc();
    let mut slot = Slot::empty(alloc);
    let mut out = NO_ENTRY;
    let mut count = 9;
    let answers = [
        dq_ref_try_insert(alloc, &mut slot, 1, 0),
        dq_ref_poll(alloc, &mut slot, 1, &mut out),
        dq_ref_peek(alloc, &mut slot, &mut out),
        dq_ref_remove(alloc, &mut slot, 0),
        dq_ref_contains(alloc, &mut slot, 0),
        dq_ref_len(alloc, &mut slot, &mut count),
        Status::NoQueue.number(),
    ];
    assert_eq!(rt; answers, [3; 7]);
    assert_eq!(rt; count, 9);
    Ok(())
}
