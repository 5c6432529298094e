//! The lines of a snapshot of which there may be any number.
ghost use Rattle.std.specs.Prelude.{◌≡◌, ◌^◌, MatchOption, codes};
ghost use Rattle.trace_text.specs.Reading.{IsRead, IsUnread};
ghost use Rattle.snapshot_text.specs.Spelling.{FitsGiven, FitsImage, FitsSlot, empty_text, given_text, task_text};

use crate::page::Page;
use crate::spelled::Spelled;
use crate::task::split_task;
use crate::task_line::put_task;
use crate::words::strip;
use std::alloc::Allocator;
use task_table::Image;
use trace_text::{code_before, number_before};

impl Spelled for Image {
    ghost use Rattle.snapshot_text.specs.Spelling.{FitsImage, task_text};

    ghost spell = { task_text };

    ghost fits = { FitsImage };

    fn split(bytes: &[u8]) -> Option<(Image, &[u8])> {
        split_task(bytes)
    }

    fn put<A: Allocator>(&self, page: &mut Page<A>) {
        put_task(page, self);
    }
}

/// A number of a caller's own that goes with a task.
impl Spelled for u64 {
    ghost use Rattle.snapshot_text.specs.Spelling.{FitsGiven, given_text};

    ghost spell = { given_text };

    ghost fits = { FitsGiven };

    fn split(bytes: &[u8]) -> Option<(u64, &[u8])> {
        let Some(rest) = strip(bytes, b"data ") else {
            return None;
        };
        let Some((number, rest)) = number_before(rest, b"\n") else {
            return None;
        };
        Some((number, rest))
    }

    fn put<A: Allocator>(&self, page: &mut Page<A>) {
        page.put(b"data ");
        page.put_number(*self);
        page.put(b"\n");
    }
}

/// An empty slot.
impl Spelled for u32 {
    ghost use Rattle.snapshot_text.specs.Spelling.{FitsSlot, empty_text};

    ghost spell = { empty_text };

    ghost fits = { FitsSlot };

    fn split(bytes: &[u8]) -> Option<(u32, &[u8])> {
        let Some(rest) = strip(bytes, b"free ") else {
            return None;
        };
        let Some((slot, rest)) = code_before(rest, b"\n") else {
            return None;
        };
        Some((slot, rest))
    }

    fn put<A: Allocator>(&self, page: &mut Page<A>) {
        page.put(b"free ");
        page.put_number(u64::from(*self));
        page.put(b"\n");
    }
}
