//! The line of a task, as it is written.
ghost use Rattle.std.specs.Prelude.{◌≡◌, ◌+◌, ◌≤◌, ◌++◌, length};
ghost use Rattle.snapshot_text.specs.Spelling.{standing_of, standing_text, task_text, timing_text};
ghost use Rattle.snapshot_text.specs.own.Pages.{HasRoom};
ghost use Rattle.snapshot_text.specs.declared.page.TheConstants.{PAGE};

use crate::page::Page;
use crate::standing::Standing;
use sched_time::Timing;
use std::alloc::Allocator;
use task_table::Image;

/// Appends the line of a task.
pub fn put_task<A: Allocator>(page: &mut Page<A>, image: &Image)
    requires { HasRoom page.old }
    ensures { page.new
        ≡ record { text = page.old.text ++ task_text image.now; sum = page.old.sum } }
{
    page.put_two(
        b"task ",
        image.seat.number,
        b" slot ",
        u64::from(image.slot),
        b" ",
    );
    page.put_two(b"due ", image.seat.due, b" run ", image.seat.run, b" ");
    put_timing(page, &image.seat.timing);
    put_standing(page, standing(image));
}

/// How the task of an image stands.
fn standing(image: &Image) -> Standing
    ensures { result ≡ standing_of image.now }
{
    match image.worker {
        Some(worker) if image.seat.cancelled => Standing::Cancelled(worker),
        Some(worker) => Standing::Runs(worker),
        None if image.seat.kept => Standing::Kept,
        None => Standing::Waits,
    }
}

/// Appends how often a task runs, and a space.
fn put_timing<A: Allocator>(page: &mut Page<A>, timing: &Timing)
    requires { length page.old.text + 32 ≤ PAGE }
    ensures text { page.new
        ≡ record { text = page.old.text ++ timing_text timing.now; sum = page.old.sum } }
    ensures short { length page.new.text ≤ length page.old.text + 32 }
{
    match timing {
        Timing::Once => page.put(b"once "),
        Timing::Rate(period) => {
            page.put(b"rate ");
            page.put_number(period.nanos());
            page.put(b" ");
        }
        Timing::Fixed(delay) => {
            page.put(b"fixed ");
            page.put_number(delay.nanos());
            page.put(b" ");
        }
    }
}

/// Appends how a task stands, and the newline.
fn put_standing<A: Allocator>(page: &mut Page<A>, standing: Standing)
    requires { length page.old.text + 40 ≤ PAGE }
    ensures text { page.new
        ≡ record { text = page.old.text ++ standing_text standing; sum = page.old.sum } }
{
    match standing {
        Standing::Waits => page.put(b"waits\n"),
        Standing::Kept => page.put(b"kept\n"),
        Standing::Runs(worker) => {
            page.put(b"runs ");
            page.put_number(u64::from(worker));
            page.put(b"\n");
        }
        Standing::Cancelled(worker) => {
            page.put(b"runs ");
            page.put_number(u64::from(worker));
            page.put(b" cancelled\n");
        }
    }
}
