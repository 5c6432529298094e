//! The text of the lines of the last call, put into a buffer.
ghost use Rattle.std.specs.Prelude.{◌≡◌, true, drop};
ghost use Rattle.line_copy.specs.Copying.{IsCopied};
ghost use Rattle.timers_c.specs.Calls.{holding};
ghost use Rattle.call_lines.specs.Narrow.{are_spelled};
ghost use Rattle.timers_c.specs.Texts.{Copies};

use crate::session::Session;
use crate::slot::Slot;
use crate::status::Status;
use line_copy::{Copied, LineCopy};
use std::alloc::Global;

/// Copies the text of the lines of the last call.
pub fn text(
    alloc: Global,
    slot: &mut Slot,
    from: usize,
    out: &mut [u8],
    copied: &mut Copied,
) -> Status
    ensures { Copies result from out.old out.new copied.new
        (holding slot.old.full slot.old.held.value) (holding slot.new.full slot.new.held.value) }
{
    *copied = Copied::none();
    let Some(session) = slot.take(alloc) else {
        return Status::NoTimers;
    };
    let spelled = session.are_spelled();
    if spelled {
        *copied = put_lines(&session, from, out);
    }
    slot.put(session);
    if spelled {
        Status::Done
    } else {
        Status::Number
    }
}

/// Puts the text of the lines into a buffer, from the line of this number on, as long as there is room for any line.
fn put_lines(session: &Session, from: usize, out: &mut [u8]) -> Copied
    requires { are_spelled session.now.lines ≡ true }
    ensures { IsCopied (drop from session.now.lines) out.old out.new result }
{
    let lines = session.lines();
    let start = from.min(lines);
    let mut copy = LineCopy::new();
    let mut place = start;
    while place < lines {
        let Some(line) = session.line(place) else {
            unreachable!();
        };
        if !copy.put(out, &line) {
            return copy.copied();
        }
        place += 1;
    }
    copy.copied()
}
