//! The text of a trace's lines, appended.
ghost use Rattle.std.specs.Prelude.{◌≡◌, ◌+◌, ◌≤◌, ◌<◌, ◌++◌, OnOk, OnErr, IsOk, length, take, vec_len, vec_capacity};
ghost use Rattle.trace_text.specs.Spelling.{line_text};
ghost use Rattle.trace_text.specs.Writing.{Puts};

use crate::message_text::{put_said, put_said_here};
use crate::stamp::Stamp;
use crate::text_error::TextError;
use executor_model::Line;
use std::alloc::Allocator;

/// How many bytes of room are enough for any line of a trace. The longest has 104, with its newline.
pub const LINE_ROOM: usize = 128;

/// Appends the text of a line, with its newline: makes room for [`LINE_ROOM`] bytes, and lets [`put_line`] put it there. An `Err`
/// leaves the items and the capacity as they were, and does not come where there is that room. The capacity never falls.
#[inline]
pub fn write_line<A: Allocator>(out: &mut Vec<u8, A>, line: &Line) -> Result<(), TextError>
    ensures ok { OnOk result (out.new.items ≡ out.old.items ++ line_text line.now) }
    ensures err { OnErr result (out.new.items ≡ out.old.items) }
    ensures capacity { OnErr result (vec_capacity out.new ≡ vec_capacity out.old) }
    ensures room { vec_len out.old + LINE_ROOM ≤ vec_capacity out.old → IsOk result }
    ensures keeps { vec_capacity out.old ≤ vec_capacity out.new }
    ensures len { vec_len out.new ≤ vec_len out.old + LINE_ROOM }
{
    if out.capacity() - out.len() < LINE_ROOM {
        return write_line_with_more_room(out, line);
    }
    write_line_with_room(out, line);
    Ok(())
}

/// Appends the text of a line, where more memory is wanted for it. An `Err` leaves the items and the capacity as they were.
#[cold]
fn write_line_with_more_room<A: Allocator>(
    out: &mut Vec<u8, A>,
    line: &Line,
) -> Result<(), TextError>
    requires { vec_capacity out.old < vec_len out.old + LINE_ROOM }
    ensures ok { OnOk result (out.new.items ≡ out.old.items ++ line_text line.now) }
    ensures err { OnErr result (out.new.items ≡ out.old.items) }
    ensures capacity { OnErr result (vec_capacity out.new ≡ vec_capacity out.old) }
    ensures keeps { vec_capacity out.old ≤ vec_capacity out.new }
    ensures len { vec_len out.new ≤ vec_len out.old + LINE_ROOM }
{
    out.reserve(LINE_ROOM)?;
    write_line_with_room(out, line);
    Ok(())
}

/// Appends the text of a line, where there is room for it.
#[inline(always)]
fn write_line_with_room<A: Allocator>(out: &mut Vec<u8, A>, line: &Line)
    requires { vec_len out.old + LINE_ROOM ≤ vec_capacity out.old }
    ensures items { out.new.items ≡ out.old.items ++ line_text line.now }
    ensures keeps { vec_capacity out.old ≤ vec_capacity out.new }
    ensures len { vec_len out.new ≤ vec_len out.old + LINE_ROOM }
{
    let at = out.len();
    let Ok(()) = out.resize(at + LINE_ROOM, 0) else {
        unreachable!();
    };
    let end = put_line(out, at, &mut Stamp::new(line.moment()), line);
    out.truncate(end);
}

/// Puts the text of a line at a place of a buffer, with its newline, and returns where it ends: at most [`LINE_ROOM`] bytes
/// on, which have to be there. What stands before that place stays; what stands behind the line is lost.
///
/// The stamp is that of the line's moment afterwards. A line of the moment that it has copies its digits; any stamp gives the
/// same text.
#[inline(always)]
pub fn put_line(buffer: &mut [u8], at: usize, stamp: &mut Stamp, line: &Line) -> usize
    requires { at + LINE_ROOM ≤ length buffer.old }
    ensures end { result ≤ at + LINE_ROOM }
    ensures put { Puts (take at buffer.old) (take result buffer.new) (line_text line.now) }
    ensures stamp { stamp.new ≡ line.now.moment }
{
    let at = stamp.put_moment(buffer, at, line.moment());
    put_said(buffer, at, line.said())
}

/// As [`put_line`], for a loop over many lines: what submits, starts or ends a task, and a run after which its task waits again, is
/// put where this is called, so that a line takes fewer steps and the loop more bytes of code.
#[inline(always)]
pub fn put_line_here(buffer: &mut [u8], at: usize, stamp: &mut Stamp, line: &Line) -> usize
    requires { at + LINE_ROOM ≤ length buffer.old }
    ensures end { result ≤ at + LINE_ROOM }
    ensures put { Puts (take at buffer.old) (take result buffer.new) (line_text line.now) }
    ensures stamp { stamp.new ≡ line.now.moment }
{
    let at = stamp.put_moment(buffer, at, line.moment());
    put_said_here(buffer, at, line.said())
}
