//! What the readers and the writers of lines promise.
ghost use Rattle.trace_text.specs.Spelling.{Spells, event_line, FitsEvent, SpellsLine, line_text, FitsLine};
ghost use Rattle.std.specs.Prelude.{MatchOption, ◌≡◌, ◌+◌, ◌≤◌, length, take, ◌++◌, OnOk, OnErr, IsOk, vec_len, vec_capacity};
ghost use Rattle.trace_text.specs.Reading.{IsRead, IsUnread};
ghost use Rattle.trace_text.specs.Writing.{Puts};

use executor_model::{Event, Line};
use std::alloc::Allocator;
use trace_text::{LINE_ROOM, Stamp, TextError};

/// [`trace_text::read_event`].
pub fn read_event(line: &[u8]) -> Option<Event>
    ensures { Spells line.now result }
{
    trace_text::read_event(line)
}

/// [`trace_text::split_event`].
pub fn split_event(bytes: &[u8]) -> Option<(Event, &[u8])>
    ensures { MatchOption result (IsUnread event_line FitsEvent bytes.now)
        (λ r. IsRead event_line FitsEvent bytes.now r.0 r.1.now) }
{
    trace_text::split_event(bytes)
}

/// [`trace_text::read_line`].
pub fn read_line(line: &[u8]) -> Option<Line>
    ensures { SpellsLine line.now result }
{
    trace_text::read_line(line)
}

/// [`trace_text::split_line`].
pub fn split_line(bytes: &[u8]) -> Option<(Line, &[u8])>
    ensures { MatchOption result (IsUnread line_text FitsLine bytes.now)
        (λ r. IsRead line_text FitsLine bytes.now r.0 r.1.now) }
{
    trace_text::split_line(bytes)
}

/// [`trace_text::put_line`].
pub fn put_line(buffer: &mut [u8], at: usize, stamp: &mut Stamp, line: &Line) -> usize
    requires { at + LINE_ROOM ≤ length buffer.old }
    ensures end { result ≤ at + LINE_ROOM }
    ensures put { Puts (take at buffer.old) (take result buffer.new) (line_text line.now) }
    ensures stamp { stamp.new ≡ line.now.moment }
{
    trace_text::put_line(buffer, at, stamp, line)
}

/// [`trace_text::write_line`].
pub fn write_line<A: Allocator>(out: &mut Vec<u8, A>, line: &Line) -> Result<(), TextError>
    ensures ok { OnOk result (out.new.items ≡ out.old.items ++ line_text line.now) }
    ensures err { OnErr result (out.new.items ≡ out.old.items) }
    ensures capacity { OnErr result (vec_capacity out.new ≡ vec_capacity out.old) }
    ensures room { vec_len out.old + LINE_ROOM ≤ vec_capacity out.old → IsOk result }
    ensures keeps { vec_capacity out.old ≤ vec_capacity out.new }
    ensures len { vec_len out.new ≤ vec_len out.old + LINE_ROOM }
{
    trace_text::write_line(out, line)
}
