//! The line at the front of some bytes.
ghost use Rattle.std.specs.Prelude.{IfOk, IfErr};
ghost use Rattle.trace_text.specs.Spelling.{event_line, FitsEvent};
ghost use Rattle.trace_text.specs.Reading.{IsRead, IsUnread};
ghost use Rattle.call_text.specs.Spelling.{call_line, FitsCall};
ghost use Rattle.live_engine.specs.LiveLines.{FitsLive, live_line};
ghost use Rattle.live_engine.specs.own.LiveTurns.{IsFrontEnd};

use crate::live_line::LiveLine;
use crate::stops::PieceEnd;
use call_text::split_call;
use trace_text::{is_part, split_event};

/// The line at the front of some bytes, and what follows it; or why there is none: less than a line, or none at all.
#[inline(always)]
pub(crate) fn split_live(bytes: &[u8]) -> Result<(LiveLine, &[u8]), PieceEnd>
    ensures line { IfOk result (λ r. IsRead live_line FitsLive bytes.now r.0 r.1.now) }
    ensures end { IfErr result (λ end. IsFrontEnd end bytes.now) }
{
    if let Some((event, rest)) = split_event(bytes) {
        return Ok((LiveLine::Event(event), rest));
    }
    if let Some((call, rest)) = split_call(bytes) {
        return Ok((LiveLine::Call(call), rest));
    }
    Err(end_of(bytes))
}

/// Why no line stands at the front of bytes that begin with that of no event and of no call.
#[cold]
fn end_of(bytes: &[u8]) -> PieceEnd
    requires event { IsUnread event_line FitsEvent bytes.now }
    requires call { IsUnread call_line FitsCall bytes.now }
    ensures { IsFrontEnd result bytes.now }
{
    if is_part(bytes) {
        PieceEnd::Part
    } else {
        PieceEnd::Refused
    }
}
