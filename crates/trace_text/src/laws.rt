//! Laws of the spellings, and of what compares equal. The functions do nothing: what they ensure is the law.
ghost use Rattle.std.specs.Prelude.{◌≡◌, ◌↔◌, true};
ghost use Rattle.trace_text.specs.Reading.{EventLinesAreOne, FrontsAreOne, FrontsStay, LinesAreOne, LinesEndOnce, most_event_bytes};
ghost use Rattle.trace_text.specs.Writing.{line_room};

use crate::front::{Front, MOST_EVENT_BYTES};
use crate::line_text::LINE_ROOM;
use crate::text_error::TextError;

/// One line spells one event, and no event's line is the front of another's: where the lines of two events stand at the front
/// of the same bytes, the events are one, and what follows is the same.
pub fn event_lines_are_one()
    ensures { EventLinesAreOne }
{}

/// One text spells one line of a trace, and no line's text is the front of another's: where the texts of two lines stand at the
/// front of the same bytes, the lines are one, and what follows is the same.
pub fn lines_are_one()
    ensures { LinesAreOne }
{}

/// A line of a trace has one newline, and it is its last byte.
pub fn lines_end_once()
    ensures { LinesEndOnce }
{}

/// [`MOST_EVENT_BYTES`](crate::MOST_EVENT_BYTES) is the limit of which the contracts speak.
pub fn most_event_bytes_is_the_limit()
    ensures { MOST_EVENT_BYTES ≡ most_event_bytes }
{}

/// [`LINE_ROOM`](crate::LINE_ROOM) is the limit of which the definitions speak.
pub fn line_room_is_the_limit()
    ensures { LINE_ROOM ≡ line_room }
{}

/// One front alone is so of some bytes: a part of a line is not refused, and neither begins with an event's line.
pub fn fronts_are_one()
    ensures { FrontsAreOne }
{}

/// Bytes that begin with an event's line, or are refused, do so whatever follows them.
pub fn fronts_stay()
    ensures { FrontsStay }
{}

/// Two fronts compare as equal exactly when they are the same.
pub fn front_equality_tells()
    ensures { (a b : Front) → (⟦<Front as PartialEq>⟧.eq a b ≡ true) ↔ (a ≡ b) }
{}

/// Two errors compare as equal exactly when they are the same.
pub fn text_error_equality_tells()
    ensures { (a b : TextError) → (⟦<TextError as PartialEq>⟧.eq a b ≡ true) ↔ (a ≡ b) }
{}
