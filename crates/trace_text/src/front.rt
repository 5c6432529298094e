//! What stands at the front of bytes that are read piece by piece.
ghost use Rattle.std.specs.Prelude.{◌↔◌, IsTrue};
ghost use Rattle.trace_text.specs.Reading.{IsFront, IsPart};

use crate::event::split_event;
use executor_model::Event;
use memchr::memchr;

/// How many bytes an event's line has at most, with its newline: a longer line is refused, whatever it spells.
pub const MOST_EVENT_BYTES: usize = 63;

/// What stands at the front of some bytes.
#[derive(Clone, Copy, Debug, PartialEq, Eq)]
pub enum Front {
    /// The line of an event, and how many bytes it has, with its newline.
    Event(Event, usize),
    /// No newline yet, and fewer than [`MOST_EVENT_BYTES`] bytes: more of them may make a line, or show that there is none.
    Part,
    /// The first line is no event's, or no newline is among the first [`MOST_EVENT_BYTES`] bytes: so it stays whatever follows.
    Refused,
}

/// What stands at the front of some bytes, of the three one alone ([`fronts_are_one`](crate::fronts_are_one)), in one pass over
/// the line where it is an event's.
#[inline]
pub fn front_event(bytes: &[u8]) -> Front
    ensures { IsFront result bytes.now }
{
    let Some((event, rest)) = split_event(bytes) else {
        if is_part(bytes) {
            return Front::Part;
        }
        return Front::Refused;
    };
    Front::Event(event, bytes.len() - rest.len())
}

/// Whether some bytes are a part of a line alone: no newline is among them, and they are fewer than [`MOST_EVENT_BYTES`], so that
/// more of them may make a line, or show that there is none.
///
/// Where [`split_event`] has found no event's line this tells why, as [`front_event`] does, and does not parse the bytes again.
#[cold]
pub fn is_part(bytes: &[u8]) -> bool
    ensures { IsTrue result ↔ IsPart bytes.now }
{
    bytes.len() < MOST_EVENT_BYTES && memchr(b'\n', bytes).is_none()
}
