//! What stands at the front of bytes that are read piece by piece, where lines of events and lines of calls come.
ghost use Rattle.call_text.specs.Reading.{IsLiveFront};

use crate::call::{CallLine, split_call};
use executor_model::Event;
use trace_text::{Front, front_event};

/// What stands at the front of some bytes.
#[derive(Clone, Copy, Debug, PartialEq, Eq)]
pub enum LiveFront {
    /// The line of an event, and how many bytes it has, with its newline.
    Event(Event, usize),
    /// The line of a call, and how many bytes it has, with its newline.
    Call(CallLine, usize),
    /// No newline yet, and fewer than [`MOST_EVENT_BYTES`](trace_text::MOST_EVENT_BYTES) bytes: more of them may make a line, or
    /// show that there is none.
    Part,
    /// The first line is no event's and no call's, or no newline is among the first
    /// [`MOST_EVENT_BYTES`](trace_text::MOST_EVENT_BYTES) bytes: so it stays whatever follows.
    Refused,
}

/// What stands at the front of some bytes, of the four one alone ([`live_fronts_are_one`](crate::live_fronts_are_one)).
pub fn front_line(bytes: &[u8]) -> LiveFront
    ensures { IsLiveFront result bytes.now }
{
    match front_event(bytes) {
        Front::Event(event, size) => LiveFront::Event(event, size),
        Front::Part => LiveFront::Part,
        Front::Refused => {
            let Some((call, rest)) = split_call(bytes) else {
                return LiveFront::Refused;
            };
            LiveFront::Call(call, bytes.len() - rest.len())
        }
    }
}
