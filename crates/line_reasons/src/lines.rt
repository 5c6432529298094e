//! The kinds of lines that a text may have.

ghost use Rattle.std.specs.Prelude.{MatchOption};
ghost use Rattle.trace_text.specs.Reading.{IsRead, IsUnread};
ghost use Rattle.line_reasons.specs.own.Kinds.{FitsIn, Value, spelling};

use crate::choice::Choice;
use call_text::split_call;
use trace_text::split_event;

/// The kinds of lines that a text may have.
#[derive(Clone, Copy, Debug, PartialEq, Eq)]
pub enum Lines {
    /// Those of events.
    Events,
    /// Those of a live run: of events and of calls.
    Live,
}

impl Lines {
    /// The words that such a line begins with.
    pub fn first_words(self) -> Choice {
        match self {
            Lines::Events => Choice::Event,
            Lines::Live => Choice::LiveLine,
        }
    }

    /// What follows the line at the front of some bytes. `None` exactly where no such line stands there.
    pub fn behind_first(self, bytes: &[u8]) -> Option<&[u8]>
        ensures { MatchOption result (IsUnread (spelling self) (FitsIn self) bytes.now)
            (λ rest. (value : Value self)
            × IsRead (spelling self) (FitsIn self) bytes.now value rest.now) }
    {
        if let Some((_, rest)) = split_event(bytes) {
            return Some(rest);
        }
        match self {
            Lines::Events => None,
            Lines::Live => {
                let Some((_, rest)) = split_call(bytes) else {
                    return None;
                };
                Some(rest)
            }
        }
    }
}
