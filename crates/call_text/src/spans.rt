//! Spans and periods at the front of some bytes.
ghost use Rattle.std.specs.Prelude.{◌<◌, MatchOption, length, codes};
ghost use Rattle.trace_text.specs.Reading.{IsRead, IsUnread, EndsNumber, number_then};
ghost use Rattle.call_text.specs.Spelling.{FitsSpan, FitsPeriod};

use sched_time::LONGEST;
use trace_text::number_before;

/// The span at the front, in nanoseconds, at most [`LONGEST`], and what follows the word behind it. The word is not empty and
/// begins with no digit. `None` exactly when they are not there.
pub fn span_before<'a>(bytes: &'a [u8], word: &[u8]) -> Option<(u64, &'a [u8])>
    requires plain { EndsNumber word.now }
    requires some { 0 < length word.now }
    ensures { MatchOption result (IsUnread (number_then word.now) FitsSpan bytes.now)
        (λ r. IsRead (number_then word.now) FitsSpan bytes.now r.0 r.1.now) }
{
    let Some((number, rest)) = number_before(bytes, word) else {
        return None;
    };
    if number > LONGEST {
        return None;
    }
    Some((number, rest))
}

/// The period or delay at the end of a line, in nanoseconds, 1 to [`LONGEST`], and what follows the newline behind it. `None`
/// exactly when they are not there.
pub fn last_period(bytes: &[u8]) -> Option<(u64, &[u8])>
    ensures { MatchOption result (IsUnread (number_then (codes "\n")) FitsPeriod bytes.now)
        (λ r. IsRead (number_then (codes "\n")) FitsPeriod bytes.now r.0 r.1.now) }
{
    let Some((number, rest)) = span_before(bytes, b"\n") else {
        return None;
    };
    if number == 0 {
        return None;
    }
    Some((number, rest))
}
