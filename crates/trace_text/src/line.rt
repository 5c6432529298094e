//! The lines of a trace that texts spell.
ghost use Rattle.std.specs.Prelude.{MatchOption};
ghost use Rattle.trace_text.specs.Spelling.{SpellsLine, line_text, FitsLine};
ghost use Rattle.trace_text.specs.Reading.{IsRead, IsUnread};

use crate::message::split_message;
use crate::scan::split_number_by_loop;
use executor_model::Line;

/// The line of a trace that some bytes spell, given with its newline and nothing after it. `None` exactly when they spell none
/// whose moments, value and run are below 2^64, whose tasks, numbers of tasks and code are below 2^32 and whose worker is below
/// 256.
pub fn read_line(line: &[u8]) -> Option<Line>
    ensures { SpellsLine line.now result }
{
    let Some(found) = split_one::<true>(line) else {
        return None;
    };
    let (read, rest) = found;
    if !rest.is_empty() {
        return None;
    }
    Some(read)
}

/// The line of a trace whose text stands at the front of some bytes, and what follows its newline. `None` exactly when no
/// line's text stands there; the limits of its numbers are those of [`read_line`].
#[inline(always)]
pub fn split_line(bytes: &[u8]) -> Option<(Line, &[u8])>
    ensures { MatchOption result (IsUnread line_text FitsLine bytes.now)
        (λ r. IsRead line_text FitsLine bytes.now r.0 r.1.now) }
{
    split_one::<false>(bytes)
}

/// As [`split_line`]: compiled once for it, and once for [`read_line`], with all that it calls. So it stands in the loop of a program
/// that reads many lines in one loop.
#[inline]
fn split_one<const ALONE: bool>(bytes: &[u8]) -> Option<(Line, &[u8])>
    ensures { MatchOption result (IsUnread line_text FitsLine bytes.now)
        (λ r. IsRead line_text FitsLine bytes.now r.0 r.1.now) }
{
    let Some((moment, rest)) = split_number_by_loop(bytes) else {
        return None;
    };
    let Some((said, rest)) = split_message::<ALONE>(rest) else {
        return None;
    };
    Some((Line::saying(moment, said), rest))
}
