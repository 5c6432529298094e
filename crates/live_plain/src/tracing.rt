ghost use Rattle.std.specs.Prelude.{◌≡◌, ℕ, ◌↔◌, reverse, IfOk, IfSome, IsSome, MatchOption};
ghost use Rattle.live_engine.specs.LiveLines.{live_history};
ghost use Rattle.live_plain.specs.PlainLines.{ArePlain, lines_in};
ghost use Rattle.live_plain.specs.own.Scripts.{ShowsAll};

use crate::script::Script;
use executor_model::Line;
use live_engine::LiveLine;
use std::alloc::{AllocError, Allocator};

/// The lines of the trace of some lines of a live input, the oldest first, as an executor of so many workers gives them whose calls
/// are made while it runs. The workers may be any number here, also one that an executor refuses.
///
/// `None` where some line is not plain: it is a call with a span above 2^62 nanoseconds, or with a period or a fixed delay that is
/// 0 or above that, or a call once 65,536 were made, or a call whose moment would be above 2^62. A growth that is refused for want
/// of memory is the only error.
pub fn trace_of_lines<A: Allocator + Copy>(
    alloc: A,
    workers: u8,
    lines: &[LiveLine],
) -> Result<Option<Vec<Line, A>>, AllocError>
    ensures lines { IfOk result
        (λ told. IfSome told (λ v. v.items ≡ lines_in (live_history workers (reverse lines.now)))) }
    ensures whole { IfOk result (λ told. IsSome told ↔ ArePlain workers (reverse lines.now)) }
{
    let Some(script) = script_of(alloc, lines)? else {
        return Ok(None);
    };
    Ok(Some(script.trace(alloc, workers)?))
}

/// What some lines ask for, and `None` where some line is not plain.
fn script_of<A: Allocator + Copy>(
    alloc: A,
    lines: &[LiveLine],
) -> Result<Option<Script<A>>, AllocError>
    ensures { IfOk result
        (λ told. (workers : ℕ)
        → MatchOption told (ArePlain workers (reverse lines.now) → ⊥)
        (λ script. ShowsAll workers (reverse lines.now) script)) }
{
    let mut script = Script::new(alloc);
    for line in lines {
        if !script.take(*line)? {
            return Ok(None);
        }
    }
    Ok(Some(script))
}
