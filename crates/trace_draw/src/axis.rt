//! The axis of a window: its ticks.
ghost use Rattle.std.specs.Prelude.{◌≡◌, IfOk};
ghost use Rattle.trace_draw.specs.Ticks.{ticks_of};

use crate::steps::step_over;
use crate::ticks::Tick;
use crate::window::Window;
use std::alloc::{AllocError, Allocator};

/// The ticks that a window shows: each multiple of its step.
pub fn ticks<A: Allocator>(alloc: A, window: Window) -> Result<Vec<Tick, A>, AllocError>
    ensures { IfOk result (λ ticks. ticks.items ≡ ticks_of window) }
{
    let (from, to) = (window.from(), window.to());
    let (count, unit) = step_over(to - from);
    let nanos = count * unit.nanos();
    let mut ticks = Vec::new(alloc);
    for number in from.div_ceil(nanos)..=to / nanos {
        ticks.push(Tick {
            moment: number * nanos,
            count: number * count,
            unit,
        })?;
    }
    Ok(ticks)
}
