//! The axis of time.

ghost use Rattle.std.specs.Prelude.{◌≡◌, ◌++◌, IfOk, OnOk, flat_map, string_bytes};
ghost use Rattle.trace_svg.specs.Keys.{axis_text, moment_text, tick_text, unit_text};

use crate::elements::{Face, Label, Segment, Stroke};
use crate::places::{TIME_BEGINS, TIME_ENDS, across, axis_top};
use sched_time::Unit;
use std::alloc::{AllocError, Allocator};
use std::fmt::Write;
use trace_draw::{Tick, Window};

/// Appends the axis of a picture with so many workers.
pub fn put_axis<A: Allocator + Copy>(
    alloc: A,
    text: &mut String<A>,
    window: Window,
    workers: u8,
    ticks: &[Tick],
) -> Result<(), AllocError>
    ensures { OnOk result
        (string_bytes text.new ≡ string_bytes text.old ++ axis_text window workers ticks.now) }
{
    put_ticks(alloc, text, window, workers, ticks)?;
    let top = axis_top(workers);
    let axis = Segment {
        stroke: Stroke::Axis,
        from: (TIME_BEGINS, top),
        to: (TIME_ENDS, top),
    };
    write!(text, "{axis}")
}

/// Appends the ticks.
fn put_ticks<A: Allocator + Copy>(
    alloc: A,
    text: &mut String<A>,
    window: Window,
    workers: u8,
    ticks: &[Tick],
) -> Result<(), AllocError>
    ensures { OnOk result
        (string_bytes text.new
        ≡ string_bytes text.old ++ flat_map (tick_text window workers) ticks.now) }
{
    for tick in ticks {
        put_tick(alloc, text, window, workers, tick)?;
    }
    Ok(())
}

/// Appends a tick: a line through all lanes, and its moment below.
fn put_tick<A: Allocator + Copy>(
    alloc: A,
    text: &mut String<A>,
    window: Window,
    workers: u8,
    tick: &Tick,
) -> Result<(), AllocError>
    ensures { OnOk result
        (string_bytes text.new ≡ string_bytes text.old ++ tick_text window workers tick.now) }
{
    let x = across(window, tick.moment);
    let top = axis_top(workers);
    let line = Segment {
        stroke: Stroke::Grid,
        from: (x, 50),
        to: (x, top),
    };
    let moment = moment_text(alloc, tick)?;
    let label = Label {
        face: Face::Tick,
        x,
        y: top + 16,
        text: &moment,
    };
    write!(text, "{line}{label}")
}

/// A round moment, as text.
fn moment_text<A: Allocator>(alloc: A, tick: &Tick) -> Result<String<A>, AllocError>
    ensures { IfOk result (λ text. string_bytes text ≡ moment_text tick.now) }
{
    let count = tick.count;
    let unit = unit_sign(tick.unit);
    format!(in alloc; "{count} {unit}")
}

/// The sign of a unit, as plans have it.
fn unit_sign(unit: Unit) -> &'static str
    ensures { result.now ≡ unit_text unit }
{
    match unit {
        Unit::Ns => "ns",
        Unit::Us => "us",
        Unit::Ms => "ms",
        Unit::S => "s",
        Unit::Min => "min",
        Unit::Hour => "h",
        Unit::Day => "d",
    }
}
