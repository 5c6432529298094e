//! The bars of lanes, as piles: those that lie over one another are drawn as one.

ghost use Rattle.std.specs.Prelude.{◌≡◌, ◌≤◌, ◌<◌, ◌∷◌, ◌++◌, length, take, drop, IfOk, OnOk, flat_map, map, string_bytes};
ghost use Rattle.std.specs.List.{list_any, range_with_len};
ghost use Rattle.trace_svg.specs.Groups.{groups_of};
ghost use Rattle.trace_svg.specs.Piles.{bar_right, bars_in, failed, lies_on, pile_fill, pile_label, pile_left, pile_number, pile_right, pile_shape, pile_text, pile_tip, pile_top, pile_width, piles_in, piles_of, run_tip, runs_label};

use crate::elements::{Face, Fill, Label, Rectangle};
use crate::places::{across, bar_width, lane_top};
use crate::runs::{bar_tip, fill_of, letters_in, name_of, put_bar};
use executor_model::Outcome;
use plan_read::Name;
use std::alloc::{AllocError, Allocator};
use std::fmt::Write;
use trace_draw::{Bar, Finish, Window};

/// How many workers a line can name.
const MOST_NAMED: u16 = 256;

/// Appends the bars of runs, lane by lane, where these are the names of the tasks.
pub fn put_bars<A: Allocator + Copy>(
    alloc: A,
    text: &mut String<A>,
    window: Window,
    names: &[&Name],
    bars: &[Bar],
) -> Result<(), AllocError>
    ensures { OnOk result
        (string_bytes text.new
        ≡ string_bytes text.old
        ++ flat_map (pile_text window (map (λ n. n.now) names.now)) (piles_of window bars.now)) }
{
    put_lanes(alloc, text, window, names, bars, MOST_NAMED)
}

/// Appends the bars of the lanes below this one.
fn put_lanes<A: Allocator + Copy>(
    alloc: A,
    text: &mut String<A>,
    window: Window,
    names: &[&Name],
    bars: &[Bar],
    lanes: u16,
) -> Result<(), AllocError>
    ensures { OnOk result
        (string_bytes text.new
        ≡ string_bytes text.old
        ++ flat_map
        (λ worker. flat_map (pile_text window (map (λ n. n.now) names.now))
        (piles_in window worker bars.now)) (range_with_len 0 lanes)) }
{
    for worker in 0..lanes {
        put_lane(alloc, text, window, names, bars, worker)?;
    }
    Ok(())
}

/// Appends the bars of a lane.
fn put_lane<A: Allocator + Copy>(
    alloc: A,
    text: &mut String<A>,
    window: Window,
    names: &[&Name],
    bars: &[Bar],
    worker: u16,
) -> Result<(), AllocError>
    ensures { OnOk result
        (string_bytes text.new
        ≡ string_bytes text.old
        ++ flat_map (pile_text window (map (λ n. n.now) names.now))
        (piles_in window worker bars.now)) }
{
    let lane = lane_of(alloc, bars, worker)?;
    put_piles(alloc, text, window, names, &lane)
}

/// The bars of a lane, in their order.
fn lane_of<A: Allocator>(alloc: A, bars: &[Bar], worker: u16) -> Result<Vec<Bar, A>, AllocError>
    ensures { IfOk result (λ lane. lane.items ≡ bars_in worker bars.now) }
{
    let mut lane = Vec::new(alloc);
    for bar in bars {
        if u16::from(bar.worker) == worker {
            lane.push(*bar)?;
        }
    }
    Ok(lane)
}

/// Appends the piles that the bars of a lane are.
fn put_piles<A: Allocator + Copy>(
    alloc: A,
    text: &mut String<A>,
    window: Window,
    names: &[&Name],
    lane: &[Bar],
) -> Result<(), AllocError>
    ensures { OnOk result
        (string_bytes text.new
        ≡ string_bytes text.old
        ++ flat_map (pile_text window (map (λ n. n.now) names.now))
        (groups_of (lies_on window) lane.now)) }
{
    let mut rest = lane;
    while !rest.is_empty() {
        let (pile, behind) = rest.split_at(pile_len(window, rest));
        put_pile(alloc, text, window, names, pile)?;
        rest = behind;
    }
    Ok(())
}

/// How many bars the first pile of a lane has, where the lane has a bar.
fn pile_len(window: Window, lane: &[Bar]) -> usize
    requires { 0 < length lane.now }
    ensures some { 0 < result }
    ensures within { result ≤ length lane.now }
    ensures pile { groups_of (lies_on window) lane.now
        ≡ take result lane.now ∷ groups_of (lies_on window) (drop result lane.now) }
{
    let mut end = bar_right(window, &lane[0]);
    for index in 1..lane.len() {
        let bar = &lane[index];
        if across(window, bar.first) >= end {
            return index;
        }
        end = end.max(bar_right(window, bar));
    }
    lane.len()
}

/// Where a bar ends.
fn bar_right(window: Window, bar: &Bar) -> u32
    ensures right { result ≡ bar_right window bar.now }
    ensures within { result ≤ 2340 }
{
    across(window, bar.first) + bar_width(window, bar)
}

/// Appends a pile.
fn put_pile<A: Allocator + Copy>(
    alloc: A,
    text: &mut String<A>,
    window: Window,
    names: &[&Name],
    pile: &[Bar],
) -> Result<(), AllocError>
    ensures { OnOk result
        (string_bytes text.new
        ≡ string_bytes text.old ++ pile_text window (map (λ n. n.now) names.now) pile.now) }
{
    match pile {
        [] => Ok(()),
        [bar] => put_bar(alloc, text, window, names, bar),
        _ => put_several(alloc, text, window, names, pile),
    }
}

/// Appends a pile of several runs as one bar, and its label.
fn put_several<A: Allocator + Copy>(
    alloc: A,
    text: &mut String<A>,
    window: Window,
    names: &[&Name],
    pile: &[Bar],
) -> Result<(), AllocError>
    ensures { OnOk result
        (string_bytes text.new
        ≡ string_bytes text.old
        ++ (pile_shape window (map (λ n. n.now) names.now) pile.now
        ++ pile_label window pile.now)) }
{
    put_shape(alloc, text, window, names, pile)?;
    put_label(alloc, text, window, pile)
}

/// Appends a pile as one bar.
fn put_shape<A: Allocator + Copy>(
    alloc: A,
    text: &mut String<A>,
    window: Window,
    names: &[&Name],
    pile: &[Bar],
) -> Result<(), AllocError>
    ensures { OnOk result
        (string_bytes text.new
        ≡ string_bytes text.old ++ pile_shape window (map (λ n. n.now) names.now) pile.now) }
{
    let fill = pile_fill(pile);
    let left = pile_left(window, pile);
    let top = pile_top(pile);
    let width = pile_width(window, pile);
    let tip = pile_tip(alloc, names, pile)?;
    let shape = Rectangle {
        fill,
        left,
        top,
        width,
        height: 22,
        tip: &tip,
    };
    write!(text, "{shape}")
}

/// Appends the label of a pile where it fits, and else its number alone.
fn put_label<A: Allocator + Copy>(
    alloc: A,
    text: &mut String<A>,
    window: Window,
    pile: &[Bar],
) -> Result<(), AllocError>
    ensures { OnOk result
        (string_bytes text.new ≡ string_bytes text.old ++ pile_label window pile.now) }
{
    let label = runs_label(alloc, pile.len())?;
    if label.len() > letters_in(pile_width(window, pile)) {
        return put_number(alloc, text, window, pile);
    }
    let shown = Label {
        face: Face::Run,
        x: pile_left(window, pile) + 4,
        y: pile_top(pile) + 15,
        text: &label,
    };
    write!(text, "{shown}")
}

/// Appends how many runs a pile has, at its upper right.
fn put_number<A: Allocator + Copy>(
    alloc: A,
    text: &mut String<A>,
    window: Window,
    pile: &[Bar],
) -> Result<(), AllocError>
    ensures { OnOk result
        (string_bytes text.new ≡ string_bytes text.old ++ pile_number window pile.now) }
{
    let count = pile.len();
    let number = format!(in alloc; "{count}")?;
    let label = Label {
        face: Face::Count,
        x: pile_right(window, pile) + 2,
        y: pile_top(pile),
        text: &number,
    };
    write!(text, "{label}")
}

/// Where a pile begins.
fn pile_left(window: Window, pile: &[Bar]) -> u32
    ensures left { result ≡ pile_left window pile.now }
    ensures within { result ≤ 1170 }
{
    match pile.first() {
        Some(bar) => across(window, bar.first),
        None => 0,
    }
}

/// Where a pile ends.
fn pile_right(window: Window, pile: &[Bar]) -> u32
    ensures right { result ≡ pile_right window pile.now }
    ensures within { result ≤ 2340 }
{
    let mut right = 0;
    for bar in pile {
        right = right.max(bar_right(window, bar));
    }
    right
}

/// How wide a pile is.
fn pile_width(window: Window, pile: &[Bar]) -> u32
    ensures { result ≡ pile_width window pile.now }
{
    pile_right(window, pile).saturating_sub(pile_left(window, pile))
}

/// Where the lane of a pile begins.
fn pile_top(pile: &[Bar]) -> u32
    ensures top { result ≡ pile_top pile.now }
    ensures within { result ≤ 7312 }
{
    match pile.first() {
        Some(bar) => lane_top(bar.worker),
        None => 0,
    }
}

/// The colour of a pile: that of failed runs where one of its runs failed, and else that of its last run.
fn pile_fill(pile: &[Bar]) -> Fill
    ensures { result ≡ pile_fill pile.now }
{
    if has_failed(pile) {
        return Fill::Failed;
    }
    match pile.last() {
        Some(bar) => fill_of(bar.finish),
        None => Fill::Open,
    }
}

/// Whether a run of a pile failed.
fn has_failed(pile: &[Bar]) -> bool
    ensures { result ≡ list_any (λ bar. failed bar.finish) pile.now }
{
    pile.iter().any(|bar| failed(bar.finish))
}

/// Whether a run failed.
fn failed(finish: Option<Finish>) -> bool
    ensures { result ≡ failed finish }
{
    match finish {
        Some(finish) => matches!(&finish.outcome, Outcome::Failed(_)),
        None => false,
    }
}

/// How many runs a pile has, in words.
fn runs_label<A: Allocator>(alloc: A, count: usize) -> Result<String<A>, AllocError>
    ensures { IfOk result (λ text. string_bytes text ≡ runs_label count) }
{
    format!(in alloc; "{count} runs")
}

/// The tooltip of a pile: how many runs it has, and then the tooltip of each, where these are the names of the tasks.
fn pile_tip<A: Allocator + Copy>(
    alloc: A,
    names: &[&Name],
    pile: &[Bar],
) -> Result<String<A>, AllocError>
    ensures { IfOk result
        (λ text. string_bytes text ≡ pile_tip (map (λ n. n.now) names.now) pile.now) }
{
    let mut tip = runs_label(alloc, pile.len())?;
    tip.push_str("\n")?;
    for bar in pile {
        let run = bar_tip(alloc, name_of(names, bar.task), bar)?;
        tip.push_str(&run)?;
    }
    Ok(tip)
}
