//! The bars of runs.

ghost use Rattle.std.specs.Prelude.{◌≡◌, ◌++◌, IfOk, OnOk, map, string_bytes};
ghost use Rattle.trace_svg.specs.Runs.{bar_label, bar_shape, bar_text, bar_tip, fill_by, fill_of, finish_line, letters_in, name_of, named_bar_text, run_label, start_line};

use crate::elements::{Face, Fill, Label, Rectangle};
use crate::places::{across, bar_width, lane_top};
use executor_model::{Answer, Line, Message, Outcome};
use plan_read::Name;
use std::alloc::{AllocError, Allocator};
use std::fmt::Write;
use trace_draw::{Bar, Finish, Window};
use trace_text::LineText;

/// Appends the bar of a run, where these are the names of the tasks.
pub fn put_bar<A: Allocator + Copy>(
    alloc: A,
    text: &mut String<A>,
    window: Window,
    names: &[&Name],
    bar: &Bar,
) -> Result<(), AllocError>
    ensures { OnOk result
        (string_bytes text.new
        ≡ string_bytes text.old ++ bar_text window (map (λ n. n.now) names.now) bar.now) }
{
    put_named_bar(alloc, text, window, name_of(names, bar.task), bar)
}

/// The name of a task, and `?` where there is none.
pub fn name_of<'a>(names: &[&'a Name], task: u32) -> &'a str
    ensures { result.now ≡ name_of (map (λ n. n.now) names.now) task }
{
    match names.get(task as usize) {
        Some(name) => name.as_str(),
        None => "?",
    }
}

/// Appends the bar of a run of the task with this name, and its label where that fits.
fn put_named_bar<A: Allocator + Copy>(
    alloc: A,
    text: &mut String<A>,
    window: Window,
    name: &str,
    bar: &Bar,
) -> Result<(), AllocError>
    ensures { OnOk result
        (string_bytes text.new ≡ string_bytes text.old ++ named_bar_text window name.now bar.now) }
{
    put_shape(alloc, text, window, name, bar)?;
    put_label(alloc, text, window, name, bar)
}

/// Appends the bar of a run of the task with this name.
fn put_shape<A: Allocator + Copy>(
    alloc: A,
    text: &mut String<A>,
    window: Window,
    name: &str,
    bar: &Bar,
) -> Result<(), AllocError>
    ensures { OnOk result
        (string_bytes text.new ≡ string_bytes text.old ++ bar_shape window name.now bar.now) }
{
    let left = across(window, bar.first);
    let top = lane_top(bar.worker);
    let width = bar_width(window, bar);
    let tip = bar_tip(alloc, name, bar)?;
    let shape = Rectangle {
        fill: fill_of(bar.finish),
        left,
        top,
        width,
        height: 22,
        tip: &tip,
    };
    write!(text, "{shape}")
}

/// Appends the label of a run of the task with this name, where it fits into its bar.
fn put_label<A: Allocator + Copy>(
    alloc: A,
    text: &mut String<A>,
    window: Window,
    name: &str,
    bar: &Bar,
) -> Result<(), AllocError>
    ensures { OnOk result
        (string_bytes text.new ≡ string_bytes text.old ++ bar_label window name.now bar.now) }
{
    let label = run_label(alloc, name, bar.run)?;
    if label.len() > letters_in(bar_width(window, bar)) {
        return Ok(());
    }
    let shown = Label {
        face: Face::Run,
        x: across(window, bar.first) + 4,
        y: lane_top(bar.worker) + 15,
        text: &label,
    };
    write!(text, "{shown}")
}

/// How many letters fit into a bar of this width.
pub fn letters_in(width: u32) -> usize
    ensures { result ≡ letters_in width }
{
    (width.saturating_sub(8) / 7) as usize
}

/// The label of a run.
fn run_label<A: Allocator>(alloc: A, name: &str, run: u64) -> Result<String<A>, AllocError>
    ensures { IfOk result (λ text. string_bytes text ≡ run_label name.now run) }
{
    format!(in alloc; "{name} #{run}")
}

/// The tooltip of a bar: the name of its task, and the trace's own lines of its run.
pub fn bar_tip<A: Allocator>(alloc: A, name: &str, bar: &Bar) -> Result<String<A>, AllocError>
    ensures { IfOk result (λ text. string_bytes text ≡ bar_tip name.now bar.now) }
{
    let start = LineText(start_line(bar));
    match bar.finish {
        Some(finish) => {
            let finish = LineText(finish_line(bar, finish));
            format!(in alloc; "{name}\n{start}{finish}")
        }
        None => format!(in alloc; "{name}\n{start}"),
    }
}

/// The trace's line that starts a run.
fn start_line(bar: &Bar) -> Line
    ensures { result ≡ start_line bar.now }
{
    Line::new(
        bar.first,
        Message::Answer(Answer::Start {
            worker: bar.worker,
            task: bar.task,
            run: bar.run,
            due: bar.due,
        }),
    )
}

/// The trace's line that finishes a run.
fn finish_line(bar: &Bar, finish: Finish) -> Line
    ensures { result ≡ finish_line bar.now finish }
{
    Line::new(
        finish.moment,
        Message::Answer(Answer::Finish {
            worker: bar.worker,
            task: bar.task,
            run: bar.run,
            outcome: finish.outcome,
        }),
    )
}

/// What a run led to, as a colour.
pub fn fill_of(finish: Option<Finish>) -> Fill
    ensures { result ≡ fill_of finish }
{
    match finish {
        Some(finish) => fill_by(finish.outcome),
        None => Fill::Open,
    }
}

/// An outcome as a colour.
fn fill_by(outcome: Outcome) -> Fill
    ensures { result ≡ fill_by outcome }
{
    match outcome {
        Outcome::Done(_) => Fill::Done,
        Outcome::Failed(_) => Fill::Failed,
        Outcome::Again(_) => Fill::Again,
        Outcome::Dropped => Fill::Dropped,
        Outcome::Ended => Fill::Ended,
    }
}
