//! The lines of an answer, and their text.
ghost use Rattle.std.specs.Prelude.{◌≡◌, [], IfSome, IfNone, IsTrue, length};
ghost use Rattle.trace_text.specs.Spelling.{lines_text};
ghost use Rattle.executor_model.specs.Flows.{lines_at};
ghost use Rattle.byte_ends.specs.Ends.{CountsTries};
ghost use Rattle.sched_engine.specs.Pieces.{GivesText};
ghost use Rattle.live_core.specs.Said.{ending};
ghost use Rattle.live_engine.specs.own.LiveSteps.{lines_told};

use byte_ends::Sink;
use executor_model::{Answer, Line, Message};
use live_core::ScheduledExecutor;
use sched_engine::Draft;
use std::alloc::Allocator;

/// The lines of an answer: most have one alone, which is not copied into a list.
#[derive(Clone, Copy)]
pub(crate) enum Told {
    /// This line alone.
    One(Line),
    /// The lines of the list that goes with it.
    Listed,
}

/// The lines of an answer, which the executor gave last: that of the answer, and one of each task that it ended. Where there are
/// several, they are written in place of those in the list. `None` is want of memory for these.
#[inline(always)]
pub(crate) fn tell<A: Allocator>(
    executor: &ScheduledExecutor<A>,
    answer: Answer,
    lines: &mut Vec<Line, A>,
) -> Option<Told>
    ensures told { IfSome result
        (λ told. lines_told told lines.new.items
        ≡ lines_at executor.now.table.moment (ending answer executor.now.ended)) }
    ensures none { IfNone result (executor.now.ended ≡ [] → ⊥) }
{
    if executor.ended().is_empty() {
        return Some(Told::One(Line::new(executor.now(), Message::Answer(answer))));
    }
    if !list_lines(executor, answer, lines) {
        return None;
    }
    Some(Told::Listed)
}

/// Writes the lines of an answer, which the executor gave last, in place of those that are there. `false` is want of memory.
#[inline(always)]
fn list_lines<A: Allocator>(
    executor: &ScheduledExecutor<A>,
    answer: Answer,
    lines: &mut Vec<Line, A>,
) -> bool
    ensures { IsTrue result
        → lines.new.items ≡ lines_at executor.now.table.moment (ending answer executor.now.ended) }
{
    lines.clear();
    executor.add_lines(answer, lines).is_ok()
}

/// How many lines there are.
#[inline(always)]
pub(crate) fn count_told(told: &Told, lines: &[Line]) -> u64
    ensures { result ≡ length (lines_told told.now lines.now) }
{
    match told {
        Told::One(_) => 1,
        Told::Listed => lines.len() as u64,
    }
}

/// Gives out the text of the lines. `false` is a fault of the sink, after a front of that text was written.
#[inline(always)]
pub(crate) fn give<A: Allocator, W: Sink>(
    told: Told,
    lines: &[Line],
    draft: &mut Draft<A>,
    writer: &mut W,
) -> bool
    ensures text { GivesText result (record { contents = W.contents writer.old; text = draft.old })
        (record { contents = W.contents writer.new; text = draft.new })
        (lines_text (lines_told told lines.now)) }
    ensures counts { CountsTries result (W.failed writer.old) (W.fruitless writer.old)
        (W.failed writer.new) (W.fruitless writer.new) }
{
    match told {
        Told::One(line) => draft.give_lines(&[line], writer),
        Told::Listed => draft.give_lines(lines, writer),
    }
}
