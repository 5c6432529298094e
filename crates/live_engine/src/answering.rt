//! The answering: lines in, the text of the lines that answer them out. It knows of no reader.
ghost use Rattle.std.specs.Prelude.{◌≡◌, ℕ, ◌≤◌, List, Option, drop, length, IfSome, IsNone, is_some};
ghost use Rattle.byte_ends.specs.Ends.{CountsTries};
ghost use Rattle.live_engine.specs.LiveLines.{most_numbers};
ghost use Rattle.live_engine.specs.declared.live_line.LiveLine as live_lines;
ghost use Rattle.live_engine.specs.own.LiveTurns.{AreCounted, DoneAt, IsCut, Progress, Setting, Stopped};

use crate::answer_texts::give;
use crate::counts::Counts;
use crate::one_line::answer_line;
use crate::splitting::split_live;
use crate::stops::PieceEnd;
use byte_ends::Sink;
use call_journal::Journal;
use executor_model::Line;
use live_core::ScheduledExecutor;
use sched_engine::Draft;
use std::alloc::Allocator;

/// How far the bytes at hand were answered.
#[derive(Clone, Copy, Debug, PartialEq, Eq)]
pub(crate) struct Answered {
    /// How many bytes were taken.
    pub bytes: usize,
    pub end: PieceEnd,
}

/// Answers the lines at the front of the bytes that are held, up to the first that is cut off, refused, without room or without
/// memory, and gives out the text of the answers: what of it does not fit into the draft is written.
///
/// `None` is a fault of the writer, after a front of that text was written.
pub(crate) fn answer_lines<A: Allocator, W: Sink>(
    executor: &mut ScheduledExecutor<A>,
    journal: &mut Journal<A>,
    counts: &mut Counts,
    held: &[u8],
    lines: &mut Vec<Line, A>,
    draft: &mut Draft<A>,
    writer: &mut W,
) -> Option<Answered>
    requires few { executor.old.count ≤ most_numbers }
    requires counted { AreCounted counts.old }
    ensures stopped { IfSome result
        (λ a. (run : Setting) (left : Option (List ℕ)) (taken : List live_lines.LiveLine)
        → DoneAt run
        (record {
          ends = record { left = left; contents = W.contents writer.old; journal = journal.old };
          held = held.now;
          text = draft.old;
          counts = counts.old;
        }) executor.old taken
        → Stopped a.end run
        (record {
          ends = record { left = left; contents = W.contents writer.new; journal = journal.new };
          held = drop a.bytes held.now;
          text = draft.new;
          counts = counts.new;
        }) executor.new) }
    ensures cut { IsNone result
        → ((run : Setting) (left : Option (List ℕ)) (taken : List live_lines.LiveLine)
        → DoneAt run
        (record {
          ends = record { left = left; contents = W.contents writer.old; journal = journal.old };
          held = held.now;
          text = draft.old;
          counts = counts.old;
        }) executor.old taken
        → IsCut run left held.now (W.contents writer.new) journal.new) }
    ensures within { IfSome result (λ a. a.bytes ≤ length held.now) }
    ensures few { executor.new.count ≤ most_numbers }
    ensures counted { IfSome result (λ a. AreCounted counts.new) }
    ensures rises { IfSome result (λ a. counts.old.read ≤ counts.new.read) }
    ensures same { IfSome result (λ a. counts.new.read ≡ counts.old.read → a.bytes ≡ 0) }
    ensures write { CountsTries (is_some result) (W.failed writer.old) (W.fruitless writer.old)
        (W.failed writer.new) (W.fruitless writer.new) }
{
    let mut rest = held;
    let end = loop {
        let (line, behind) = match split_live(rest) {
            Ok(next) => next,
            Err(end) => break end,
        };
        let told = match answer_line(executor, journal, counts, line, lines) {
            Ok(told) => told,
            Err(end) => break end,
        };
        if !give(told, lines, draft, writer) {
            return None;
        }
        rest = behind;
    };
    Some(Answered {
        bytes: held.len() - rest.len(),
        end,
    })
}
