//! One line: it is taken, noted and counted, and its answer is given out as lines.
ghost use Rattle.std.specs.Prelude.{◌≡◌, ℕ, ◌≤◌, OnOk, OnErr, IfOk, IfErr};
ghost use Rattle.live_engine.specs.LiveLines as meanings;
ghost use Rattle.live_engine.specs.LiveLines.{LiveHistory, FitsLive, most_numbers, trace_length};
ghost use Rattle.live_engine.specs.own.LiveTurns.{AreCounted};
ghost use Rattle.live_engine.specs.declared.live_line.LiveLine as live_lines;
ghost use Rattle.live_engine.specs.own.LiveSteps.{Answers, IsAt, IsNoStep, IsNotTaken, lines_told};

use crate::answer_texts::{Told, count_told, tell};
use crate::counts::{Counts, MOST_LINES};
use crate::live_line::{LiveLine, meant};
use crate::stepping::step;
use crate::stops::PieceEnd;
use call_journal::{Journal, MadeCall};
use executor_model::Line;
use live_core::ScheduledExecutor;
use std::alloc::Allocator;

/// Takes a line as it is meant, and tells the lines of its answer: where there are several, they are written in place of those in the
/// list. A call that is made is noted before its answer is given out. Where the line is not taken, nothing is noted or counted, and
/// the executor is somewhere on the way. Whether there is memory for a call is asked last: after whether there is room for it. An
/// event wants none.
pub(crate) fn answer_line<A: Allocator>(
    executor: &mut ScheduledExecutor<A>,
    journal: &mut Journal<A>,
    counts: &mut Counts,
    line: LiveLine,
    lines: &mut Vec<Line, A>,
) -> Result<Told, PieceEnd>
    requires fits { FitsLive line }
    requires few { executor.old.count ≤ most_numbers }
    requires counted { AreCounted counts.old }
    ensures answers { IfOk result
        (λ told. Answers executor.old executor.new line (lines_told told lines.new.items)
        counts.old counts.new journal.old journal.new) }
    ensures few { executor.new.count ≤ most_numbers }
    ensures counted { OnOk result (AreCounted counts.new) }
    ensures refuses { IfErr result
        (λ end. (workers : ℕ) (so_far : LiveHistory) → IsAt workers executor.old so_far
        → counts.old.written ≡ trace_length so_far
        → IsNotTaken end workers so_far (meanings.meant executor.old.count line)) }
    ensures uncounted { OnErr result (counts.new ≡ counts.old) }
    ensures unnoted { OnErr result (journal.new ≡ record journal.old { room = journal.new.room }) }
{
    let line = meant(executor.numbers(), line);
    let answer = match step(executor, line) {
        Ok(answer) => answer,
        Err(end) => return Err(end_after(counts.written, end)),
    };
    if executor.ended().len() as u64 >= MOST_LINES - counts.written {
        return Err(PieceEnd::Full);
    }
    let Some(told) = tell(executor, answer, lines) else {
        return Err(PieceEnd::Memory);
    };
    if let LiveLine::Call(call) = line {
        if journal.make_room().is_err() {
            return Err(PieceEnd::Memory);
        }
        journal.note(MadeCall {
            moment: executor.now(),
            call,
        });
    }
    counts.written += count_told(&told, lines);
    counts.read += 1;
    Ok(told)
}

/// Why a line is not taken that the executor does not take, where the trace has so many lines: no memory is wanting for one whose
/// answer has no room.
#[cold]
fn end_after(written: u64, end: PieceEnd) -> PieceEnd
    ensures { (workers : ℕ) (so_far : LiveHistory) (line : live_lines.LiveLine)
        → written ≡ trace_length so_far → IsNoStep end workers so_far line
        → IsNotTaken result workers so_far line }
{
    match end {
        PieceEnd::Memory if written >= MOST_LINES => PieceEnd::Full,
        end => end,
    }
}
