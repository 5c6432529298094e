//! The engine: it reads a piece, answers it and writes the answers, turn by turn.
ghost use Rattle.std.specs.Prelude.{◌≡◌, ℕ, ◌+◌, ◌<◌, ◌≤◌, List, [], Option, IfOk, IfErr, IfSome, IsNone, IsSome, MatchResult, OnOk, is_some, length};
ghost use Rattle.byte_ends.specs.Ends.{CountsTries};
ghost use Rattle.sched_engine.specs.Running.{CountsReader, CountsReads, CountsWriter, CountsWrites};
ghost use Rattle.task_table.specs.Tables.{workers_of};
ghost use Rattle.live_core.specs.Lives.{Stands};
ghost use Rattle.live_engine.specs.declared.engine.Turn.TheVariants as t;
ghost use Rattle.live_engine.specs.declared.live_line.LiveLine as live_lines;
ghost use Rattle.live_engine.specs.LiveLines.{most_numbers};
ghost use Rattle.live_engine.specs.LiveRuns.{Ran, RefusesToRun};
ghost use Rattle.live_engine.specs.own.LiveTurns.{AreCounted, DoneAt, EndsAtLine, IsBetweenTurns, IsCut, Opens, Progress, Setting, Stopped, Turns};

use crate::answering::answer_lines;
use crate::counts::Counts;
use crate::opening::OpenError;
use crate::report::LiveReport;
use crate::stops::PieceEnd;
use byte_ends::{Filled, HeldBytes, Sink, Source, write_text};
use call_journal::Journal;
use executor_model::{Line, MOST_WORKERS};
use live_core::{MakeError, ScheduledExecutor};
use sched_engine::{Draft, RunError, StopError};
use std::alloc::Allocator;

/// Runs an executor over the lines of the reader, events and calls, and writes its trace.
///
/// `workers` is the number of workers, 1 to 64. Moments are nanoseconds. A piece of input, 64 KiB at most, is answered whole and its
/// text written before more is read, so whoever feeds lines sees each answer before the run waits for more. Nothing is flushed. Each
/// call that is made is noted in the journal where that keeps calls, rejected submissions too. A `call cancel K` of a number that was
/// not given out is the event `cancel K`, and no call.
///
/// On [`RunError::Workers`] nothing is read, written or noted. On [`RunError::EventLine`], [`RunError::Full`] and [`RunError::Read`]
/// the text of the answers to all lines before was written, and on [`RunError::Write`] a front of the text of some of the first
/// lines' answers. On [`RunError::Memory`] nothing was read, written or noted, or there was no memory for a further line that makes
/// a call, and for which there is room, and the text of the answers to all lines before it was written. At most one piece was read
/// behind the last line that was taken.
pub fn run<A: Allocator, S: Source, W: Sink>(
    alloc: A,
    workers: u8,
    journal: &mut Journal<A>,
    reader: &mut S,
    writer: &mut W,
) -> Result<LiveReport, RunError>
where
    A: Copy,
    ensures ran { Ran result workers
        (record {
          left = S.remaining reader.old;
          contents = W.contents writer.old;
          journal = journal.old;
        })
        (record {
          left = S.remaining reader.new;
          contents = W.contents writer.new;
          journal = journal.new;
        }) }
    ensures read { CountsReader result (S.failed reader.old) (S.fruitless reader.old)
        (S.failed reader.new) (S.fruitless reader.new) }
    ensures write { CountsWriter result (W.failed writer.old) (W.fruitless writer.old)
        (W.failed writer.new) (W.fruitless writer.new) }
{
    let mut engine = Engine::open(alloc, workers)?;
    loop {
        if let Turn::Ended(report) = engine.turn(journal, reader, writer)? {
            return Ok(report);
        }
    }
}

/// What a turn led to.
#[derive(Clone, Copy)]
pub(crate) enum Turn {
    /// All that was read is answered and written, but for a part of one line.
    More,
    /// The input ended, and so did the run.
    Ended(LiveReport),
}

/// A run under way. Its buffers are made once.
#[derive(Drop)]
pub(crate) struct Engine<A: Allocator> {
    executor: ScheduledExecutor<A>,
    held: HeldBytes<A>,
    /// The lines of the answer at hand, where it has several.
    lines: Vec<Line, A>,
    /// The text of the answers that was not written yet.
    draft: Draft<A>,
    counts: Counts,
}

impl<A: Allocator> Engine<A> {
    /// A run before anything was read.
    fn open(alloc: A, workers: u8) -> Result<Engine<A>, OpenError>
    where
        A: Copy,
        ensures opens { IfOk result (λ engine. Opens engine.executor workers) }
        ensures held { IfOk result (λ engine. engine.held ≡ []) }
        ensures text { IfOk result (λ engine. engine.draft ≡ []) }
        ensures counts { IfOk result (λ engine. engine.counts ≡ record { read = 0; written = 0 }) }
        ensures refuses { IfErr result (λ error. RefusesToRun error workers) }
    {
        // an executor takes more workers than a plan has, and the trace is to be one of a plan
        if workers > MOST_WORKERS {
            return Err(OpenError::Workers);
        }
        let executor = match ScheduledExecutor::new(alloc, workers) {
            Ok(executor) => executor,
            Err(MakeError::Workers) => return Err(OpenError::Workers),
            Err(MakeError::Memory) => return Err(OpenError::Memory),
        };
        Ok(Engine {
            executor,
            held: HeldBytes::new(alloc)?,
            lines: Vec::new(alloc),
            draft: Draft::new(alloc)?,
            counts: Counts {
                read: 0,
                written: 0,
            },
        })
    }

    /// Reads once, answers each line that is then held, and writes the answers.
    fn turn<S: Source, W: Sink>(
        &mut self,
        journal: &mut Journal<A>,
        reader: &mut S,
        writer: &mut W,
    ) -> Result<Turn, StopError>
        requires between { (run : Setting)
            × IsBetweenTurns run
            (record {
              ends = record {
                left = S.remaining reader.old;
                contents = W.contents writer.old;
                journal = journal.old;
              };
              held = self.old.held;
              text = self.old.draft;
              counts = self.old.counts;
            }) self.old.executor }
        requires few { self.old.executor.count ≤ most_numbers }
        requires counted { AreCounted self.old.counts }
        ensures turns { (run : Setting)
            → let old : Progress = record {
              ends = record {
                left = S.remaining reader.old;
                contents = W.contents writer.old;
                journal = journal.old;
              };
              held = self.old.held;
              text = self.old.draft;
              counts = self.old.counts;
            } in IsBetweenTurns run old self.old.executor
            → Turns result run old
            (record {
              ends = record {
                left = S.remaining reader.new;
                contents = W.contents writer.new;
                journal = journal.new;
              };
              held = self.new.held;
              text = self.new.draft;
              counts = self.new.counts;
            }) self.new.executor }
        ensures few { self.new.executor.count ≤ most_numbers }
        ensures counted { OnOk result (AreCounted self.new.counts) }
        ensures read { CountsReads result (S.failed reader.old) (S.fruitless reader.old)
            (S.failed reader.new) (S.fruitless reader.new) }
        ensures write { CountsWrites result (W.failed writer.old) (W.fruitless writer.old)
            (W.failed writer.new) (W.fruitless writer.new) }
    {
        match self.held.fill(reader) {
            Filled::More => {}
            Filled::End => return self.end(),
            Filled::Fault => return Err(StopError::Read),
        }
        let Some(end) = self.answer_held(journal, writer) else {
            return Err(StopError::Write);
        };
        if !write_text(writer, self.draft.bytes()) {
            return Err(StopError::Write);
        }
        self.draft.clear();
        match end {
            PieceEnd::Part => Ok(Turn::More),
            PieceEnd::Refused => Err(self.refused_line()),
            PieceEnd::Full => Err(StopError::Full),
            PieceEnd::Memory => Err(StopError::Memory),
        }
    }

    /// Answers each line that is held, and lets go of these lines. What of the text does not fit into the draft is written; `None`
    /// is a fault of that.
    fn answer_held<W: Sink>(&mut self, journal: &mut Journal<A>, writer: &mut W) -> Option<PieceEnd>
        requires few { self.old.executor.count ≤ most_numbers }
        requires counted { AreCounted self.old.counts }
        ensures stopped { IfSome result
            (λ end. (run : Setting) (left : Option (List ℕ)) (taken : List live_lines.LiveLine)
            → DoneAt run
            (record {
              ends = record
                  { left = left; contents = W.contents writer.old; journal = journal.old };
              held = self.old.held;
              text = self.old.draft;
              counts = self.old.counts;
            })
            self.old.executor taken
            → Stopped end run
            (record {
              ends = record
                  { left = left; contents = W.contents writer.new; journal = journal.new };
              held = self.new.held;
              text = self.new.draft;
              counts = self.new.counts;
            })
            self.new.executor) }
        ensures cut { IsNone result
            → ((run : Setting) (left : Option (List ℕ)) (taken : List live_lines.LiveLine)
            → DoneAt run
            (record {
              ends = record
                  { left = left; contents = W.contents writer.old; journal = journal.old };
              held = self.old.held;
              text = self.old.draft;
              counts = self.old.counts;
            })
            self.old.executor taken
            → IsCut run left self.old.held (W.contents writer.new) journal.new) }
        ensures few { self.new.executor.count ≤ most_numbers }
        ensures counted { IsSome result → (AreCounted self.new.counts) }
        ensures fewer { IsSome result → (length self.new.held ≤ length self.old.held) }
        ensures rises { IsSome result → (self.old.counts.read ≤ self.new.counts.read) }
        ensures same { IsSome result
            → (self.new.counts.read ≡ self.old.counts.read → self.new.held ≡ self.old.held) }
        ensures write { CountsTries (is_some result) (W.failed writer.old) (W.fruitless writer.old)
            (W.failed writer.new) (W.fruitless writer.new) }
    {
        let answered = answer_lines(
            &mut self.executor,
            journal,
            &mut self.counts,
            self.held.bytes(),
            &mut self.lines,
            &mut self.draft,
            writer,
        )?;
        self.held.skip(answered.bytes);
        Some(answered.end)
    }

    /// What the run comes to at the end of the input: a part of a line is no line.
    fn end(&self) -> Result<Turn, StopError>
        requires counted { AreCounted self.now.counts }
        ensures { MatchResult result
            (λ turn.
            (turn
            ≡ t.Ended
            (record
            { lines_read = self.now.counts.read; lines_written = self.now.counts.written }))
            × (self.now.held ≡ []))
            (λ error. EndsAtLine error self.now.counts.read × (0 < length self.now.held)) }
    {
        if !self.held.bytes().is_empty() {
            return Err(self.refused_line());
        }
        Ok(Turn::Ended(LiveReport {
            lines_read: self.counts.read,
            lines_written: self.counts.written,
        }))
    }

    /// The next line is none.
    fn refused_line(&self) -> StopError
        requires counted { AreCounted self.now.counts }
        ensures { EndsAtLine result self.now.counts.read }
    {
        StopError::EventLine(self.counts.read + 1)
    }
}
