//! The engine: it reads a piece, answers it and writes the answers, turn by turn.
ghost use Rattle.std.specs.Prelude.{◌≡◌, ℕ, ◌+◌, ◌^◌, ◌<◌, ◌≤◌, List, [], Option, IfOk, IfErr, IfSome, IsNone, IsSome, MatchResult, is_some, length};
ghost use Rattle.byte_ends.specs.Ends.{CountsTries};
ghost use Rattle.sched_engine.specs.Running.{CountsReader, CountsReads, CountsWriter, CountsWrites, Ran, RefusesToRun};
ghost use Rattle.sched_engine.specs.Cores.{Opens};
ghost use Rattle.sched_engine.specs.CodeTexts.{IsCodeOfText, RefusesText};
ghost use Rattle.sched_engine.specs.own.Turns.{Done, IsBetweenTurns, IsCut, IsPieceEnd, StandsAfterEvents, Progress, Setting, Turns};
ghost use Rattle.sched_engine.specs.declared.engine.Turn.TheVariants as t;

use crate::answering::{PieceEnd, answer_events};
use crate::draft::Draft;
use crate::report::{CodeError, OpenError, Report, RunError, StopError};
use byte_ends::{Filled, HeldBytes, Sink, Source, write_text};
use executor_core::{Core, CoreError};
use executor_model::Line;
use plan_compile::{CompileFault, compile};
use plan_read::{HeapAllocator, read_plan};
use queue_code::Code;
use std::alloc::Allocator;

/// Runs a plan over the event lines of the reader, and writes its trace.
///
/// `plan_text` is the plan's TOML, at most 1,048,576 bytes; `workers` is the number of workers, 1
/// to 64, and `limit` the greatest number of events, 1 to 4,294,967,295. Moments are nanoseconds.
/// A piece of input, 64 KiB at most, is answered whole and its text written before more is read,
/// so whoever feeds lines sees each answer before the run waits for more. A text of more than 64
/// KiB is written as it comes. Nothing is flushed.
///
/// On [`RunError::Plan`], [`RunError::Workers`] and [`RunError::Limit`], found in this order,
/// nothing is read or written. On [`RunError::EventLine`], [`RunError::Full`] and
/// [`RunError::Read`] the text of all events before was written, and on [`RunError::Write`] a front
/// of the text of some of the first events. On [`RunError::Memory`] nothing was read or written, or
/// there was no memory for the lines of a further event within the limit, and the text of all events
/// before it was written. At most one piece was read behind the last event that was taken.
///
/// A read or write that fails by `Interrupted` is tried again, up to the 1,000th in a row. That one,
/// any other fault, and a write that takes nothing, is [`RunError::Read`] or [`RunError::Write`], and
/// that end is not called again.
///
/// ```rust
/// let mut reader = Pieces::new(b"clock 5\nstart 0\n", 64); // in place of `Reading::new(rt.stdin())`
/// let mut writer = Writing::new(Vec::new(alloc)); // in place of `Writing::new(rt.stdout())`
/// let report = run(alloc, b"version = 2\n", 1, 1_000, &mut reader, &mut writer)?;
/// assert_eq!(rt; (report.events, report.lines), (2, 2));
/// assert_eq!(rt;
///     writer.into_inner().as_slice(),
///     b"5 clock\n5 start 0 idle\n".as_slice()
/// );
/// ```
pub fn run<A: HeapAllocator, S: Source, W: Sink>(
    alloc: A,
    plan_text: &[u8],
    workers: u8,
    limit: u32,
    reader: &mut S,
    writer: &mut W,
) -> Result<Report, RunError>
    ensures ran { Ran result plan_text.now workers limit (S.remaining reader.old)
        (S.remaining reader.new) (W.contents writer.old) (W.contents writer.new) }
    ensures read { CountsReader result (S.failed reader.old) (S.fruitless reader.old)
        (S.failed reader.new) (S.fruitless reader.new) }
    ensures write { CountsWriter result (W.failed writer.old) (W.fruitless writer.old)
        (W.failed writer.new) (W.fruitless writer.new) }
{
    let mut engine = Engine::open(alloc, plan_text, workers, limit)?;
    loop {
        if let Turn::Ended(report) = engine.turn(reader, writer)? {
            return Ok(report);
        }
    }
}

/// The code of the plan that a text writes.
pub fn code_of<A: HeapAllocator>(alloc: A, plan_text: &[u8]) -> Result<Code<A>, CodeError>
    ensures code { IfOk result (IsCodeOfText plan_text.now) }
    ensures refuses { IfErr result (RefusesText plan_text.now) }
{
    let plan = match read_plan(alloc, plan_text) {
        Ok(plan) => plan,
        Err(fault) => return Err(CodeError::Plan(fault)),
    };
    match compile(alloc, &plan) {
        Ok(code) => Ok(code),
        Err(CompileFault::Memory) => Err(CodeError::Memory),
    }
}

/// The core of the plan that a text writes, before anything happened.
///
/// The numbers are those of [`run`]. The errors are [`OpenError::Plan`], [`OpenError::Workers`] and [`OpenError::Limit`], found in
/// this order, and [`OpenError::Memory`].
pub fn core_of<A: HeapAllocator>(
    alloc: A,
    plan_text: &[u8],
    workers: u8,
    limit: u32,
) -> Result<Core<A>, OpenError>
    ensures opens { IfOk result (λ core. Opens core plan_text.now workers limit) }
    ensures refuses { IfErr result (λ e. RefusesToRun e plan_text.now workers limit) }
{
    let code = code_of(alloc, plan_text)?;
    match Core::new(alloc, code, workers, limit) {
        Ok(core) => Ok(core),
        Err(CoreError::Workers) => Err(OpenError::Workers),
        Err(CoreError::Limit) => Err(OpenError::Limit),
        Err(CoreError::Full) => unreachable!(),
        Err(CoreError::Memory) => Err(OpenError::Memory),
    }
}

/// What a turn led to.
#[derive(Clone, Copy)]
pub enum Turn {
    /// All that was read is answered and written, but for a part of one line.
    More,
    /// The input ended, and so did the run.
    Ended(Report),
}

/// A run under way. Its buffers are made once, so that an event takes no memory of its own.
#[derive(Drop)]
pub struct Engine<A: Allocator> {
    core: Core<A>,
    held: HeldBytes<A>,
    /// The lines of the call or event at hand, with room for all that the event may have.
    lines: Vec<Line, A>,
    /// The text of the answers that was not written yet.
    draft: Draft<A>,
    /// How many lines were answered.
    count: u64,
}

impl<A: Allocator> Engine<A> {
    /// A run of the plan that a text writes, before anything was read.
    pub fn open(alloc: A, plan_text: &[u8], workers: u8, limit: u32) -> Result<Engine<A>, OpenError>
    where
        A: HeapAllocator,
        ensures opens { IfOk result (λ engine. Opens engine.core plan_text.now workers limit) }
        ensures held { IfOk result (λ engine. engine.held ≡ []) }
        ensures text { IfOk result (λ engine. engine.draft ≡ []) }
        ensures count { IfOk result (λ engine. engine.count ≡ 0) }
        ensures refuses { IfErr result (λ e. RefusesToRun e plan_text.now workers limit) }
    {
        Ok(Engine {
            core: core_of(alloc, plan_text, workers, limit)?,
            held: HeldBytes::new(alloc)?,
            lines: Vec::new(alloc),
            draft: Draft::new(alloc)?,
            count: 0,
        })
    }

    /// Reads once, answers each event line that is then held, and writes the answers.
    ///
    /// So between two turns nothing that was read waits for an answer, and no answer to be
    /// written: whoever feeds lines sees each answer before the run waits for more.
    pub fn turn<S: Source, W: Sink>(
        &mut self,
        reader: &mut S,
        writer: &mut W,
    ) -> Result<Turn, StopError>
        requires { (run : Setting)
            × IsBetweenTurns run
            (record {
              left = S.remaining reader.old;
              held = self.old.held;
              text = self.old.draft;
              contents = W.contents writer.old;
              core = self.old.core;
              count = self.old.count;
            }) }
        ensures turns { (run : Setting)
            → let old : Progress = record {
              left = S.remaining reader.old;
              held = self.old.held;
              text = self.old.draft;
              contents = W.contents writer.old;
              core = self.old.core;
              count = self.old.count;
            } in
            IsBetweenTurns run old
            → Turns result run old
            (record {
              left = S.remaining reader.new;
              held = self.new.held;
              text = self.new.draft;
              contents = W.contents writer.new;
              core = self.new.core;
              count = self.new.count;
            }) }
        ensures read { CountsReads result (S.failed reader.old) (S.fruitless reader.old)
            (S.failed reader.new) (S.fruitless reader.new) }
        ensures write { CountsWrites result (W.failed writer.old) (W.fruitless writer.old)
            (W.failed writer.new) (W.fruitless writer.new) }
    {
        match self.held.fill(reader) {
            Filled::More => {}
            Filled::End => return self.end(),
            Filled::Fault => return Err(StopError::Read),
        }
        let Some(end) = self.answer_held(writer) else {
            return Err(StopError::Write);
        };
        if !write_text(writer, self.draft.bytes()) {
            return Err(StopError::Write);
        }
        self.draft.clear();
        match end {
            PieceEnd::Part => Ok(Turn::More),
            PieceEnd::Refused => Err(self.refused_line()),
            PieceEnd::Full => Err(StopError::Full),
            PieceEnd::Memory => Err(StopError::Memory),
        }
    }

    /// Answers each event line that is held, and lets go of these lines. What of the text does not
    /// fit into the draft is written; `None` is a fault of that.
    fn answer_held<W: Sink>(&mut self, writer: &mut W) -> Option<PieceEnd>
        requires standing { StandsAfterEvents self.old.core }
        requires few { self.old.count < 2 ^ 34 }
        ensures done { IsSome result
            → ((run : Setting) (left : Option (List ℕ))
            → Done run
            (record {
              left = left;
              held = self.old.held;
              text = self.old.draft;
              contents = W.contents
                  writer.old;
              core = self.old.core;
              count = self.old.count;
            })
            → Done run
            (record {
              left = left;
              held = self.new.held;
              text = self.new.draft;
              contents = W.contents
                  writer.new;
              core = self.new.core;
              count = self.new.count;
            })) }
        ensures end { IfSome result (λ end. IsPieceEnd end self.new.core self.new.held) }
        ensures cut { IsNone result
            → IsCut self.old.core self.old.held
            (record { contents = W.contents writer.old; text = self.old.draft })
            (W.contents writer.new) }
        ensures write { CountsTries (is_some result) (W.failed writer.old) (W.fruitless writer.old)
            (W.failed writer.new) (W.fruitless writer.new) }
        ensures fewer { IsSome result → (length self.new.held ≤ length self.old.held) }
        ensures rises { IsSome result → (self.old.core.taken ≤ self.new.core.taken) }
        ensures same { IsSome result
            → (self.new.core.taken ≡ self.old.core.taken → self.new.held ≡ self.old.held) }
    {
        let answered = answer_events(
            &mut self.core,
            self.held.bytes(),
            &mut self.lines,
            &mut self.draft,
            writer,
        )?;
        self.held.skip(answered.bytes);
        self.count += answered.lines;
        Some(answered.end)
    }

    /// What the run comes to at the end of the input: a part of a line is no event line.
    fn end(&self) -> Result<Turn, StopError>
        ensures { MatchResult result
            (λ turn.
            (turn ≡ t.Ended (record { events = self.now.core.taken; lines = self.now.count }))
            × (self.now.held ≡ []))
            (λ e. (e ≡ StopError.EventLine (self.now.core.taken + 1))
            × (0 < length self.now.held)) }
    {
        if !self.held.bytes().is_empty() {
            return Err(self.refused_line());
        }
        Ok(Turn::Ended(Report {
            events: self.core.taken(),
            lines: self.count,
        }))
    }

    /// The next line is no event line.
    fn refused_line(&self) -> StopError
        ensures { result ≡ StopError.EventLine (self.now.core.taken + 1) }
    {
        StopError::EventLine(u64::from(self.core.taken()) + 1)
    }
}
