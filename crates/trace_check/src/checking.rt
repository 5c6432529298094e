//! A check of a text, line by line.
ghost use Rattle.std.specs.Prelude.{◌≡◌, ℕ, ◌+◌, ◌<◌, ◌≤◌, ◌∷◌, ◌++◌, ◌↔◌, List, [], false, drop, length, IsTrue, IfOk, IfErr, OnOk, IsErrOf, vec_capacity};
ghost use Rattle.plan_compile.specs.PlanCalls.{calls_of_plan};
ghost use Rattle.executor_model.specs.Counts.{IsWorkerCount};
ghost use Rattle.executor_core.specs.CoreView.{workers_of, IsOpening};
ghost use Rattle.executor_model.specs.declared.types.Line.{Line as Said};
ghost use Rattle.trace_check.specs.Going.{Goes};
ghost use Rattle.trace_check.specs.Findings.{Finds};
ghost use Rattle.trace_check.specs.Lines.{AreRead};
ghost use Rattle.trace_check.specs.Standing.{most_bytes};
ghost use Rattle.trace_check.specs.own.Standing.{TellBusy, IsStanding, IsReady, most_events};

use crate::busy::Busy;
use crate::error::CheckError;
use crate::finding::Finding;
use executor_core::Core;
use executor_model::{Line, MOST_WORKERS, line_equality_tells};
use plan_compile::compile;
use plan_read::Plan;
use std::alloc::Allocator;
use trace_text::split_line;

/// The greatest number of bytes of a text that is checked.
pub const MOST_BYTES: usize = 67_108_864;

/// A check under way.
#[derive(Drop)]
pub struct Checker<A: Allocator> {
    core: Core<A>,
    /// The lines of the last answer.
    out: Vec<Line, A>,
    /// How many of them were met.
    met: usize,
    busy: Busy,
}

/// What is found of a text, held against the traces of a plan with this many workers, 1 to 64.
///
/// The text has at most [`MOST_BYTES`] bytes. It conforms exactly where it is a whole trace of the plan, and else breaks at a
/// line, counted from 1: the first with which it begins no trace, or the one after its last where a line that ends a task is wanting. The errors are [`CheckError::Workers`] exactly where the number of
/// workers is not 1 to 64, and else [`CheckError::Memory`]. Nothing is kept after an error.
///
/// ```rust
/// let plan = read_plan(alloc, b"version = 2\n")?; // of no calls
/// let finding = check(alloc, &plan, 1, b"5 clock\n5 start 0 idle\n")?;
/// assert_eq!(rt; finding, Finding::Conforms);
/// let finding = check(alloc, &plan, 1, b"5 clock\n4 start 0 idle\n")?;
/// assert_eq!(rt; finding, Finding::Breaks(2)); // moments do not fall
/// let finding = check(alloc, &plan, 1, b"5 clock")?;
/// assert_eq!(rt; finding, Finding::Breaks(1)); // its newline is wanting
/// let error = check(alloc, &plan, 65, b"5 clock\n").err();
/// assert_eq!(rt; error, Some(CheckError::Workers)); // there are 1 to 64
/// ```
pub fn check<A: Allocator + Copy, B: Allocator>(
    alloc: A,
    plan: &Plan<B>,
    workers: u8,
    text: &[u8],
) -> Result<Finding, CheckError>
    requires { length text.now ≤ most_bytes }
    ensures workers { IsErrOf result CheckError.Workers ↔ ¬ IsWorkerCount workers }
    ensures finds { IfOk result (λ f. Finds (calls_of_plan plan.now) workers text.now f) }
{
    let mut checker = Checker::new(alloc, plan, workers)?;
    checker.run(text, false, &mut Vec::new(alloc))
}

/// What [`check`] finds of a text, under the same conditions and with the same errors, and the lines that it read, in their order:
/// all of them where the text conforms, and else those before the line at which it breaks.
pub fn check_and_read<A: Allocator + Copy, B: Allocator>(
    alloc: A,
    plan: &Plan<B>,
    workers: u8,
    text: &[u8],
) -> Result<(Finding, Vec<Line, A>), CheckError>
    requires { length text.now ≤ most_bytes }
    ensures workers { IsErrOf result CheckError.Workers ↔ ¬ IsWorkerCount workers }
    ensures finds { IfOk result (λ r. Finds (calls_of_plan plan.now) workers text.now r.0) }
    ensures lines { IfOk result (λ r. AreRead text.now r.0 r.1.items) }
{
    let mut checker = Checker::new(alloc, plan, workers)?;
    let mut lines = Vec::new(alloc);
    let finding = checker.run(text, true, &mut lines)?;
    Ok((finding, lines))
}

impl<A: Allocator> Checker<A> {
    /// A check before any line.
    fn new<B: Allocator>(alloc: A, plan: &Plan<B>, workers: u8) -> Result<Checker<A>, CheckError>
    where
        A: Copy,
        ensures workers { IsErrOf result CheckError.Workers ↔ ¬ IsWorkerCount workers }
        ensures core { IfOk result
            (λ c. IsOpening c.core (calls_of_plan plan.now) workers most_events) }
        ensures ready { IfOk result (λ c. IsReady c.core c.busy.workers (vec_capacity c.out)) }
        ensures owed { IfOk result (λ c. drop c.met c.out.items ≡ []) }
        ensures busy { IfOk result (λ c. TellBusy c.busy.flags []) }
    {
        let core = core_of(alloc, plan, workers)?;
        let out = Vec::with_capacity(alloc, core.room()).map_err(|_| CheckError::Memory)?;
        Ok(Checker {
            core,
            out,
            met: 0,
            busy: Busy::new(workers),
        })
    }

    /// Takes the lines of a text, as far as they go. Where `keeps` says so, each is put behind the ones before it. It is one loop for
    /// both, in which the reading of a line stands once.
    #[inline(never)]
    fn run(
        &mut self,
        text: &[u8],
        keeps: bool,
        lines: &mut Vec<Line, A>,
    ) -> Result<Finding, CheckError>
        requires size { length text.now ≤ most_bytes }
        requires limit { self.old.core.limit ≡ most_events }
        requires taken { self.old.core.taken ≡ 0 }
        requires ready { IsReady self.old.core self.old.busy.workers (vec_capacity self.old.out) }
        requires stands { IsStanding self.old.core (drop self.old.met self.old.out.items)
            self.old.busy.flags [] }
        requires none { lines.old.items ≡ [] }
        ensures finds { IfOk result
            (λ f. Finds self.old.core.calls (workers_of self.old.core) text.now f) }
        ensures lines { IsTrue keeps → IfOk result (λ f. AreRead text.now f lines.new.items) }
        ensures memory { IfErr result (λ e. e ≡ CheckError.Memory) }
    {
        let mut rest = text;
        let mut count = 0u64;
        while !rest.is_empty() {
            let Some(found) = split_line(rest) else {
                return Ok(Finding::Breaks(count + 1));
            };
            let (line, behind) = found;
            if !self.take(&line) {
                return Ok(Finding::Breaks(count + 1));
            }
            keep(keeps, lines, line)?;
            rest = behind;
            count += 1;
        }
        if self.met < self.out.len() {
            return Ok(Finding::Breaks(count + 1));
        }
        Ok(Finding::Conforms)
    }

    /// Takes the next line, where it goes.
    fn take(&mut self, line: &Line) -> bool
        requires ready { IsReady self.old.core self.old.busy.workers (vec_capacity self.old.out) }
        requires some { self.old.core.taken < self.old.core.limit }
        ensures goes { IsTrue result → (lines : List Said)
            → IsStanding self.old.core (drop self.old.met self.old.out.items) self.old.busy.flags
            lines
            → IsStanding self.new.core (drop self.new.met self.new.out.items) self.new.busy.flags
            (line.now ∷ lines) }
        ensures breaks { result ≡ false → (lines : List Said)
            → IsStanding self.old.core (drop self.old.met self.old.out.items) self.old.busy.flags
            lines → Goes self.old.core.calls (workers_of self.old.core) (line.now ∷ lines) → ⊥ }
        ensures calls { self.new.core.calls ≡ self.old.core.calls }
        ensures workers { workers_of self.new.core ≡ workers_of self.old.core }
        ensures ready { IsReady self.new.core self.new.busy.workers (vec_capacity self.new.out) }
        ensures limit { self.new.core.limit ≡ self.old.core.limit }
        ensures taken { self.new.core.taken ≤ self.old.core.taken + 1 }
    {
        if self.met < self.out.len() {
            if !is_same(&self.out[self.met], line) {
                return false;
            }
            self.met += 1;
            return true;
        }
        self.take_answer(line)
    }

    /// Takes the next line where nothing is owed: an answer.
    fn take_answer(&mut self, line: &Line) -> bool
        requires ready { IsReady self.old.core self.old.busy.workers (vec_capacity self.old.out) }
        requires some { self.old.core.taken < self.old.core.limit }
        ensures goes { IsTrue result → (lines : List Said)
            → IsStanding self.old.core [] self.old.busy.flags lines
            → IsStanding self.new.core (drop self.new.met self.new.out.items) self.new.busy.flags
            (line.now ∷ lines) }
        ensures breaks { result ≡ false → (lines : List Said)
            → IsStanding self.old.core [] self.old.busy.flags lines
            → Goes self.old.core.calls (workers_of self.old.core) (line.now ∷ lines) → ⊥ }
        ensures calls { self.new.core.calls ≡ self.old.core.calls }
        ensures workers { workers_of self.new.core ≡ workers_of self.old.core }
        ensures ready { IsReady self.new.core self.new.busy.workers (vec_capacity self.new.out) }
        ensures limit { self.new.core.limit ≡ self.old.core.limit }
        ensures taken { self.new.core.taken ≤ self.old.core.taken + 1 }
    {
        let Some(happening) = self.busy.representative(line.moment(), line.said()) else {
            return false;
        };
        if !self.core.may_come(happening) {
            return false;
        }
        self.core.count();
        self.out.clear();
        self.core.happen(happening, &mut self.out);
        self.met = 1;
        if !is_same(&self.out[0], line) {
            return false;
        }
        self.busy.note(line.said());
        true
    }
}

/// Puts a line behind the ones before it, where `keeps` says so.
#[inline(always)]
fn keep<A: Allocator>(keeps: bool, lines: &mut Vec<Line, A>, line: Line) -> Result<(), CheckError>
    ensures kept { IsTrue keeps
        → OnOk result (lines.new.items ≡ lines.old.items ++ line ∷ []) }
    ensures memory { IfErr result (λ e. e ≡ CheckError.Memory) }
{
    if keeps {
        lines.push(line).map_err(|_| CheckError::Memory)?;
    }
    Ok(())
}

/// Whether two lines are equal.
fn is_same(one: &Line, other: &Line) -> bool
    ensures { IsTrue result ↔ (one.now ≡ other.now) }
{
    line_equality_tells();
    one == other
}

/// The core of a plan before anything happened, which takes as many happenings as it may.
fn core_of<A: Allocator + Copy, B: Allocator>(
    alloc: A,
    plan: &Plan<B>,
    workers: u8,
) -> Result<Core<A>, CheckError>
    ensures workers { IsErrOf result CheckError.Workers ↔ ¬ IsWorkerCount workers }
    ensures core { IfOk result
        (λ core. IsOpening core (calls_of_plan plan.now) workers most_events) }
{
    if workers == 0 || workers > MOST_WORKERS {
        return Err(CheckError::Workers);
    }
    let code = compile(alloc, plan).map_err(|_| CheckError::Memory)?;
    Core::new(alloc, code, workers, u32::MAX).map_err(|_| CheckError::Memory)
}
