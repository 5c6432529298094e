//! The lines of a plan's submissions, written as they come.

ghost use Rattle.std.specs.Prelude.{◌≡◌, [], IfErr, IfOk, take};
ghost use Rattle.sched_engine.specs.CodeTexts.{RefusesText};
ghost use Rattle.plan_list.specs.ListingTexts.{CountsListing};
ghost use Rattle.byte_ends.specs.Ends.{CountsTries, WritesText};
ghost use Rattle.plan_read.specs.Texts.{TextWrites};
ghost use Rattle.plan_list.specs.Lines.{tasks_text};
ghost use Rattle.plan_list.specs.Writing.{TasksWritten};
ghost use Rattle.plan_list.specs.own.Pages.{MakesRoom};

use crate::error::ListingError;
use crate::page::Page;
use byte_ends::{Sink, write_text};
use plan_compile::Submissions;
use plan_read::{HeapAllocator, Plan, read_plan};
use sched_engine::CodeError;
use std::alloc::Allocator;

/// Writes a line for each submission of a plan, in ascending number.
///
/// `plan_text` is the plan's TOML, at most 1,048,576 bytes. On [`ListingError::Code`], as where the text is no plan, nothing is
/// written, on [`ListingError::Write`] a front of the lines. A write is tried again as by [`run`](sched_engine::run). Moments are
/// nanoseconds. Nothing is flushed.
pub fn write_tasks<A: HeapAllocator, W: Sink>(
    alloc: A,
    plan_text: &[u8],
    writer: &mut W,
) -> Result<(), ListingError>
    ensures tasks { TasksWritten result plan_text.now (W.contents writer.old)
        (W.contents writer.new) }
    ensures write { CountsListing result (W.failed writer.old) (W.fruitless writer.old)
        (W.failed writer.new) (W.fruitless writer.new) }
{
    let plan = plan_of(alloc, plan_text)?;
    let page = Page::new(alloc)?;
    if write_lines(page, &plan, writer) {
        Ok(())
    } else {
        Err(ListingError::Write)
    }
}

/// The plan that a text writes.
fn plan_of<A: HeapAllocator>(alloc: A, plan_text: &[u8]) -> Result<Plan<A>, CodeError>
    ensures plan { IfOk result (TextWrites plan_text.now) }
    ensures refuses { IfErr result (RefusesText plan_text.now) }
{
    match read_plan(alloc, plan_text) {
        Ok(plan) => Ok(plan),
        Err(fault) => Err(CodeError::Plan(fault)),
    }
}

/// Writes the lines by a page without text. `false` is a fault of the sink, after a front of the lines was written.
pub fn write_lines<A: Allocator, B: Allocator, W: Sink>(
    mut page: Page<A>,
    plan: &Plan<B>,
    writer: &mut W,
) -> bool
    requires { page ≡ [] }
    ensures bytes { WritesText result (W.contents writer.old) (W.contents writer.new)
        (tasks_text plan.now) }
    ensures counts { CountsTries result (W.failed writer.old) (W.fruitless writer.old)
        (W.failed writer.new) (W.fruitless writer.new) }
{
    let mut submissions = Submissions::new(plan);
    while let Some(submission) = submissions.next() {
        if !make_room(&mut page, writer) {
            return false;
        }
        page.put_line(&submission);
    }
    write_text(writer, page.bytes())
}

/// Makes room for a line: where there is none, the text of the page is written. `false` is a fault of the sink, after a front of
/// that text was written.
fn make_room<A: Allocator, W: Sink>(page: &mut Page<A>, writer: &mut W) -> bool
    ensures room { MakesRoom result (W.contents writer.old) page.old (W.contents writer.new)
        page.new }
    ensures counts { CountsTries result (W.failed writer.old) (W.fruitless writer.old)
        (W.failed writer.new) (W.fruitless writer.new) }
{
    if page.has_room() {
        return true;
    }
    if !write_text(writer, page.bytes()) {
        return false;
    }
    page.clear();
    true
}
