//! The listing of a plan's code.
ghost use Rattle.std.specs.Prelude.{IfErr, IfOk, string_bytes};
ghost use Rattle.sched_engine.specs.CodeTexts.{RefusesText};
ghost use Rattle.plan_list.specs.ListingTexts.{CountsListing, IsListingOfText, Listed};

use crate::error::ListingError;
use byte_ends::{Sink, write_text};
use plan_read::HeapAllocator;
use queue_code::listing;
use sched_engine::{CodeError, code_of};

/// Writes the listing of a plan's queue code: a line for each instruction, its index in front.
///
/// `plan_text` is the plan's TOML, at most 1,048,576 bytes. On [`ListingError::Code`] nothing is
/// written, on [`ListingError::Write`] a front of the listing. A write is tried again as by
/// [`run`](sched_engine::run). Times in the listing are nanoseconds. Nothing is flushed.
pub fn write_listing<A: HeapAllocator, W: Sink>(
    alloc: A,
    plan_text: &[u8],
    writer: &mut W,
) -> Result<(), ListingError>
    ensures listed { Listed result plan_text.now (W.contents writer.old) (W.contents writer.new) }
    ensures write { CountsListing result (W.failed writer.old) (W.fruitless writer.old)
        (W.failed writer.new) (W.fruitless writer.new) }
{
    let text = listing_of(alloc, plan_text)?;
    if write_text(writer, text.as_bytes()) {
        Ok(())
    } else {
        Err(ListingError::Write)
    }
}

/// The listing of the code of the plan that a text writes.
fn listing_of<A: HeapAllocator>(alloc: A, plan_text: &[u8]) -> Result<String<A>, CodeError>
    ensures listing { IfOk result (λ text. IsListingOfText plan_text.now (string_bytes text)) }
    ensures refuses { IfErr result (RefusesText plan_text.now) }
{
    let code = code_of(alloc, plan_text)?;
    match listing(alloc, &code) {
        Ok(text) => Ok(text),
        Err(_) => Err(CodeError::Memory),
    }
}
