//! The text of a code.
ghost use Rattle.std.specs.Prelude.{◌≡◌, IfOk, IfErr, string_bytes};
ghost use Rattle.queue_code.specs.Listings.{listing_of};

use crate::code::Code;
use crate::fault::CodeFault;
use std::alloc::Allocator;
use std::fmt::Write;

/// The text of a code: a line for each instruction, its index from 0 in front.
///
/// Times are in nanoseconds. The only error is [`CodeFault::Memory`].
pub fn listing<A: Allocator>(alloc: A, code: &Code<A>) -> Result<String<A>, CodeFault>
    ensures text { IfOk result (λ text. string_bytes text ≡ listing_of code.now) }
    ensures memory { IfErr result (λ e. e ≡ CodeFault.Memory) }
{
    let mut text = String::new(alloc);
    let instrs = code.instrs();
    for (index, instr) in instrs.iter().enumerate() {
        writeln!(text, "{index} {instr}")?;
    }
    Ok(text)
}
