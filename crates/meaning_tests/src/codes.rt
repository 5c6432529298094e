//! Tests of codes: cursors and agendas through loops, faults, and listings.
ghost use Rattle.std.specs.Prelude.{◌≡◌, IfOk};

/// A list of instructions by their names.
macro_rules! instrs {
    ($($name:ident $(($($value:expr),*))?),*) => {
        [$(Instr::$name $(($($value),*))?),*]
    };
}

mod faults;
mod listings;
mod usage;
mod walks;

use queue_code::{Code, CodeFault, Instr};
use std::alloc::Global;

/// The code of some instructions.
fn code_of(alloc: Global, instrs: &[Instr]) -> Result<Code<Global>, CodeFault>
    ensures { IfOk result (λ code. code ≡ instrs.now) }
{
    let instrs = Vec::from_slice(alloc, instrs)?;
    Code::check(alloc, instrs)
}
