ghost use Rattle.std.specs.Prelude.{◌≡◌, ℕ, ◌^◌, ◌<◌, ◌⊎◌, length, slice_get, Some, None, IfOk, IfErr};
ghost use Rattle.queue_code.specs.Calls.{IsPlanned, task_count};
ghost use Rattle.queue_code.specs.Codes.{calls_of};
ghost use Rattle.queue_code.specs.Checks.{code_fault};
ghost use Rattle.queue_code.specs.Cursors.{Enclosing, loop_around};
ghost use Rattle.queue_code.specs.own.Cursors.{IsCode, IsLoopTable};

use crate::check::walk;
use crate::fault::CodeFault;
use crate::instr::Instr;
use std::alloc::{AllocError, Allocator};
use std::marker::Model;

/// A queue code: instructions that were checked.
///
/// Contracts see the list of its instructions, and by `calls_of` the list of its calls with their moments.
#[derive(Drop)]
pub struct Code<A: Allocator> {
    instrs: Vec<Instr, A>,
    /// At each index within a loop, the index at which the loop begins.
    loops: Vec<usize, A>,
    calls: u32,
    tasks: u32,
}

impl<A: Allocator> Model for Code<A> {
    ghost use Rattle.std.specs.Prelude.{◌≡◌, List, length};
    ghost use Rattle.queue_code.specs.declared.instr.Instr.{Instr};
    ghost use Rattle.queue_code.specs.Calls.{task_count};
    ghost use Rattle.queue_code.specs.Codes.{calls_of};
    ghost use Rattle.queue_code.specs.own.Cursors.{IsCode, IsLoopTable};

    ghost Value = { List Instr };

    ghost view = { λ c. c.instrs.items };

    ghost invariant = { λ c. IsCode c.instrs.items × IsLoopTable c.instrs.items c.loops.items × (c.calls ≡ length (calls_of c.instrs.items)) × (c.tasks ≡ task_count (calls_of c.instrs.items)) };
}

impl<A: Allocator> Code<A> {
    /// The code of some instructions, if they have no fault.
    ///
    /// The answer is else the fault of the least index, and at one index the first that applies, in the order
    /// in which [`CodeFault`] lists them. [`CodeFault::Memory`] may come in place of a code, and never in place of
    /// another fault. Instructions that are refused are dropped. A period, or a fixed delay, of 0 is no fault: the run
    /// after one is then due at the very moment at which that one was due, or ended.
    pub fn check(alloc: A, instrs: Vec<Instr, A>) -> Result<Code<A>, CodeFault>
        ensures code { IfOk result
            (λ code. (code ≡ instrs.items) × (code_fault instrs.items ≡ None)) }
        ensures fault { IfErr result
            (λ e. (code_fault instrs.items ≡ Some e)
            ⊎ ((e ≡ CodeFault.Memory) × (code_fault instrs.items ≡ None))) }
        ensures orderly { IfOk result (λ code. IsPlanned (calls_of code)) }
    {
        let progress = walk(&instrs)?;
        let loops = loop_table(alloc, &instrs)?;
        Ok(Code {
            instrs,
            loops,
            calls: progress.calls as u32,
            tasks: progress.tasks as u32,
        })
    }

    /// How many calls it makes, at most 65,536. They are in order.
    pub fn calls(&self) -> u32
        ensures count { result ≡ length (calls_of self.now) }
        ensures orderly { IsPlanned (calls_of self.now) }
    {
        self.calls
    }

    /// How many tasks it submits, illegal ones among them.
    pub fn tasks(&self) -> u32
        ensures { result ≡ task_count (calls_of self.now) }
    {
        self.tasks
    }

    /// The instruction at an index.
    pub(crate) fn get(&self, index: usize) -> Option<Instr>
        ensures instr { result ≡ slice_get self.now index }
        ensures sound { IsCode self.now }
        ensures size { length self.now < 2 ^ 64 }
    {
        let _size = self.instrs.len();
        self.instrs.get(index).copied()
    }

    /// The instructions.
    pub(crate) fn instrs(&self) -> &[Instr]
        ensures instrs { result.now ≡ self.now }
        ensures sound { IsCode self.now }
    {
        &self.instrs
    }

    /// The loop that is open at an index: where it begins, how often it is made and its step.
    pub(crate) fn loop_around(&self, index: usize) -> (usize, u32, u64)
        requires within { index < length self.now }
        requires inside { (around : Enclosing) × (loop_around self.now index ≡ Some around) }
        ensures { (around : Enclosing) → loop_around self.now index ≡ Some around
            → result ≡ (around.place, around.times, around.every) }
    {
        let place = self.loops[index];
        let Instr::Loop(times, every) = self.instrs[place] else {
            unreachable!()
        };
        (place, times, every)
    }
}

/// For each index within a loop, where the loop begins.
fn loop_table<A: Allocator>(alloc: A, instrs: &[Instr]) -> Result<Vec<usize, A>, AllocError>
    ensures { IfOk result (λ table. IsLoopTable instrs.now table.items) }
{
    let mut table = Vec::with_capacity(alloc, instrs.len())?;
    let mut place = 0;
    for (index, instr) in instrs.iter().enumerate() {
        table.push(place)?;
        if let Instr::Loop(..) = instr {
            place = index;
        }
    }
    Ok(table)
}
