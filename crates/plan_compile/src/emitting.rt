//! The instructions of a plan, block by block.

ghost use Rattle.std.specs.Prelude.{◌≡◌, ℕ, ◌+◌, ◌*◌, ◌≤◌, ◌++◌, nat_lt, length, IfOk};
ghost use Rattle.queue_code.specs.Calls.{most_calls_of_code};
ghost use Rattle.plan_read.specs.Plans.{tasks_after_calls, IsOrdered};
ghost use Rattle.plan_compile.specs.PlanCalls.{block_tasks};
ghost use Rattle.plan_compile.specs.PlanCode.{instrs_at, block_instrs, instrs_of};
ghost use Rattle.plan_compile.specs.own.PlanCode.{AreInRange};

use crate::instrs::instr_of;
use crate::numbers::tasks_after;
use plan_read::{Block, Call};
use queue_code::Instr;
use std::alloc::{AllocError, Allocator};

/// The instructions of a plan's blocks, with the halt.
pub fn emit<A: Allocator + Copy, B: Allocator>(
    alloc: A,
    blocks: &[Block<B>],
) -> Result<Vec<Instr, A>, AllocError>
    requires { IsOrdered blocks.now }
    ensures { IfOk result (λ v. v.items ≡ instrs_of blocks.now) }
{
    let mut out = Vec::new(alloc);
    let mut firsts = Vec::new(alloc);
    let mut first = 0;
    for block in blocks {
        emit_block(&mut out, firsts.as_slice(), first, block)?;
        firsts.push(first)?;
        first += block.times() * tasks_of(block.calls());
    }
    out.push(Instr::Halt)?;
    Ok(out)
}

/// Appends the instructions of a block that begins with the number `first`, where `firsts` has the first number of
/// each block before it.
fn emit_block<A: Allocator, B: Allocator>(
    out: &mut Vec<Instr, A>,
    firsts: &[u32],
    first: u32,
    block: &Block<B>,
) -> Result<(), AllocError>
    requires { AreInRange firsts.now first block.now.header.at block.now.calls }
    ensures { IfOk result
        (λ _. out.new.items
        ≡ out.old.items ++ block_instrs firsts.now first block.now.header block.now.calls) }
{
    if block.calls().is_empty() {
        return Ok(());
    }
    let repeated = block.times() > 1;
    if repeated {
        out.push(Instr::Loop(block.times(), block.every()))?;
    }
    emit_calls(out, firsts, first, block)?;
    if repeated {
        out.push(Instr::EndLoop)?;
    }
    Ok(())
}

/// Appends the instructions of a block's calls.
fn emit_calls<A: Allocator, B: Allocator>(
    out: &mut Vec<Instr, A>,
    firsts: &[u32],
    first: u32,
    block: &Block<B>,
) -> Result<(), AllocError>
    requires { AreInRange firsts.now first block.now.header.at block.now.calls }
    ensures { IfOk result
        (λ _. out.new.items
        ≡ out.old.items
        ++ instrs_at firsts.now first (nat_lt 1 block.now.header.times) block.now.header.at
        block.now.calls) }
{
    let at = block.at();
    let repeated = block.times() > 1;
    for call in block.calls() {
        let instr = instr_of(firsts, first, repeated, at + call.at, &call.op);
        out.push(instr)?;
    }
    Ok(())
}

/// How many submissions each iteration of some calls makes.
fn tasks_of(calls: &[Call]) -> u32
    requires { length calls.now ≤ most_calls_of_code }
    ensures { result ≡ tasks_after_calls 0 calls.now }
{
    let mut task = 0;
    for call in calls {
        task = tasks_after(task, &call.op);
    }
    task
}
