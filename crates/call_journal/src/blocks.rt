//! The tables of blocks.

ghost use Rattle.std.specs.Prelude.{◌≡◌, ◌+◌, ◌≤◌, IfOk, length};
ghost use Rattle.toml.specs.View.{items_view, table_view};
ghost use Rattle.plan_read.specs.Plans.{most_calls};
ghost use Rattle.call_journal.specs.Plans.{block_count, block_items, block_members, first_moment};

use crate::calls::{call_values, put_offset, tasks_after};
use crate::entries::put;
use crate::journal::MadeCall;
use crate::limits::MOST_BLOCK_CALLS;
use std::alloc::{AllocError, Global};
use toml::{Table, Value};

/// The tables of the blocks of these calls. `Err` is want of memory.
pub fn block_values(heap: Global, calls: &[MadeCall]) -> Result<Vec<Value>, AllocError>
    requires { length calls.now ≤ most_calls }
    ensures { IfOk result
        (λ v. items_view v.items ≡ block_items (block_count (length calls.now)) 0 0 calls.now) }
{
    let count = calls.len().div_ceil(MOST_BLOCK_CALLS);
    let mut values = Vec::with_capacity(heap, count)?;
    let mut rest = calls;
    let mut begin = 0;
    let mut task = 0;
    for _block in 0..count {
        let (block, more) = rest.split_at(MOST_BLOCK_CALLS.min(rest.len()));
        values.push(Value::Table(block_table(heap, begin, task, block)?))?;
        begin = first_moment(more);
        task = tasks_after(task, block);
        rest = more;
    }
    Ok(values)
}

/// The table of a block that begins at the moment `begin`, where `task` tasks were submitted before it. `Err` is want of memory.
fn block_table(heap: Global, begin: u64, task: u32, calls: &[MadeCall]) -> Result<Table, AllocError>
    requires { task + length calls.now ≤ most_calls }
    ensures { IfOk result (λ t. table_view t ≡ block_members begin task calls.now) }
{
    let mut table = Table::new(heap);
    let values = call_values(heap, begin, task, calls)?;
    put(heap, &mut table, "call", Value::Array(values))?;
    put_offset(heap, &mut table, begin)?;
    Ok(table)
}

/// The moment of the first of some calls, 0 where there is none.
fn first_moment(calls: &[MadeCall]) -> u64
    ensures { result ≡ first_moment calls.now }
{
    match calls.first() {
        Some(made) => made.moment,
        None => 0,
    }
}
