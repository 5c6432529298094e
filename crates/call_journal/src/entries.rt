//! What stands at the keys of a table.

ghost use Rattle.std.specs.Prelude.{◌≡◌, ◌++◌, pos, IfOk, OnOk, codes, string_bytes};
ghost use Rattle.toml.specs.Data.{string, integer};
ghost use Rattle.toml.specs.View.{view, table_view};
ghost use Rattle.plan_read.specs.Migrating.{with_member};
ghost use Rattle.call_journal.specs.Plans.{task_name, written};

use crate::limits::GREATEST_NUMBER;
use std::alloc::{AllocError, Global};
use toml::{Table, Value};

/// Puts a value at a key of a table. `Err` is want of memory.
pub fn put(heap: Global, table: &mut Table, key: &str, value: Value) -> Result<(), AllocError>
    ensures { OnOk result
        (table_view table.new ≡ with_member key.now (view value) (table_view table.old)) }
{
    let key = String::from_str(heap, key)?;
    drop(table.insert(key, value)?);
    Ok(())
}

/// Puts a text at a key of a table. `Err` is want of memory.
pub fn put_text(heap: Global, table: &mut Table, key: &str, text: &str) -> Result<(), AllocError>
    ensures { OnOk result
        (table_view table.new ≡ with_member key.now (string text.now) (table_view table.old)) }
{
    put(heap, table, key, Value::string(heap, text)?)
}

/// Puts the name of a task at `name`. `Err` is want of memory.
pub fn put_name(heap: Global, table: &mut Table, task: u32) -> Result<(), AllocError>
    ensures { OnOk result
        (table_view table.new
        ≡ with_member (codes "name") (string (task_name task)) (table_view table.old)) }
{
    let name = task_name(heap, task)?;
    put_text(heap, table, "name", &name)
}

/// The name of a task. `Err` is want of memory.
fn task_name(heap: Global, task: u32) -> Result<String, AllocError>
    ensures { IfOk result (λ s. string_bytes s ≡ task_name task) }
{
    format!(in heap; "t{task}")
}

/// Puts a span at a key of a table, and nanoseconds at that of its unit. `Err` is want of memory.
pub fn put_span(
    heap: Global,
    table: &mut Table,
    key: &str,
    unit: &str,
    nanos: u64,
) -> Result<(), AllocError>
    ensures { OnOk result
        (table_view table.new
        ≡ with_member unit.now (string (codes "ns"))
        (with_member key.now (integer (pos (written nanos))) (table_view table.old))) }
{
    put(heap, table, key, Value::Integer(written(nanos)))?;
    put_text(heap, table, unit, "ns")
}

/// A number as a text of TOML has it.
fn written(number: u64) -> i64
    ensures { result ≡ pos (written number) }
{
    number.min(GREATEST_NUMBER) as i64
}
