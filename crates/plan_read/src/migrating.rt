//! The migration of a plan's text to version 2.

ghost use Rattle.std.specs.Prelude.{◌≡◌, ◌⊎◌, ◌≤◌, ◌<◌, ℕ, List, true, false, OnOk, IfOk, IfErr, MatchResult, if◌then◌else◌, is_some, option_copied, length, string_bytes, codes};
ghost use Rattle.toml.specs.Data.{Members, string, get_member};
ghost use Rattle.toml.specs.Text.{IsDocumentText};
ghost use Rattle.toml.specs.View.{view, table_view};
ghost use Rattle.plan_read.specs.Migrating.{with_member, changed_at, each_table, beside_times, migrated_block, migrated, in_nanoseconds, Migrates, MigrationFails};
ghost use Rattle.plan_read.specs.Plans.{PlanTree};
ghost use Rattle.plan_read.specs.Reads.{out_of_memory};
ghost use Rattle.plan_read.specs.Texts.{longest_text, tree_of, TextWrites};
ghost use Rattle.plan_read.specs.own.Migrating.{MigratesTo, PrintsAs};
ghost use Rattle.plan_read.specs.own.Plain.{members_are_plain};
ghost use Rattle.plan_read.specs.own.Values.{given_text};

use crate::faults::{Place, PlanFault, PlanFaultKind, ReadError};
use crate::limits::LONGEST_TEXT;
use crate::reading::{read_document, read_tree};
use crate::versions::Version;
use heap_allocator::HeapAllocator;
use std::alloc::{AllocError, Global};
use std::mem;
use toml::{Table, Value};

/// The text of version 2 for a text of version 1: the tree of the one is that of the other with version 2, and
/// with the unit of each block, where it has one, beside each time of its header and of its calls. It is printed as
/// `toml` prints a tree, so comments and the layout are lost. It writes the same plan, but that each block keeps
/// nanoseconds as its unit, as all of version 2 do.
///
/// A text that writes no plan has the fault that [`read_plan`](crate::read_plan) answers. One that writes a plan has
/// `Version`, block 0 and call 0, where it is of version 2 already, and `TooLong`, block 0 and call 0, where the text that
/// is printed is longer than 1,048,576 bytes. `Memory` may come in place of any other answer.
pub fn migrate<A: HeapAllocator>(alloc: A, text: &[u8]) -> Result<String, PlanFault>
    ensures migrated { IfOk result (λ s. Migrates text.now (string_bytes s)) }
    ensures only { (printed : List ℕ) → Migrates text.now printed
        → MatchResult result (λ s. string_bytes s ≡ printed) (λ e. e ≡ out_of_memory) }
    ensures fault { IfErr result (λ e. MigrationFails text.now e ⊎ (e ≡ out_of_memory)) }
    ensures faultless { IfOk result (λ s. (fault : PlanFault) → MigrationFails text.now fault → ⊥) }
    ensures plan { IfOk result
        (λ s. (plan : PlanTree) × TextWrites text.now plan
        × TextWrites (string_bytes s) (in_nanoseconds plan)) }
{
    match migrate_text(alloc, text) {
        Ok(migrated) => Ok(migrated),
        Err(ReadError::Fault(fault)) => Err(fault),
        Err(ReadError::Memory) => Err(PlanFault {
            kind: PlanFaultKind::Memory,
            block: 0,
            call: 0,
        }),
    }
}

/// The migrated text of a text, or why there is none.
fn migrate_text<A: HeapAllocator>(alloc: A, text: &[u8]) -> Result<String, ReadError>
    ensures { MigratesTo result text.now }
{
    let heap = alloc.heap();
    let tree = read_document(heap, text)?;
    match read_tree(alloc, &tree)?.version {
        Version::One => print(heap, &migrated_tree(heap, tree)?),
        Version::Two => Err(Place::top().fault(PlanFaultKind::Version)),
    }
}

/// The text that is printed for a tree, where it is not longer than a plan's may be. `Err` is that, or want of memory:
/// nothing else keeps a tree without dates from being printed.
fn print(heap: Global, tree: &Table) -> Result<String, ReadError>
    requires { members_are_plain 4 (table_view tree.now) ≡ true }
    ensures { PrintsAs result (table_view tree.now) }
{
    let Ok(text) = toml::table_to_string(heap, tree) else {
        return Err(ReadError::Memory);
    };
    if text.len() > LONGEST_TEXT {
        return Err(Place::top().fault(PlanFaultKind::TooLong));
    }
    Ok(text)
}

/// The tree with version 2, and with the unit of each block beside each time of the block. `Err` is want of
/// memory.
pub fn migrated_tree(heap: Global, mut tree: Table) -> Result<Table, AllocError>
    ensures { IfOk result (λ t. table_view t ≡ migrated (table_view tree)) }
{
    insert(heap, &mut tree, "version", Value::Integer(2))?;
    change_tables_at(
        heap,
        &mut tree,
        "block",
        |block| migrated_block(heap, block),
    )?;
    Ok(tree)
}

/// The block with its unit beside each time of its header and of its calls, and as it is where its `unit` is no
/// text. `Err` is want of memory.
fn migrated_block(heap: Global, mut block: Table) -> Result<Table, AllocError>
    ensures { IfOk result (λ t. table_view t ≡ migrated_block (table_view block)) }
{
    let Some(word) = unit_of_block(&block) else {
        return Ok(block);
    };
    let word = String::from_str(heap, word)?;
    let word = word.as_str();
    drop(block.remove("unit"));
    change_tables_at(
        heap,
        &mut block,
        "call",
        |call| with_units(heap, word, call),
    )?;
    with_units(heap, word, block)
}

/// The text at the `unit` of a block, if there is one.
fn unit_of_block(block: &Table) -> Option<&str>
    ensures { option_copied result ≡ given_text (codes "unit") (table_view block.now) }
{
    match block.get("unit") {
        Some(value) => value.as_str(),
        None => None,
    }
}

/// The table with a unit beside each of its times. `Err` is want of memory.
fn with_units(heap: Global, word: &str, mut table: Table) -> Result<Table, AllocError>
    ensures { IfOk result (λ t. table_view t ≡ beside_times word.now (table_view table)) }
{
    put_beside(heap, &mut table, "at", "at_unit", word)?;
    put_beside(heap, &mut table, "every", "every_unit", word)?;
    put_beside(heap, &mut table, "delay", "delay_unit", word)?;
    put_beside(heap, &mut table, "first", "first_unit", word)?;
    put_beside(heap, &mut table, "period", "period_unit", word)?;
    Ok(table)
}

/// Puts a unit beside a time of a table, where the table has that time. `Err` is want of memory.
fn put_beside(
    heap: Global,
    table: &mut Table,
    time: &str,
    unit: &str,
    word: &str,
) -> Result<(), AllocError>
    ensures { OnOk result
        (table_view table.new ≡ if is_some (get_member time.now (table_view table.old))
        then with_member unit.now (string word.now) (table_view table.old)
        else table_view table.old) }
{
    if !table.contains_key(time) {
        return Ok(());
    }
    insert(heap, table, unit, Value::string(heap, word)?)
}

/// Puts a value at a key of a table. `Err` is want of memory.
fn insert(heap: Global, table: &mut Table, key: &str, value: Value) -> Result<(), AllocError>
    ensures { OnOk result
        (table_view table.new ≡ with_member key.now (view value) (table_view table.old)) }
{
    let key = String::from_str(heap, key)?;
    drop(table.insert(key, value)?);
    Ok(())
}

/// Changes each table of the array at a key of a table, where the table has an array there. `Err` is what a change
/// gives, or want of memory, and the array is lost.
fn change_tables_at<F: Fn(Table) -> Result<Table, AllocError>>(
    heap: Global,
    table: &mut Table,
    key: &str,
    change: F,
) -> Result<(), AllocError>
    requires { F.IsAlwaysCallable change }
    ensures { OnOk result
        ((f : Members → Members)
        → ((t : _) (r : _) → F.post change t r → IfOk r (λ u. table_view u ≡ f (table_view t)))
        → table_view table.new ≡ changed_at key.now (each_table f) (table_view table.old)) }
{
    if let Some(value) = table.get_mut(key) {
        // The value is moved out, to be changed and put back.
        let taken = mem::replace(value, Value::Boolean(false));
        *value = with_tables_changed(heap, taken, change)?;
    }
    Ok(())
}

/// The value, with each table in it changed where it is an array. `Err` is what a change gives, or want of memory.
fn with_tables_changed<F: Fn(Table) -> Result<Table, AllocError>>(
    heap: Global,
    value: Value,
    change: F,
) -> Result<Value, AllocError>
    requires { F.IsAlwaysCallable change }
    ensures { IfOk result
        (λ v. (f : Members → Members)
        → ((t : _) (r : _) → F.post change t r → IfOk r (λ u. table_view u ≡ f (table_view t)))
        → view v ≡ each_table f (view value)) }
{
    let Value::Array(items) = value else {
        return Ok(value);
    };
    let mut changed = Vec::with_capacity(heap, items.len())?;
    for item in items {
        match item {
            Value::Table(table) => changed.push(Value::Table(change(table)?))?,
            other => changed.push(other)?,
        }
    }
    Ok(Value::Array(changed))
}
