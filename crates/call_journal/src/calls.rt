//! The tables of calls.

ghost use Rattle.std.specs.Prelude.{◌≡◌, ◌+◌, ◌<◌, ◌≤◌, ◌^◌, IfOk, OnOk, length};
ghost use Rattle.toml.specs.View.{items_view, table_view};
ghost use Rattle.plan_read.specs.Plans.{most_calls};
ghost use Rattle.call_text.specs.declared.call.CallLine.TheVariants as call;
ghost use Rattle.call_journal.specs.Plans.{call_items, call_members, of_operation, on_task, own_members, submits, task_after, tasks_after, which_word, with_offset};

use crate::entries::{put, put_name, put_span, put_text};
use crate::journal::MadeCall;
use call_text::CallLine;
use sched_time::Which;
use std::alloc::{AllocError, Global};
use toml::{Table, Value};

/// The tables of some calls of a block that begins at the moment `begin`, where `first` tasks were submitted before them. `Err` is
/// want of memory.
pub fn call_values(
    heap: Global,
    begin: u64,
    first: u32,
    calls: &[MadeCall],
) -> Result<Vec<Value>, AllocError>
    requires { first + length calls.now ≤ most_calls }
    ensures { IfOk result (λ v. items_view v.items ≡ call_items begin first calls.now) }
{
    let mut values = Vec::with_capacity(heap, calls.len())?;
    let mut task = first;
    for made in calls {
        values.push(Value::Table(call_table(heap, begin, task, *made)?))?;
        task = task_after(task, made.call);
    }
    Ok(values)
}

/// How many tasks there are after some calls, where there are `first` before them.
pub fn tasks_after(first: u32, calls: &[MadeCall]) -> u32
    requires { first + length calls.now ≤ most_calls }
    ensures value { result ≡ tasks_after first calls.now }
    ensures few { result ≤ first + length calls.now }
{
    let mut task = first;
    for made in calls {
        task = task_after(task, made.call);
    }
    task
}

/// How many tasks there are after a call, where there are `task` before it.
fn task_after(task: u32, call: CallLine) -> u32
    requires { task < most_calls }
    ensures { result ≡ task_after task call }
{
    if submits(call) { task + 1 } else { task }
}

/// Whether a call submits a task.
fn submits(call: CallLine) -> bool
    ensures { result ≡ submits call }
{
    matches!(
        call,
        CallLine::Schedule(_) | CallLine::Execute | CallLine::Rate(_, _) | CallLine::Fixed(_, _)
    )
}

/// The table of a call of a block that begins at the moment `begin`, where `task` tasks were submitted before it. `Err` is want of
/// memory.
fn call_table(heap: Global, begin: u64, task: u32, made: MadeCall) -> Result<Table, AllocError>
    ensures { IfOk result (λ t. table_view t ≡ call_members begin task made) }
{
    let mut table = own_table(heap, task, made.call)?;
    put_offset(heap, &mut table, made.moment.saturating_sub(begin))?;
    Ok(table)
}

/// Puts a moment or an offset at `at`, where it is not 0. `Err` is want of memory.
pub fn put_offset(heap: Global, table: &mut Table, nanos: u64) -> Result<(), AllocError>
    ensures { OnOk result (table_view table.new ≡ with_offset nanos (table_view table.old)) }
{
    if nanos == 0 {
        return Ok(());
    }
    put_span(heap, table, "at", "at_unit", nanos)
}

/// The table of a call without its offset. `Err` is want of memory.
fn own_table(heap: Global, task: u32, call: CallLine) -> Result<Table, AllocError>
    ensures { IfOk result (λ t. table_view t ≡ own_members task call) }
{
    match call {
        CallLine::Schedule(delay) => schedule(heap, task, delay),
        CallLine::Execute => on_task(heap, "execute", task),
        CallLine::Rate(first, period) => rate(heap, task, first, period),
        CallLine::Fixed(first, delay) => fixed(heap, task, first, delay),
        CallLine::Cancel(other) => on_task(heap, "cancel", other),
        CallLine::Policy(which, value) => policy(heap, which, value),
        CallLine::Shutdown => of_operation(heap, "shutdown"),
        CallLine::ShutdownNow => of_operation(heap, "shutdown_now"),
        CallLine::Ask => of_operation(heap, "ask"),
    }
}

/// The table of a `schedule`. `Err` is want of memory.
fn schedule(heap: Global, task: u32, delay: u64) -> Result<Table, AllocError>
    ensures { IfOk result (λ t. table_view t ≡ own_members task (call.Schedule delay)) }
{
    let mut table = on_task(heap, "schedule", task)?;
    put_span(heap, &mut table, "delay", "delay_unit", delay)?;
    Ok(table)
}

/// The table of a `rate`. `Err` is want of memory.
fn rate(heap: Global, task: u32, first: u64, period: u64) -> Result<Table, AllocError>
    ensures { IfOk result (λ t. table_view t ≡ own_members task (call.Rate first period)) }
{
    let mut table = on_task(heap, "rate", task)?;
    put_span(heap, &mut table, "first", "first_unit", first)?;
    put_span(heap, &mut table, "period", "period_unit", period)?;
    Ok(table)
}

/// The table of a `fixed`. `Err` is want of memory.
fn fixed(heap: Global, task: u32, first: u64, delay: u64) -> Result<Table, AllocError>
    ensures { IfOk result (λ t. table_view t ≡ own_members task (call.Fixed first delay)) }
{
    let mut table = on_task(heap, "fixed", task)?;
    put_span(heap, &mut table, "first", "first_unit", first)?;
    put_span(heap, &mut table, "delay", "delay_unit", delay)?;
    Ok(table)
}

/// The table of a `policy`. `Err` is want of memory.
fn policy(heap: Global, which: Which, value: bool) -> Result<Table, AllocError>
    ensures { IfOk result (λ t. table_view t ≡ own_members 0 (call.Policy which value)) }
{
    let mut table = of_operation(heap, "policy")?;
    put_text(heap, &mut table, "which", which_word(which))?;
    put(heap, &mut table, "value", Value::Boolean(value))?;
    Ok(table)
}

/// The word of a policy.
fn which_word(which: Which) -> &'static str
    ensures { result.now ≡ which_word which }
{
    match which {
        Which::Continue => "continue",
        Which::Execute => "execute",
        Which::Remove => "remove",
    }
}

/// A table with an operation and the name of its task. `Err` is want of memory.
fn on_task(heap: Global, word: &str, task: u32) -> Result<Table, AllocError>
    ensures { IfOk result (λ t. table_view t ≡ on_task word.now task) }
{
    let mut table = of_operation(heap, word)?;
    put_name(heap, &mut table, task)?;
    Ok(table)
}

/// A table with an operation alone. `Err` is want of memory.
fn of_operation(heap: Global, word: &str) -> Result<Table, AllocError>
    ensures { IfOk result (λ t. table_view t ≡ of_operation word.now) }
{
    let mut table = Table::new(heap);
    put_text(heap, &mut table, "op", word)?;
    Ok(table)
}
