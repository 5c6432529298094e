//! Tables of the tree of a plan text, and whether the unit of a period stands there.

ghost use Rattle.std.specs.Prelude.{◌≡◌, is_some, option_map};
ghost use Rattle.toml.specs.Data.{get_member};
ghost use Rattle.toml.specs.View.{items_view, table_view, view};
ghost use Rattle.plan_warnings.specs.Units.{block_at, call_in, has, has_own_unit, has_unit, has_unit_in, items_at, stays, table_of};

use crate::kinds::{OddCall, WarningKind};
use toml::{Table, Value};

/// Whether what is odd of a plan stays so with the tree of its text.
pub fn stays(tree: &Table, odd: &OddCall) -> bool
    ensures { result ≡ stays (table_view tree.now) odd.now }
{
    match odd.kind {
        WarningKind::ShortPeriod => !has_unit(tree, odd.block, odd.call),
        _ => true,
    }
}

/// Whether the unit of the period, or of the fixed delay, of a call stands in the tree. Block and call are numbered from 1.
fn has_unit(tree: &Table, block: usize, call: usize) -> bool
    ensures { result ≡ has_unit (table_view tree.now) block call }
{
    match block_at(tree, block) {
        Some(header) => has_unit_in(call, header),
        None => false,
    }
}

/// Whether it stands in the block of this header, or beside it.
fn has_unit_in(call: usize, header: &Table) -> bool
    ensures { result ≡ has_unit_in call (table_view header.now) }
{
    if has(header, "unit") {
        return true;
    }
    match call_in(header, call) {
        Some(call) => has(call, "period_unit") || has(call, "delay_unit"),
        None => false,
    }
}

/// The table of a block, numbered from 1.
pub fn block_at(tree: &Table, block: usize) -> Option<&Table>
    ensures { option_map (λ t. table_view t.now) result ≡ block_at (table_view tree.now) block }
{
    table_of(block, items_at(tree, "block"))
}

/// The table of a call of a block, numbered from 1.
pub fn call_in(header: &Table, call: usize) -> Option<&Table>
    ensures { option_map (λ t. table_view t.now) result ≡ call_in (table_view header.now) call }
{
    table_of(call, items_at(header, "call"))
}

/// The array at a key, empty where there is none.
fn items_at<'t>(table: &'t Table, key: &str) -> &'t [Value]
    ensures { items_view result.now ≡ items_at key.now (table_view table.now) }
{
    match value_at(table, key) {
        Some(value) => match value.as_array() {
            Some(array) => array.as_slice(),
            None => &[],
        },
        None => &[],
    }
}

/// The table of this number, counted from 1, in an array.
fn table_of(number: usize, items: &[Value]) -> Option<&Table>
    ensures { option_map (λ t. table_view t.now) result ≡ table_of number (items_view items.now) }
{
    if number == 0 || items.len() < number {
        return None;
    }
    items[number - 1].as_table()
}

/// Whether a key stands in a table.
pub fn has(table: &Table, key: &str) -> bool
    ensures { result ≡ has key.now (table_view table.now) }
{
    value_at(table, key).is_some()
}

/// The value at a key, if there is one.
pub fn value_at<'t>(table: &'t Table, key: &str) -> Option<&'t Value>
    ensures value { option_map (λ v. view v.now) result
        ≡ get_member key.now (table_view table.now) }
    ensures stands { is_some result ≡ is_some (get_member key.now (table_view table.now)) }
{
    table.get(key)
}
