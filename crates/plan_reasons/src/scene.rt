//! The tree of a plan text, and what is told of a fault in it.

ghost use Rattle.std.specs.Prelude.{◌≡◌, true, List, None, IfOk, IfSome, is_some, option_and_then, option_copied, option_map};
ghost use Rattle.toml.specs.Data.{Members, as_integer, as_str, get_member};
ghost use Rattle.toml.specs.View.{items_view, table_view, view};
ghost use Rattle.plan_lines.specs.Lines.{IsLineOf};
ghost use Rattle.plan_read.specs.Keys.{Key, is_key};
ghost use Rattle.plan_read.specs.declared.faults.PlanFaultKind.{PlanFaultKind};
ghost use Rattle.plan_read.specs.declared.versions.Version.{Version as PlanVersion};
ghost use Rattle.plan_reasons.specs.Standing.{block_table, items_at_key, numbered_table};
ghost use Rattle.plan_reasons.specs.Told.{FitsKey, HasKeysOf, may_be_at};
ghost use Rattle.plan_reasons.specs.own.Details.{IsIn, IsInPlace, Suits, SuitsPlace};

use crate::found::Found;
use crate::reason::Reason;
use crate::versions::{Version, unit_of_word};
use crate::wanted::Wanted;
use plan_lines::{Place, line_of};
use plan_read::PlanFault;
use sched_time::Unit;
use std::alloc::{AllocError, Global};
use toml::{Table, Value};

/// A text with its tree, its version and its fault.
#[derive(Clone, Copy)]
pub struct Scene<'t> {
    pub heap: Global,
    pub text: &'t [u8],
    pub tree: &'t Table,
    pub version: Version,
    pub fault: PlanFault,
}

/// A key, and what stands there.
#[derive(Clone, Copy)]
pub struct AtKey<'t> {
    pub key: &'t str,
    /// None where the key is missing.
    pub value: Option<&'t Value>,
}

/// What is told of a fault.
#[derive(Drop)]
pub struct Detail<'t> {
    /// The key that the fault is at.
    pub at: Option<AtKey<'t>>,
    pub wanted: Wanted,
    /// The place whose line is told.
    pub place: Place<'t>,
}

impl<'t> Scene<'t> {
    ghost use Rattle.plan_reasons.specs.Standing.{IsAtKey};
    ghost use Rattle.plan_reasons.specs.Told.{IsAtKeyOfKind};
    ghost use Rattle.plan_reasons.specs.declared.found.Found.TheVariants.{Nothing};

    /// The table of a block, numbered from 1.
    pub fn block(&self, number: u32) -> Option<&'t Table>
        ensures { option_map (λ t. table_view t.now) result
            ≡ block_table (table_view self.now.tree.now) number }
    {
        table_in(tables_at(self.tree, "block"), number)
    }

    /// What is told where the fault is at a key of a table, which is that of its place.
    pub fn at_key(&self, table: &'t Table, key: &'t str, wanted: Wanted) -> Detail<'t>
        ensures at { IsIn (table_view table.now) result }
        ensures suits { (kind : PlanFaultKind) (keys : List Key)
            → FitsKey kind keys (table_view table.now) key.now
            → Suits kind keys (table_view table.now) result }
    {
        let value = value_at(table, key);
        Detail {
            at: Some(AtKey { key, value }),
            wanted,
            place: place_of(self.fault, if value.is_some() { Some(key) } else { None }),
        }
    }

    /// What is told where the fault is at a key of a table that stands there. No key is told where it is missing.
    pub fn at_standing(&self, table: &'t Table, key: &'t str, wanted: Wanted) -> Detail<'t>
        ensures at { IsIn (table_view table.now) result }
        ensures suits { (kind : PlanFaultKind) (keys : List Key)
            → may_be_at kind (is_key keys key.now) true ≡ true
            → Suits kind keys (table_view table.now) result }
    {
        if value_at(table, key).is_some() {
            self.at_key(table, key, wanted)
        } else {
            self.at_place()
        }
    }

    /// What is told where no key is found.
    pub fn at_place(&self) -> Detail<'t>
        ensures { result.at ≡ None }
    {
        Detail {
            at: None,
            wanted: Wanted::Unsaid,
            place: place_of(self.fault, None),
        }
    }

    /// The reason of a detail. `Err` is want of memory.
    pub fn reason(&self, detail: Detail<'t>) -> Result<Reason, AllocError>
        ensures fault { IfOk result (λ r. r.fault ≡ self.now.fault) }
        ensures line { IfOk result (λ r. IfSome r.line (IsLineOf self.now.text.now)) }
        ensures column { IfOk result (λ r. r.column ≡ None) }
        ensures key { (tree : Members)
            → IsInPlace tree self.now.fault.block self.now.fault.call detail.entry
            → IfOk result (IsAtKey tree) }
        ensures kind { (tree : Members) (version : PlanVersion) → HasKeysOf version tree
            → SuitsPlace self.now.fault.kind version tree self.now.fault.block self.now.fault.call
            detail.entry → IfOk result (IsAtKeyOfKind tree) }
        ensures bare { IfOk result (λ r. r.key ≡ None → r.found ≡ Nothing) }
    {
        let Detail { at, wanted, place } = detail;
        let (key, found) = match at {
            Some(at) => (
                Some(String::from_str(self.heap, at.key)?),
                Found::of(self.heap, at.value)?,
            ),
            None => (None, Found::Nothing),
        };
        Ok(Reason {
            fault: self.fault,
            line: line_of(self.text, place),
            column: None,
            key,
            found,
            wanted,
        })
    }

    /// The unit of the time at a key of a table of a block with this header.
    pub fn unit(&self, header: &Table, table: &Table, key: &str) -> Unit {
        let word = match self.version {
            Version::One => text_at(header, "unit"),
            Version::Two => text_at(table, unit_key(key)),
        };
        word.and_then(unit_of_word).unwrap_or(Unit::Ns)
    }

    /// The nanoseconds of the time at a key of a table of a block with this header; 0 where there is none.
    pub fn nanos(&self, header: &Table, table: &Table, key: &str) -> u128 {
        let number = integer_at(table, key).unwrap_or(0).max(0) as u64;
        u128::from(number) * u128::from(self.unit(header, table, key).nanos())
    }
}

/// The place of a fault, or a key there.
fn place_of(fault: PlanFault, key: Option<&str>) -> Place<'_> {
    Place {
        block: fault.block as usize,
        call: fault.call as usize,
        key,
    }
}

/// The key of the unit of the time at a key.
pub fn unit_key(key: &str) -> &'static str {
    match key {
        "every" => "every_unit",
        "delay" => "delay_unit",
        "first" => "first_unit",
        "period" => "period_unit",
        _ => "at_unit",
    }
}

/// The value at a key, if there is one.
pub fn value_at<'t>(table: &'t Table, key: &str) -> Option<&'t Value>
    ensures value { option_map (λ v. view v.now) result
        ≡ get_member key.now (table_view table.now) }
    ensures stands { is_some result ≡ is_some (get_member key.now (table_view table.now)) }
{
    table.get(key)
}

/// The array at a key, empty where there is none.
pub fn tables_at<'t>(table: &'t Table, key: &str) -> &'t [Value]
    ensures { items_view result.now ≡ items_at_key key.now (table_view table.now) }
{
    match value_at(table, key) {
        Some(value) => match value.as_array() {
            Some(array) => array.as_slice(),
            None => &[],
        },
        None => &[],
    }
}

/// The table of this number, counted from 1, in an array.
pub fn table_in(tables: &[Value], number: u32) -> Option<&Table>
    ensures { option_map (λ t. table_view t.now) result
        ≡ numbered_table number (items_view tables.now) }
{
    let number = number as usize;
    if number == 0 || tables.len() < number {
        return None;
    }
    tables[number - 1].as_table()
}

/// The integer at a key, if there is one.
pub fn integer_at(table: &Table, key: &str) -> Option<i64>
    ensures value { result
        ≡ option_and_then as_integer (get_member key.now (table_view table.now)) }
    ensures stands { IfSome result
        (λ _. is_some (get_member key.now (table_view table.now)) ≡ true) }
{
    match value_at(table, key) {
        Some(value) => value.as_integer(),
        None => None,
    }
}

/// The text at a key, if there is one.
pub fn text_at<'t>(table: &'t Table, key: &str) -> Option<&'t str>
    ensures value { option_copied result
        ≡ option_and_then as_str (get_member key.now (table_view table.now)) }
    ensures stands { IfSome result
        (λ _. is_some (get_member key.now (table_view table.now)) ≡ true) }
{
    match value_at(table, key) {
        Some(value) => value.as_str(),
        None => None,
    }
}
