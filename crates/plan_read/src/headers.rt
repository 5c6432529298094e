//! The top of a plan, and the headers of its blocks.

ghost use Rattle.std.specs.Prelude.{◌≡◌, ◌≤◌, nat_le, true, length, [], ◌∷◌, IfOk, codes, option_and_then};
ghost use Rattle.toml.specs.View.{table_view, items_view};
ghost use Rattle.toml.specs.Data.{get_member};
ghost use Rattle.sched_time.specs.Times.{longest, span_of, delay_units};
ghost use Rattle.plan_read.specs.own.Walk.{◌barring◌, place_fault, top, top_tests, header_key_tests, times_tests, moment_tests, count_tests, header_tests};
ghost use Rattle.plan_read.specs.Keys.{are_tables, fits};
ghost use Rattle.plan_read.specs.declared.keys.Shape.TheVariants.{Tables};
ghost use Rattle.plan_read.specs.Plans.{moment_in_last, most_calls};
ghost use Rattle.plan_read.specs.own.Plain.{items_are_plain, members_are_plain};
ghost use Rattle.plan_read.specs.own.Reads.{Reads};
ghost use Rattle.plan_read.specs.own.Values.{given_integer, tables_in, tables_at, span_at, version_of, version_at, unit_at, header_units, times_at, header_of};
ghost use Rattle.plan_read.specs.declared.faults.PlanFaultKind.TheVariants as kinds;

use crate::faults::{Place, PlanFaultKind, ReadError};
use crate::key_lists::KeyLists;
use crate::key_names::KeyName;
use crate::keys::Role;
use crate::limits::{MOST_BLOCK_CALLS, MOST_BLOCKS, MOST_CALLS};
use crate::plans::Header;
use crate::rows::{EMPTY_SLOTS, Row};
use crate::units::{Units, read_unit};
use crate::versions::Version;
use sched_time::{Span, Unit, span};
use std::alloc::Allocator;
use toml::{Table, Value};

/// What the top of a plan has: the keys of the tables of its version, and the tables of its blocks.
#[derive(Drop)]
pub struct Top<'a, A: Allocator> {
    pub lists: KeyLists<A>,
    pub tables: &'a [Value],
}

/// What the table of a block has: its header, and the tables of its calls.
#[derive(Clone, Copy)]
pub struct Head<'a> {
    pub header: Header,
    pub tables: &'a [Value],
}

/// The top of a plan.
#[tactic(auto, unfolding(crate::specs::own::Walk::top_tests))]
pub fn read_top<A: Allocator + Copy>(alloc: A, table: &Table) -> Result<Top<'_, A>, ReadError>
    ensures each { IfOk result
        (λ t. fits Tables (get_member (codes "block") (table_view table.now)) ≡ true
        → are_tables (items_view t.tables.now) ≡ true) }
    ensures count { IfOk result
        (λ t. length t.tables.now ≡ length (tables_at (codes "block") (table_view table.now))) }
    ensures tables { IfOk result
        (λ t. tables_in (items_view t.tables.now)
        ≡ tables_at (codes "block") (table_view table.now)) }
    ensures plain { IfOk result
        (λ t. items_are_plain 3 (items_view t.tables.now) ≡ true
        → members_are_plain 4 (table_view table.now) ≡ true) }
    ensures top { Reads (λ t. t.lists.version) result
        (place_fault top (top_tests (table_view table.now))) (version_at (table_view table.now)) }
{
    let place = Place::top();
    let mut slots = EMPTY_SLOTS;
    let row = Row::new(table, &mut slots);
    let Some(version) = read_version(&row) else {
        return Err(place.fault(PlanFaultKind::Version));
    };
    let lists = KeyLists::new(alloc, version)?;
    lists.check(place, Role::Top, &row)?;
    let tables = row.tables(KeyName::Block);
    if tables.len() > MOST_BLOCKS {
        return Err(place.fault(PlanFaultKind::TooMany));
    }
    Ok(Top { lists, tables })
}

/// The version of a plan, if it is one.
fn read_version(row: &Row) -> Option<Version>
    ensures { result
        ≡ option_and_then version_of
        (given_integer (codes "version") (table_view row.now.table.now)) }
{
    match row.integer(KeyName::Version) {
        Some(number) => Version::of_number(number),
        None => None,
    }
}

/// The header of a block and the tables of its calls, where the last call before the block is at the
/// moment `end`, and `made` calls are made before it.
pub fn read_head<'a, A: Allocator>(
    place: Place,
    lists: &KeyLists<A>,
    end: u128,
    made: u64,
    table: &'a Table,
) -> Result<Head<'a>, ReadError>
    requires { made ≤ most_calls }
    ensures each { IfOk result
        (λ h. fits Tables (get_member (codes "call") (table_view table.now)) ≡ true
        → are_tables (items_view h.tables.now) ≡ true) }
    ensures count { IfOk result
        (λ h. length h.tables.now ≡ length (tables_at (codes "call") (table_view table.now))) }
    ensures tables { IfOk result
        (λ h. tables_in (items_view h.tables.now)
        ≡ tables_at (codes "call") (table_view table.now)) }
    ensures plain { IfOk result
        (λ h. items_are_plain 1 (items_view h.tables.now) ≡ true
        → members_are_plain 2 (table_view table.now) ≡ true) }
    ensures header { Reads (λ h. h.header) result
        (place_fault place (header_tests lists.now.version end made (table_view table.now)))
        (header_of lists.now.version (table_view table.now)) }
{
    let mut slots = EMPTY_SLOTS;
    let row = Row::new(table, &mut slots);
    let (unit, units) = read_block_units(place, lists, &row)?;
    let times = read_times(place, &row)?;
    let header = read_header(place, end, unit, units, times, &row)?;
    let tables = row.tables(KeyName::Call);
    check_count(place, made, times, tables.len())?;
    Ok(Head { header, tables })
}

/// The unit of a block, and the units of its header's times, where the header's keys are those of a block.
#[tactic(auto, unfolding(crate::specs::own::Walk::header_key_tests))]
fn read_block_units<A: Allocator>(
    place: Place,
    lists: &KeyLists<A>,
    row: &Row,
) -> Result<(Unit, Units), ReadError>
    ensures { Reads (λ u. u) result
        (place_fault place (header_key_tests lists.now.version (table_view row.now.table.now))) (
          unit_at lists.now.version (table_view row.now.table.now),
          header_units lists.now.version
              (table_view row.now.table.now),
        ) }
{
    lists.check(place, Role::Header, row)?;
    match lists.version {
        Version::One => {
            let unit = read_unit(place, lists.version, KeyName::Unit, row)?;
            Ok((unit, Units::same(unit)))
        }
        Version::Two => Ok((Unit::Ns, Units::read(place, row)?)),
    }
}

/// How often the calls of a block are made.
#[tactic(auto, unfolding(crate::specs::own::Walk::times_tests))]
fn read_times(place: Place, row: &Row) -> Result<u32, ReadError>
    ensures times { Reads (λ n. n) result
        (place_fault place (times_tests (table_view row.now.table.now)))
        (delay_units (times_at (table_view row.now.table.now))) }
    ensures most { IfOk result (λ n. n ≤ most_calls) }
{
    let times = row.integer(KeyName::Times).unwrap_or(1);
    if times < 1 || times > MOST_CALLS as i64 {
        return Err(place.fault(PlanFaultKind::BadTimes));
    }
    if times > 1 && !row.has(KeyName::Every) {
        return Err(place.fault(PlanFaultKind::Missing));
    }
    Ok(times as u32)
}

/// The header with this unit that is made this often, with its times in `units`, where the last call
/// before the block is at the moment `end`.
fn read_header(
    place: Place,
    end: u128,
    unit: Unit,
    units: Units,
    times: u32,
    row: &Row,
) -> Result<Header, ReadError>
    ensures { Reads (λ h. h) result
        (place_fault place (moment_tests end units (table_view row.now.table.now)))
        (record {
          at = span_at units.at (codes "at") (table_view row.now.table.now);
          unit = unit;
          times = times;
          every = span_at units.every (codes "every") (table_view row.now.table.now);
        }) }
{
    let at = row.integer(KeyName::At).unwrap_or(0);
    let every = row.integer(KeyName::Every).unwrap_or(0);
    if at < 0 || every < 0 {
        return Err(place.fault(PlanFaultKind::Negative));
    }
    let at = read_span(place, at, units.at)?.nanos();
    let every = read_span(place, every, units.every)?.nanos();
    if u128::from(at) < end {
        return Err(place.fault(PlanFaultKind::OutOfOrder));
    }
    Ok(Header {
        at,
        unit,
        times,
        every,
    })
}

/// That a block of `calls` calls, which are made this often, leaves no more calls than a plan may make.
fn check_count(place: Place, made: u64, times: u32, calls: usize) -> Result<(), ReadError>
    requires made { made ≤ most_calls }
    requires times { times ≤ most_calls }
    ensures { Reads (λ u. u) result (place_fault place (count_tests made times calls)) tt }
{
    if calls > MOST_BLOCK_CALLS || made + u64::from(times) * calls as u64 > MOST_CALLS {
        return Err(place.fault(PlanFaultKind::TooMany));
    }
    Ok(())
}

/// The nanoseconds of a number of units; a negative number counts as 0.
pub fn read_span(place: Place, value: i64, unit: Unit) -> Result<Span, ReadError>
    ensures { Reads (λ s. s) result
        (place_fault place ((kinds.TooLarge barring nat_le (span_of value unit) longest) ∷ []))
        (span_of value unit) }
{
    match span(value, unit) {
        Ok(span) => Ok(span),
        Err(_) => Err(place.fault(PlanFaultKind::TooLarge)),
    }
}

/// The moment of the call with this offset in the last iteration.
///
/// It may be past the range of a moment, and of `u64`.
pub fn moment_in_last(header: Header, offset: u64) -> u128
    requires { 1 ≤ header.times }
    ensures { result ≡ moment_in_last header offset }
{
    u128::from(header.at)
        + u128::from(header.times - 1) * u128::from(header.every)
        + u128::from(offset)
}
