//! The calls of a block.

ghost use Rattle.std.specs.Prelude.{◌≡◌, ◌≤◌, ℕ, List, nat_le, None, [], ◌∷◌, IfOk, OnOk, Some, true, ◌&&◌, if◌then◌else◌, bytes_eq, codes, option_and_then, is_some};
ghost use Rattle.sched_time.specs.Times.{longest, span_of, period_of};
ghost use Rattle.toml.specs.View.{table_view};
ghost use Rattle.plan_read.specs.Keys.{which_of_word};
ghost use Rattle.plan_read.specs.own.Walk.{◌barring◌, place_fault, verb_tests, key_tests, time_tests, call_tests, are_spans_short};
ghost use Rattle.plan_read.specs.own.Plain.{members_are_plain};
ghost use Rattle.plan_read.specs.own.Reads.{Reads, found_in};
ghost use Rattle.plan_read.specs.own.Values.{verb_at, name_at, given_text, given_truth, submits, which_at, truth_at, units_in, written_call};
ghost use Rattle.plan_read.specs.own.Subjects.{AreGiven, verb_with, op_with, call_with};
ghost use Rattle.plan_read.specs.declared.plans.Op.TheVariants as ops;
ghost use Rattle.plan_read.specs.declared.faults.PlanFaultKind.TheVariants as kinds;

use crate::faults::{Place, PlanFaultKind, ReadError};
use crate::headers::{moment_in_last, read_span};
use crate::key_lists::KeyLists;
use crate::key_names::KeyName;
use crate::keys::Role;
use crate::plans::{Call, Header, Op};
use crate::rows::{EMPTY_SLOTS, Row};
use crate::sites::Site;
use crate::subjects::{Subject, read_subject};
use crate::units::{Units, which_of_word};
use crate::verbs::Verb;
use crate::versions::Version;
use sched_time::{LONGEST, Span, Unit, period};
use std::alloc::Allocator;
use std::collections::BTreeMap;
use toml::Table;

/// The call that a table writes, where the call before it in its block has the offset `last`. Where it
/// submits, its name is then that of `site`.
pub fn read_call<'a, A: Allocator + Copy>(
    place: Place,
    lists: &KeyLists<A>,
    site: Site,
    names: &mut BTreeMap<&'a str, Site, A>,
    header: Header,
    last: u64,
    table: &'a Table,
) -> Result<Call, ReadError>
    requires { 1 ≤ header.times }
    ensures call { Reads (λ c. c) result
        (place_fault place
        (call_tests lists.now.version (found_in names.old (name_at (table_view table.now)))
        site.target.block header last (table_view table.now)))
        (written_call lists.now.version (found_in names.old (name_at (table_view table.now)))
        header (table_view table.now)) }
    ensures plain { IfOk result (λ c. members_are_plain 0 (table_view table.now) ≡ true) }
    ensures names { OnOk result
        ((q : List ℕ)
        → found_in names.new q
        ≡ if submits (verb_at (table_view table.now))
        && bytes_eq (name_at (table_view table.now)) q then Some site else found_in names.old q) }
{
    let mut slots = EMPTY_SLOTS;
    let row = Row::new(table, &mut slots);
    let verb = read_verb(place, &row)?;
    let units = read_units(place, lists, verb, header.unit, &row)?;
    let subject = read_subject(place, verb, site, names, &row)?;
    read_timed(place, subject, units, header, last, &row)
}

/// The operation of a call.
#[tactic(auto, unfolding(crate::specs::own::Walk::verb_tests, crate::specs::own::Values::verb_at))]
fn read_verb(place: Place, row: &Row) -> Result<Verb, ReadError>
    ensures { Reads (λ v. v) result (place_fault place (verb_tests (table_view row.now.table.now)))
        (verb_at (table_view row.now.table.now)) }
{
    if !row.has(KeyName::Op) {
        return Err(place.fault(PlanFaultKind::Missing));
    }
    let Some(word) = row.text(KeyName::Op) else {
        return Err(place.fault(PlanFaultKind::WrongType));
    };
    match Verb::of_word(word) {
        Some(verb) => Ok(verb),
        None => Err(place.fault(PlanFaultKind::WrongType)),
    }
}

/// The units of the times of a call in a block of this unit, where the call's keys are those of its operation.
#[tactic(auto, unfolding(crate::specs::own::Walk::key_tests))]
fn read_units<A: Allocator>(
    place: Place,
    lists: &KeyLists<A>,
    verb: Verb,
    unit: Unit,
    row: &Row,
) -> Result<Units, ReadError>
    ensures { Reads (λ u. u) result
        (place_fault place (key_tests lists.now.version verb (table_view row.now.table.now)))
        (units_in lists.now.version unit (table_view row.now.table.now)) }
{
    lists.check(place, Role::Call(verb), row)?;
    match lists.version {
        Version::One => Ok(Units::same(unit)),
        Version::Two => Units::read(place, row),
    }
}

/// The call on a subject, of a table whose keys are checked, with its times in `units`, where the call before it has
/// the offset `last`.
#[tactic(auto, unfolding(crate::specs::own::Walk::time_tests))]
fn read_timed(
    place: Place,
    subject: Subject,
    units: Units,
    header: Header,
    last: u64,
    row: &Row,
) -> Result<Call, ReadError>
    requires times { 1 ≤ header.times }
    requires keys { AreGiven (verb_with subject) (table_view row.now.table.now) }
    ensures { Reads (λ c. c) result
        (place_fault place
        (time_tests (verb_with subject) units header last (table_view row.now.table.now)))
        (call_with subject units (table_view row.now.table.now)) }
{
    let at = row.integer(KeyName::At).unwrap_or(0);
    if at < 0 {
        return Err(place.fault(PlanFaultKind::Negative));
    }
    let at = read_span(place, at, units.at)?.nanos();
    let op = read_op(place, subject, units, row)?;
    if moment_in_last(header, at) > u128::from(LONGEST) {
        return Err(place.fault(PlanFaultKind::TooLarge));
    }
    if at < last || (header.times > 1 && at > header.every) {
        return Err(place.fault(PlanFaultKind::OutOfOrder));
    }
    Ok(Call { at, op })
}

/// The operation of a call on a subject.
fn read_op(place: Place, subject: Subject, units: Units, row: &Row) -> Result<Op, ReadError>
    requires { AreGiven (verb_with subject) (table_view row.now.table.now) }
    ensures { Reads (λ o. o) result
        (place_fault place
        ((kinds.TooLarge barring are_spans_short (verb_with subject) units
        (table_view row.now.table.now)) ∷ []))
        (op_with subject units (table_view row.now.table.now)) }
{
    match subject {
        Subject::Schedule(name) => {
            let delay = read_span(place, row.required_integer(KeyName::Delay), units.delay)?;
            Ok(Op::Schedule { name, delay })
        }
        Subject::Execute(name) => Ok(Op::Execute { name }),
        Subject::Rate(name) => {
            let first = read_span(place, row.required_integer(KeyName::First), units.first)?;
            let period = read_period(place, row.required_integer(KeyName::Period), units.period)?;
            Ok(Op::Rate {
                name,
                first,
                period,
            })
        }
        Subject::Fixed(name) => {
            let first = read_span(place, row.required_integer(KeyName::First), units.first)?;
            let delay = read_period(place, row.required_integer(KeyName::Delay), units.delay)?;
            Ok(Op::Fixed { name, first, delay })
        }
        Subject::Cancel(target) => Ok(Op::Cancel(target)),
        Subject::Policy => Ok(read_policy(row)),
        Subject::Shutdown => Ok(Op::Shutdown),
        Subject::ShutdownNow => Ok(Op::ShutdownNow),
        Subject::Ask => Ok(Op::Ask),
    }
}

/// The nanoseconds of a period or a fixed delay, and none where it is zero or negative.
fn read_period(place: Place, value: i64, unit: Unit) -> Result<Option<Span>, ReadError>
    ensures { Reads (λ p. p) result
        (place_fault place ((kinds.TooLarge barring nat_le (span_of value unit) longest) ∷ []))
        (period_of value unit) }
{
    match period(value, unit) {
        Ok(period) => Ok(period),
        Err(_) => Err(place.fault(PlanFaultKind::TooLarge)),
    }
}

/// The policy that a table sets, and its value.
fn read_policy(row: &Row) -> Op
    requires which { is_some
        (option_and_then which_of_word
        (given_text (codes "which") (table_view row.now.table.now))) ≡ true }
    requires value { is_some (given_truth (codes "value") (table_view row.now.table.now)) ≡ true }
    ensures { result
        ≡ ops.Policy (which_at (table_view row.now.table.now))
        (truth_at (codes "value") (table_view row.now.table.now)) }
{
    let Some(which) = which_of_word(row.required_text(KeyName::Which)) else {
        unreachable!()
    };
    let Some(value) = row.truth(KeyName::Value) else {
        unreachable!()
    };
    Op::Policy { which, value }
}
