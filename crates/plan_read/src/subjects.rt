//! What the calls of a block are about: the operation of each, with the name that it gives.

ghost use Rattle.std.specs.Prelude.{◌≡◌, ℕ, List, None, Some, OnOk, true, ◌&&◌, if◌then◌else◌, bytes_eq, codes, is_some};
ghost use Rattle.toml.specs.View.{table_view};
ghost use Rattle.plan_read.specs.own.Walk.{place_fault, new_name_tests, known_name_tests, name_tests};
ghost use Rattle.plan_read.specs.own.Reads.{Reads, found_in};
ghost use Rattle.plan_read.specs.own.Values.{name_at, given_text, target_of, submits};
ghost use Rattle.plan_read.specs.own.Subjects.{AreGiven, subject_of};

use crate::faults::{Place, PlanFaultKind, ReadError};
use crate::key_names::KeyName;
use crate::plans::Target;
use crate::rows::Row;
use crate::sites::{Site, add, find};
use crate::task_names::{Name, is_name};
use crate::verbs::Verb;
use std::alloc::Allocator;
use std::collections::BTreeMap;

/// The operation of a call: with the name of its submission where it submits, and with its target where
/// it cancels.
#[derive(Drop)]
pub enum Subject {
    Schedule(Name),
    Execute(Name),
    Rate(Name),
    Fixed(Name),
    Cancel(Target),
    Policy,
    Shutdown,
    ShutdownNow,
    Ask,
}

/// The subject of a table whose keys are checked. Where it submits, its name is then that of `site`.
#[tactic(auto, unfolding(crate::specs::own::Walk::name_tests))]
pub fn read_subject<'a, A: Allocator + Copy>(
    place: Place,
    verb: Verb,
    site: Site,
    names: &mut BTreeMap<&'a str, Site, A>,
    row: &Row<'a, '_>,
) -> Result<Subject, ReadError>
    requires { AreGiven verb (table_view row.now.table.now) }
    ensures subject { Reads (λ s. s) result
        (place_fault place
        (name_tests verb (found_in names.old (name_at (table_view row.now.table.now)))
        site.target.block (table_view row.now.table.now)))
        (subject_of verb (found_in names.old (name_at (table_view row.now.table.now)))
        (table_view row.now.table.now)) }
    ensures names { OnOk result
        ((q : List ℕ)
        → found_in names.new q
        ≡ if submits verb && bytes_eq (name_at (table_view row.now.table.now)) q then Some site
        else found_in names.old q) }
{
    match verb {
        Verb::Schedule => Ok(Subject::Schedule(read_new_name(place, site, names, row)?)),
        Verb::Execute => Ok(Subject::Execute(read_new_name(place, site, names, row)?)),
        Verb::Rate => Ok(Subject::Rate(read_new_name(place, site, names, row)?)),
        Verb::Fixed => Ok(Subject::Fixed(read_new_name(place, site, names, row)?)),
        Verb::Cancel => Ok(Subject::Cancel(read_target(place, site.target.block, names, row)?)),
        Verb::Policy => Ok(Subject::Policy),
        Verb::Shutdown => Ok(Subject::Shutdown),
        Verb::ShutdownNow => Ok(Subject::ShutdownNow),
        Verb::Ask => Ok(Subject::Ask),
    }
}

/// The name of a submission, which no submission before it has. It is then that of `site`.
fn read_new_name<'a, A: Allocator + Copy>(
    place: Place,
    site: Site,
    names: &mut BTreeMap<&'a str, Site, A>,
    row: &Row<'a, '_>,
) -> Result<Name, ReadError>
    requires { is_some (given_text (codes "name") (table_view row.now.table.now)) ≡ true }
    ensures name { Reads (λ n. n) result
        (place_fault place
        (new_name_tests (found_in names.old (name_at (table_view row.now.table.now)))
        (table_view row.now.table.now))) (name_at (table_view row.now.table.now)) }
    ensures names { OnOk result
        ((q : List ℕ)
        → found_in names.new q ≡ if bytes_eq (name_at (table_view row.now.table.now)) q
        then Some site else found_in names.old q) }
{
    let name = row.required_text(KeyName::Name);
    if !is_name(name) {
        return Err(place.fault(PlanFaultKind::BadName));
    }
    match add(names, name, site)? {
        Some(_) => Err(place.fault(PlanFaultKind::DuplicateName)),
        None => Ok(Name::new(name)),
    }
}

/// The submission that a cancel of the block `block` means.
fn read_target<'a, A: Allocator + Copy>(
    place: Place,
    block: usize,
    names: &BTreeMap<&'a str, Site, A>,
    row: &Row<'a, '_>,
) -> Result<Target, ReadError>
    requires { is_some (given_text (codes "name") (table_view row.now.table.now)) ≡ true }
    ensures { Reads (λ t. t) result
        (place_fault place
        (known_name_tests (found_in names.now (name_at (table_view row.now.table.now))) block
        (table_view row.now.table.now)))
        (target_of (found_in names.now (name_at (table_view row.now.table.now)))) }
{
    let name = row.required_text(KeyName::Name);
    if !is_name(name) {
        return Err(place.fault(PlanFaultKind::BadName));
    }
    match find(names, name) {
        None => Err(place.fault(PlanFaultKind::UnknownName)),
        Some(site) if site.repeated && site.target.block != block => {
            Err(place.fault(PlanFaultKind::Ambiguous))
        }
        Some(site) => Ok(site.target),
    }
}
