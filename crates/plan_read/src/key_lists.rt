//! The keys of each table of a plan, gathered once a plan from the table of all keys.

ghost use Rattle.std.specs.Prelude.{◌≡◌, IfOk};
ghost use Rattle.toml.specs.View.{table_view};
ghost use Rattle.plan_read.specs.declared.verbs.Verb.TheVariants as verbs;
ghost use Rattle.plan_read.specs.declared.keys.Role.TheVariants as roles;
ghost use Rattle.plan_read.specs.own.Reads.{Reads};
ghost use Rattle.plan_read.specs.own.Rows.{standing, keys_in, as_defined};
ghost use Rattle.plan_read.specs.own.Walk.{place_fault, table_tests};

use crate::faults::{Place, PlanFaultKind, ReadError};
use crate::keys::{Key, Role, all_keys, has_only, has_required, pass};
use crate::rows::Row;
use crate::verbs::Verb;
use crate::versions::Version;
use std::alloc::{AllocError, Allocator};

/// The keys of each table of a plan of this version.
#[derive(Drop)]
pub struct KeyLists<A: Allocator> {
    pub version: Version,
    top: Vec<Key, A>,
    header: Vec<Key, A>,
    schedule: Vec<Key, A>,
    execute: Vec<Key, A>,
    rate: Vec<Key, A>,
    fixed: Vec<Key, A>,
    cancel: Vec<Key, A>,
    policy: Vec<Key, A>,
    shutdown: Vec<Key, A>,
    shutdown_now: Vec<Key, A>,
    ask: Vec<Key, A>,
    ghost of_top: { as_defined top.items ≡ keys_in version roles.Top },
    ghost of_header: { as_defined header.items ≡ keys_in version roles.Header },
    ghost of_schedule: { as_defined schedule.items ≡ keys_in version (roles.Call verbs.Schedule) },
    ghost of_execute: { as_defined execute.items ≡ keys_in version (roles.Call verbs.Execute) },
    ghost of_rate: { as_defined rate.items ≡ keys_in version (roles.Call verbs.Rate) },
    ghost of_fixed: { as_defined fixed.items ≡ keys_in version (roles.Call verbs.Fixed) },
    ghost of_cancel: { as_defined cancel.items ≡ keys_in version (roles.Call verbs.Cancel) },
    ghost of_policy: { as_defined policy.items ≡ keys_in version (roles.Call verbs.Policy) },
    ghost of_shutdown: { as_defined shutdown.items ≡ keys_in version (roles.Call verbs.Shutdown) },
    ghost of_shutdown_now: { as_defined shutdown_now.items ≡ keys_in version (roles.Call verbs.ShutdownNow) },
    ghost of_ask: { as_defined ask.items ≡ keys_in version (roles.Call verbs.Ask) },
}

impl<A: Allocator + Copy> KeyLists<A> {
    /// The keys of each table of a plan of this version.
    pub fn new(alloc: A, version: Version) -> Result<KeyLists<A>, AllocError>
        ensures { IfOk result (λ l. l.version ≡ version) }
    {
        Ok(KeyLists {
            version,
            top: keys_in(alloc, version, Role::Top)?,
            header: keys_in(alloc, version, Role::Header)?,
            schedule: keys_in(alloc, version, Role::Call(Verb::Schedule))?,
            execute: keys_in(alloc, version, Role::Call(Verb::Execute))?,
            rate: keys_in(alloc, version, Role::Call(Verb::Rate))?,
            fixed: keys_in(alloc, version, Role::Call(Verb::Fixed))?,
            cancel: keys_in(alloc, version, Role::Call(Verb::Cancel))?,
            policy: keys_in(alloc, version, Role::Call(Verb::Policy))?,
            shutdown: keys_in(alloc, version, Role::Call(Verb::Shutdown))?,
            shutdown_now: keys_in(alloc, version, Role::Call(Verb::ShutdownNow))?,
            ask: keys_in(alloc, version, Role::Call(Verb::Ask))?,
        })
    }
}

impl<A: Allocator> KeyLists<A> {
    /// The keys of a table of this role.
    fn of(&self, role: Role) -> &[Key]
        ensures { as_defined result.now ≡ keys_in self.now.version role }
    {
        let keys = match role {
            Role::Top => &self.top,
            Role::Header => &self.header,
            Role::Call(Verb::Schedule) => &self.schedule,
            Role::Call(Verb::Execute) => &self.execute,
            Role::Call(Verb::Rate) => &self.rate,
            Role::Call(Verb::Fixed) => &self.fixed,
            Role::Call(Verb::Cancel) => &self.cancel,
            Role::Call(Verb::Policy) => &self.policy,
            Role::Call(Verb::Shutdown) => &self.shutdown,
            Role::Call(Verb::ShutdownNow) => &self.shutdown_now,
            Role::Call(Verb::Ask) => &self.ask,
        };
        keys.as_slice()
    }

    /// That each key of a table stands in tables of its role, that each that has to be there is, and that the value at
    /// each is of its shape. The first of these that does not hold is the fault.
    #[inline(always)]
    pub fn check(&self, place: Place, role: Role, row: &Row) -> Result<(), ReadError>
        ensures { Reads (λ u. u) result
            (place_fault place
            (table_tests (keys_in self.now.version role) (table_view row.now.table.now))) tt }
    {
        let keys = self.of(role);
        if pass(keys, row) {
            return Ok(());
        }
        if !has_only(keys, row) {
            return Err(place.fault(PlanFaultKind::UnknownKey));
        }
        if !has_required(keys, row) {
            return Err(place.fault(PlanFaultKind::Missing));
        }
        Err(place.fault(PlanFaultKind::WrongType))
    }
}

/// The keys of a table of this role.
fn keys_in<A: Allocator>(alloc: A, version: Version, role: Role) -> Result<Vec<Key, A>, AllocError>
    ensures { IfOk result (λ v. as_defined v.items ≡ keys_in version role) }
{
    standing(alloc, all_keys(), version, role)
}

/// Those of some keys that stand in a table of this role.
fn standing<A: Allocator>(
    alloc: A,
    keys: &[Key],
    version: Version,
    role: Role,
) -> Result<Vec<Key, A>, AllocError>
    ensures { IfOk result (λ v. v.items ≡ standing version role keys.now) }
{
    let mut those = Vec::with_capacity(alloc, keys.len())?;
    for key in keys {
        if key.stands_in(version, role) {
            those.push(*key)?;
        }
    }
    Ok(those)
}
