//! Units and policies, by their words, and the units of a table's times.

ghost use Rattle.std.specs.Prelude.{◌≡◌, ◌∷◌, [], true, codes};
ghost use Rattle.toml.specs.View.{table_view};
ghost use Rattle.plan_read.specs.Keys.{unit_of_word, longer_unit_of_word, which_of_word};
ghost use Rattle.plan_read.specs.own.Reads.{Reads};
ghost use Rattle.plan_read.specs.own.Rows.{word_of};
ghost use Rattle.plan_read.specs.own.Values.{same_units, units_beside, unit_or};
ghost use Rattle.plan_read.specs.own.Walk.{◌barring◌, place_fault, is_unit, are_units};
ghost use Rattle.plan_read.specs.declared.faults.PlanFaultKind.TheVariants as kinds;
ghost use Rattle.plan_read.specs.declared.versions.Version.TheVariants.{Two};

use crate::faults::{Place, PlanFaultKind, ReadError};
use crate::key_names::KeyName;
use crate::rows::Row;
use crate::versions::Version;
use sched_time::{Unit, Which};

/// The unit that a word names in a version, if it names one.
pub fn unit_of_word(version: Version, word: &str) -> Option<Unit>
    ensures { result ≡ unit_of_word version word.now }
{
    match word {
        "ns" => Some(Unit::Ns),
        "us" => Some(Unit::Us),
        "ms" => Some(Unit::Ms),
        "s" => Some(Unit::S),
        _ => longer_unit_of_word(version, word),
    }
}

/// The unit that a word names in version 2 alone, if it names one and this is the version.
fn longer_unit_of_word(version: Version, word: &str) -> Option<Unit>
    ensures { result ≡ longer_unit_of_word version word.now }
{
    match version {
        Version::One => None,
        Version::Two => match word {
            "min" => Some(Unit::Min),
            "h" => Some(Unit::Hour),
            "d" => Some(Unit::Day),
            _ => None,
        },
    }
}

/// The policy that a word names, if it names one.
pub fn which_of_word(word: &str) -> Option<Which>
    ensures { result ≡ which_of_word word.now }
{
    match word {
        "continue" => Some(Which::Continue),
        "execute" => Some(Which::Execute),
        "remove" => Some(Which::Remove),
        _ => None,
    }
}

/// The unit at a key, nanoseconds where there is no text.
pub fn read_unit(
    place: Place,
    version: Version,
    name: KeyName,
    row: &Row,
) -> Result<Unit, ReadError>
    ensures { Reads (λ u. u) result
        (place_fault place
        ((kinds.BadUnit barring is_unit version (word_of name) (table_view row.now.table.now))
        ∷ [])) (unit_or version (word_of name) (table_view row.now.table.now)) }
{
    match unit_of_word(version, row.text(name).unwrap_or("ns")) {
        Some(unit) => Ok(unit),
        None => Err(place.fault(PlanFaultKind::BadUnit)),
    }
}

/// The units of a table's times.
#[derive(Clone, Copy)]
pub struct Units {
    pub at: Unit,
    pub every: Unit,
    pub delay: Unit,
    pub first: Unit,
    pub period: Unit,
}

impl Units {
    /// One unit for all times.
    pub fn same(unit: Unit) -> Units
        ensures { result ≡ same_units unit }
    {
        Units {
            at: unit,
            every: unit,
            delay: unit,
            first: unit,
            period: unit,
        }
    }

    /// The units that stand beside the times of a table, in version 2.
    pub fn read(place: Place, row: &Row) -> Result<Units, ReadError>
        ensures { Reads (λ u. u) result
            (place_fault place
            ((kinds.BadUnit barring are_units Two (table_view row.now.table.now)) ∷ []))
            (units_beside (table_view row.now.table.now)) }
    {
        let at = read_unit(place, Version::Two, KeyName::AtUnit, row)?;
        let every = read_unit(place, Version::Two, KeyName::EveryUnit, row)?;
        let delay = read_unit(place, Version::Two, KeyName::DelayUnit, row)?;
        let first = read_unit(place, Version::Two, KeyName::FirstUnit, row)?;
        let period = read_unit(place, Version::Two, KeyName::PeriodUnit, row)?;
        Ok(Units {
            at,
            every,
            delay,
            first,
            period,
        })
    }
}
