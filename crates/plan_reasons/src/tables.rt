//! Faults that a table of any kind may have.

ghost use Rattle.std.specs.Prelude.{List, IfOk, IfSome};
ghost use Rattle.toml.specs.View.{table_view};
ghost use Rattle.plan_read.specs.Keys.{Key as PlanKey};
ghost use Rattle.plan_read.specs.declared.faults.PlanFaultKind.{PlanFaultKind};
ghost use Rattle.plan_read.specs.declared.faults.PlanFaultKind.TheVariants.{BadUnit, Missing, Negative, TooLarge, UnknownKey, WrongType};
ghost use Rattle.plan_reasons.specs.Told.{FitsKey};
ghost use Rattle.plan_reasons.specs.own.Details.{IsIn, Suits};
ghost use Rattle.plan_reasons.specs.own.Keys.{plan_keys};

use crate::keys::{Key, Shape, has_key};
use crate::meant::meant;
use crate::scene::{Detail, Scene, integer_at, text_at, value_at};
use crate::versions::{POLICIES, is_unit, units};
use crate::wanted::{Choice, Wanted};
use sched_time::{LONGEST, span};
use std::alloc::AllocError;
use toml::Table;

/// The keys of units, in the order in which they are looked at.
const UNIT_KEYS: &[&str] = &[
    "unit",
    "at_unit",
    "every_unit",
    "delay_unit",
    "first_unit",
    "period_unit",
];

impl<'t> Scene<'t> {
    /// That one of some words is wanted at a key. `Err` is want of memory.
    pub fn no_word(
        &self,
        table: &'t Table,
        key: &'t str,
        words: &[&'static str],
    ) -> Result<Detail<'t>, AllocError>
        ensures at { IfOk result (IsIn (table_view table.now)) }
        ensures suits { (kind : PlanFaultKind) (keys : List PlanKey)
            → FitsKey kind keys (table_view table.now) key.now
            → IfOk result (Suits kind keys (table_view table.now)) }
    {
        let near = match text_at(table, key) {
            Some(word) => meant(self.heap, word, words)?,
            None => Vec::new(self.heap),
        };
        let words = words.to_vec(self.heap)?;
        Ok(self.at_key(table, key, Wanted::OneOf(Choice { near, words })))
    }

    /// That the first key of a table, by its letters, which is none of these does not belong there. `Err` is want of memory.
    pub fn unknown_key(&self, table: &'t Table, keys: &[Key]) -> Result<Detail<'t>, AllocError>
        ensures at { IfOk result (IsIn (table_view table.now)) }
        ensures suits { IfOk result (Suits UnknownKey (plan_keys keys.now) (table_view table.now)) }
    {
        let mut words = Vec::with_capacity(self.heap, keys.len())?;
        for key in keys {
            words.push(key.name)?;
        }
        for (key, _) in table {
            let key = key.as_str();
            if !has_key(keys, key) {
                let near = meant(self.heap, key, words.as_slice())?;
                return Ok(self.at_standing(table, key, Wanted::OneOf(Choice { near, words })));
            }
        }
        Ok(self.at_place())
    }

    /// That the first of these keys that has to be there, and is not, is missing. `Err` is want of memory.
    #[tactic(auto, using(crate::proofs::Belonging::is_key_within))]
    pub fn missing_key(&self, table: &'t Table, keys: &[Key]) -> Result<Detail<'t>, AllocError>
        ensures at { IfOk result (IsIn (table_view table.now)) }
        ensures suits { IfOk result (Suits Missing (plan_keys keys.now) (table_view table.now)) }
    {
        for key in keys {
            if key.required && value_at(table, key.name).is_none() {
                return self.wanted(table, key);
            }
        }
        Ok(self.at_place())
    }

    /// That the value at the first of these keys is not of its shape. `Err` is want of memory.
    #[tactic(auto, using(crate::proofs::Belonging::is_key_within))]
    pub fn wrong_type(&self, table: &'t Table, keys: &[Key]) -> Result<Detail<'t>, AllocError>
        ensures at { IfOk result (IsIn (table_view table.now)) }
        ensures suits { IfOk result (Suits WrongType (plan_keys keys.now) (table_view table.now)) }
    {
        for key in keys {
            let Some(value) = value_at(table, key.name) else {
                continue;
            };
            if !key.shape.fits(value) {
                return self.wanted(table, key);
            }
        }
        Ok(self.at_place())
    }

    /// That a value of its shape is wanted at a key. `Err` is want of memory.
    fn wanted(&self, table: &'t Table, key: &Key) -> Result<Detail<'t>, AllocError>
        ensures at { IfOk result (IsIn (table_view table.now)) }
        ensures suits { (kind : PlanFaultKind) (keys : List PlanKey)
            → FitsKey kind keys (table_view table.now) key.now.name.now
            → IfOk result (Suits kind keys (table_view table.now)) }
    {
        match key.shape {
            Shape::Policy => self.no_word(table, key.name, POLICIES),
            shape => Ok(self.at_key(table, key.name, Wanted::Shape(shape))),
        }
    }

    /// That the text at the first key of a unit is none. `Err` is want of memory.
    pub fn bad_unit(&self, table: &'t Table) -> Result<Detail<'t>, AllocError>
        ensures at { IfOk result (IsIn (table_view table.now)) }
        ensures suits { (keys : List PlanKey)
            → IfOk result (Suits BadUnit keys (table_view table.now)) }
    {
        for key in UNIT_KEYS {
            let Some(word) = text_at(table, key) else {
                continue;
            };
            if !is_unit(self.version, word) {
                return self.no_word(table, key, units(self.version));
            }
        }
        Ok(self.at_place())
    }

    /// That the number at the first of these keys is below 0, in a block with this header.
    pub fn negative(&self, header: &Table, table: &'t Table, keys: &[&'t str]) -> Detail<'t>
        ensures at { IsIn (table_view table.now) result }
        ensures suits { (all : List PlanKey) → Suits Negative all (table_view table.now) result }
    {
        for key in keys {
            let Some(number) = integer_at(table, key) else {
                continue;
            };
            if number < 0 {
                return self.at_time(header, table, key);
            }
        }
        self.at_place()
    }

    /// The first of these keys with a time above 2^62 nanoseconds, in a block with this header.
    pub fn too_large(
        &self,
        header: &Table,
        table: &'t Table,
        keys: &[&'t str],
    ) -> Option<Detail<'t>>
        ensures at { IfSome result (IsIn (table_view table.now)) }
        ensures suits { (all : List PlanKey)
            → IfSome result (Suits TooLarge all (table_view table.now)) }
    {
        for key in keys {
            let Some(number) = integer_at(table, key) else {
                continue;
            };
            if span(number, self.unit(header, table, key)).is_err() {
                return Some(self.at_time(header, table, key));
            }
        }
        None
    }

    /// That a time in its range is wanted at a key, in a block with this header.
    fn at_time(&self, header: &Table, table: &'t Table, key: &'t str) -> Detail<'t>
        ensures at { IsIn (table_view table.now) result }
        ensures suits { (kind : PlanFaultKind) (keys : List PlanKey)
            → FitsKey kind keys (table_view table.now) key.now
            → Suits kind keys (table_view table.now) result }
    {
        let unit = self.unit(header, table, key);
        let least = match key {
            "at" | "every" => Some(0),
            _ => None,
        };
        let most = LONGEST / unit.nanos();
        let unit = Some(unit);
        self.at_key(table, key, Wanted::Number { least, most, unit })
    }
}
