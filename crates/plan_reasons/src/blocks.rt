//! Faults of a block's header.

ghost use Rattle.std.specs.Prelude.{List, IfOk, codes};
ghost use Rattle.toml.specs.View.{table_view};
ghost use Rattle.plan_read.specs.Keys.{Key, header_keys};
ghost use Rattle.plan_read.specs.declared.faults.PlanFaultKind.{PlanFaultKind};
ghost use Rattle.plan_read.specs.declared.faults.PlanFaultKind.TheVariants.{BadTimes, Missing, TooMany};
ghost use Rattle.plan_read.specs.declared.versions.Version.{Version};
ghost use Rattle.plan_reasons.specs.Told.{FitsKey};
ghost use Rattle.plan_reasons.specs.own.Details.{IsIn, Suits};
ghost use Rattle.plan_reasons.specs.own.Keys.{plan_version};

use crate::keys::header_keys;
use crate::limits::{MOST_BLOCK_CALLS, MOST_CALLS};
use crate::scene::{Detail, Scene, integer_at, tables_at, value_at};
use crate::wanted::Wanted;
use plan_lines::Place;
use plan_read::PlanFaultKind;
use std::alloc::AllocError;
use toml::Table;

/// The keys of the times of a header, in the order in which they are looked at.
const TIMES: &[&str] = &["at", "every"];

/// When the calls of a block are made: its moment, how often they are made, and the time from one iteration to the next, in
/// nanoseconds.
#[derive(Clone, Copy)]
pub struct Pace {
    pub at: u128,
    pub times: u128,
    pub every: u128,
}

impl Pace {
    /// The moment of a call with this offset in the last iteration.
    pub fn last(self, offset: u128) -> u128 {
        let iterations = self.times.saturating_sub(1);
        let begin = self
            .at
            .saturating_add(iterations.saturating_mul(self.every));
        begin.saturating_add(offset)
    }
}

impl<'t> Scene<'t> {
    /// What is told of a fault of a header. `Err` is want of memory.
    pub fn header_detail(&self, header: &'t Table) -> Result<Detail<'t>, AllocError>
        ensures at { IfOk result (IsIn (table_view header.now)) }
        ensures suits { IfOk result
            (Suits self.now.fault.kind (header_keys (plan_version self.now.version))
            (table_view header.now)) }
    {
        let keys = header_keys(self.version);
        match self.fault.kind {
            PlanFaultKind::UnknownKey => self.unknown_key(header, keys),
            PlanFaultKind::WrongType => self.wrong_type(header, keys),
            PlanFaultKind::BadUnit => self.bad_unit(header),
            PlanFaultKind::BadTimes => Ok(self.bad_times(header)),
            PlanFaultKind::Missing => Ok(self.missing_every(header)),
            PlanFaultKind::Negative => Ok(self.negative(header, header, TIMES)),
            PlanFaultKind::TooLarge => match self.too_large(header, header, TIMES) {
                Some(detail) => Ok(detail),
                None => Ok(self.at_place()),
            },
            PlanFaultKind::OutOfOrder => {
                // It begins before the last call of the blocks before it.
                Ok(self.not_before(header, header, self.end_before()))
            }
            PlanFaultKind::TooMany => Ok(self.too_many_calls(header)),
            _ => Ok(self.at_place()),
        }
    }

    /// When the calls of a block are made.
    pub fn pace(&self, header: &Table) -> Pace {
        Pace {
            at: self.nanos(header, header, "at"),
            times: u128::from(times_of(header)),
            every: self.nanos(header, header, "every"),
        }
    }

    /// That a `times` is out of its range.
    fn bad_times(&self, header: &'t Table) -> Detail<'t>
        ensures at { IsIn (table_view header.now) result }
        ensures suits { (version : Version)
            → Suits BadTimes (header_keys version) (table_view header.now) result }
    {
        let wanted = Wanted::Number {
            least: Some(1),
            most: MOST_CALLS,
            unit: None,
        };
        self.at_standing(header, "times", wanted)
    }

    /// That an `every` is missing.
    fn missing_every(&self, header: &'t Table) -> Detail<'t>
        ensures at { IsIn (table_view header.now) result }
        ensures suits { (version : Version)
            → Suits Missing (header_keys version) (table_view header.now) result }
    {
        if value_at(header, "every").is_some() {
            return self.at_place();
        }
        let times = integer_at(header, "times").unwrap_or(1);
        self.at_key(header, "every", Wanted::Every { times })
    }

    /// That the `at` of a table, in a block with this header, is before a moment or an offset in nanoseconds.
    pub fn not_before(&self, header: &Table, table: &'t Table, nanos: u128) -> Detail<'t>
        ensures at { IsIn (table_view table.now) result }
        ensures suits { (kind : PlanFaultKind) (keys : List Key)
            → FitsKey kind keys (table_view table.now) (codes "at")
            → Suits kind keys (table_view table.now) result }
    {
        let unit = self.unit(header, table, "at");
        let least = nanos.div_ceil(u128::from(unit.nanos()));
        let least = u64::try_from(least).unwrap_or(u64::MAX);
        self.at_key(table, "at", Wanted::NotBefore { least, unit })
    }

    /// The moment of the last call before the block of the fault, 0 where there is none.
    fn end_before(&self) -> u128 {
        let mut end = 0;
        for number in 1..self.fault.block {
            let Some(header) = self.block(number) else {
                continue;
            };
            if let [.., last] = tables_at(header, "call") {
                if let Some(call) = last.as_table() {
                    end = self.pace(header).last(self.nanos(header, call, "at"));
                }
            }
        }
        end
    }

    /// That there are too many calls: in the block, or in all.
    fn too_many_calls(&self, header: &'t Table) -> Detail<'t>
        ensures at { IsIn (table_view header.now) result }
        ensures suits { (version : Version)
            → Suits TooMany (header_keys version) (table_view header.now) result }
    {
        let count = tables_at(header, "call").len();
        if count > MOST_BLOCK_CALLS {
            let wanted = Wanted::AtMost(MOST_BLOCK_CALLS as u64);
            return Detail {
                place: Place {
                    block: self.fault.block as usize,
                    call: MOST_BLOCK_CALLS + 1,
                    key: None,
                },
                ..self.at_key(header, "call", wanted)
            };
        }
        let calls = self.calls_through_block();
        self.at_key(header, "call", Wanted::Fewer { calls })
    }

    /// How many calls there are up to the end of the block of the fault, repetitions counted.
    fn calls_through_block(&self) -> u64 {
        let mut calls = 0u64;
        for value in tables_at(self.tree, "block")
            .iter()
            .take(self.fault.block as usize)
        {
            if let Some(header) = value.as_table() {
                let count = tables_at(header, "call").len() as u64;
                calls = calls.saturating_add(count.saturating_mul(times_of(header)));
            }
        }
        calls
    }
}

/// How often the calls of a block are made.
pub fn times_of(header: &Table) -> u64 {
    integer_at(header, "times").unwrap_or(1).max(0) as u64
}
