//! Faults of a call.

ghost use Rattle.std.specs.Prelude.{IfOk};
ghost use Rattle.toml.specs.View.{table_view};
ghost use Rattle.plan_read.specs.Keys.{call_keys};
ghost use Rattle.plan_read.specs.declared.faults.PlanFaultKind.TheVariants.{OutOfOrder, TooLarge};
ghost use Rattle.plan_read.specs.declared.verbs.Verb.{Verb};
ghost use Rattle.plan_read.specs.declared.versions.Version.{Version};
ghost use Rattle.plan_reasons.specs.Told.{operation_of};
ghost use Rattle.plan_reasons.specs.own.Details.{IsIn, Suits};
ghost use Rattle.plan_reasons.specs.own.Keys.{plan_version};

use crate::keys::{is_operation, operation_keys};
use crate::scene::{Detail, Scene, table_in, tables_at, text_at, value_at};
use crate::versions::OPERATIONS;
use crate::wanted::Wanted;
use plan_read::PlanFaultKind;
use std::alloc::AllocError;
use toml::Table;

/// The keys of the times of a call, in the order in which they are looked at.
const TIMES: &[&str] = &["at", "first", "delay", "period"];

impl<'t> Scene<'t> {
    /// What is told of a fault of a call, in a block with this header. `Err` is want of memory.
    pub fn call_detail(&self, header: &'t Table, call: &'t Table) -> Result<Detail<'t>, AllocError>
        ensures at { IfOk result (IsIn (table_view call.now)) }
        ensures suits { IfOk result
            (Suits self.now.fault.kind
            (call_keys (plan_version self.now.version) (operation_of (table_view call.now)))
            (table_view call.now)) }
    {
        let word = text_at(call, "op").unwrap_or("");
        let keys = operation_keys(self.version, call);
        match self.fault.kind {
            PlanFaultKind::Missing if value_at(call, "op").is_none() => {
                self.no_word(call, "op", OPERATIONS)
            }
            PlanFaultKind::WrongType if value_at(call, "op").is_some() && !is_operation(word) => {
                self.no_word(call, "op", OPERATIONS)
            }
            PlanFaultKind::Missing => self.missing_key(call, keys),
            PlanFaultKind::WrongType => self.wrong_type(call, keys),
            PlanFaultKind::UnknownKey => self.unknown_key(call, keys),
            PlanFaultKind::BadUnit => self.bad_unit(call),
            PlanFaultKind::Negative => Ok(self.negative(header, call, &["at"])),
            PlanFaultKind::TooLarge => Ok(self.too_far(header, call)),
            PlanFaultKind::OutOfOrder => Ok(self.unordered(header, call)),
            _ => self.name_detail(call),
        }
    }

    /// That a time is too long, or that the call is made too late in the last iteration.
    fn too_far(&self, header: &'t Table, call: &'t Table) -> Detail<'t>
        ensures at { IsIn (table_view call.now) result }
        ensures suits { (version : Version) (verb : Verb)
            → Suits TooLarge (call_keys version verb) (table_view call.now) result }
    {
        match self.too_large(header, call, TIMES) {
            Some(detail) => detail,
            None => {
                let last = self.pace(header).last(self.nanos(header, call, "at"));
                self.at_key(call, "at", Wanted::Earlier { last })
            }
        }
    }

    /// That an offset is below that of the call before, or behind the next iteration.
    fn unordered(&self, header: &'t Table, call: &'t Table) -> Detail<'t>
        ensures at { IsIn (table_view call.now) result }
        ensures suits { (version : Version) (verb : Verb)
            → Suits OutOfOrder (call_keys version verb) (table_view call.now) result }
    {
        let before = self.offset_before(header);
        if self.nanos(header, call, "at") < before {
            return self.not_before(header, call, before);
        }
        let unit = self.unit(header, call, "at");
        let most = self.pace(header).every / u128::from(unit.nanos());
        let most = u64::try_from(most).unwrap_or(u64::MAX);
        self.at_key(call, "at", Wanted::NotAfter { most, unit })
    }

    /// The offset of the call before that of the fault, 0 where there is none.
    fn offset_before(&self, header: &'t Table) -> u128 {
        match table_in(tables_at(header, "call"), self.fault.call.saturating_sub(1)) {
            Some(call) => self.nanos(header, call, "at"),
            None => 0,
        }
    }
}
