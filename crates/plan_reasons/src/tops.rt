//! Faults of the text as a whole, and of the top of a plan.

ghost use Rattle.std.specs.Prelude.{◌≡◌, None, IfOk, IfSome};
ghost use Rattle.toml.specs.View.{table_view};
ghost use Rattle.plan_lines.specs.Lines.{IsLineOf};
ghost use Rattle.plan_reasons.specs.Standing.{IsBehind};
ghost use Rattle.plan_reasons.specs.declared.found.Found.TheVariants.{Nothing};
ghost use Rattle.plan_reasons.specs.own.Details.{IsIn, Suits};
ghost use Rattle.plan_read.specs.Keys.{top_keys};
ghost use Rattle.plan_read.specs.Reads.{out_of_memory};
ghost use Rattle.plan_read.specs.declared.faults.PlanFaultKind.TheVariants.{TooMany, Version};

use crate::found::Found;
use crate::keys::top_keys;
use crate::limits::MOST_BLOCKS;
use crate::reason::Reason;
use crate::scene::{Detail, Scene};
use crate::versions::VERSIONS;
use crate::wanted::{Choice, Wanted};
use plan_lines::{Place, column_after, line_after};
use plan_read::{LONGEST_TEXT, PlanFault, PlanFaultKind};
use std::alloc::{AllocError, Global};

/// The reason where a text is too long.
pub fn too_long(fault: PlanFault) -> Reason
    ensures fault { result.fault ≡ fault }
    ensures line { result.line ≡ None }
    ensures column { result.column ≡ None }
    ensures key { result.key ≡ None }
    ensures found { result.found ≡ Nothing }
{
    Reason {
        fault,
        line: None,
        column: None,
        key: None,
        found: Found::Nothing,
        wanted: Wanted::Bytes(LONGEST_TEXT),
    }
}

/// The reason where memory ran out.
pub fn want_of_memory() -> Reason
    ensures fault { result.fault ≡ out_of_memory }
    ensures line { result.line ≡ None }
    ensures column { result.column ≡ None }
    ensures key { result.key ≡ None }
    ensures found { result.found ≡ Nothing }
{
    unplaced(PlanFault {
        kind: PlanFaultKind::Memory,
        block: 0,
        call: 0,
    })
}

/// The reason of which no more than the fault is told.
pub fn unplaced(fault: PlanFault) -> Reason
    ensures fault { result.fault ≡ fault }
    ensures line { result.line ≡ None }
    ensures column { result.column ≡ None }
    ensures key { result.key ≡ None }
    ensures found { result.found ≡ Nothing }
{
    Reason {
        fault,
        line: None,
        column: None,
        key: None,
        found: Found::Nothing,
        wanted: Wanted::Unsaid,
    }
}

/// The reason where a text is no TOML document, as `toml` tells it. `Err` is want of memory.
pub fn no_document(heap: Global, text: &[u8], fault: PlanFault) -> Result<Reason, AllocError>
    ensures fault { IfOk result (λ r. r.fault ≡ fault) }
    ensures line { IfOk result (λ r. IfSome r.line (IsLineOf text.now)) }
    ensures column { IfOk result (λ r. IfSome r.column (IsBehind text.now r.line)) }
    ensures key { IfOk result (λ r. r.key ≡ None) }
    ensures found { IfOk result (λ r. r.found ≡ Nothing) }
{
    match toml::table_from_slice(heap, text) {
        Ok(_) => Ok(unplaced(fault)),
        Err(error) if error.is_memory() => Err(AllocError),
        Err(error) => fault_of_toml(heap, text, fault, &error),
    }
}

/// The reason where `toml` tells this error of a text. `Err` is want of memory.
fn fault_of_toml(
    heap: Global,
    text: &[u8],
    fault: PlanFault,
    error: &toml::de::Error,
) -> Result<Reason, AllocError>
    ensures fault { IfOk result (λ r. r.fault ≡ fault) }
    ensures line { IfOk result (λ r. IfSome r.line (IsLineOf text.now)) }
    ensures column { IfOk result (λ r. IfSome r.column (IsBehind text.now r.line)) }
    ensures key { IfOk result (λ r. r.key ≡ None) }
    ensures found { IfOk result (λ r. r.found ≡ Nothing) }
{
    let begin = match error.span() {
        Some(range) => range.start,
        None => 0,
    };
    let (line, column) = match text.get(..begin) {
        Some(before) => (Some(line_after(before)), Some(column_after(before))),
        None => (None, None),
    };
    Ok(Reason {
        fault,
        line,
        column,
        key: None,
        found: Found::Nothing,
        wanted: Wanted::Document(String::from_str(heap, error.message())?),
    })
}

impl<'t> Scene<'t> {
    /// What is told of a fault of the top. `Err` is want of memory.
    pub fn top_detail(&self) -> Result<Detail<'t>, AllocError>
        ensures at { IfOk result (IsIn (table_view self.now.tree.now)) }
        ensures suits { IfOk result
            (Suits self.now.fault.kind top_keys (table_view self.now.tree.now)) }
    {
        match self.fault.kind {
            PlanFaultKind::Version => self.no_version(),
            PlanFaultKind::UnknownKey => self.unknown_key(self.tree, top_keys()),
            PlanFaultKind::WrongType => self.wrong_type(self.tree, top_keys()),
            PlanFaultKind::TooMany => Ok(self.too_many_blocks()),
            _ => Ok(self.at_place()),
        }
    }

    /// That the version is none. `Err` is want of memory.
    fn no_version(&self) -> Result<Detail<'t>, AllocError>
        ensures at { IfOk result (IsIn (table_view self.now.tree.now)) }
        ensures suits { IfOk result (Suits Version top_keys (table_view self.now.tree.now)) }
    {
        let near = Vec::new(self.heap);
        let words = VERSIONS.to_vec(self.heap)?;
        Ok(self.at_key(self.tree, "version", Wanted::OneOf(Choice { near, words })))
    }

    /// That there are too many blocks.
    fn too_many_blocks(&self) -> Detail<'t>
        ensures at { IsIn (table_view self.now.tree.now) result }
        ensures suits { Suits TooMany top_keys (table_view self.now.tree.now) result }
    {
        let wanted = Wanted::AtMost(MOST_BLOCKS as u64);
        Detail {
            place: Place {
                block: MOST_BLOCKS + 1,
                call: 0,
                key: None,
            },
            ..self.at_key(self.tree, "block", wanted)
        }
    }
}
