//! Laws on the definitions, and on what compares, in functions that do nothing.

ghost use Rattle.std.specs.Prelude.{◌≡◌, ◌↔◌, true};
ghost use Rattle.plan_read.specs.Laws.{WritesOrFails, NeverBoth, WritesOne, FailsOnce, NamesDiffer, TargetsStandBefore, MigratedTreesWrite, PlansAreOrdered};

use crate::faults::{PlanFault, PlanFaultKind};
use crate::plans::Target;

/// A tree writes a plan or has a fault, and never both; it writes at most one plan, and has at most one
/// fault.
pub fn trees_write_or_fail()
    ensures either { WritesOrFails }
    ensures never_both { NeverBoth }
    ensures one { WritesOne }
    ensures once { FailsOnce }
{}

/// Two submissions of a plan have different names.
pub fn names_differ()
    ensures { NamesDiffer }
{}

/// The target of a cancel stands before it, has the name that the call gives, and is of the same
/// iteration or of a block that is not repeated.
pub fn targets_stand_before()
    ensures { TargetsStandBefore }
{}

/// The migrated tree of a tree of version 1 writes the same plan in version 2, but for what its blocks keep of
/// units.
pub fn migrated_trees_write()
    ensures { MigratedTreesWrite }
{}

/// The calls of a plan are in order and within the limits.
pub fn plans_are_ordered()
    ensures { PlansAreOrdered }
{}

/// Two kinds of fault compare as equal exactly when they are the same.
pub fn plan_fault_kind_equality_tells()
    ensures { (a b : PlanFaultKind) → (⟦<PlanFaultKind as PartialEq>⟧.eq a b ≡ true) ↔ (a ≡ b) }
{}

/// Two faults compare as equal exactly when they are the same.
pub fn plan_fault_equality_tells()
    ensures { (a b : PlanFault) → (⟦<PlanFault as PartialEq>⟧.eq a b ≡ true) ↔ (a ≡ b) }
{}

/// Two targets compare as equal exactly when they are the same.
pub fn target_equality_tells()
    ensures { (a b : Target) → (⟦<Target as PartialEq>⟧.eq a b ≡ true) ↔ (a ≡ b) }
{}
