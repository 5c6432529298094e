//! What holds of the calls and submissions of each plan, and of the limits on its text and its calls.
ghost use Rattle.std.specs.Prelude.{◌≡◌, ◌↔◌, ℕ, List, true};
ghost use Rattle.plan_read.specs.Data.{Members};
ghost use Rattle.queue_code.specs.Calls.{IsPlanned, most_calls_of_code};
ghost use Rattle.plan_read.specs.Plans.{PlanTree, most_calls as most_calls_of_plan};
ghost use Rattle.plan_read.specs.Migrating.{migrated, in_nanoseconds};
ghost use Rattle.plan_read.specs.Texts.{TextWrites, longest_text};
ghost use Rattle.plan_read.specs.Writes.{TreeWritesIn};
ghost use Rattle.plan_read.specs.declared.versions.Version.TheVariants.{One, Two};
ghost use Rattle.plan_compile.specs.MigrationLaws.{MigratedTextsCallTheSame};
ghost use Rattle.plan_compile.specs.PlanCalls.{calls_of_plan};
ghost use Rattle.plan_compile.specs.SubmissionLaws.{AreThoseOfTheCalls, AreNumberedInOrder, AreNamedAsWritten};

use crate::fault::CompileFault;
use plan_read::{LONGEST_TEXT, migrated_trees_write, plans_are_ordered};

/// The calls of each plan that a text writes are few enough, and in order, as the executor takes them and as its laws ask.
pub fn calls_are_in_order()
    ensures { (text : List ℕ) (plan : PlanTree) → TextWrites text plan
        → IsPlanned (calls_of_plan plan) }
{
    plans_are_ordered();
}

/// What a plan calls does not depend on the units that its blocks keep.
pub fn units_make_no_calls()
    ensures { (plan : PlanTree) → calls_of_plan (in_nanoseconds plan) ≡ calls_of_plan plan }
{}

/// A tree of version 1 and the tree to which it is migrated make the same calls.
pub fn migrated_trees_call_the_same()
    ensures { (ms : Members) (plan : PlanTree) → TreeWritesIn One ms plan
        → (other : PlanTree) × TreeWritesIn Two (migrated ms) other
        × (calls_of_plan other ≡ calls_of_plan plan) }
{
    migrated_trees_write();
    units_make_no_calls();
}

/// A text of version 1 and the text to which [`migrate`](plan_read::migrate) migrates it write plans that make the same calls.
pub fn migrated_texts_call_the_same()
    ensures { MigratedTextsCallTheSame }
{
    migrated_trees_write();
    units_make_no_calls();
}

/// The submissions of a plan are exactly those among its calls, in their order: of the same tasks, at the same moments, of the
/// same kinds and first due at the same moments, or illegal.
pub fn submissions_are_those_of_the_calls()
    ensures { AreThoseOfTheCalls }
{}

/// The submissions of a plan have the numbers 0, 1, .. in order, as many as the plan has tasks.
pub fn submissions_are_numbered_in_order()
    ensures { AreNumberedInOrder }
{}

/// The submissions of a plan have the names of the plan's text, block by block and iteration by iteration.
pub fn submissions_are_named_as_written()
    ensures { AreNamedAsWritten }
{}

/// A plan may make as many calls as a code may: the two limits are one number. And
/// [`LONGEST_TEXT`](plan_read::LONGEST_TEXT) is the limit on a plan's text of which the contracts speak.
pub fn limits_agree()
    ensures calls { most_calls_of_plan ≡ most_calls_of_code }
    ensures text { LONGEST_TEXT ≡ longest_text }
{}

/// Two faults compare as equal exactly when they are the same.
pub fn compile_fault_equality_tells()
    ensures { (a b : CompileFault) → (⟦<CompileFault as PartialEq>⟧.eq a b ≡ true) ↔ (a ≡ b) }
{}
