//! What the reader of plans promises.
ghost use Rattle.std.specs.Prelude.{◌≡◌, ◌⊎◌, IfOk, IfErr, MatchResult, ℕ, List, string_bytes};
ghost use Rattle.plan_read.specs.Plans.{PlanTree};
ghost use Rattle.plan_read.specs.Reads.{out_of_memory};
ghost use Rattle.plan_read.specs.Texts.{TextWrites, TextFails};
ghost use Rattle.plan_read.specs.Migrating.{in_nanoseconds, Migrates, MigrationFails};

use plan_read::{HeapAllocator, Plan, PlanFault};

/// [`plan_read::read_plan`].
pub fn read_plan<A: HeapAllocator>(alloc: A, text: &[u8]) -> Result<Plan<A>, PlanFault>
    ensures plan { IfOk result (λ p. TextWrites text.now p) }
    ensures only { (plan : PlanTree) → TextWrites text.now plan
        → MatchResult result (λ p. p ≡ plan) (λ e. e ≡ out_of_memory) }
    ensures fault { IfErr result (λ e. TextFails text.now e ⊎ (e ≡ out_of_memory)) }
{
    plan_read::read_plan(alloc, text)
}

/// [`plan_read::migrate`].
pub fn migrate<A: HeapAllocator>(alloc: A, text: &[u8]) -> Result<String, PlanFault>
    ensures migrated { IfOk result (λ s. Migrates text.now (string_bytes s)) }
    ensures only { (printed : List ℕ) → Migrates text.now printed
        → MatchResult result (λ s. string_bytes s ≡ printed) (λ e. e ≡ out_of_memory) }
    ensures fault { IfErr result (λ e. MigrationFails text.now e ⊎ (e ≡ out_of_memory)) }
    ensures faultless { IfOk result (λ s. (fault : PlanFault) → MigrationFails text.now fault → ⊥) }
    ensures plan { IfOk result
        (λ s. (plan : PlanTree) × TextWrites text.now plan
        × TextWrites (string_bytes s) (in_nanoseconds plan)) }
{
    plan_read::migrate(alloc, text)
}
