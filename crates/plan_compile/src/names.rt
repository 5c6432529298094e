//! The names of tasks by their numbers.

ghost use Rattle.std.specs.Prelude.{◌≡◌, IfOk, map};
ghost use Rattle.plan_compile.specs.Submissions.{submissions_of_plan};

use crate::submissions::Submissions;
use plan_read::{Name, Plan};
use std::alloc::{AllocError, Allocator};

/// The name of each task of a plan, at its number. The only error is want of memory.
pub fn names_of_tasks<'a, A: Allocator, B: Allocator>(
    alloc: A,
    plan: &'a Plan<B>,
) -> Result<Vec<&'a Name, A>, AllocError>
    ensures { IfOk result
        (λ names. map (λ n. n.now) names.items ≡ map (λ s. s.name) (submissions_of_plan plan.now)) }
{
    let mut names = Vec::new(alloc);
    let mut submissions = Submissions::new(plan);
    while let Some(submission) = submissions.next() {
        names.push(submission.name)?;
    }
    Ok(names)
}
