//! Sets of submissions of a plan.

ghost use Rattle.std.specs.Prelude.{◌≡◌, ◌||◌, false, OnOk};
ghost use Rattle.plan_read.specs.declared.plans.Target.{Target};
ghost use Rattle.plan_warnings.specs.Places.{is_same};
ghost use Rattle.plan_warnings.specs.own.Sets.{has_target};

use plan_read::Target;
use std::alloc::{AllocError, Allocator};
use std::collections::HashSet;
use std::hash::{BuildHasherDefault, FoldHasher};

/// A set of submissions.
#[derive(Drop)]
pub struct Targets<A: Allocator> {
    /// The block of each, and which of its submissions it is.
    keys: HashSet<(usize, usize), BuildHasherDefault<FoldHasher>, A>,
}

impl<A: Allocator> Targets<A> {
    /// One without submissions.
    pub fn new(alloc: A) -> Targets<A>
        ensures { (t : Target) → has_target result t ≡ false }
    {
        Targets {
            keys: HashSet::new(alloc),
        }
    }

    /// Whether it has a submission.
    pub fn has(&self, target: Target) -> bool
        ensures { result ≡ has_target self.now target }
    {
        self.keys.contains(&(target.block, target.sub))
    }
}

impl<A: Allocator + Clone> Targets<A> {
    /// Puts a submission into it. `Err` is want of memory.
    pub fn add(&mut self, target: Target) -> Result<(), AllocError>
        ensures { OnOk result
            ((t : Target) → has_target self.new t ≡ (has_target self.old t || is_same target t)) }
    {
        self.keys.insert((target.block, target.sub))?;
        Ok(())
    }
}
