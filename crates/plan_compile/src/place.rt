//! A place in a plan, from which its operations are given one after the other.

ghost use Rattle.std.specs.Prelude.{◌≡◌, ℕ, ◌≤◌, IfSome};
ghost use Rattle.std.specs.Prelude.{option_map, slice_get, drop};
ghost use Rattle.sched_time.specs.Times.{longest};
ghost use Rattle.plan_compile.specs.own.Places.{ops_from, AreInTime};

use plan_read::{Block, Call, Op};
use std::alloc::Allocator;
use std::marker::Model;

/// A place before a call of a plan, or at its end. It holds no list: it walks over blocks and iterations. Contracts see the
/// operations that are left, each with the moment of its call.
#[derive(Drop)]
pub struct Place<'a, A: Allocator> {
    /// The calls of the iteration at hand that are left: one at least, but at the end.
    calls: &'a [Call],
    /// The moment at which that iteration begins.
    base: u64,
    /// Its number in its block, from 0.
    iteration: u32,
    /// Its block, and those behind it.
    blocks: &'a [Block<A>],
}

impl<'a, A: Allocator> Model for Place<'a, A> {
    ghost use Rattle.std.specs.Prelude.{◌≡◌, ◌+◌, ◌-◌, ◌^◌, ◌<◌, List, [], ◌++◌};
    ghost use Rattle.plan_compile.specs.Submissions.{Timed, ops_at};
    ghost use Rattle.plan_compile.specs.own.Places.{ops_from, AreInTime};

    ghost Value = { List Timed };

    ghost view = { λ p. ops_at p.base p.calls.now ++ ops_from (p.iteration + 1) p.blocks.now };

    ghost invariant = { λ p. AreInTime (ops_at p.base p.calls.now ++ ops_from (p.iteration + 1) p.blocks.now) × (p.calls.now ≡ [] → p.blocks.now ≡ []) × (p.iteration < 2 ^ 32 - 1) };
}

impl<'a, A: Allocator> Place<'a, A> {
    /// The place before an iteration of the first of some blocks, and before the next block with calls where there is none.
    pub fn before(mut blocks: &'a [Block<A>], mut iteration: u32) -> Place<'a, A>
        requires { AreInTime (ops_from iteration blocks.now) }
        ensures { result ≡ ops_from iteration blocks.now }
    {
        while let Some((block, rest)) = blocks.split_first() {
            if iteration < block.times() && !block.calls().is_empty() {
                return Place {
                    calls: block.calls(),
                    base: block.at() + u64::from(iteration) * block.every(),
                    iteration,
                    blocks,
                };
            }
            blocks = rest;
            iteration = 0;
        }
        Place {
            calls: &[],
            base: 0,
            iteration: 0,
            blocks: &[],
        }
    }

    /// The next operation with the moment of its call, in nanoseconds, and none at the end.
    pub fn next(&mut self) -> Option<(u64, &'a Op)>
        ensures next { option_map (λ o. (o.0, o.1.now)) result ≡ slice_get self.old 0 }
        ensures left { self.new ≡ drop 1 self.old }
        ensures limit { IfSome result (λ o. o.0 ≤ longest) }
    {
        let Some((call, rest)) = self.calls.split_first() else {
            return None;
        };
        let moment = self.base + call.at;
        if rest.is_empty() {
            *self = Place::before(self.blocks, self.iteration + 1);
        } else {
            self.calls = rest;
        }
        Some((moment, &call.op))
    }
}
