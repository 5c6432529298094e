//! The calls of a plan in their places.

ghost use Rattle.std.specs.Prelude.{◌≡◌, ◌<◌, ◌&&◌, ◌++◌, nat_lt, not, [], map, IfOk};
ghost use Rattle.plan_read.specs.Plans.{tasks_after};
ghost use Rattle.plan_warnings.specs.Places.{places_in, places_of, shuts_down, some_shuts_down, target_of};
ghost use Rattle.plan_warnings.specs.Warnings.{is_illegal, is_legal, is_refused_at, is_short};
ghost use Rattle.plan_warnings.specs.own.Marks.{place_tree};

use plan_read::{Block, Call, Op, Plan, Target};
use std::alloc::{AllocError, Allocator};

/// A call of a plan's text, and what counts of where it stands.
#[derive(Clone, Copy)]
pub struct Place<'p> {
    /// Its block, numbered from 1.
    pub block: usize,
    /// The call in its block, numbered from 1.
    pub call: usize,
    /// How a cancel names it, where it is a submission.
    pub target: Target,
    /// Whether a shutdown stands before it, in an earlier block or in its own.
    pub is_shut: bool,
    /// Whether its block is made more than once, and has a shutdown.
    pub is_shut_again: bool,
    pub op: &'p Op,
}

impl Place<'_> {
    /// Whether its call is a submission that is refused each time that it is made.
    pub fn is_refused(&self) -> bool
        ensures { result ≡ is_refused_at (place_tree self.now) }
    {
        self.op.is_submission() && (is_illegal(self.op) || self.is_shut)
    }

    /// Whether its call is refused as rejected each time that it is made.
    pub fn is_rejected(&self) -> bool
        ensures { result ≡ (is_legal self.now.op.now && self.now.is_shut) }
    {
        is_legal(self.op) && self.is_shut
    }

    /// Whether its call is refused as rejected from the second time on that it is made.
    pub fn is_rejected_again(&self) -> bool
        ensures { result
            ≡ (is_legal self.now.op.now && (not self.now.is_shut && self.now.is_shut_again)) }
    {
        is_legal(self.op) && !self.is_shut && self.is_shut_again
    }
}

/// Whether a submission has no legal period, or no legal fixed delay.
pub fn is_illegal(op: &Op) -> bool
    ensures { result ≡ is_illegal op.now }
{
    matches!(
        op,
        Op::Rate { period: None, .. } | Op::Fixed { delay: None, .. }
    )
}

/// Whether an operation is a submission that is not illegal.
pub fn is_legal(op: &Op) -> bool
    ensures { result ≡ is_legal op.now }
{
    op.is_submission() && !is_illegal(op)
}

/// Below how many nanoseconds a period is short.
const SHORT: u64 = 1000;

/// Whether a submission has a legal period, or a legal fixed delay, that is short.
pub fn is_short(op: &Op) -> bool
    ensures { result ≡ is_short op.now }
{
    match op {
        Op::Rate {
            period: Some(span),
            ..
        }
        | Op::Fixed {
            delay: Some(span),
            ..
        } => span.nanos() < SHORT,
        _ => false,
    }
}

/// The target of a cancel.
pub fn target_of(op: &Op) -> Option<Target>
    ensures { result ≡ target_of op.now }
{
    match op {
        Op::Cancel(target) => Some(*target),
        _ => None,
    }
}

/// Whether an operation shuts the executor down, orderly or at once.
pub fn shuts_down(op: &Op) -> bool
    ensures { result ≡ shuts_down op.now }
{
    matches!(op, Op::Shutdown | Op::ShutdownNow)
}

/// Whether some of these calls shuts the executor down.
fn some_shuts_down(calls: &[Call]) -> bool
    ensures { result ≡ some_shuts_down calls.now }
{
    calls.iter().any(|call| shuts_down(&call.op))
}

/// The calls of a plan in their places, in the order of the text. `Err` is want of memory.
pub fn places_of<'p, A: Allocator, B: Allocator>(
    alloc: A,
    plan: &'p Plan<B>,
) -> Result<Vec<Place<'p>, A>, AllocError>
    ensures { IfOk result (λ v. map place_tree v.items ≡ places_of plan.now) }
{
    let blocks = plan.blocks();
    let mut places = Vec::new(alloc);
    let mut is_shut = false;
    for (number, block) in blocks.iter().enumerate() {
        add_places(&mut places, number, is_shut, block)?;
        is_shut |= some_shuts_down(block.calls());
    }
    Ok(places)
}

/// Puts the calls of a block, which is numbered from 0, behind others. `was_shut` tells whether an earlier block shuts the executor
/// down. `Err` is want of memory.
fn add_places<'p, A: Allocator, B: Allocator>(
    places: &mut Vec<Place<'p>, A>,
    number: usize,
    was_shut: bool,
    block: &'p Block<B>,
) -> Result<(), AllocError>
    requires { number < usize.MAX }
    ensures { IfOk result
        (λ _. map place_tree places.new.items
        ≡ map place_tree places.old.items
        ++ places_in number was_shut block.now [] block.now.calls) }
{
    let calls = block.calls();
    let is_shut_again = is_shut_again(block);
    let mut sub = 0;
    let mut is_shut = was_shut;
    for (call, made) in calls.iter().enumerate() {
        places.push(Place {
            block: number + 1,
            call: call + 1,
            target: Target { block: number, sub },
            is_shut,
            is_shut_again,
            op: &made.op,
        })?;
        sub = submissions_after(sub, &made.op);
        is_shut |= shuts_down(&made.op);
    }
    Ok(())
}

/// Whether a block is made more than once, and has a shutdown.
fn is_shut_again<B: Allocator>(block: &Block<B>) -> bool
    ensures { result ≡ (nat_lt 1 block.now.header.times && some_shuts_down block.now.calls) }
{
    block.times() > 1 && some_shuts_down(block.calls())
}

/// How many submissions there are up to and with an operation.
fn submissions_after(sub: usize, op: &Op) -> usize
    requires { sub < usize.MAX }
    ensures { result ≡ tasks_after sub op.now }
{
    if op.is_submission() { sub + 1 } else { sub }
}
