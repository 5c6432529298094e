//! Calls that are drawn, made of a queue and of a plain one, which have to answer the same.
use crate::calls::{Answers, Call, Told};
use crate::plain::PlainQueue;
use std::process::Abort;

/// How many calls are drawn, and of how many slots, moments and ranks.
#[derive(Clone, Copy)]
pub(crate) struct Draws {
    pub(crate) calls: u32,
    pub(crate) slots: u32,
    pub(crate) moments: u64,
    pub(crate) ranks: u64,
}

/// A pseudo-random number after another one.
fn next(x: u64) -> u64 {
    let x = x ^ (x << 13);
    let x = x ^ (x >> 7);
    x ^ (x << 17)
}

impl Draws {
    /// The call that a random number stands for, and the slot that it is drawn with.
    fn call(&self, random: u64) -> (Call, u32) {
        let slot = (random >> 32) as u32;
        let slot = slot.checked_rem(self.slots).unwrap_or(0);
        let due = random.checked_rem(self.moments).unwrap_or(0);
        let rank = (random >> 20).checked_rem(self.ranks).unwrap_or(0);
        let call = match (random >> 24) % 4 {
            0 => Call::Poll(due),
            1 => Call::Remove(slot),
            _ => Call::Insert(due, rank, slot),
        };
        (call, slot)
    }
}

/// Draws calls, makes them of a queue and of a plain one, and compares what they answer and how often they touched an
/// entry. Where a slot has no room yet, it gets room in place of the entry.
pub(crate) fn compare(
    rt: &impl Abort,
    queue: &mut impl Answers,
    plain: &mut PlainQueue,
    draws: &Draws,
) {
    let mut random = 88_172_645_463_325_252;
    for place in 0..draws.calls {
        random = next(random);
        let (call, slot) = draws.call(random);
        let told = same(rt, queue, plain, place, &call);
        if told == Told::No && matches!(call, Call::Insert(..)) {
            same(
                rt,
                queue,
                plain,
                place,
                &Call::Reserve(slot.saturating_add(1)),
            );
        }
        look_the_same(rt, queue, plain, place, slot);
    }
}

/// Checks that both are the same in all that can be looked at.
fn look_the_same(
    rt: &impl Abort,
    queue: &mut impl Answers,
    plain: &mut PlainQueue,
    place: u32,
    slot: u32,
) {
    same(rt, queue, plain, place, &Call::Touched);
    same(rt, queue, plain, place, &Call::DueOf(slot));
    same(rt, queue, plain, place, &Call::Peek);
    same(rt, queue, plain, place, &Call::Len);
    same(rt, queue, plain, place, &Call::Slots);
}

/// Makes a call of both, checks that they answer the same, and gives it.
fn same(
    rt: &impl Abort,
    queue: &mut impl Answers,
    plain: &mut PlainQueue,
    place: u32,
    call: &Call,
) -> Told {
    let told = queue.answer(call);
    assert!(rt; told == plain.answer(call), "call {place}");
    told
}
