//! What stands between entries that are due at one moment.
ghost use Rattle.std.specs.Prelude.{◌≡◌, ℕ, ◌+◌, ◌*◌, ◌^◌, ◌<◌};
ghost use Rattle.delay_queue.specs.slots.Entries.{seen, is_before};

use crate::slots::entry::Entry;

/// A rank: what stands between entries that are due at one moment.
///
/// Each kind of rank compares two entries by itself, so that none pays for what another one needs.
pub trait Rank: Copy {
    /// The number that a rank stands for.
    ghost rank: { Self → ℕ };

    /// Whether the first entry comes before the second: the earlier moment first, at the same moment the lower rank, and
    /// at the same rank the smaller slot number.
    fn is_before(one: &Entry<Self>, other: &Entry<Self>) -> bool
        ensures { result ≡ is_before (seen rank one.now) (seen rank other.now) };
}

/// No rank: entries that are due at one moment leave by slot number. It takes no room.
#[derive(Clone, Copy, Debug, PartialEq, Eq, PartialOrd, Ord)]
pub struct NoRank {}

impl Rank for NoRank {
    ghost rank = { λ _. 0 };

    fn is_before(one: &Entry<NoRank>, other: &Entry<NoRank>) -> bool
        ensures { result ≡ is_before (seen (λ _. 0) one.now) (seen (λ _. 0) other.now) }
    {
        place_in_line(one) < place_in_line(other)
    }
}

/// The due moment of an entry without a rank, and behind it its slot, as one number: so both are compared at once.
#[inline(always)]
fn place_in_line(entry: &Entry<NoRank>) -> u128
    ensures place { result ≡ entry.now.due * 2 ^ 64 + entry.now.slot }
    ensures within { entry.now.slot < 2 ^ 32 }
{
    u128::from(entry.due) * (1 << 64) + u128::from(entry.slot)
}

/// A number: the lower one leaves first.
impl Rank for u64 {
    ghost rank = { λ number. number };

    fn is_before(one: &Entry<u64>, other: &Entry<u64>) -> bool
        ensures { result
            ≡ is_before (seen (λ number. number) one.now) (seen (λ number. number) other.now) }
    {
        if one.due != other.due {
            return one.due < other.due;
        }
        one.rank < other.rank || (one.rank == other.rank && one.slot < other.slot)
    }
}
