//! The sum at the end of a snapshot.
ghost use Rattle.std.specs.Prelude.{◌≡◌, take};
ghost use Rattle.snapshot_text.specs.Sums.{sum_from, sum_of};

/// What a sum is multiplied by at each byte.
const FACTOR: u64 = 6_364_136_223_846_793_005;

/// The sum of no bytes.
pub const FIRST: u64 = 1;

/// The sum of bytes that stand behind a text with this sum.
pub fn add_to_sum(so_far: u64, bytes: &[u8]) -> u64
    ensures { result ≡ sum_from so_far bytes.now }
{
    let mut sum = so_far;
    for i in 0..bytes.len() {
        sum = sum.wrapping_mul(FACTOR).wrapping_add(u64::from(bytes[i]));
    }
    sum
}
