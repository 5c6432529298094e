//! A law on the limits, in a function that does nothing.

ghost use Rattle.std.specs.Prelude.{◌≡◌};
ghost use Rattle.plan_read.specs.Plans.{most_block_calls, most_blocks, most_calls};

use crate::limits::{MOST_BLOCK_CALLS, MOST_BLOCKS, MOST_CALLS};

/// The most blocks and the most calls, of a block and in all, that reasons tell are those by which plans are read.
pub fn limits_agree()
    ensures blocks { MOST_BLOCKS ≡ most_blocks }
    ensures block_calls { MOST_BLOCK_CALLS ≡ most_block_calls }
    ensures calls { MOST_CALLS ≡ most_calls }
{}
