//! Numbers and policies of words.

use sched_time::Which;

/// The policy that a word sets.
pub fn which_of(word: &str) -> Which {
    match word {
        "set_continue" => Which::Continue,
        "set_execute" => Which::Execute,
        _ => Which::Remove,
    }
}

/// The byte that a number is, and 255 for each that is none.
pub fn byte_of(number: u64) -> u8 {
    u8::try_from(number).unwrap_or(u8::MAX)
}

/// The number of 32 bits that a number is, and the largest for each that is none.
pub fn short_of(number: u64) -> u32 {
    u32::try_from(number).unwrap_or(u32::MAX)
}
