//! The words of a line.

use memchr::memchr;

/// The first of some words, and those behind the space that follows it, where there is one.
pub fn split_word(words: &[u8]) -> (&[u8], Option<&[u8]>) {
    match memchr(b' ', words) {
        Some(at) => (&words[..at], Some(&words[at + 1..])),
        None => (words, None),
    }
}
