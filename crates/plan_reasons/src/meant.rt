//! Which words may be meant by another.

ghost use Rattle.std.specs.Prelude.{All, Any, IfOk, string_bytes};
ghost use Rattle.near_words.specs.Near.{IsNear, IsSameBut};

use near_words::near;
use std::alloc::{AllocError, Global};

/// Those of some words that may be meant by another one, as texts that a reason owns. `Err` is want of memory.
pub fn meant(heap: Global, word: &str, words: &[&str]) -> Result<Vec<String>, AllocError>
    ensures near { IfOk result
        (λ those. All (λ t. IsNear word.now words.now (string_bytes t)) those.items) }
    ensures alone { IfOk result
        (λ those. Any (λ other. IsSameBut word.now other.now) words.now
        → All (λ t. IsSameBut word.now (string_bytes t)) those.items) }
{
    let those = near(heap, word, words)?;
    let mut texts = Vec::with_capacity(heap, those.len())?;
    for other in those.as_slice() {
        texts.push(String::from_str(heap, other)?)?;
    }
    Ok(texts)
}
