//! Which words may be meant by another.

ghost use Rattle.std.specs.Prelude.{◌≡◌, ◌≤◌, [], length, All, Any, IfOk, IfSome};
ghost use Rattle.near_words.specs.Near.{IsNear, IsSameBut, edits_between};

use std::alloc::{AllocError, Allocator};
use strsim::levenshtein;

/// How many words at most are told as those that may be meant.
const MOST_NEAR: usize = 3;

/// How many edits at most lead from a word to the one that may be meant.
const MOST_EDITS: usize = 2;

/// Those of some words that may be meant by another one: the first three that are the same but for the case of ASCII letters.
/// Where none is, those to which the fewest edits lead, two at most and no more than half the characters of the longer of the
/// two, and of these the first three. `Err` is want of memory.
pub fn near<'w, A: Allocator + Copy>(
    alloc: A,
    word: &str,
    words: &[&'w str],
) -> Result<Vec<&'w str, A>, AllocError>
    ensures near { IfOk result
        (λ those. All (λ other. IsNear word.now words.now other.now) those.items) }
    ensures alone { IfOk result
        (λ those. Any (λ other. IsSameBut word.now other.now) words.now
        → All (λ other. IsSameBut word.now other.now) those.items) }
    ensures few { IfOk result (λ those. length those.items ≤ 3) }
{
    let those = in_other_case(alloc, word, words)?;
    if those.is_empty() {
        in_few_edits(alloc, word, words)
    } else {
        Ok(those)
    }
}

/// The first three of some words that are the same as another one but for the case of ASCII letters. `Err` is want of memory.
fn in_other_case<'w, A: Allocator + Copy>(
    alloc: A,
    word: &str,
    words: &[&'w str],
) -> Result<Vec<&'w str, A>, AllocError>
    ensures near { IfOk result
        (λ those. All (λ other. IsNear word.now words.now other.now) those.items) }
    ensures same { IfOk result (λ those. All (λ other. IsSameBut word.now other.now) those.items) }
    ensures none { IfOk result
        (λ those. those.items ≡ [] → Any (λ other. IsSameBut word.now other.now) words.now → ⊥) }
    ensures few { IfOk result (λ those. length those.items ≤ 3) }
{
    let mut those = Vec::new(alloc);
    for other in words {
        if those.len() < MOST_NEAR && word.eq_ignore_ascii_case(other) {
            those.push(*other)?;
        }
    }
    Ok(those)
}

/// Those of some words to which the fewest edits lead from another one, two at most, and of these the first three. `Err` is want
/// of memory.
fn in_few_edits<'w, A: Allocator + Copy>(
    alloc: A,
    word: &str,
    words: &[&'w str],
) -> Result<Vec<&'w str, A>, AllocError>
    ensures near { IfOk result
        (λ those. All (λ other. IsNear word.now words.now other.now) those.items) }
    ensures few { IfOk result (λ those. length those.items ≤ 3) }
{
    let mut least = MOST_EDITS;
    let mut those = Vec::new(alloc);
    for other in words {
        let Some(edits) = edits_up_to(alloc, least, word, other)? else {
            continue;
        };
        if edits < least {
            those.clear();
            least = edits;
        }
        if those.len() < MOST_NEAR {
            those.push(*other)?;
        }
    }
    Ok(those)
}

/// How many edits lead from a word to another: characters that are added, left out or changed. None where they are more than
/// `most`, or more than half the characters of the longer one. `Err` is want of memory.
fn edits_up_to<A: Allocator + Copy>(
    alloc: A,
    most: usize,
    word: &str,
    other: &str,
) -> Result<Option<usize>, AllocError>
    ensures edits { IfOk result (λ o. IfSome o (λ n. n ≡ edits_between word.now other.now)) }
    ensures few { IfOk result (λ o. IfSome o (λ n. n ≤ most)) }
{
    let (length, other_length) = (word.chars().count(), other.chars().count());
    let most = most.min(length.max(other_length) / 2);
    if length.abs_diff(other_length) > most {
        return Ok(None);
    }
    let edits = levenshtein(alloc, word, other)?;
    if edits <= most {
        Ok(Some(edits))
    } else {
        Ok(None)
    }
}
