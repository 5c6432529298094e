//! Numbers and words at the front of some bytes.
ghost use Rattle.std.specs.Prelude.{◌^◌, ◌<◌, ◌≤◌, ◌≢◌, ◌≡◌, ◌++◌, List, ℕ, MatchOption, length, codes};
ghost use Rattle.trace_text.specs.Reading.{Any, EndsNumber, IsRead, IsUnread};
ghost use Rattle.snapshot_text.specs.Spelling.{FitTwo, flag_text, two_text};

use trace_text::{code_before, number_before, split_truth};

/// What follows a word at the front. `None` exactly when it is not there.
pub fn strip<'a>(bytes: &'a [u8], word: &[u8]) -> Option<&'a [u8]>
    ensures { MatchOption result ((rest : List ℕ) → bytes.now ≢ word.now ++ rest)
        (λ rest. bytes.now ≡ word.now ++ rest.now) }
{
    bytes.strip_prefix(word)
}

/// Two numbers, each behind its word, and what follows the word behind them. `None` exactly when they are not there.
pub fn split_two<'a>(
    bytes: &'a [u8],
    one: &[u8],
    other: &[u8],
    last: &[u8],
) -> Option<((u64, u64), &'a [u8])>
    requires other { EndsNumber other.now × (0 < length other.now) }
    requires last { EndsNumber last.now × (0 < length last.now) }
    ensures { MatchOption result
        (IsUnread (two_text one.now other.now last.now) (FitTwo (2 ^ 64) (2 ^ 64)) bytes.now)
        (λ r. IsRead (two_text one.now other.now last.now) (FitTwo (2 ^ 64) (2 ^ 64)) bytes.now r.0
        r.1.now) }
{
    let Some(rest) = strip(bytes, one) else {
        return None;
    };
    let Some((first, rest)) = number_before(rest, other) else {
        return None;
    };
    let Some((second, rest)) = number_before(rest, last) else {
        return None;
    };
    Some(((first, second), rest))
}

/// Whether something is so, behind its word, to the newline, and what follows it. `None` exactly when it is not there.
pub fn split_flag<'a>(bytes: &'a [u8], word: &[u8]) -> Option<(bool, &'a [u8])>
    ensures { MatchOption result (IsUnread (flag_text word.now) Any bytes.now)
        (λ r. IsRead (flag_text word.now) Any bytes.now r.0 r.1.now) }
{
    let Some(rest) = strip(bytes, word) else {
        return None;
    };
    let Some((value, rest)) = split_truth(rest) else {
        return None;
    };
    Some((value, rest))
}
