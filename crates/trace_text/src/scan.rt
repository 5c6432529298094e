//! Words and numbers at the front of some bytes.
ghost use Rattle.std.specs.Prelude.{◌≡◌, ◌≢◌, ℕ, ◌^◌, ◌<◌, ◌≤◌, List, ◌++◌, ◌↔◌, IsTrue, MatchOption, length, slice_index, take, drop};
ghost use Rattle.std.specs.Fmt.{decimal};
ghost use Rattle.std.specs.Int.{IsInRange, w32, from_le_bytes};
ghost use Rattle.std.specs.Str.Parse.{AllDigits, digits_value};
ghost use Rattle.trace_text.specs.Reading.{IsRead, IsUnread, EndsNumber, number_then, Below};

/// The code of the digit 0.
const ZERO: u64 = b'0' as u64;

/// What follows `word` at the front of `bytes`. `None` exactly when `bytes` does not begin with it.
#[inline(always)]
pub fn strip<'a>(bytes: &'a [u8], word: &[u8]) -> Option<&'a [u8]>
    ensures { MatchOption result ((rest : List ℕ) → bytes.now ≢ word.now ++ rest)
        (λ rest. bytes.now ≡ word.now ++ rest.now) }
{
    bytes.strip_prefix(word)
}

/// What follows `word`, of 4 bytes or more, at the front of `bytes`. `None` exactly when `bytes` does not begin with it. Its first
/// four are compared at once.
#[inline(always)]
pub fn strip_word<const N: usize>(bytes: &[u8], word: [u8; N]) -> Option<&[u8]>
    requires { 4 ≤ N }
    ensures { MatchOption result ((rest : List ℕ) → bytes.now ≢ word.entry ++ rest)
        (λ rest. bytes.now ≡ word.entry ++ rest.now) }
{
    if bytes.len() < N {
        return None;
    }
    let word = &word[..];
    if first_four(bytes) != first_four(word) {
        return None;
    }
    let Some(rest) = strip(&bytes[4..], &word[4..]) else {
        return None;
    };
    Some(rest)
}

/// What follows `word`, of 4 to 8 bytes, at the front of `bytes`. `None` exactly when `bytes` does not begin with it. Its first
/// four are compared at once, and then its last four: fewer steps than [`strip_word`] takes, and more code.
#[inline(always)]
pub fn strip_short_word<const N: usize>(bytes: &[u8], word: [u8; N]) -> Option<&[u8]>
    requires long { 4 ≤ N }
    requires short { N ≤ 8 }
    ensures { MatchOption result ((rest : List ℕ) → bytes.now ≢ word.entry ++ rest)
        (λ rest. bytes.now ≡ word.entry ++ rest.now) }
{
    if bytes.len() < N {
        return None;
    }
    let word = &word[..];
    if first_four(bytes) != first_four(word) {
        return None;
    }
    if first_four(&bytes[N - 4..]) != first_four(&word[N - 4..]) {
        return None;
    }
    Some(&bytes[N..])
}

/// The first four bytes, as one number.
#[inline(always)]
fn first_four(bytes: &[u8]) -> u32
    requires { 4 ≤ length bytes.now }
    ensures { result ≡ from_le_bytes w32 (take 4 bytes.now) }
{
    let Some(four) = bytes.first_chunk::<4>() else {
        unreachable!();
    };
    u32::from_le_bytes(*four)
}

/// The number, below 2^64, that all digits at the front of `bytes` spell with no leading zero, and what follows it, in one
/// pass. `None` exactly when they spell none.
#[inline(always)]
pub fn split_number(bytes: &[u8]) -> Option<(u64, &[u8])>
    ensures { MatchOption result
        ((n : ℕ) (rest : List ℕ) → n < 2 ^ 64 → EndsNumber rest → bytes.now ≢ decimal n ++ rest)
        (λ r. (bytes.now ≡ decimal r.0 ++ r.1.now) × EndsNumber r.1.now × (r.0 < 2 ^ 64)) }
{
    let mut value = 0u64;
    for i in 0..bytes.len() {
        let digit = u64::from(bytes[i]).wrapping_sub(ZERO);
        if digit > 9 {
            return number_up_to(bytes, i, value);
        }
        if i >= 19 {
            return match twenty_digits(bytes, value) {
                Some(whole) => number_up_to(bytes, 20, whole),
                None => None,
            };
        }
        value = value * 10 + digit;
    }
    number_up_to(bytes, bytes.len(), value)
}

/// The number at the front and what follows it, as [`split_number`] has them. Its loop stays a loop where that one is written
/// out digit by digit: it is the better of the two where a line has several numbers, or long ones.
#[inline(always)]
pub fn split_number_by_loop(bytes: &[u8]) -> Option<(u64, &[u8])>
    ensures { MatchOption result
        ((n : ℕ) (rest : List ℕ) → n < 2 ^ 64 → EndsNumber rest → bytes.now ≢ decimal n ++ rest)
        (λ r. (bytes.now ≡ decimal r.0 ++ r.1.now) × EndsNumber r.1.now × (r.0 < 2 ^ 64)) }
{
    let most = bytes.len().min(19);
    let mut value = 0u64;
    for i in 0..most {
        let digit = u64::from(bytes[i]).wrapping_sub(ZERO);
        if digit > 9 {
            return number_up_to(bytes, i, value);
        }
        value = value * 10 + digit;
    }
    if !has_digit_at(bytes, most) {
        return number_up_to(bytes, most, value);
    }
    match twenty_digits(bytes, value) {
        Some(whole) => number_up_to(bytes, 20, whole),
        None => None,
    }
}

/// The number of the `end` digits at the front, whose value is `value`, and what follows them.
#[inline(always)]
fn number_up_to(bytes: &[u8], end: usize, value: u64) -> Option<(u64, &[u8])>
    requires within { end ≤ length bytes.now }
    requires digits { AllDigits 10 (take end bytes.now) }
    requires value { value ≡ digits_value 10 (take end bytes.now) }
    requires ends { EndsNumber (drop end bytes.now) }
    ensures { MatchOption result
        ((n : ℕ) (rest : List ℕ) → n < 2 ^ 64 → EndsNumber rest → bytes.now ≢ decimal n ++ rest)
        (λ r. (bytes.now ≡ decimal r.0 ++ r.1.now) × EndsNumber r.1.now × (r.0 < 2 ^ 64)) }
{
    if end == 0 {
        return None;
    }
    if bytes[0] == b'0' && end > 1 {
        return None;
    }
    Some((value, &bytes[end..]))
}

/// The number of the 20 digits at the front, below 2^64, where the first 19 have the value `value`. `None` where it is greater,
/// and where a further digit follows.
#[cold]
fn twenty_digits(bytes: &[u8], value: u64) -> Option<u64>
    requires within { 20 ≤ length bytes.now }
    requires digits { AllDigits 10 (take 20 bytes.now) }
    requires value { value ≡ digits_value 10 (take 19 bytes.now) }
    ensures { MatchOption result
        ((n : ℕ) (rest : List ℕ) → n < 2 ^ 64 → EndsNumber rest → bytes.now ≢ decimal n ++ rest)
        (λ whole. (whole ≡ digits_value 10 (take 20 bytes.now)) × EndsNumber (drop 20 bytes.now)) }
{
    if has_digit_at(bytes, 20) {
        return None;
    }
    let Some(tens) = value.checked_mul(10) else {
        return None;
    };
    let Some(whole) = tens.checked_add((bytes[19] - b'0') as u64) else {
        return None;
    };
    Some(whole)
}

/// Whether a digit stands at `at`.
fn has_digit_at(bytes: &[u8], at: usize) -> bool
    ensures { IsTrue result ↔ IsInRange 48 57 (slice_index bytes.now at) }
{
    at < bytes.len() && bytes[at] >= b'0' && bytes[at] <= b'9'
}

/// The number at the front, below 2^64, and what follows the word behind it. The word is not empty and begins with no digit.
/// `None` exactly when they are not there.
#[inline(always)]
pub fn number_before<'a>(bytes: &'a [u8], word: &[u8]) -> Option<(u64, &'a [u8])>
    requires plain { EndsNumber word.now }
    requires some { 0 < length word.now }
    ensures { MatchOption result (IsUnread (number_then word.now) (Below (2 ^ 64)) bytes.now)
        (λ r. IsRead (number_then word.now) (Below (2 ^ 64)) bytes.now r.0 r.1.now) }
{
    let Some((number, rest)) = split_number_by_loop(bytes) else {
        return None;
    };
    let Some(rest) = strip(rest, word) else {
        return None;
    };
    Some((number, rest))
}

/// The code or task at the front, below 2^32, and what follows the word behind it, as [`number_before`] has it.
#[inline(always)]
pub fn code_before<'a>(bytes: &'a [u8], word: &[u8]) -> Option<(u32, &'a [u8])>
    requires plain { EndsNumber word.now }
    requires some { 0 < length word.now }
    ensures { MatchOption result (IsUnread (number_then word.now) (Below (2 ^ 32)) bytes.now)
        (λ r. IsRead (number_then word.now) (Below (2 ^ 32)) bytes.now r.0 r.1.now) }
{
    let Some((number, rest)) = number_before(bytes, word) else {
        return None;
    };
    if number > u32::MAX as u64 {
        return None;
    }
    Some((number as u32, rest))
}

/// The number and what follows the word behind it, as [`number_before`] has them: for a word of 4 to 8 bytes, which is looked
/// for by [`strip_short_word`].
#[inline(always)]
pub fn number_before_short_word<const N: usize>(bytes: &[u8], word: [u8; N]) -> Option<(u64, &[u8])>
    requires plain { EndsNumber word }
    requires long { 4 ≤ N }
    requires short { N ≤ 8 }
    ensures { MatchOption result (IsUnread (number_then word.entry) (Below (2 ^ 64)) bytes.now)
        (λ r. IsRead (number_then word.entry) (Below (2 ^ 64)) bytes.now r.0 r.1.now) }
{
    let Some((number, rest)) = split_number_by_loop(bytes) else {
        return None;
    };
    let Some(rest) = strip_short_word(rest, word) else {
        return None;
    };
    Some((number, rest))
}

/// The code or task and what follows the word behind it, as [`code_before`] has them: for a word of 4 to 8 bytes.
#[inline(always)]
pub fn code_before_short_word<const N: usize>(bytes: &[u8], word: [u8; N]) -> Option<(u32, &[u8])>
    requires plain { EndsNumber word }
    requires long { 4 ≤ N }
    requires short { N ≤ 8 }
    ensures { MatchOption result (IsUnread (number_then word.entry) (Below (2 ^ 32)) bytes.now)
        (λ r. IsRead (number_then word.entry) (Below (2 ^ 32)) bytes.now r.0 r.1.now) }
{
    let Some((code, rest)) = number_before_short_word(bytes, word) else {
        return None;
    };
    if code > u32::MAX as u64 {
        return None;
    }
    Some((code as u32, rest))
}

/// The worker at the front, below 2^8, and what follows the word behind it, as [`number_before`] has it.
#[inline(always)]
pub fn worker_before<'a>(bytes: &'a [u8], word: &[u8]) -> Option<(u8, &'a [u8])>
    requires plain { EndsNumber word.now }
    requires some { 0 < length word.now }
    ensures { MatchOption result (IsUnread (number_then word.now) (Below (2 ^ 8)) bytes.now)
        (λ r. IsRead (number_then word.now) (Below (2 ^ 8)) bytes.now r.0 r.1.now) }
{
    let Some((number, rest)) = number_before(bytes, word) else {
        return None;
    };
    if number > u8::MAX as u64 {
        return None;
    }
    Some((number as u8, rest))
}

/// The worker and what follows the word behind it, as [`worker_before`] has them: for a word of 4 to 8 bytes.
#[inline(always)]
pub fn worker_before_short_word<const N: usize>(bytes: &[u8], word: [u8; N]) -> Option<(u8, &[u8])>
    requires plain { EndsNumber word }
    requires long { 4 ≤ N }
    requires short { N ≤ 8 }
    ensures { MatchOption result (IsUnread (number_then word.entry) (Below (2 ^ 8)) bytes.now)
        (λ r. IsRead (number_then word.entry) (Below (2 ^ 8)) bytes.now r.0 r.1.now) }
{
    let Some((worker, rest)) = number_before_short_word(bytes, word) else {
        return None;
    };
    if worker > u8::MAX as u64 {
        return None;
    }
    Some((worker as u8, rest))
}
