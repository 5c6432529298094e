//! Words that would be numbers.

ghost use Rattle.std.specs.Prelude.{◌≡◌, ◌^◌, ◌≤◌, ◌↔◌, None, Some, IsTrue, MatchOption, Contains, length, take, drop};
ghost use Rattle.std.specs.Str.Parse.{AllDigits, IsNumeral, digits_value};
ghost use Rattle.trace_text.specs.Reading.{EndsNumber};
ghost use Rattle.line_reasons.specs.declared.number.NumberFault.{NumberFault};
ghost use Rattle.line_reasons.specs.Numbers.{IsNumber, IsNumberFault, IsBeforeDigit, units};

use std::fmt;

/// The units that stand behind numbers of a plan.
const UNITS: &[&[u8]] = &[b"ns", b"us", b"ms", b"s", b"min", b"h", b"d"];

/// Why a word is no number.
#[derive(Clone, Copy, Debug, PartialEq, Eq)]
pub enum NumberFault {
    /// `+` or `-` stands before its digits.
    Sign,
    /// It begins with 0, and further digits follow.
    LeadingZero,
    /// A unit of time stands behind its digits.
    Unit,
    /// It is above the greatest number that fits.
    TooLarge,
    /// It is none in another way.
    NoNumber,
}

impl fmt::Display for NumberFault {
    fn fmt<W: fmt::Write>(&self, f: &mut fmt::Formatter<W>) -> fmt::Result {
        f.write_str(match self {
            NumberFault::Sign => "sign",
            NumberFault::LeadingZero => "leading zero",
            NumberFault::Unit => "unit",
            NumberFault::TooLarge => "too large",
            NumberFault::NoNumber => "no number",
        })
    }
}

/// Why a word is no decimal number of at most `most`; `None` exactly where it is one.
pub fn number_fault(word: &[u8], most: u64) -> Option<NumberFault>
    ensures fault { MatchOption result (IsNumber most word.now) (IsNumberFault most word.now) }
    ensures none { IsNumber most word.now → result ≡ None }
    ensures some { (why : NumberFault) → IsNumberFault most word.now why → result ≡ Some why }
{
    if is_before_digit(word, b'+') || is_before_digit(word, b'-') {
        return Some(NumberFault::Sign);
    }
    if is_before_digit(word, b'0') {
        return Some(NumberFault::LeadingZero);
    }
    let (digits, behind) = word.split_at(count_digits(word));
    if digits.is_empty() {
        return Some(NumberFault::NoNumber);
    }
    if is_unit(behind) {
        return Some(NumberFault::Unit);
    }
    if !behind.is_empty() {
        return Some(NumberFault::NoNumber);
    }
    match value_of(word) {
        Some(value) if value <= most => None,
        _ => Some(NumberFault::TooLarge),
    }
}

/// Whether a word begins with this byte and a digit behind it.
fn is_before_digit(word: &[u8], byte: u8) -> bool
    ensures { IsTrue result ↔ IsBeforeDigit byte word.now }
{
    word.len() > 1 && word[0] == byte && word[1].is_ascii_digit()
}

/// How many digits stand at the front of a word.
fn count_digits(word: &[u8]) -> usize
    ensures within { result ≤ length word.now }
    ensures digits { AllDigits 10 (take result word.now) }
    ensures ends { EndsNumber (drop result word.now) }
{
    for index in 0..word.len() {
        if !word[index].is_ascii_digit() {
            return index;
        }
    }
    word.len()
}

/// The value of a word that is digits alone, where it is below 2^64.
fn value_of(word: &[u8]) -> Option<u64>
    requires { IsNumeral 10 word.now }
    ensures { MatchOption result (2 ^ 64 ≤ digits_value 10 word.now)
        (λ value. value ≡ digits_value 10 word.now) }
{
    let text = std::str::from_utf8(word).ok()?;
    text.parse::<u64>().ok()
}

/// Whether a word is a unit of time.
pub fn is_unit(word: &[u8]) -> bool
    ensures { IsTrue result ↔ Contains units word.now }
{
    UNITS.contains(&word)
}
