//! Words and numbers that are put at a place of a buffer. What stands before that place stays; what stands behind it is lost.
ghost use Rattle.std.specs.Prelude.{◌≡◌, ℕ, ◌+◌, ◌^◌, ◌<◌, ◌≤◌, length, take};
ghost use Rattle.std.specs.Fmt.{decimal};
ghost use Rattle.trace_text.specs.Writing.{Puts};

use itoa::write_digits;

/// Puts a text of fixed length at `at`, and returns where it ends.
#[inline(always)]
pub fn put_text<const N: usize>(buffer: &mut [u8], at: usize, text: [u8; N]) -> usize
    requires { at + N ≤ length buffer.old }
    ensures end { result ≡ at + N }
    ensures put { Puts (take at buffer.old) (take result buffer.new) text.entry }
{
    for i in 0..N {
        buffer[at + i] = text[i];
    }
    at + N
}

/// Puts the decimal digits of a number at `at`, with no leading zero, and returns where they end. They are at most 20, and
/// there has to be room for 20, however many there are.
#[inline(always)]
pub fn put_number(buffer: &mut [u8], at: usize, n: u64) -> usize
    requires { at + 20 ≤ length buffer.old }
    ensures end { result ≤ at + 20 }
    ensures short { n < 2 ^ 32 → result ≤ at + 10 }
    ensures put { Puts (take at buffer.old) (take result buffer.new) (decimal n) }
{
    if n < 10 {
        return put_text(buffer, at, [b'0' + n as u8]);
    }
    let end = at + digit_count(n);
    write_digits(n, buffer, end);
    end
}

/// How many decimal digits a number has, 1 to 20.
#[inline(always)]
fn digit_count(n: u64) -> usize
    ensures { result ≡ length (decimal n) }
{
    if n < 10_000 {
        return count_from(n, 0, 1);
    }
    if n < 100_000 {
        return 5;
    }
    if n < 100_000_000 {
        return count_from(n, 4, 10_000);
    }
    if n < 1_000_000_000_000 {
        return count_from(n, 8, 100_000_000);
    }
    if n < 10_000_000_000_000_000 {
        return count_from(n, 12, 1_000_000_000_000);
    }
    count_from(n, 16, 10_000_000_000_000_000)
}

/// How many decimal digits a number has that has one to four more than `fewer`. `least` is the least number that has one
/// more, but for 0.
#[inline(always)]
fn count_from(n: u64, fewer: usize, least: u64) -> usize
    requires least { least ≡ 10 ^ fewer }
    requires fewer { fewer ≤ 16 }
    requires low { (0 < fewer) → least ≤ n }
    requires high { n < 10 ^ (fewer + 4) }
    ensures { result ≡ length (decimal n) }
{
    if n < least * 10 {
        return fewer + 1;
    }
    if n < least * 100 {
        return fewer + 2;
    }
    if n < least * 1_000 {
        return fewer + 3;
    }
    fewer + 4
}
