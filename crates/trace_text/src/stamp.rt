//! The digits of a moment, kept for the lines that tell of it one after the other.
ghost use Rattle.std.specs.Prelude.{◌≡◌, ◌+◌, ◌≤◌, length, take};
ghost use Rattle.std.specs.Fmt.{decimal};
ghost use Rattle.trace_text.specs.Writing.{Puts};
ghost use Rattle.trace_text.specs.own.Spelling.{HaveDigits};

use crate::put::{put_number, put_text};
use itoa::write_digits;
use std::marker::Model;

/// How many bytes a stamp is put as: its digits, and others that are lost.
const STAMP_BYTES: usize = 24;

/// A moment, in nanoseconds, with its digits. Lines in a row often tell of one moment: then its digits are found once and copied.
/// Contracts see the moment.
#[derive(Drop)]
pub struct Stamp {
    moment: u64,
    digits: [u8; STAMP_BYTES],
    count: usize,
    /// The least number of those that are known to have as many digits, and the one behind the greatest: none, where it is not
    /// above.
    least: u64,
    behind: u64,
}

impl Model for Stamp {
    ghost use Rattle.std.specs.Prelude.{◌≡◌, ◌≤◌, ℕ, take};
    ghost use Rattle.std.specs.Fmt.{decimal};
    ghost use Rattle.trace_text.specs.own.Spelling.{HaveDigits};

    ghost Value = { ℕ };

    ghost view = { λ s. s.moment };

    ghost invariant = { λ s. (s.count ≤ 20) × (take s.count s.digits ≡ decimal s.moment)
        × HaveDigits s.count s.least s.behind };
}

impl Stamp {
    /// The stamp of a moment.
    pub fn new(moment: u64) -> Stamp
        ensures { result ≡ moment }
    {
        let mut digits = [0; STAMP_BYTES];
        let count = put_number(&mut digits, 0, moment);
        Stamp {
            moment,
            digits,
            count,
            least: 0,
            behind: 0,
        }
    }

    /// Changes to another moment, where it is another.
    #[inline(always)]
    fn turn_to(&mut self, moment: u64)
        ensures { self.new ≡ moment }
    {
        if self.moment == moment {
            return;
        }
        if self.least <= moment && moment < self.behind {
            write_digits(moment, &mut self.digits, self.count);
            self.moment = moment;
        } else {
            self.turn_far(moment);
        }
    }

    /// Changes to a moment that may have more digits, or fewer.
    #[cold]
    fn turn_far(&mut self, moment: u64)
        ensures { self.new ≡ moment }
    {
        let count = put_number(&mut self.digits, 0, moment);
        (self.least, self.behind) = numbers_with(count);
        self.count = count;
        self.moment = moment;
    }

    /// Changes to this moment, and puts its digits as [`Stamp::put`] does.
    #[inline(always)]
    pub(crate) fn put_moment(&mut self, buffer: &mut [u8], at: usize, moment: u64) -> usize
        requires { at + 24 ≤ length buffer.old }
        ensures end { result ≤ at + 20 }
        ensures put { Puts (take at buffer.old) (take result buffer.new) (decimal moment) }
        ensures stamp { self.new ≡ moment }
    {
        self.turn_to(moment);
        self.put(buffer, at)
    }

    /// Puts the digits of the moment at `at`, and returns where they end. There has to be room for 24 bytes, however many there
    /// are.
    #[inline(always)]
    fn put(&self, buffer: &mut [u8], at: usize) -> usize
        requires { at + 24 ≤ length buffer.old }
        ensures end { result ≤ at + 20 }
        ensures put { Puts (take at buffer.old) (take result buffer.new) (decimal self.now) }
    {
        put_text(buffer, at, self.digits);
        at + self.count
    }
}

/// The least number that has so many digits, 2 to 19, and the one behind the greatest; of another count none, as 0 and 0.
fn numbers_with(count: usize) -> (u64, u64)
    ensures { HaveDigits count result.0 result.1 }
{
    if count < 2 || count > 19 {
        return (0, 0);
    }
    let least = 10u64.pow(count as u32 - 1);
    (least, least * 10)
}
