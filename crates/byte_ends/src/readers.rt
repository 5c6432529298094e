ghost use Rattle.std.specs.Prelude.{◌≡◌};

use crate::ends::Source;
use crate::fault_counts::FaultCounts;
use std::io;
use std::io::Read;
use std::marker::Model;

/// A source out of any reader. Contracts see the reader and the two counts.
#[derive(Drop)]
pub struct Reading<R: Read> {
    inner: R,
    counts: FaultCounts,
}

impl<R: Read> Model for Reading<R> {
    ghost use Rattle.byte_ends.specs.Ends.{Counted};

    ghost Value = { Counted R };

    ghost view = { λ s. record { end = s.inner; failed = s.counts.failed; fruitless = s.counts.fruitless } };
}

impl<R: Read> Reading<R> {
    /// Counts from 0.
    pub fn new(inner: R) -> Reading<R>
        ensures { result ≡ record { end = inner; failed = 0; fruitless = 0 } }
    {
        Reading {
            inner,
            counts: FaultCounts::new(),
        }
    }

    /// The reader.
    pub fn into_inner(self) -> R
        ensures { result ≡ self.end }
    {
        self.inner
    }
}

impl<R: Read> Source for Reading<R> {
    ghost remaining = { λ s. R.remaining s.end };

    ghost failed = { λ s. s.failed };

    ghost fruitless = { λ s. s.fruitless };

    fn read(&mut self, buf: &mut [u8]) -> io::Result<usize> {
        let outcome = self.inner.read(buf);
        if let Err(fault) = &outcome {
            self.counts.count_fault(fault);
        }
        outcome
    }
}
