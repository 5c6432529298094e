ghost use Rattle.std.specs.Prelude.{◌≡◌};

use crate::ends::Sink;
use crate::fault_counts::FaultCounts;
use std::io;
use std::io::Write;
use std::marker::Model;

/// A sink out of any writer. Contracts see the writer and the two counts.
#[derive(Drop)]
pub struct Writing<W: Write> {
    inner: W,
    counts: FaultCounts,
}

impl<W: Write> Model for Writing<W> {
    ghost use Rattle.byte_ends.specs.Ends.{Counted};

    ghost Value = { Counted W };

    ghost view = { λ s. record { end = s.inner; failed = s.counts.failed; fruitless = s.counts.fruitless } };
}

impl<W: Write> Writing<W> {
    /// Counts from 0.
    pub fn new(inner: W) -> Writing<W>
        ensures { result ≡ record { end = inner; failed = 0; fruitless = 0 } }
    {
        Writing {
            inner,
            counts: FaultCounts::new(),
        }
    }

    /// The writer. Nothing is flushed.
    pub fn into_inner(self) -> W
        ensures { result ≡ self.end }
    {
        self.inner
    }
}

impl<W: Write> Sink for Writing<W> {
    ghost contents = { λ s. W.contents s.end };

    ghost failed = { λ s. s.failed };

    ghost fruitless = { λ s. s.fruitless };

    fn write(&mut self, buf: &[u8]) -> io::Result<usize> {
        let outcome = self.inner.write(buf);
        match &outcome {
            Ok(0) if !buf.is_empty() => self.counts.count_failed(),
            Ok(_) => {}
            Err(fault) => self.counts.count_fault(fault),
        }
        outcome
    }
}
