//! The two counts of a wrapper of std's readers and writers.
ghost use Rattle.std.specs.Prelude.{◌≡◌};
ghost use Rattle.std.specs.IoError.{error_kind};
ghost use Rattle.byte_ends.specs.Ends.{CountsFault, OneFailed};

use std::io;
use std::io::ErrorKind;

/// How many calls of an end failed, and how many were fruitless: such as failed by a fault of kind
/// `Interrupted`. Each count stays at its greatest value.
#[derive(Drop)]
pub struct FaultCounts {
    pub failed: u64,
    pub fruitless: u64,
}

impl FaultCounts {
    /// Counts from 0.
    pub fn new() -> FaultCounts
        ensures { result ≡ record { failed = 0; fruitless = 0 } }
    {
        FaultCounts {
            failed: 0,
            fruitless: 0,
        }
    }

    /// Counts a call with this fault.
    #[cold]
    pub fn count_fault(&mut self, fault: &io::Error)
        ensures { CountsFault (error_kind fault.now) self.old.failed self.old.fruitless
            self.new.failed self.new.fruitless }
    {
        if fault.kind() == ErrorKind::Interrupted {
            self.fruitless = self.fruitless.saturating_add(1);
        } else {
            self.count_failed();
        }
    }

    /// Counts a call that failed.
    #[cold]
    pub fn count_failed(&mut self)
        ensures { OneFailed 0 self.old.failed self.old.fruitless self.new.failed
            self.new.fruitless }
    {
        self.failed = self.failed.saturating_add(1);
    }
}
