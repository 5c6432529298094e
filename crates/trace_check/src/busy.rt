//! Which workers are busy by the lines of a trace, and the representative of a line.
ghost use Rattle.std.specs.Prelude.{◌≡◌, ℕ, ◌<◌, Bool, true, false, not, if◌then◌else◌, slice_index_or, List};
ghost use Rattle.std.specs.List.{range_with_len, find};
ghost use Rattle.trace_check.specs.Representatives.{busy_after, representative_of_error};
ghost use Rattle.trace_check.specs.own.Standing.{TellBusy, most_named, representative_of_message};
ghost use Rattle.executor_model.specs.declared.types.Line.{Line as Told};
ghost use Rattle.executor_model.specs.Said.{message_of};

use executor_model::{EventError, Happening, Said};
use sched_time::{Ending, LONGEST};

/// How many workers a line can name.
const MOST_NAMED: usize = 256;

/// Which workers are busy.
#[derive(Drop)]
pub struct Busy {
    flags: [bool; MOST_NAMED],
    workers: u8,
}

impl Busy {
    /// Of this many workers none is busy.
    pub fn new(workers: u8) -> Busy
        ensures workers { result.workers ≡ workers }
        ensures none { (w : ℕ) → w < most_named → slice_index_or result.flags w false ≡ false }
    {
        Busy {
            flags: [false; MOST_NAMED],
            workers,
        }
    }

    /// Notes what a line says.
    pub fn note(&mut self, said: &Said)
        ensures workers { self.new.workers ≡ self.old.workers }
        ensures flags { (w : ℕ) → w < most_named
            → slice_index_or self.new.flags w false
            ≡ busy_after w (message_of said.now) (slice_index_or self.old.flags w false) }
    {
        match *said {
            Said::Start { worker, .. } => self.flags[worker as usize] = true,
            Said::Done { worker, .. }
            | Said::Failed { worker, .. }
            | Said::Again { worker, .. }
            | Said::Dropped { worker, .. }
            | Said::Ended { worker, .. } => self.flags[worker as usize] = false,
            _ => {}
        }
    }

    /// The worker of least number that is busy, or that is not.
    fn first(&self, wanted: bool) -> Option<u8>
        ensures { (test : ℕ → Bool)
            → ((w : ℕ) → w < most_named
            → test w
            ≡ (if wanted then slice_index_or self.now.flags w false
            else not (slice_index_or self.now.flags w false)))
            → result ≡ find test (range_with_len 0 self.now.workers) }
    {
        let workers = self.workers;
        for w in 0..workers {
            if self.flags[w as usize] == wanted {
                return Some(w);
            }
        }
        prove!(workers <= 255);
        None
    }

    /// A happening that gets what a line says, at its moment. The end of a task, which is no answer, has none.
    pub fn representative(&self, moment: u64, said: &Said) -> Option<Happening>
        ensures { (lines : List Told) → TellBusy self.now.flags lines → result
            ≡ representative_of_message self.now.workers lines moment (message_of said.now) }
    {
        match *said {
            Said::Outside { task, .. } => Some(Happening::Cancel(task)),
            Said::Purge => Some(Happening::Purge),
            Said::Clock => Some(Happening::Clock(moment)),
            Said::Start { worker, .. } | Said::Idle { worker } => Some(Happening::Start(worker)),
            Said::Done { worker, value, .. } => {
                Some(Happening::Finish(worker, Ending::Value(value)))
            }
            Said::Failed { worker, code, .. } => {
                Some(Happening::Finish(worker, Ending::Fault(code)))
            }
            Said::Again { worker, .. }
            | Said::Dropped { worker, .. }
            | Said::Ended { worker, .. } => Some(Happening::Finish(worker, Ending::Value(0))),
            Said::Error(error) => self.representative_of_error(error),
            Said::End(_) => None,
            // Each other answer is that of a call.
            _ => Some(Happening::Call),
        }
    }

    /// An event that gets this error.
    fn representative_of_error(&self, error: EventError) -> Option<Happening>
        ensures { (lines : List Told) → TellBusy self.now.flags lines
            → result ≡ representative_of_error self.now.workers lines error }
    {
        match error {
            EventError::Backward => Some(Happening::Clock(0)),
            EventError::TooFar => Some(Happening::Clock(LONGEST + 1)),
            EventError::NoWorker => Some(Happening::Start(255)),
            EventError::Busy => self.first(true).map(Happening::Start),
            EventError::NotRunning => {
                let worker = self.first(false)?;
                Some(Happening::Finish(worker, Ending::Value(0)))
            }
            EventError::NoTask => Some(Happening::Cancel(4_294_967_295)),
        }
    }
}
