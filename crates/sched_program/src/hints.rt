//! What more is known of a fault than its line tells.

use command_work::Refusal;
use line_reasons::FileName;
use std::alloc::{AllocError, Global};
use std::cell::Cell;
use std::io;

/// What more is known of the last fault, as a line for standard error: which file was not opened, created, read or written, and why; or
/// how many events are taken. Nothing is noted where memory runs out.
#[derive(Drop)]
pub struct Hints {
    heap: Global,
    line: Cell<Option<Refusal>>,
}

impl Hints {
    /// Nothing is known so far.
    pub fn new(heap: Global) -> Hints {
        Hints {
            heap,
            line: Cell::new(None),
        }
    }

    /// Notes why the file of a name was not opened, created, read or written, as `sched: plan.toml: No such file or directory`.
    pub fn note_file(&self, name: &str, fault: &io::Error) {
        self.line.set(self.line_of_file(name, fault).ok());
    }

    /// Notes how many events are taken at most, as `sched: at most 5 events are taken; --limit N takes N`.
    pub fn note_limit(&self, limit: u32) {
        self.line.set(self.line_of_limit(limit).ok());
    }

    /// What was noted last. Nothing is known behind it.
    pub fn take(&self) -> Option<Refusal> {
        self.line.replace(None)
    }

    fn line_of_file(&self, name: &str, fault: &io::Error) -> Result<Refusal, AllocError> {
        let name = FileName(name);
        let told = format!(in self.heap; "sched: {name}: {fault}")?;
        Refusal::new(self.heap, told.as_str())
    }

    fn line_of_limit(&self, limit: u32) -> Result<Refusal, AllocError> {
        let told = format!(in self.heap;
            "sched: at most {limit} events are taken; --limit N takes N"
        )?;
        Refusal::new(self.heap, told.as_str())
    }
}
