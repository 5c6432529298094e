//! Why a trace breaks, in words.

use crate::told::{Lines, Numbers};
use executor_model::{Line, Message};
use line_reasons::{FileName, LineFault, Quoted};
use std::alloc::Allocator;
use std::fmt;

/// Why a text is no whole trace of a plan: the line at which it breaks, what stands there, and what could have.
///
/// It prints as one line without its newline:
/// `line 3, "5 start 0 idle": breaks; "5 start 0 task 0 run 0 due 5" could stand here`.
#[derive(Debug, Drop)]
pub struct TraceReason<'t, A: Allocator> {
    /// The number of the line at which the text breaks, counted from 1.
    pub line: u64,
    /// The line that stands there, with its newline where it has one; none where the text ends before it.
    pub found: Option<&'t [u8]>,
    /// Why it cannot be read; none where it can, or where the text ends.
    pub fault: Option<LineFault<'t>>,
    /// Lines that could stand there, at most three.
    pub lines: Vec<Line, A>,
    /// The numbers of workers with which the text conforms, in ascending order.
    pub workers: Vec<u8, A>,
}

impl<'t, A: Allocator> TraceReason<'t, A> {
    /// The reason with a file's name before it, as `trace.txt:3: "5 start 0 idle": ..`.
    pub fn in_file(self, file: &'t str) -> InFile<'t, A> {
        InFile { file, reason: self }
    }

    /// Writes what stands there.
    fn write_found<W: fmt::Write>(&self, f: &mut fmt::Formatter<W>) -> fmt::Result {
        match self.found {
            Some(line) => write!(f, "{}", Quoted(line.strip_suffix(b"\n").unwrap_or(line))),
            None => f.write_str("the text ends"),
        }
    }

    /// Writes what is wrong, and what is wanted.
    fn write_wrong<W: fmt::Write>(&self, f: &mut fmt::Formatter<W>) -> fmt::Result {
        match &self.fault {
            Some(fault) => write!(f, ": {fault}")?,
            None => f.write_str(": breaks")?,
        }
        match self.lines.as_slice() {
            [] => {}
            [line] if is_end(line) => write!(f, "; {} is wanted", Lines(&self.lines))?,
            _ => write!(f, "; {} could stand here", Lines(&self.lines))?,
        }
        if !self.workers.is_empty() {
            write!(f, "; conforms with --workers {}", Numbers(&self.workers))?;
        }
        Ok(())
    }
}

impl<A: Allocator> fmt::Display for TraceReason<'_, A> {
    fn fmt<W: fmt::Write>(&self, f: &mut fmt::Formatter<W>) -> fmt::Result {
        let line = self.line;
        write!(f, "line {line}, ")?;
        self.write_found(f)?;
        self.write_wrong(f)
    }
}

/// Whether a line ends a task: then it is owed, and no other one could stand.
fn is_end(line: &Line) -> bool {
    matches!(line.message(), Message::End(_))
}

/// A reason with a file's name before it, as `trace.txt:3: "5 start 0 idle": ..`.
#[derive(Drop)]
pub struct InFile<'t, A: Allocator> {
    file: &'t str,
    reason: TraceReason<'t, A>,
}

impl<A: Allocator> fmt::Display for InFile<'_, A> {
    fn fmt<W: fmt::Write>(&self, f: &mut fmt::Formatter<W>) -> fmt::Result {
        let line = self.reason.line;
        write!(f, "{}:{line}: ", FileName(self.file))?;
        self.reason.write_found(f)?;
        self.reason.write_wrong(f)
    }
}
