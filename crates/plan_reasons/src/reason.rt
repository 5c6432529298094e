//! Why a text is no plan, in words.

use crate::found::Found;
use crate::spelled::KeyName;
use crate::wanted::Wanted;
use near_words::FileName;
use plan_read::{PlanFault, PlanFaultKind};
use std::fmt;

/// Why a text is no plan: its fault, with what stands there and what is wanted.
///
/// It prints as one line without its newline and without the line of the text: `block 2, call 1, op = "sched": no such op; one of
/// ..`.
#[derive(Debug, Drop)]
pub struct Reason {
    pub fault: PlanFault,
    /// The line of the text, counted from 1, where it can be told.
    pub line: Option<usize>,
    /// The column in that line, counted from 1, where the text is no TOML document.
    pub column: Option<usize>,
    /// The key that the fault is at.
    pub key: Option<String>,
    pub found: Found,
    pub wanted: Wanted,
}

impl Reason {
    /// The reason with a file's name and its line before it, as `plan.toml:12: block 2, ..`.
    pub fn in_file<'r>(&'r self, file: &'r str) -> InFile<'r> {
        InFile { file, reason: self }
    }

    /// What is wrong with a value: that its text is none of the words that are wanted, or that it is of another type.
    fn no_such_value(&self) -> &'static str {
        match (&self.found, &self.wanted, &self.key) {
            (Found::Text(_), Wanted::OneOf(_), Some(key)) if key.as_str() == "op" => "no such op",
            (Found::Text(_), Wanted::OneOf(_), _) => "no such policy",
            _ => "of the wrong type",
        }
    }

    /// What is wrong with a version.
    fn no_version(&self) -> &'static str {
        match self.found {
            Found::Nothing => "missing",
            Found::Integer(_) => "no such version",
            _ => "of the wrong type",
        }
    }

    /// What is wrong, in a few words.
    fn complaint(&self) -> &'static str {
        match self.fault.kind {
            PlanFaultKind::TooLong => "too long",
            PlanFaultKind::Toml => "no TOML document",
            PlanFaultKind::Version => self.no_version(),
            PlanFaultKind::UnknownKey => "no such key",
            PlanFaultKind::Missing => "missing",
            PlanFaultKind::WrongType => self.no_such_value(),
            PlanFaultKind::BadUnit => "no such unit",
            PlanFaultKind::BadTimes => "out of range",
            PlanFaultKind::Negative => "negative",
            PlanFaultKind::BadName => "not a name",
            PlanFaultKind::DuplicateName => "given before",
            PlanFaultKind::UnknownName => "no such name",
            PlanFaultKind::Ambiguous => "ambiguous",
            PlanFaultKind::OutOfOrder => "out of order",
            PlanFaultKind::TooLarge => "too large",
            PlanFaultKind::TooMany => "too many",
            PlanFaultKind::Memory => "out of memory",
        }
    }

    /// Writes the block and the call.
    fn write_place<W: fmt::Write>(&self, f: &mut fmt::Formatter<W>) -> fmt::Result {
        let PlanFault { block, call, .. } = self.fault;
        if block > 0 {
            write!(f, "block {block}")?;
        }
        if call > 0 {
            write!(f, ", call {call}")?;
        }
        Ok(())
    }

    /// Writes the key and what stands there.
    fn write_found<W: fmt::Write>(&self, f: &mut fmt::Formatter<W>) -> fmt::Result {
        let found = &self.found;
        match (&self.key, found) {
            (Some(key), Found::Nothing) => write!(f, "{}", KeyName(key.as_str())),
            (Some(key), _) => write!(f, "{} = {found}", KeyName(key.as_str())),
            (None, Found::Nothing) => Ok(()),
            (None, _) => write!(f, "{found}"),
        }
    }
}

impl fmt::Display for Reason {
    fn fmt<W: fmt::Write>(&self, f: &mut fmt::Formatter<W>) -> fmt::Result {
        self.write_place(f)?;
        let is_placed = self.fault.block > 0;
        let is_found = self.key.is_some() || !matches!(self.found, Found::Nothing);
        if is_placed && is_found {
            f.write_str(", ")?;
        }
        self.write_found(f)?;
        if is_placed || is_found {
            f.write_str(": ")?;
        }
        f.write_str(self.complaint())?;
        match &self.wanted {
            Wanted::Unsaid => Ok(()),
            wanted => write!(f, "; {wanted}"),
        }
    }
}

/// A reason with a file's name and its line before it.
///
/// It prints as `plan.toml:12: block 2, ..`; a fault of TOML with its column too, as `plan.toml:3:9: ..`, and one whose line
/// cannot be told without, as `plan.toml: ..`.
#[derive(Clone, Copy)]
pub struct InFile<'r> {
    file: &'r str,
    reason: &'r Reason,
}

impl fmt::Display for InFile<'_> {
    fn fmt<W: fmt::Write>(&self, f: &mut fmt::Formatter<W>) -> fmt::Result {
        write!(f, "{}", FileName(self.file))?;
        if let Some(line) = self.reason.line {
            write!(f, ":{line}")?;
        }
        if let Some(column) = self.reason.column {
            write!(f, ":{column}")?;
        }
        let reason = self.reason;
        write!(f, ": {reason}")
    }
}
