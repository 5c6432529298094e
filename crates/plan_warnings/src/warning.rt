//! What is odd of a call, in words.

use crate::kinds::{OddCall, WarningKind};
use near_words::FileName;
use plan_read::Name;
use std::fmt;

/// What stands at the key of a warning.
#[derive(Debug, Drop)]
pub enum Stood {
    /// What stands there cannot be told.
    Nothing,
    /// The name of a task.
    Name(Name),
    /// A period or a delay, in the unit of the text.
    Number(i64),
}

/// A call of a plan, numbered from 1 in its block, and that from 1.
#[derive(Clone, Copy, Debug)]
pub struct CallNumber {
    pub block: usize,
    pub call: usize,
}

/// What is odd of a call of a plan.
///
/// It prints as one line without its newline and without the line of the text: `block 2, call 1, name = "a": refused each time;
/// ..`.
#[derive(Debug, Drop)]
pub struct Warning {
    /// The call, and why it is odd.
    pub odd: OddCall,
    /// The line of the key in the text, counted from 1, where it can be told.
    pub line: Option<usize>,
    /// The key that it is about: `period`, `delay` or `name`.
    pub key: &'static str,
    pub stood: Stood,
    /// The first shutdown of the plan, where the executor is shut for the call.
    pub shutdown: Option<CallNumber>,
}

impl Warning {
    /// The warning with a file's name and its line before it, as `plan.toml:12: warning: block 2, ..`.
    pub fn in_file<'w>(&'w self, file: &'w str) -> InFile<'w> {
        InFile {
            file,
            warning: self,
        }
    }

    /// What is odd, in a few words.
    fn complaint(&self) -> &'static str {
        match self.odd.kind {
            WarningKind::Illegal => "not above 0; refused as illegal each time",
            WarningKind::Rejected => "refused each time",
            WarningKind::RejectedAgain => "refused from the second iteration on",
            WarningKind::NothingToCancel => "cancels nothing; its submission is refused each time",
            WarningKind::ShortPeriod => "nanoseconds; no unit is given",
            WarningKind::UnusedName => "no cancel has this name",
        }
    }

    /// Writes the key and what stands there.
    fn write_found<W: fmt::Write>(&self, f: &mut fmt::Formatter<W>) -> fmt::Result {
        let key = self.key;
        match &self.stood {
            Stood::Nothing => f.write_str(key),
            Stood::Name(name) => write!(f, "{key} = \"{}\"", name.as_str()),
            Stood::Number(number) => write!(f, "{key} = {number}"),
        }
    }
}

impl fmt::Display for Warning {
    fn fmt<W: fmt::Write>(&self, f: &mut fmt::Formatter<W>) -> fmt::Result {
        let OddCall { block, call, .. } = self.odd;
        write!(f, "block {block}, call {call}, ")?;
        self.write_found(f)?;
        write!(f, ": {}", self.complaint())?;
        match self.shutdown {
            Some(CallNumber { block, call }) => {
                write!(f, "; block {block}, call {call} shuts the executor down")
            }
            None => Ok(()),
        }
    }
}

/// A warning with a file's name and its line before it.
///
/// It prints as `plan.toml:12: warning: block 2, ..`, and where the line cannot be told as `plan.toml: warning: ..`.
#[derive(Clone, Copy)]
pub struct InFile<'w> {
    file: &'w str,
    warning: &'w Warning,
}

impl fmt::Display for InFile<'_> {
    fn fmt<W: fmt::Write>(&self, f: &mut fmt::Formatter<W>) -> fmt::Result {
        write!(f, "{}", FileName(self.file))?;
        if let Some(line) = self.warning.line {
            write!(f, ":{line}")?;
        }
        let warning = self.warning;
        write!(f, ": warning: {warning}")
    }
}
