//! What is told of an odd call, from the text of its plan.

ghost use Rattle.std.specs.Prelude.{◌≡◌, IfSome};
ghost use Rattle.toml.specs.View.{table_view};
ghost use Rattle.plan_lines.specs.Lines.{IsLineOf};
ghost use Rattle.plan_warnings.specs.Units.{stays};

use crate::kinds::{OddCall, WarningKind};
use crate::units::{block_at, call_in, has, stays, value_at};
use crate::warning::{CallNumber, Stood, Warning};
use plan_lines::{Place, line_of};
use plan_read::Name;
use plan_read::task_names::is_name;
use toml::{Table, Value};

/// How many bytes of the text are gone over for lines, at most: a text is gone over from its front for each.
const MOST_SCANNED: usize = 16_777_216;

/// What is told of odd calls: the text with its tree, and how much of it may still be gone over.
#[derive(Drop)]
pub struct Scribe<'t> {
    text: &'t [u8],
    tree: &'t Table,
    /// The first shutdown of the plan.
    shutdown: Option<CallNumber>,
    /// How many bytes may still be gone over for lines.
    left: usize,
}

impl<'t> Scribe<'t> {
    /// One that has gone over nothing.
    pub fn new(text: &'t [u8], tree: &'t Table, shutdown: Option<CallNumber>) -> Scribe<'t>
        ensures text { result.text.now ≡ text.now }
        ensures tree { result.tree.now ≡ tree.now }
    {
        Scribe {
            text,
            tree,
            shutdown,
            left: MOST_SCANNED,
        }
    }

    /// Whether something is told of an odd call: not of a short period whose unit stands in the text.
    pub fn tells(&self, odd: OddCall) -> bool
        ensures { result ≡ stays (table_view self.now.tree.now) odd }
    {
        stays(self.tree, &odd)
    }

    /// What is told of an odd call.
    pub fn warning(&mut self, odd: OddCall) -> Warning
        ensures odd { result.odd ≡ odd }
        ensures line { IfSome result.line (IsLineOf self.old.text.now) }
        ensures text { self.new.text.now ≡ self.old.text.now }
        ensures tree { self.new.tree.now ≡ self.old.tree.now }
    {
        let key = self.key(odd);
        Warning {
            odd,
            line: self.line(odd, key),
            key,
            stood: self.stood(odd, key),
            shutdown: self.shutdown_for(odd),
        }
    }

    /// The table of a call of the plan.
    fn table(&self, odd: OddCall) -> Option<&'t Table> {
        call_in(block_at(self.tree, odd.block)?, odd.call)
    }

    /// The key that is told.
    fn key(&self, odd: OddCall) -> &'static str {
        match odd.kind {
            WarningKind::Illegal | WarningKind::ShortPeriod => match self.table(odd) {
                Some(call) if has(call, "period") => "period",
                _ => "delay",
            },
            _ => "name",
        }
    }

    /// What stands at a key of a call.
    fn stood(&self, odd: OddCall, key: &str) -> Stood {
        match self.table(odd) {
            Some(call) => match value_at(call, key) {
                Some(value) => stood_of(value),
                None => Stood::Nothing,
            },
            None => Stood::Nothing,
        }
    }

    /// The first shutdown of the plan, where the executor is shut for a call.
    fn shutdown_for(&self, odd: OddCall) -> Option<CallNumber> {
        match odd.kind {
            WarningKind::Rejected | WarningKind::RejectedAgain => self.shutdown,
            _ => None,
        }
    }

    /// The line of a key of a call, as long as the text may be gone over.
    fn line(&mut self, odd: OddCall, key: &str) -> Option<usize>
        ensures line { IfSome result (IsLineOf self.old.text.now) }
        ensures text { self.new.text.now ≡ self.old.text.now }
        ensures tree { self.new.tree.now ≡ self.old.tree.now }
    {
        if self.left < self.text.len() {
            return None;
        }
        self.left -= self.text.len();
        let OddCall { block, call, .. } = odd;
        line_of(
            self.text,
            Place {
                block,
                call,
                key: Some(key),
            },
        )
    }
}

/// What a value is: the name of a task, or a number.
fn stood_of(value: &Value) -> Stood {
    match value {
        Value::String(text) => match name_of(text.as_str()) {
            Some(name) => Stood::Name(name),
            None => Stood::Nothing,
        },
        Value::Integer(number) => Stood::Number(*number),
        _ => Stood::Nothing,
    }
}

/// The name that a text is, if it is one.
fn name_of(text: &str) -> Option<Name> {
    if is_name(text) {
        Some(Name::new(text))
    } else {
        None
    }
}
