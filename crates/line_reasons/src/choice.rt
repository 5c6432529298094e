//! Words of which one is wanted.

use std::fmt;

/// Some words of which one is wanted.
///
/// It prints as `one of clock, start, finish, cancel`.
#[derive(Clone, Copy, Debug, PartialEq, Eq)]
pub enum Choice {
    /// The word that an event's line begins with.
    Event,
    /// How a run ended.
    Ending,
    /// The word that a line of a live run begins with.
    LiveLine,
    /// The word behind `call`.
    Call,
    /// The policy that a call sets.
    Policy,
    /// What it is set to.
    Truth,
}

/// The words that events' lines begin with.
const EVENTS: &[&str] = &["clock", "start", "finish", "cancel"];

/// The words of how a run ended.
const ENDINGS: &[&str] = &["ok", "fail"];

/// The words that lines of a live run begin with.
const LIVE_LINES: &[&str] = &["clock", "start", "finish", "cancel", "call"];

/// The words behind `call`.
const CALLS: &[&str] = &[
    "schedule",
    "execute",
    "rate",
    "fixed",
    "cancel",
    "policy",
    "shutdown",
    "shutdown_now",
    "ask",
];

/// The words of policies.
const POLICIES: &[&str] = &["continue", "execute", "remove"];

/// The words of what a policy is set to.
const TRUTHS: &[&str] = &["true", "false"];

impl Choice {
    /// What one of the words is.
    pub fn name(self) -> &'static str {
        match self {
            Choice::Event => "event",
            Choice::Ending => "ending",
            Choice::LiveLine => "event or call",
            Choice::Call => "call",
            Choice::Policy => "policy",
            Choice::Truth => "value",
        }
    }

    /// The words.
    pub fn words(self) -> &'static [&'static str] {
        match self {
            Choice::Event => EVENTS,
            Choice::Ending => ENDINGS,
            Choice::LiveLine => LIVE_LINES,
            Choice::Call => CALLS,
            Choice::Policy => POLICIES,
            Choice::Truth => TRUTHS,
        }
    }
}

impl fmt::Display for Choice {
    fn fmt<W: fmt::Write>(&self, f: &mut fmt::Formatter<W>) -> fmt::Result {
        let mut before = "one of ";
        for word in self.words() {
            write!(f, "{before}{word}")?;
            before = ", ";
        }
        Ok(())
    }
}
