//! The operations of a call, by their words.

ghost use Rattle.std.specs.Prelude.{◌≡◌};
ghost use Rattle.plan_read.specs.Keys.{verb_of_word};

/// What a call asks for, as the word of its `op` says.
#[derive(Clone, Copy, PartialEq, Eq)]
pub enum Verb {
    /// A task runs once, after a delay.
    Schedule,
    /// A task runs once, without a delay.
    Execute,
    /// A task runs at a fixed rate.
    Rate,
    /// A task runs with a fixed delay between the end of a run and the next.
    Fixed,
    /// A task is cancelled.
    Cancel,
    /// A policy is set.
    Policy,
    /// The executor is shut down.
    Shutdown,
    /// The executor is shut down at once.
    ShutdownNow,
    /// The executor is asked how it stands.
    Ask,
}

impl Verb {
    /// The operation that a word names, if it names one.
    pub fn of_word(word: &str) -> Option<Verb>
        ensures { result ≡ verb_of_word word.now }
    {
        match word {
            "schedule" => Some(Verb::Schedule),
            "execute" => Some(Verb::Execute),
            "rate" => Some(Verb::Rate),
            "fixed" => Some(Verb::Fixed),
            "cancel" => Some(Verb::Cancel),
            "policy" => Some(Verb::Policy),
            "shutdown" => Some(Verb::Shutdown),
            "shutdown_now" => Some(Verb::ShutdownNow),
            "ask" => Some(Verb::Ask),
            _ => None,
        }
    }
}
