//! The names of the keys of a plan's tables, by their words.

ghost use Rattle.std.specs.Prelude.{◌≡◌, ◌<◌};
ghost use Rattle.plan_read.specs.own.Rows.{key_of_word, place};

/// The name of a key, in the order of the table of keys.
#[derive(Clone, Copy)]
pub enum KeyName {
    Version,
    Block,
    Op,
    At,
    AtUnit,
    Unit,
    Times,
    Every,
    EveryUnit,
    Call,
    Name,
    First,
    FirstUnit,
    Delay,
    DelayUnit,
    Period,
    PeriodUnit,
    Which,
    Value,
}

impl KeyName {
    /// The name that a word is, if it is one. The keys of calls are tried first.
    pub fn of_word(word: &str) -> Option<KeyName>
        ensures { result ≡ key_of_word word.now }
    {
        match word {
            "op" => Some(KeyName::Op),
            "at" => Some(KeyName::At),
            "name" => Some(KeyName::Name),
            "delay" => Some(KeyName::Delay),
            "first" => Some(KeyName::First),
            "period" => Some(KeyName::Period),
            "which" => Some(KeyName::Which),
            "value" => Some(KeyName::Value),
            "version" => Some(KeyName::Version),
            "block" => Some(KeyName::Block),
            "unit" => Some(KeyName::Unit),
            "times" => Some(KeyName::Times),
            "every" => Some(KeyName::Every),
            "call" => Some(KeyName::Call),
            "at_unit" => Some(KeyName::AtUnit),
            "every_unit" => Some(KeyName::EveryUnit),
            "delay_unit" => Some(KeyName::DelayUnit),
            "first_unit" => Some(KeyName::FirstUnit),
            "period_unit" => Some(KeyName::PeriodUnit),
            _ => None,
        }
    }

    /// The place of the name among all, from 0 to 18.
    pub fn place(self) -> usize
        ensures value { result ≡ place self }
        ensures within { result < 19 }
    {
        self as usize
    }
}
