//! The versions of a plan, and the words that texts of them have.

ghost use Rattle.std.specs.Prelude.{◌≡◌, ◌↔◌, Some, is_some, pos};
ghost use Rattle.plan_read.specs.Keys.{unit_of_word, which_of_word};
ghost use Rattle.plan_read.specs.declared.versions.Version.TheVariants.{One, Two};
ghost use Rattle.plan_reasons.specs.own.Keys.{plan_version};

use sched_time::Unit;

/// The version of a plan text.
#[derive(Clone, Copy)]
pub enum Version {
    /// A block has one unit for all its times.
    One,
    /// Each time has its own unit.
    Two,
}

impl Version {
    /// The version of this number. One that there is not counts as 2.
    pub fn of_number(number: Option<i64>) -> Version
        ensures { (plan_version result ≡ One) ↔ (number ≡ Some (pos 1)) }
    {
        match number {
            Some(1) => Version::One,
            _ => Version::Two,
        }
    }
}

/// The numbers of versions.
pub const VERSIONS: &[&str] = &["1", "2"];

/// The words of operations.
pub const OPERATIONS: &[&str] = &[
    "schedule",
    "execute",
    "rate",
    "fixed",
    "cancel",
    "policy",
    "shutdown",
    "shutdown_now",
    "ask",
];

/// The words of policies.
pub const POLICIES: &[&str] = &["continue", "execute", "remove"];

/// The words of the units of version 1.
const UNITS_1: &[&str] = &["ns", "us", "ms", "s"];

/// The words of the units of version 2.
const UNITS_2: &[&str] = &["ns", "us", "ms", "s", "min", "h", "d"];

/// The words of units in a version.
pub fn units(version: Version) -> &'static [&'static str] {
    match version {
        Version::One => UNITS_1,
        Version::Two => UNITS_2,
    }
}

/// Whether a word names a policy.
pub fn is_policy(word: &str) -> bool
    ensures { result ≡ is_some (which_of_word word.now) }
{
    matches!(word, "continue" | "execute" | "remove")
}

/// Whether a word names a unit in a version.
pub fn is_unit(version: Version, word: &str) -> bool
    ensures { result ≡ is_some (unit_of_word (plan_version version) word.now) }
{
    match version {
        Version::One => matches!(word, "ns" | "us" | "ms" | "s"),
        Version::Two => unit_of_word(word).is_some(),
    }
}

/// The unit that a word names in some version, if it names one.
pub fn unit_of_word(word: &str) -> Option<Unit>
    ensures { result ≡ unit_of_word Two word.now }
{
    match word {
        "ns" => Some(Unit::Ns),
        "us" => Some(Unit::Us),
        "ms" => Some(Unit::Ms),
        "s" => Some(Unit::S),
        "min" => Some(Unit::Min),
        "h" => Some(Unit::Hour),
        "d" => Some(Unit::Day),
        _ => None,
    }
}

/// The word of a unit.
pub fn word_of_unit(unit: Unit) -> &'static str
    ensures { unit_of_word Two result.now ≡ Some unit }
{
    match unit {
        Unit::Ns => "ns",
        Unit::Us => "us",
        Unit::Ms => "ms",
        Unit::S => "s",
        Unit::Min => "min",
        Unit::Hour => "h",
        Unit::Day => "d",
    }
}
