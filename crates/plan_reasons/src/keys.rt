//! The keys of a plan's tables.

ghost use Rattle.std.specs.Prelude.{◌≡◌, [], MatchOption, is_some};
ghost use Rattle.toml.specs.View.{items_view, table_view, view};
ghost use Rattle.plan_read.specs.Keys.{are_tables, call_keys, has_shape, header_keys, is_key, top_keys, verb_of_word};
ghost use Rattle.plan_read.specs.declared.versions.Version.TheVariants.{One, Two};
ghost use Rattle.plan_reasons.specs.Told.{operation_of};
ghost use Rattle.plan_reasons.specs.own.Keys.{plan_keys, plan_shape, plan_version};

use crate::scene::text_at;
use crate::versions::{Version, is_policy};
use std::fmt;
use toml::{Table, Value};

/// What the value of a key has to be.
#[derive(Clone, Copy, Debug, PartialEq, Eq)]
pub enum Shape {
    Text,
    Integer,
    /// `true` or `false`.
    Truth,
    /// The word of a policy.
    Policy,
    /// An array of tables.
    Tables,
}

impl Shape {
    /// Whether a value is of this shape.
    pub(crate) fn fits(self, value: &Value) -> bool
        ensures { result ≡ has_shape (plan_shape self) (view value.now) }
    {
        match self {
            Shape::Text => value.is_str(),
            Shape::Integer => value.is_integer(),
            Shape::Truth => value.is_bool(),
            Shape::Policy => match value.as_str() {
                Some(word) => is_policy(word),
                None => false,
            },
            Shape::Tables => match value.as_array() {
                Some(array) => are_tables(array.as_slice()),
                None => false,
            },
        }
    }
}

/// Whether each value is a table.
fn are_tables(values: &[Value]) -> bool
    ensures { result ≡ are_tables (items_view values.now) }
{
    values.iter().all(|value| value.is_table())
}

impl fmt::Display for Shape {
    fn fmt<W: fmt::Write>(&self, f: &mut fmt::Formatter<W>) -> fmt::Result {
        f.write_str(match self {
            Shape::Text => "a text",
            Shape::Integer => "an integer",
            Shape::Truth => "true or false",
            Shape::Policy => "the word of a policy",
            Shape::Tables => "an array of tables",
        })
    }
}

/// A key: its name, what its value is, and whether it has to be there.
#[derive(Clone, Copy)]
pub struct Key {
    pub name: &'static str,
    pub shape: Shape,
    pub required: bool,
}

/// A key that has to be there.
macro_rules! required {
    ($name:literal, $shape:ident) => {
        Key {
            name: $name,
            shape: Shape::$shape,
            required: true,
        }
    };
}

/// A key that may be left out.
macro_rules! optional {
    ($name:literal, $shape:ident) => {
        Key {
            name: $name,
            shape: Shape::$shape,
            required: false,
        }
    };
}

const OP: Key = required!("op", Text);

const AT: Key = optional!("at", Integer);

const AT_UNIT: Key = optional!("at_unit", Text);

const TIMES: Key = optional!("times", Integer);

const EVERY: Key = optional!("every", Integer);

const CALL: Key = optional!("call", Tables);

const NAME: Key = required!("name", Text);

const FIRST: Key = required!("first", Integer);

const FIRST_UNIT: Key = optional!("first_unit", Text);

const DELAY: Key = required!("delay", Integer);

const DELAY_UNIT: Key = optional!("delay_unit", Text);

const TOP: &[Key] = &[required!("version", Integer), optional!("block", Tables)];

const HEADER_1: &[Key] = &[AT, optional!("unit", Text), TIMES, EVERY, CALL];

const HEADER_2: &[Key] = &[
    AT,
    AT_UNIT,
    TIMES,
    EVERY,
    optional!("every_unit", Text),
    CALL,
];

const SCHEDULE_1: &[Key] = &[OP, AT, NAME, DELAY];

const SCHEDULE_2: &[Key] = &[OP, AT, AT_UNIT, NAME, DELAY, DELAY_UNIT];

const NAMED_1: &[Key] = &[OP, AT, NAME];

const NAMED_2: &[Key] = &[OP, AT, AT_UNIT, NAME];

const RATE_1: &[Key] = &[OP, AT, NAME, FIRST, required!("period", Integer)];

const RATE_2: &[Key] = &[
    OP,
    AT,
    AT_UNIT,
    NAME,
    FIRST,
    FIRST_UNIT,
    required!("period", Integer),
    optional!("period_unit", Text),
];

const FIXED_1: &[Key] = &[OP, AT, NAME, FIRST, DELAY];

const FIXED_2: &[Key] = &[OP, AT, AT_UNIT, NAME, FIRST, FIRST_UNIT, DELAY, DELAY_UNIT];

const POLICY_1: &[Key] = &[
    OP,
    AT,
    required!("which", Policy),
    required!("value", Truth),
];

const POLICY_2: &[Key] = &[
    OP,
    AT,
    AT_UNIT,
    required!("which", Policy),
    required!("value", Truth),
];

const PLAIN_1: &[Key] = &[OP, AT];

const PLAIN_2: &[Key] = &[OP, AT, AT_UNIT];

/// The keys of the top of a plan.
pub fn top_keys() -> &'static [Key]
    ensures { plan_keys result.now ≡ top_keys }
{
    TOP
}

/// The keys of a block.
pub fn header_keys(version: Version) -> &'static [Key]
    ensures { plan_keys result.now ≡ header_keys (plan_version version) }
{
    match version {
        Version::One => HEADER_1,
        Version::Two => HEADER_2,
    }
}

/// Whether one of some keys has a name.
pub fn has_key(keys: &[Key], name: &str) -> bool
    ensures { result ≡ is_key (plan_keys keys.now) name.now }
{
    keys.iter().any(|key| name == key.name)
}

/// The keys of a call by its operation; those of `ask` where it has none.
pub fn operation_keys(version: Version, call: &Table) -> &'static [Key]
    ensures { plan_keys result.now
        ≡ call_keys (plan_version version) (operation_of (table_view call.now)) }
{
    match text_at(call, "op") {
        Some(word) if is_operation(word) => call_keys(version, word),
        _ => call_keys(version, "ask"),
    }
}

/// The keys of a call with the operation of this word; none where the word is that of no operation.
pub fn call_keys(version: Version, word: &str) -> &'static [Key]
    ensures { MatchOption (verb_of_word word.now) (plan_keys result.now ≡ [])
        (λ verb. plan_keys result.now ≡ call_keys (plan_version version) verb) }
{
    match version {
        Version::One => call_keys_1(word),
        Version::Two => call_keys_2(word),
    }
}

/// Whether a word names an operation.
pub fn is_operation(word: &str) -> bool
    ensures { result ≡ is_some (verb_of_word word.now) }
{
    !call_keys_1(word).is_empty()
}

/// The keys of a call of version 1 with the operation of this word.
fn call_keys_1(word: &str) -> &'static [Key]
    ensures { MatchOption (verb_of_word word.now) (plan_keys result.now ≡ [])
        (λ verb. plan_keys result.now ≡ call_keys One verb) }
{
    match word {
        "schedule" => SCHEDULE_1,
        "execute" | "cancel" => NAMED_1,
        "rate" => RATE_1,
        "fixed" => FIXED_1,
        "policy" => POLICY_1,
        "shutdown" | "shutdown_now" | "ask" => PLAIN_1,
        _ => &[],
    }
}

/// The keys of a call of version 2 with the operation of this word.
fn call_keys_2(word: &str) -> &'static [Key]
    ensures { MatchOption (verb_of_word word.now) (plan_keys result.now ≡ [])
        (λ verb. plan_keys result.now ≡ call_keys Two verb) }
{
    match word {
        "schedule" => SCHEDULE_2,
        "execute" | "cancel" => NAMED_2,
        "rate" => RATE_2,
        "fixed" => FIXED_2,
        "policy" => POLICY_2,
        "shutdown" | "shutdown_now" | "ask" => PLAIN_2,
        _ => &[],
    }
}
