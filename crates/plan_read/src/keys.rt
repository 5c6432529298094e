//! The keys of a plan's tables, a row for each name, and the tests of a table against some of them.

ghost use Rattle.std.specs.Prelude.{◌≡◌, ◌&&◌, ◌||◌, not, true, is_some};
ghost use Rattle.toml.specs.Data.{get_member};
ghost use Rattle.toml.specs.View.{view, table_view, items_view};
ghost use Rattle.plan_read.specs.Keys.{fits, are_tables, has_shape, has_only, has_required, are_typed};
ghost use Rattle.plan_read.specs.own.Rows.{AreAllKeys, is_home, stands_in, word_of, as_defined, are_apart};

use crate::key_names::KeyName;
use crate::rows::Row;
use crate::units::which_of_word;
use crate::verbs::Verb;
use crate::versions::Version;
use toml::Value;

/// What the value of a key has to be.
#[derive(Clone, Copy)]
pub enum Shape {
    Text,
    Integer,
    Truth,
    /// A text that is the word of a policy.
    Policy,
    /// An array of tables.
    Tables,
}

/// What a table of a plan is.
#[derive(Clone, Copy)]
pub enum Role {
    Top,
    Header,
    /// A call with this operation.
    Call(Verb),
}

/// Where a key stands.
#[derive(Clone, Copy)]
pub enum Home {
    Top,
    Header,
    /// In each call.
    Calls,
    HeaderAndCalls,
    /// In the calls with these operations.
    CallsOf(&'static [Verb]),
}

/// The versions in which a key stands.
#[derive(Clone, Copy)]
pub enum Versions {
    Each,
    OneAlone,
    TwoAlone,
}

/// A key: its name, what its value is, whether it has to be there, and in which tables it stands.
#[derive(Clone, Copy)]
pub struct Key {
    pub name: KeyName,
    pub shape: Shape,
    pub required: bool,
    pub home: Home,
    pub versions: Versions,
}

/// A key that has to be there.
macro_rules! required {
    ($name:ident, $shape:ident, $home:expr) => {
        Key {
            name: KeyName::$name,
            shape: Shape::$shape,
            required: true,
            home: $home,
            versions: Versions::Each,
        }
    };
}

/// A key that may be left out.
macro_rules! optional {
    ($name:ident, $shape:ident, $home:expr) => {
        optional!($name, $shape, $home, Each)
    };
    ($name:ident, $shape:ident, $home:expr, $versions:ident) => {
        Key {
            name: KeyName::$name,
            shape: Shape::$shape,
            required: false,
            home: $home,
            versions: Versions::$versions,
        }
    };
}

/// The key of a time's unit, which stands in version 2 where the time does.
macro_rules! unit {
    ($name:ident, $home:expr) => {
        optional!($name, Text, $home, TwoAlone)
    };
}

const NAMED: Home = Home::CallsOf(&[
    Verb::Schedule,
    Verb::Execute,
    Verb::Rate,
    Verb::Fixed,
    Verb::Cancel,
]);

const STARTED: Home = Home::CallsOf(&[Verb::Rate, Verb::Fixed]);

const DELAYED: Home = Home::CallsOf(&[Verb::Schedule, Verb::Fixed]);

const REPEATED: Home = Home::CallsOf(&[Verb::Rate]);

const POLICIES: Home = Home::CallsOf(&[Verb::Policy]);

/// The keys of all tables, those of one table in the order of its definition, each unit behind its time.
const KEYS: &[Key] = &[
    required!(Version, Integer, Home::Top),
    optional!(Block, Tables, Home::Top),
    required!(Op, Text, Home::Calls),
    optional!(At, Integer, Home::HeaderAndCalls),
    unit!(AtUnit, Home::HeaderAndCalls),
    optional!(Unit, Text, Home::Header, OneAlone),
    optional!(Times, Integer, Home::Header),
    optional!(Every, Integer, Home::Header),
    unit!(EveryUnit, Home::Header),
    optional!(Call, Tables, Home::Header),
    required!(Name, Text, NAMED),
    required!(First, Integer, STARTED),
    unit!(FirstUnit, STARTED),
    required!(Delay, Integer, DELAYED),
    unit!(DelayUnit, DELAYED),
    required!(Period, Integer, REPEATED),
    unit!(PeriodUnit, REPEATED),
    required!(Which, Policy, POLICIES),
    required!(Value, Truth, POLICIES),
];

/// The keys of all tables: those that stand in a table are its keys.
pub fn all_keys() -> &'static [Key]
    ensures { AreAllKeys result.now }
{
    KEYS
}

impl Key {
    /// Whether this key stands in a table of this role.
    pub fn stands_in(&self, version: Version, role: Role) -> bool
        ensures { result ≡ stands_in version role self.now }
    {
        let in_version = match (self.versions, version) {
            (Versions::Each, _) => true,
            (Versions::OneAlone, Version::One) => true,
            (Versions::TwoAlone, Version::Two) => true,
            _ => false,
        };
        in_version && self.home.has(role)
    }

    /// Whether this key is there, or may be left out.
    fn is_met(&self, row: &Row) -> bool
        ensures { result
            ≡ (not self.now.required
            || is_some (get_member (word_of self.now.name) (table_view row.now.table.now))) }
    {
        !self.required || row.has(self.name)
    }

    /// Whether this key is there with a value of its shape, or may be left out and is.
    fn holds(&self, row: &Row) -> bool
        ensures { result
            ≡ ((not self.now.required
            || is_some (get_member (word_of self.now.name) (table_view row.now.table.now)))
            && fits self.now.shape
            (get_member (word_of self.now.name) (table_view row.now.table.now))) }
    {
        match row.get(self.name) {
            Some(value) => has_shape(self.shape, value),
            None => !self.required,
        }
    }
}

impl Home {
    /// Whether a table of this role is among these.
    fn has(self, role: Role) -> bool
        ensures { result ≡ is_home self role }
    {
        match (self, role) {
            (Home::Top, Role::Top) => true,
            (Home::Header | Home::HeaderAndCalls, Role::Header) => true,
            (Home::Calls | Home::HeaderAndCalls, Role::Call(_)) => true,
            (Home::CallsOf(verbs), Role::Call(verb)) => verbs.contains(&verb),
            _ => false,
        }
    }
}

/// Whether each key of a table is one of these: the table has no more keys than there are of these.
pub fn has_only(keys: &[Key], row: &Row) -> bool
    requires { are_apart (as_defined keys.now) ≡ true }
    ensures { result ≡ has_only (as_defined keys.now) (table_view row.now.table.now) }
{
    keys.iter().filter(|key| row.has(key.name)).count() == row.table.len()
}

/// Whether each of these keys that has to be there is there.
pub fn has_required(keys: &[Key], row: &Row) -> bool
    ensures { result ≡ has_required (as_defined keys.now) (table_view row.now.table.now) }
{
    keys.iter().all(|key| key.is_met(row))
}

/// Whether each key of a table is one of these, each of these that has to be there is there, and the value at each is of
/// its shape: in one pass, as most tables pass.
pub fn pass(keys: &[Key], row: &Row) -> bool
    requires { are_apart (as_defined keys.now) ≡ true }
    ensures { result
        ≡ (has_only (as_defined keys.now) (table_view row.now.table.now)
        && (has_required (as_defined keys.now) (table_view row.now.table.now)
        && are_typed (as_defined keys.now) (table_view row.now.table.now))) }
{
    let mut there = 0;
    for key in keys {
        if !key.holds(row) {
            return false;
        }
        if row.has(key.name) {
            there += 1;
        }
    }
    there == row.table.len()
}

/// Whether a value is of a shape.
fn has_shape(shape: Shape, value: &Value) -> bool
    ensures { result ≡ has_shape shape (view value.now) }
{
    match shape {
        Shape::Text => value.as_str().is_some(),
        Shape::Integer => value.as_integer().is_some(),
        Shape::Truth => value.as_bool().is_some(),
        Shape::Policy => match value.as_str() {
            Some(word) => which_of_word(word).is_some(),
            None => false,
        },
        Shape::Tables => match value.as_array() {
            Some(array) => are_tables(array.as_slice()),
            None => false,
        },
    }
}

/// Whether each value is a table.
fn are_tables(values: &[Value]) -> bool
    ensures { result ≡ are_tables (items_view values.now) }
{
    values.iter().all(|value| value.is_table())
}
