//! What stands where a fault is.

ghost use Rattle.std.specs.Prelude.{IfOk, option_map};
ghost use Rattle.toml.specs.View.{view};

use crate::spelled::Quoted;
use std::alloc::{AllocError, Global};
use std::fmt;
use toml::Value;
use toml::value::Datetime;

/// What stands at a key.
#[derive(Debug, Drop)]
pub enum Found {
    /// Nothing: the key is missing, or there is none to tell.
    Nothing,
    Text(String),
    Integer(i64),
    Float(f64),
    Truth(bool),
    Datetime(Datetime),
    /// An array of so many elements.
    Array(usize),
    Table,
}

impl Found {
    ghost use Rattle.plan_reasons.specs.Standing.{IsFound};

    /// What a value is. `Err` is want of memory.
    pub fn of(heap: Global, value: Option<&Value>) -> Result<Found, AllocError>
        ensures { IfOk result (λ f. IsFound f (option_map (λ v. view v.now) value.entry)) }
    {
        let Some(value) = value else {
            return Ok(Found::Nothing);
        };
        Ok(match value {
            Value::String(text) => Found::Text(String::from_str(heap, text.as_str())?),
            Value::Integer(number) => Found::Integer(*number),
            Value::Float(number) => Found::Float(*number),
            Value::Boolean(truth) => Found::Truth(*truth),
            Value::Datetime(datetime) => Found::Datetime(*datetime),
            Value::Array(array) => Found::Array(array.len()),
            Value::Table(_) => Found::Table,
        })
    }
}

impl fmt::Display for Found {
    fn fmt<W: fmt::Write>(&self, f: &mut fmt::Formatter<W>) -> fmt::Result {
        match self {
            Found::Nothing => f.write_str("nothing"),
            Found::Text(text) => write!(f, "{}", Quoted(text.as_str())),
            Found::Integer(number) => write!(f, "{number}"),
            Found::Float(number) => write!(f, "{number:?}"),
            Found::Truth(truth) => write!(f, "{truth}"),
            Found::Datetime(datetime) => write!(f, "{datetime}"),
            Found::Array(count) => write!(f, "an array of {count}"),
            Found::Table => f.write_str("a table"),
        }
    }
}
