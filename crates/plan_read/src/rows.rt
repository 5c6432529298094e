//! The tables of a plan, each gone over once, and what stands at their keys.

ghost use Rattle.std.specs.Prelude.{◌≡◌, true, length, replicate, None, Some, option_map, option_copied, is_some};
ghost use Rattle.std.specs.List.Sorted.{IsStrictlySortedBy};
ghost use Rattle.std.specs.Map.{keys_of};
ghost use Rattle.std.specs.String.{string_cmp};
ghost use Rattle.toml.specs.Data.{get_member};
ghost use Rattle.toml.specs.View.{view, table_view, items_view};
ghost use Rattle.plan_read.specs.Keys.{fits, are_tables};
ghost use Rattle.plan_read.specs.declared.keys.Shape.TheVariants.{Tables};
ghost use Rattle.plan_read.specs.own.Values.{given_integer, given_text, given_truth, tables_in, tables_at};
ghost use Rattle.plan_read.specs.own.Plain.{items_at};
ghost use Rattle.plan_read.specs.own.Rows.{word_of, Holds};

use crate::key_names::KeyName;
use toml::{Table, Value};

/// A slot for what stands at each name of a key, by the place of the name.
pub type Slots<'a> = [Option<&'a Value>; 19];

/// Slots that nothing was put into.
pub const EMPTY_SLOTS: Slots<'static> = [None; 19];

/// A table, and what stands at its keys. The slots are its caller's, so that they are not moved.
#[derive(Clone, Copy)]
pub struct Row<'a, 's> {
    pub table: &'a Table,
    slots: &'s Slots<'a>,
    ghost held: { Holds slots.now table.now },
}

impl<'a, 's> Row<'a, 's> {
    /// The row of a table, which has these slots from then on.
    pub fn new(table: &'a Table, slots: &'s mut Slots<'a>) -> Row<'a, 's>
        requires { slots.old ≡ replicate 19 None }
        ensures table { table_view result.table.now ≡ table_view table.now }
        ensures ordered { IsStrictlySortedBy string_cmp (keys_of table.now.entries) }
    {
        for (word, value) in table {
            if let Some(name) = KeyName::of_word(word.as_str()) {
                slots[name.place()] = Some(value);
            }
        }
        Row { table, slots }
    }

    /// The value at a key.
    pub fn get(&self, name: KeyName) -> Option<&'a Value>
        ensures { option_map (λ v. view v.now) result
            ≡ get_member (word_of name) (table_view self.now.table.now) }
    {
        let slots = self.slots;
        slots[name.place()]
    }

    /// Whether a key is there.
    pub fn has(&self, name: KeyName) -> bool
        ensures { result ≡ is_some (get_member (word_of name) (table_view self.now.table.now)) }
    {
        self.get(name).is_some()
    }

    /// The integer at a key, if there is one.
    pub fn integer(&self, name: KeyName) -> Option<i64>
        ensures { result ≡ given_integer (word_of name) (table_view self.now.table.now) }
    {
        match self.get(name) {
            Some(value) => value.as_integer(),
            None => None,
        }
    }

    /// The text at a key, if there is one.
    pub fn text(&self, name: KeyName) -> Option<&'a str>
        ensures { option_copied result ≡ given_text (word_of name) (table_view self.now.table.now) }
    {
        match self.get(name) {
            Some(value) => value.as_str(),
            None => None,
        }
    }

    /// The truth value at a key, if there is one.
    pub fn truth(&self, name: KeyName) -> Option<bool>
        ensures { result ≡ given_truth (word_of name) (table_view self.now.table.now) }
    {
        match self.get(name) {
            Some(value) => value.as_bool(),
            None => None,
        }
    }

    /// The integer at a key that has one.
    pub fn required_integer(&self, name: KeyName) -> i64
        requires { is_some (given_integer (word_of name) (table_view self.now.table.now)) ≡ true }
        ensures { given_integer (word_of name) (table_view self.now.table.now) ≡ Some result }
    {
        match self.integer(name) {
            Some(number) => number,
            None => unreachable!(),
        }
    }

    /// The text at a key that has one.
    pub fn required_text(&self, name: KeyName) -> &'a str
        requires { is_some (given_text (word_of name) (table_view self.now.table.now)) ≡ true }
        ensures { given_text (word_of name) (table_view self.now.table.now) ≡ Some result.now }
    {
        match self.text(name) {
            Some(text) => text,
            None => unreachable!(),
        }
    }

    /// The tables of the array at a key, none where there is no array.
    #[tactic(auto, using(crate::proofs::TableTests::count_of_tables))]
    pub fn tables(&self, name: KeyName) -> &'a [Value]
        ensures items { items_view result.now
            ≡ items_at (word_of name) (table_view self.now.table.now) }
        ensures tables { tables_in (items_view result.now)
            ≡ tables_at (word_of name) (table_view self.now.table.now) }
        ensures count { length result.now
            ≡ length (tables_at (word_of name) (table_view self.now.table.now)) }
        ensures each { fits Tables (get_member (word_of name) (table_view self.now.table.now))
            ≡ true → are_tables (items_view result.now) ≡ true }
    {
        match self.get(name) {
            Some(value) => match value.as_array() {
                Some(array) => array.as_slice(),
                None => &[],
            },
            None => &[],
        }
    }
}
