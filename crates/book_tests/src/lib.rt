//! Tests of the book that a pool keeps under its lock.
#![tactic(auto)]

#[cfg(test)]
mod books;
