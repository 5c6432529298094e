//! Tests of how a plan is read.
#![tactic(auto)]

#[cfg(test)]
mod names;
#[cfg(test)]
mod plans;
