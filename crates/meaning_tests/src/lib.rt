//! Tests of times, and of codes: what is submitted by their walk, and which are refused.
#![tactic(auto)]

#[cfg(test)]
mod codes;
#[cfg(test)]
mod sizes;
#[cfg(test)]
mod times;
