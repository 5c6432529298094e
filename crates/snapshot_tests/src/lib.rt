//! Tests of the text of snapshots: what is read is written again, each fault, and what is refused.
#![tactic(auto)]

#[cfg(test)]
mod faults;
#[cfg(test)]
mod memory;
#[cfg(test)]
mod texts;
