//! Tests of journals of lines: what is kept, each error, torn ends, and crashes at each call of the disk.
#![tactic(auto)]

#[cfg(test)]
mod crashes;
#[cfg(test)]
mod decays;
#[cfg(test)]
mod disks;
#[cfg(test)]
mod errors;
#[cfg(test)]
mod folders;
#[cfg(test)]
mod usage;
