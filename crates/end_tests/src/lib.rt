//! Tests of ends that are written in pieces, and of what tests refuse: ends that follow a script, and memory.
#![tactic(auto)]

#[cfg(test)]
mod ends;
#[cfg(test)]
mod refusals;
#[cfg(test)]
mod scripts;
