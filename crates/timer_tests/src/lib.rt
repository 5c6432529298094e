//! Tests of timers.
#![tactic(auto)]

#[cfg(test)]
mod timeouts;
#[cfg(test)]
mod told;
#[cfg(test)]
mod words;
