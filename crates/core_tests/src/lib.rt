//! Tests of the executor of a plan, and of the slow program beside it.
#![tactic(auto)]

#[cfg(test)]
mod plainly;
#[cfg(test)]
mod said;
#[cfg(test)]
mod tables;
#[cfg(test)]
mod told;
#[cfg(test)]
mod words;
