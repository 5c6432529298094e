//! Tests of the executor that takes calls while it runs.
#![tactic(auto)]

#[cfg(test)]
mod live;
#[cfg(test)]
mod said;
#[cfg(test)]
mod told;
#[cfg(test)]
mod words;
