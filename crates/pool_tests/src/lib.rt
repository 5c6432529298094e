//! Tests of the pool of workers.
#![tactic(auto)]

#[cfg(test)]
mod pool;
#[cfg(test)]
mod told;
