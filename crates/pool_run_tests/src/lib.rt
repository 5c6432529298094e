//! Tests of runs by a pool.
#![tactic(auto)]

#[cfg(test)]
mod pool_runs;
