//! Tests of live runs, and of live executors beside the slow program.
#![tactic(auto)]

#[cfg(test)]
mod live_plainly;
#[cfg(test)]
mod live_runs;
