//! Tests of runs of a plan, and of the audit of a run.
#![tactic(auto)]

#[cfg(test)]
mod audits;
#[cfg(test)]
mod runs;
