//! Tests of what a check of a trace finds, against the slow program and a plan, row by row.
#![tactic(auto)]

#[cfg(test)]
mod checks;
#[cfg(test)]
mod plan_texts;
