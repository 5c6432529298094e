//! Tests of the reasons that are told of plans, of lines and of traces, and of warnings: places in a text, near words, faults.
#![tactic(auto)]

#[cfg(test)]
mod line_faults;
#[cfg(test)]
mod near;
#[cfg(test)]
mod places;
#[cfg(test)]
mod plan_faults;
#[cfg(test)]
mod plan_texts;
#[cfg(test)]
mod tables;
#[cfg(test)]
mod trace_faults;
#[cfg(test)]
mod warnings;
