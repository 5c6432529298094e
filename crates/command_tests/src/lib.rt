//! Tests of what the program stands on: the command line, the work of a command and its memory, the lines of errors.
#![tactic(auto)]

#[cfg(test)]
mod command_lines;
#[cfg(test)]
mod error_lines;
#[cfg(test)]
mod memory;
#[cfg(test)]
mod usage;
#[cfg(test)]
mod written_plans;
