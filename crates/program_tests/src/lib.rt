//! Tests of the program, in the world of `world.rt`: sessions, help, files, pictures, lints.
#![tactic(auto)]

#[cfg(test)]
mod files;
#[cfg(test)]
mod help;
#[cfg(test)]
mod lints;
#[cfg(test)]
mod live_lines;
#[cfg(test)]
mod one_delay;
#[cfg(test)]
mod pictures;
#[cfg(test)]
mod programs;
#[cfg(test)]
mod sessions;
#[cfg(test)]
mod world;
