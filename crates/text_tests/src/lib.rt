//! Tests of the texts: of events, of traces and of calls, and of lines that are copied and told.
#![tactic(auto)]

#[cfg(test)]
mod calls;
#[cfg(test)]
mod calls_page;
#[cfg(test)]
mod copies;
#[cfg(test)]
mod displays;
#[cfg(test)]
mod errors;
#[cfg(test)]
mod events;
#[cfg(test)]
mod fronts;
#[cfg(test)]
mod last_calls;
#[cfg(test)]
mod lines;
#[cfg(test)]
mod live_fronts;
#[cfg(test)]
mod puts;
#[cfg(test)]
mod read;
#[cfg(test)]
mod scans;
#[cfg(test)]
mod stamps;
#[cfg(test)]
mod words;
#[cfg(test)]
mod written;
