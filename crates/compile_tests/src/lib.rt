//! Tests of what is made of a plan: its code, its submissions, the list of its tasks, and a journal's plan.
#![tactic(auto)]

#[cfg(test)]
mod calls;
#[cfg(test)]
mod codes;
#[cfg(test)]
mod heaps;
#[cfg(test)]
mod journals;
#[cfg(test)]
mod listed;
#[cfg(test)]
mod sizes;
#[cfg(test)]
mod submissions;
#[cfg(test)]
mod usage;
