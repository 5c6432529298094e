//! Tests of the queues of slots and of delays, beside plain ones.
#![tactic(auto)]

#[cfg(test)]
mod by_hand;
#[cfg(test)]
mod calls;
#[cfg(test)]
mod delays;
#[cfg(test)]
mod drawn;
#[cfg(test)]
mod full;
#[cfg(test)]
mod plain;
#[cfg(test)]
mod slots;
