//! Tests of a station.
#![tactic(auto)]

#[cfg(test)]
mod no_memory;
#[cfg(test)]
mod queues;
#[cfg(test)]
mod sizes;
