//! Tests of the core, of entries, of endpoints and sessions, and of which calls of the driver and of a simulated modem take no memory.
//!
//! # Layout
//!
//! - `entries`, `stops`, `waiting`, `ticking`, `reset`, `hostile`: tests, a subject each. `no_memory/`: which calls take none.
//! - `made`, `callers`: what they begin with.
#![tactic(auto)]

#[cfg(test)]
mod callers;
#[cfg(test)]
mod entries;
#[cfg(test)]
mod hostile;
#[cfg(test)]
mod made;
#[cfg(test)]
mod no_memory;
#[cfg(test)]
mod reset;
#[cfg(test)]
mod stops;
#[cfg(test)]
mod ticking;
#[cfg(test)]
mod waiting;
