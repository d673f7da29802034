//! Tests of lines of octets and of bells.
//!
//! # Layout
//!
//! - `streams`, `threads`, `devices`, `bells`: tests, a subject each. `no_memory`: which calls take none.
//! - `made`: what they begin with.
#![tactic(auto)]

#[cfg(test)]
mod bells;
#[cfg(test)]
mod devices;
#[cfg(test)]
mod made;
#[cfg(test)]
mod no_memory;
#[cfg(test)]
mod streams;
#[cfg(test)]
mod threads;
