//! Tests of dialects, lines and typed commands.
//!
//! # Layout
//!
//! - `answers`, `dialects`, `sizes`: tests, a subject each. `no_memory/`: which calls take none.
//! - `made`: what they begin with.
#![tactic(auto)]

#[cfg(test)]
mod answers;
#[cfg(test)]
mod dialects;
#[cfg(test)]
mod made;
#[cfg(test)]
mod no_memory;
#[cfg(test)]
mod sizes;
