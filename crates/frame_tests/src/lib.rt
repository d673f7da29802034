//! Tests of frames.
#![tactic(auto)]

#[cfg(test)]
mod no_memory;
#[cfg(test)]
mod reading;
#[cfg(test)]
mod ring;
