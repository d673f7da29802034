//! Tests of the desk.
#![tactic(auto)]

#[cfg(test)]
mod asks;
#[cfg(test)]
mod bells;
#[cfg(test)]
mod no_memory;
#[cfg(test)]
mod threads;
