//! The tests of what stored runs can't show, and that need the programs: of their runs, and of a drive with its threads.
//!
//! # Layout
//!
//! - `drives`: a drive with its threads. `program/`: the runs of the program.
#![tactic(auto)]

#[cfg(test)]
mod drives;
#[cfg(test)]
mod program;
