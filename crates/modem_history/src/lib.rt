//! Histories of a driver: what happens, what an act calls for, and the laws that a history keeps.
#![tactic(auto)]

mod act;
pub mod laws;

pub use act::Act;
