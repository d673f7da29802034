//! A box with its pointer and its allocator in sight, for what C keeps.
#![tactic(auto)]

mod parts;

pub use parts::Parts;
