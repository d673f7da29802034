//! The calls that take no memory.
mod driver;
mod sims;
