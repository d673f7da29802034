//! The calls that take no memory.
mod texts;
mod typed;
