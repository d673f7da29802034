//! Entries that C keeps: from plain commands into the multiplexer (27.007, 5.7), octets in and octets out.
mod asking;
mod calls;
mod entering;
mod handle;
mod kept;
mod making;

pub use kept::CimbalotyEntry;
