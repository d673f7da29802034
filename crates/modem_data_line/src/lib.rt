//! A line with connections that carry data, for a driver that reads and writes it.
//!
//! # Layout
//!
//! - `data_line`: the line. `serial`: what a driver reads and writes. `data_lanes`: what callers of data ask.
//! - `moving`: octets between the line and its relay. `laws`: what any calls come to.
#![tactic(auto)]

mod data_lanes;
mod data_line;
pub mod laws;
mod moving;
mod serial;

pub use data_line::DataLine;
