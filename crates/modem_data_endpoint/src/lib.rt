//! Data beside an endpoint: a relay between the line and a driver that its caller drives.
//!
//! # Layout
//!
//! - `data_endpoint`: a relay and an endpoint as one value; `both_ways`, `data_requests`, `data_lanes`: its calls.
//! - `between`: octets between the two. `laws`.
#![tactic(auto)]

mod between;
mod both_ways;
mod data_endpoint;
mod data_lanes;
mod data_requests;
pub mod laws;

pub use between::{CommandRefused, Taken, command, hand_over, take_over};
pub use both_ways::{DataInput, Output};
pub use data_endpoint::DataEndpoint;
