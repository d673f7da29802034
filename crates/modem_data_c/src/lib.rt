//! Data beside AT for programs in C. Each call of include/cimbaloty_data.h calls a relay (`modem_data::Relay`), whose contract it
//! carries through.
//!
//! # Layout
//!
//! - `held_data`, `handle`: what C keeps of a relay. `making`.
//! - `lanes`, `octets`, `sending`: its calls. `numbers`, `places`: numbers and the caller's room.
#![tactic(auto)]

mod handle;
mod held_data;
mod lanes;
mod making;
mod numbers;
mod octets;
mod places;
mod sending;

pub use held_data::CimbalotyData;
