//! A driver of a cellular modem for programs in C. Each call of include/cimbaloty.h calls an endpoint
//! (`modem_driver::Endpoint`), whose contract it carries through.
//!
//! # Layout
//!
//! - `driver`, `handle`: what C keeps of a driver. `making`, `ending`.
//! - `requests`, `octets`, `outcomes`, `lines`, `states`, `time`: its calls. `numbers`, `kinds`, `places`: numbers and the caller's room.
//! - `dialects/`, `entries/`: dialects and entries, each with a handle of its own.
//! - `laws`.
#![tactic(auto)]

mod dialects;
mod driver;
mod ending;
mod entries;
mod handle;
mod kinds;
pub mod laws;
mod lines;
mod making;
mod numbers;
mod octets;
mod outcomes;
mod places;
mod requests;
mod states;
mod time;

pub use dialects::CimbalotyDialect;
pub use driver::Cimbaloty;
pub use ending::LeftCounts;
pub use entries::CimbalotyEntry;
pub use lines::LineHead;
pub use outcomes::OutcomeHead;
