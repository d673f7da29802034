//! Data on connections of the multiplexer, beside the AT commands on the others. A lane is a stretch of data on a
//! connection: a call begins it, and it is over where the connection's opening ends, the line is lost, or a call ends it; and where
//! the modem loses the carrier, if it was begun so. The driver is a client's, the initiator's, or the modem itself, the responder.
//!
//! # Layout
//!
//! - `relay`, `octets`, `passing`, `writing`: frames that pass. `pipe_set`: the connections that carry data.
//! - `pipe`: one of them. Under it `lane` has its data, `switch` where data begins, `watch` whether it may send.
//! - `begin`, `error`, `laws`.
#![tactic(auto)]

mod begin;
mod error;
mod lane;
pub mod laws;
mod octets;
mod passing;
mod pipe;
mod pipe_set;
mod relay;
mod switch;
mod watch;
mod writing;

pub use begin::{Begin, Until};
pub use error::DataError;
pub use lane::MOST_TO_GO;
pub use pipe::{Pipe, Reading};
pub use relay::{Input, Relay, Sent};
pub use switch::is_connect;
