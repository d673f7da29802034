//! One end of the basic option of 3GPP TS 27.010: `Station` keeps its connections, control messages and flow control.
//! It takes frames by `got`, its user's calls, and a `tick` for each T1; `next_frame` gives what goes to the line. It
//! holds no line and no clock.
//!
//! # Layout
//!
//! - `station`, `role`, `error`: the two ends, and what is kept. `row`: their tables.
//! - `calls`, `room`: what the user asks. `got`, `answers`, `noted`, `reading`, `message`: what comes. `tick`, `repeats`: time.
//! - `channel`, `channels`: the connections. `control_queue`, `control_frame`, `control_octets`: connection 0.
//! - `sending`, `turn`, `outgoing`, `written`, `write_buffer`: what goes out.
//! - `laws`: of every history.
#![tactic(auto)]

mod answers;
mod calls;
mod channel;
mod channels;
mod control_frame;
mod control_octets;
mod control_queue;
mod error;
mod got;
pub mod laws;
mod message;
mod noted;
mod outgoing;
mod reading;
mod repeats;
mod role;
mod room;
mod row;
mod sending;
mod station;
mod tick;
mod turn;
mod write_buffer;
pub mod written;

pub use control_frame::ControlFrame;
pub use error::StationError;
pub use message::Message;
pub use noted::Noted;
pub use outgoing::Outgoing;
pub use reading::{msc_dlci, msc_stops};
pub use role::{ChannelState, Role};
pub use station::Station;
pub use tick::{GivenUp, Noticed};
pub use turn::Turn;
pub use write_buffer::WriteBuffer;
