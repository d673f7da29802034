//! The core of the driver of a cellular modem: requests, frames and ticks in, frames out, and outcomes and unsolicited lines back. It
//! has no line, desk, threads or clock. `Session` and `Endpoint` of `modem_driver` stand on it. `replay` plays a list of events.
//!
//! # Layout
//!
//! - `driver` (`Core`), `took`, `got`, `tick`, `backlog`, `going_out`: what it is called with.
//! - `lane`, `lanes`, `reports`, `settling`, `telling`, `written`, `act_list`, `frame_acts`, `error`: what it keeps and does.
//! - `waiting`, `placing`: outcomes and lines that wait for a place at the desk.
//! - `event`, `replaying`, `replaying_by`: replays. `laws`: what is proved of them, and of open windows.
#![tactic(auto)]

mod act_list;
mod backlog;
mod driver;
mod error;
mod event;
mod frame_acts;
mod going_out;
mod got;
mod lane;
mod lanes;
pub mod laws;
mod placing;
mod replaying;
mod replaying_by;
mod reports;
mod settling;
mod telling;
mod tick;
mod took;
mod waiting;
mod written;

pub use driver::Core;
pub use error::CoreError;
pub use event::{Event, Octets};
pub use modem_history::Act;
pub use modem_queues::{Asker, Hand, IN_HAND, first_asker};
pub use replaying::replay;
pub use replaying_by::replay_with_dialect;
pub use waiting::Waiting;
