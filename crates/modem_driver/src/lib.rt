//! The driver of a cellular modem: requests of callers in, frames out, and outcomes back. `enter`, `Entry` and
//! `enter_by` bring the modem into the multiplexer (3GPP TS 27.007, 5.7). Then a `Session` drives it over a line and a
//! desk, or an `Endpoint` is fed with octets and requests by its caller. Both stand on `modem_core`. `laws` says what is
//! proved of whole runs.
//!
//! # Layout
//!
//! - `machine/`: what session and endpoint share: octets in and out, frames, requests, time, what waits.
//! - `session/`: turns, polls and ends at a line and a desk; `Offline` at a desk without a line.
//! - `endpoint/`: the same for a caller who reads and writes the line.
//! - `entering`, `entry`, `entry_tries`: from plain commands into the multiplexer.
//! - `laws`: the headline, and of every run.
#![tactic(auto)]

mod endpoint;
mod entering;
mod entry;
pub mod entry_laws;
mod entry_tries;
pub mod laws;
mod machine;
mod session;

pub use at_text::{AnswerLines, CommandLine};
pub use endpoint::{Blocked, Endpoint, Input, Left, RequestError, RequestRefused};
pub use entering::{EntryError, enter};
pub use entry::{Entry, EntryStep, close_down};
pub use entry_tries::{Patience, enter_by};
pub use modem_core::{Core, CoreError, Event, Octets, replay, replay_with_dialect};
pub use modem_desk::{Answer, Ask, Outcome, Request, Urc};
pub use modem_history::Act;
pub use session::{
    Ended, Finished, Offline, OfflineRefused, Progress, Session, SessionError, SessionFault,
    SessionRefused, Turn,
};
