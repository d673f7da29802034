//! The desk of a cellular modem, where its users and its driver meet. Callers submit requests and take an outcome for each;
//! listeners take unsolicited lines.
//!
//! The callers share one queue of 64 requests. Whatever the threads do, the queue keeps a rule: a caller's requests that the driver
//! took, and then those queued, are those that it submitted. Each caller has a ring of 8 outcomes, each listener a ring of 256
//! lines. There is no lock around any of them.
//!
//! # Layout
//!
//! - `desk`, `error`: how one is opened. `request`: what passes.
//! - `caller`, `listener`, `driver`: its ends. `rule`: what the queue keeps.
//! - `settling`: how one ends.
#![tactic(auto)]

mod caller;
mod desk;
mod driver;
mod error;
mod listener;
mod request;
mod rule;
mod settling;

pub use caller::Caller;
pub use desk::Desk;
pub use driver::DriverEnd;
pub use error::{DeskError, SubmitError};
pub use listener::Listener;
pub use request::{Answer, Ask, Outcome, Request, Urc};
pub use settling::{SettleRefused, Settled, settle};
