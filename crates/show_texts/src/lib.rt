//! Prints what happened on the line between a driver and its modem, from a capture's frames: a line for each event in the order of time,
//! a line for each complaint, and at the end what was counted of each connection.
//!
//! # Layout
//!
//! - `run`, `untimed`: over readers and writers. Under them `reading`, `packets`: packets one after the other; `progress`; `fault`.
//! - `teller`: item by item. Under it `event`, `line`, `complaint`, `tally`, `closing`, `words`: what is printed.
//! - `laws`.
#![tactic(auto)]

mod closing;
mod complaint;
mod event;
mod fault;
pub mod laws;
mod line;
mod packets;
mod progress;
mod reading;
mod run;
mod tally;
mod teller;
mod untimed;
mod words;

pub use fault::ShowFault;
pub use progress::Progress;
pub use run::{ShowOptions, show_run};
pub use tally::Tally;
pub use teller::Teller;
pub use untimed::show_untimed_run;
