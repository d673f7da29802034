//! What waits in a driver: the requests in hand, which wait for their outcome, and the unsolicited lines, which wait for their listeners.
//!
//! # Layout
//!
//! - `hand` (`Hand`), `asker`: the requests, and whose one is.
//! - `line_queue` (`LineQueue`): the lines.
#![tactic(auto)]

mod asker;
mod hand;
mod line_queue;

pub use asker::Asker;
pub use hand::{
    FirstCommand, Hand, IN_HAND, first_asker, first_command, has_command, remove_command, text_of,
};
pub use line_queue::{KIND_PLACES, LineQueue, LineRoom};
