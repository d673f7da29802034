//! What happened on the line between a driver and its modem, told from the frames of a capture, and what was wrong there. `Watcher` takes
//! the frames of both ways in the order in which they passed, and judges each by the tables of 3GPP TS 27.010 (5.4).
//!
//! # Layout
//!
//! - `watcher`, `faults`, `rule`: judges frames. Under it `end`, `place`, `asks`, `ask`, `deed`, `message`: what is known of each end.
//! - `talks`, `talk`, `told`: judges lines.
//! - `laws`.
#![tactic(auto)]

mod ask;
mod asks;
mod deed;
mod end;
mod faults;
pub mod laws;
mod message;
mod place;
mod rule;
mod talk;
mod talks;
mod told;
mod watcher;

pub use ask::{Ask, is_answer};
pub use faults::Faults;
pub use rule::Rule;
pub use talk::Talk;
pub use talks::Talks;
pub use told::Told;
pub use watcher::Watcher;
