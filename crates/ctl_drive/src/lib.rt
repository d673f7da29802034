//! Drives a modem on a device: the lines of an input go to it as commands, and what it answers and announces is printed as it comes.
//!
//! The device is read by one thread and written by another, with rings between (`device_line`), and the input is read by a third.
//! All else is one loop in one thread: it submits lines, polls the session, prints outcomes and lines, and waits on a bell that those
//! threads ring, or until a tick is due. So nothing is done while nothing comes.
//!
//! # Layout
//!
//! - `on_device`, `settings`, `patience`: from a device's path to its status, over its threads (`file_threads`).
//! - `data_device`, `data_drive`: one with files beside connections that carry data.
//! - `running`, `driving`, `ending`, `fault`: a drive over any line. `users`, `plan`, `queues`, `turns`, `channels`,
//!   `input`: what it asks.
//! - `showing`, `pieces`, `saying`: what it prints. `captured_line`: what it captures.
//! - `laws`.
#![tactic(auto)]

mod captured_line;
mod channels;
mod data_device;
mod data_drive;
mod driving;
mod ending;
mod fault;
mod input;
pub mod laws;
mod on_device;
mod patience;
mod pieces;
mod plan;
mod queues;
mod running;
mod saying;
mod settings;
mod showing;
mod turns;
mod users;

pub use data_device::drive_data_run;
pub use data_drive::drive_data_over;
pub use fault::{DriveFault, GiveUp};
pub use file_threads::DataPath;
pub use on_device::{drive_run, drive_threaded};
pub use running::{Driven, drive_over};
pub use settings::Settings;
