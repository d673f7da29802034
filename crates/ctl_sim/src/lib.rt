//! A modem for any client: plain command lines until one enters the multiplexer (27.007, 5.7), then the multiplexer until it is closed
//! down, by a CLD or by a DISC on 0, then plain lines again.
//!
//! # Layout
//!
//! - `serving`, `writing`, `fault`: a modem on a reader and a writer. `server`: the same, octets in and octets out.
//! - `plain`, `entry`: plain lines. `mux`, `held_line`: in the multiplexer. `steps`: scripts.
//! - `watching`, `parts`: captures.
//! - `data_serving`, `data_client`, `data_line`, `data_saying`, `data_fault`: the same with files beside connections.
#![tactic(auto)]

mod data_client;
mod data_fault;
mod data_line;
mod data_saying;
mod data_serving;
mod entry;
mod fault;
mod held_line;
mod mux;
mod parts;
mod plain;
mod server;
mod serving;
mod steps;
mod watching;
mod writing;

pub use data_fault::DataFault;
pub use data_serving::sim_data_run;
pub use entry::mux_entry;
pub use fault::{BadOption, ServeFault};
pub use plain::PlainMode;
pub use serving::{SimOptions, sim_captured, sim_run};
