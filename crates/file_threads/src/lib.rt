//! Files and devices whose calls wait, by threads and rings, and how files beside connections that carry data end.
//!
//! # Layout
//!
//! - `opening`: a device, by its path. `device`: the threads that read and write one.
//! - `data_path`, `starting`: files beside connections, by their paths.
//! - `ending`: what came for files is written. `saying`, `full`: what is said of them then.
//! - `fault`.
#![tactic(auto)]

mod data_path;
mod device;
mod ending;
mod fault;
mod full;
mod opening;
mod saying;
mod starting;

pub use data_path::DataPath;
pub use device::{DeviceThreads, StopBell, line_beside, read_beside, write_beside};
pub use ending::{LOOKS, PAUSE, write_out};
pub use fault::FileFault;
pub use full::say_full;
pub use opening::open_device;
pub use saying::{quoted, say_files, say_of, say_unsent};
pub use starting::{Unopened, start_files};
