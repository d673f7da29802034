//! Files beside the connections of a line that carry data: what a file gives goes to its connection, and what comes there goes to the
//! file, with each read and write of the line's driver.
//!
//! # Layout
//!
//! - `filed_line`: the line with its files. `serial`: what a driver reads and writes. `before`: what passed before.
//! - `data_file`: a file. `unwritten`, `piece`, `kept`: octets that wait for it.
//! - `handed`: a line in memory, whose owner hands octets in and out.
#![tactic(auto)]

mod before;
mod data_file;
mod filed_line;
mod handed;
mod kept;
mod piece;
mod serial;
mod unwritten;

pub use data_file::DataFile;
pub use filed_line::FiledLine;
pub use handed::HandedLine;
