//! Texts that programs read and print: the lines of an input, commands on connections, outcomes, and lines that are announced.
//!
//! # Layout
//!
//! - `lines`, `words`, `dialects`: texts that are read. `refusal`, `expected`, `clashes`: why they aren't.
//! - `told`, `writing`: texts that are printed.
#![tactic(auto)]

mod clashes;
mod dialects;
mod expected;
mod lines;
mod refusal;
mod told;
mod words;
mod writing;

pub use clashes::Clash;
pub use dialects::{DialectRefusal, RulePart, dialect_named, read_dialect};
pub use expected::{Expected, say_bad_line};
pub use lines::{ended_line, first_word, next_line, split_last, split_once};
pub use refusal::Refusal;
pub use told::{answer_word, push_heard, push_heard_by, push_line, push_lines, push_told};
pub use words::{command_of, connection_of, last_connection};
pub use writing::{put_line, put_octets, say_line, write_octets};
