//! Typed commands and replies of a modem (3GPP TS 27.007, clauses 5 to 10), in the line syntax of ITU-T V.250, clause
//! 5. `Command::line` writes a command and `Command::read` reads one; `Reply::read` reads an answer.
//!
//! # Layout
//!
//! - `command`: commands, and the table of those whose text is fixed. `writing`, `reading`, `texts`: commands with values.
//! - `command_lines`: the commands of one line. `forms`: the forms of values.
//! - `reply`, `answers`, `registration`, `cells`, `cme`: replies. `params`, `values`: their parameters.
//! - `error`, `laws`.
#![tactic(auto)]

mod answers;
mod cells;
mod cme;
mod command;
mod command_lines;
mod error;
pub mod forms;
pub mod laws;
mod params;
mod reading;
mod registration;
mod reply;
mod texts;
mod values;
mod writing;

pub use cme::cme_text;
pub use command::{Command, OperChoice, Pdp};
pub use command_lines::{begins_with_at, commands_in, is_letter_a, is_letter_t};
pub use error::{CmdError, ReplyFault};
pub use registration::{Registration, RegistrationStatus};
pub use reply::{Context, Contexts, NamedOper, PinState, Reply};
pub use texts::{Apn, OperNumber, Pin, Quoted};
