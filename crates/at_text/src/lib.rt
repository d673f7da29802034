//! AT commands as text (ITU-T V.250, clause 5; 3GPP TS 27.007, clause 9). `CommandLine` is a line to send, `LineReader`
//! reads lines from octets, `Window` tells which lines answer a command, and a `Dialect` says which lines are final
//! codes and which are unsolicited.
//!
//! # Layout
//!
//! - `command`, `error`: what is sent. `reader`, `line_run`, `text`, `octets`: lines of what comes.
//! - `finals`, `unsolicited`: the standards' lists. `dialect`, `dialect_error`, `rules`, `heads`, `known_rules`, `clashes`: rules beside
//!   them.
//! - `window`: which lines answer a command. `under_way`: the same, its text lent. `answer_lines`: the lines of an answer, one text.
//!   `answer`: one such line by itself.
//! - `laws`, `dialect_laws`.
#![tactic(auto)]

mod answer;
mod answer_lines;
mod clashes;
mod command;
mod dialect;
mod dialect_error;
pub mod dialect_laws;
mod error;
mod finals;
mod heads;
mod known_rules;
pub mod laws;
mod line_run;
pub mod octets;
mod reader;
mod rules;
mod text;
mod under_way;
mod unsolicited;
mod window;

pub use answer::AnswerLine;
pub use answer_lines::{AnswerIter, AnswerLines};
pub use clashes::{StandardLine, have_line_in_common};
pub use command::CommandLine;
pub use dialect::Dialect;
pub use dialect_error::DialectError;
pub use error::TextError;
pub use finals::{Final, final_of};
pub use line_run::{LineRun, RunMark};
pub use reader::{Line, LineReader, run_len};
pub use rules::Form;
pub use text::Text;
pub use under_way::{Placed, UnderWay, WindowMark};
pub use unsolicited::{UrcKind, unsolicited_of};
pub use window::{Seen, Window};
