//! What `modemctl` does at each of its words: reads octets as frames, replays a script, and runs a bench of callers in threads
//! with a simulated modem.
//!
//! # Layout
//!
//! - `runs`, `stop`, `reasons`, `input`, `writing`: a run over a reader and two writers, and how it ends.
//! - `dump`, `framing`: `frames`. `script`, `dialect_runs`, `texts`: `replay`. `bench/`: `bench`. `steps`, `own_answers`: files for `sim`.
//! - `laws`.
#![tactic(auto)]

mod bench;
mod dialect_runs;
mod dump;
mod framing;
mod input;
pub mod laws;
mod own_answers;
mod reasons;
mod runs;
mod script;
mod steps;
mod stop;
mod texts;
mod writing;

pub use bench::{bench_run, bench_run_explained};
pub use ctl_text::Expected;
pub use dialect_runs::{dialect_from, replay_with_dialect_run, replay_with_dialect_run_explained};
pub use modem_bench::Cause;
pub use own_answers::{AnswerPart, AnswersStop, answers_from, read_answers};
pub use runs::{frames_run, frames_run_explained, replay_run, replay_run_explained};
pub use script::read_script;
pub use steps::{read_steps, steps_from};
pub use stop::{DialectFault, Stop};
pub use texts::{push_act, push_act_by, push_frame};
pub use writing::{give_up, give_up_explained};
