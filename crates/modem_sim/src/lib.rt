//! A simulated modem, to test its users with. `Modem` answers command lines (3GPP TS 27.007, clauses 5 to 10, in the
//! line syntax of ITU-T V.250, clause 5). `Sim` puts a modem at the far end of a multiplexed line (3GPP TS 27.010),
//! with a script of what it does of its own accord.
//!
//! # Layout
//!
//! - `modem`, `state`, `contexts`, `answers`: the standard's commands. `wording`, `words`, `activity`, `values`: the second
//!   table. `announcing`: reports. `own_answers`: answers of one's own, before both tables.
//! - `sim`, `polling`, `error`: a modem at its line. `sim_machine`, `going`: its turns. `sim_core`, `channel`, `replying`, `handing`: its end
//!   without the line. `script`, `doing`: what it does of its own accord.
//! - `laws`.
#![tactic(auto)]

mod activity;
mod announcing;
mod answers;
mod channel;
mod contexts;
mod doing;
mod error;
mod going;
mod handing;
pub mod laws;
mod modem;
mod own_answers;
mod polling;
mod replying;
mod script;
mod sim;
mod sim_core;
mod sim_machine;
mod state;
mod values;
mod wording;
mod words;

pub use doing::is_line;
pub use error::SimError;
pub use modem::{Modem, ModemStart};
pub use own_answers::{OwnAnswer, OwnAnswers, OwnLine, OwnLines};
pub use replying::reply;
pub use script::{Script, Step, StepAct, Steps};
pub use sim::{Sim, SimRefused, SimTurn};
