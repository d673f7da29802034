//! A bench: callers, the driver and a simulated modem, in threads of their own (`run_bench`), or a session and a
//! simulated modem in rounds in one thread (`meet`, `run_in_rounds`).
//!
//! # Layout
//!
//! - `running`, `threads`, `crew`, `limit`: a bench from its beginning to its end. `ends`, `settling`: both of these.
//! - `driving`, `calling`, `simulating`: its threads. `submission`: what is asked. `signals`, `bells`, `ringing_line`: how they wake one
//!   another. `cause`: why it is given up.
//! - `meeting`, `rounds`: the same in one thread.
//! - `laws`.
#![tactic(auto)]

mod bells;
mod calling;
mod cause;
mod crew;
mod driving;
mod ends;
pub mod laws;
mod limit;
mod meeting;
mod ringing_line;
mod rounds;
mod running;
mod settling;
mod signals;
mod simulating;
mod submission;
mod threads;

pub use cause::Cause;
pub use limit::Limits;
pub use meeting::{Meeting, meet};
pub use rounds::{Rest, run_in_rounds};
pub use running::{run_bench, run_bench_limited, run_bench_within};
pub use signals::Fault;
pub use submission::Submission;
