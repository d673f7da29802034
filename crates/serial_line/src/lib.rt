//! Lines of octets: what a serial line is to its users (`SerialLine`), a line in memory whose cuts and faults are
//! chosen beforehand (`CutLine`), a line between two threads (`ThreadLine`), and a line over a reader and a writer
//! (`StreamLine`).
//!
//! # Layout
//!
//! - `line`, `errors`: the trait. `counting`: its counts. `history`, `read_buffer`, `tape`: octets.
//! - `cut_line`, `cuts`: a line in memory. `thread_line`: between threads. `stream_line`: over a reader and a writer.
#![tactic(auto)]

mod counting;
mod cut_line;
mod cuts;
mod errors;
mod history;
mod line;
mod read_buffer;
mod stream_line;
mod tape;
mod thread_line;

pub use counting::count_if_none;
pub use cut_line::CutLine;
pub use cuts::Cut;
pub use errors::LineError;
pub use history::History;
pub use line::{LineFault, SerialLine};
pub use read_buffer::ReadBuffer;
pub use stream_line::{StreamLine, ZeroRead};
pub use thread_line::ThreadLine;
