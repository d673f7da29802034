//! What the callers of a bench are to ask for.
ghost use Rattle.std.specs.Prelude.{◌≡◌, IfOk};
ghost use Rattle.modem_bench.specs.Asks.{asks_for, is_named};

use at_text::CommandLine;
use modem_desk::Ask;
use mux_frame::Dlci;
use std::alloc::{AllocError, Global};

/// What one caller asks for: a command line on a connection that isn't 0.
#[derive(Drop)]
pub struct Submission {
    /// The caller's number, from 0.
    pub caller: u8,
    /// The connection, 1 to 61.
    pub dlci: Dlci,
    /// The command line.
    pub line: CommandLine,
}

/// Whether one of these is for this connection.
pub fn names(submissions: &[Submission], dlci: Dlci) -> bool
    ensures { result ≡ is_named submissions.now dlci.number }
{
    for submission in submissions {
        if submission.dlci.number() == dlci.number() {
            return true;
        }
    }
    false
}

/// What this caller asks for, in order.
pub fn asks_for(
    alloc: Global,
    submissions: &[Submission],
    caller: u8,
) -> Result<Vec<Ask>, AllocError>
    ensures { IfOk result (λ asks. asks.items ≡ asks_for caller submissions.now) }
{
    let mut asks = Vec::new(alloc);
    for submission in submissions {
        if submission.caller == caller {
            let line = submission.line.copy()?;
            asks.push(Ask::Command(submission.dlci, line))?;
        }
    }
    Ok(asks)
}
