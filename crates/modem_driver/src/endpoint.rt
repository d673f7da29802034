//! A driver that its caller drives: octets in, octets out, answers polled. It has no line, no desk, no
//! thread and no clock.
ghost use Rattle.std.specs.Prelude.{◌≡◌, ◌↔◌, ◌<◌, None, Some, IfOk, IsErrOf};
ghost use Rattle.mux_frame.specs.Spelling.{IsBadN1};
ghost use Rattle.modem_driver.specs.Endpoints.{endpoint_by, new_endpoint, Begins, BeginsBy};
ghost use Rattle.at_text.specs.Rules.{dialect_of};
ghost use Rattle.modem_driver.specs.declared.session.error.SessionError.TheVariants as why;

mod error;
mod handing;
mod octets_in;
mod octets_out;
mod requests;
mod time;

use crate::machine::Machine;
use crate::session::SessionError;
use at_text::{Dialect, UrcKind};
pub use error::{RequestError, RequestRefused};
pub use handing::Left;
use std::alloc::Global;
use std::marker::Model;

/// A driver between its caller and the octets of a line that the caller reads and writes. It numbers
/// the requests itself.
///
/// - Begin with `new` or `with_dialect`, once the modem is in the multiplexer (`Entry`). `open` 0 first; the others once that is
///   told Opened.
/// - `open`, `close`, `command`, `probe` and `stop` give the number of a request. A refused one has no number.
/// - Hand what the line gave to `handle_input`, and write what `poll_output` gives. Where the input is blocked, write or free memory
///   first, and then hand in the rest.
/// - After each of these calls, poll: `poll_outcome` gives an outcome with its request's number, `poll_unsolicited` an unsolicited line.
/// - `tick` once in each T1 while `wants_tick` says so. `line_lost` says that the line failed: every request is told LineLost.
/// - `finish` gives what is left, at any time.
#[derive(Drop)]
pub struct Endpoint {
    machine: Machine,
    next: u64,
}

impl Model for Endpoint {
    ghost use Rattle.std.specs.Prelude.{◌≡◌, []};
    ghost use Rattle.modem_driver.specs.Endpoints.{EndpointState};

    ghost Value = { EndpointState };

    ghost view = { λ e. record { machine = e.machine; next = e.next } };

    ghost invariant = { λ e. e.machine.unfed ≡ [] };
}

/// Why a frame at hand isn't handled yet.
#[derive(Clone, Copy, Debug)]
pub enum Blocked {
    /// What the frame calls for has no room behind the octets that wait: `poll_output` first.
    OutputFirst,
    /// An allocation was refused.
    NoMemory,
}

/// How many octets of an input were taken, and what keeps the endpoint from going on, if anything does.
#[derive(Clone, Copy)]
pub struct Input {
    pub taken: usize,
    pub blocked: Option<Blocked>,
}

impl Input {
    /// All was taken and handled.
    pub(crate) fn done(taken: usize) -> Input
        ensures { result ≡ record { taken = taken; blocked = None } }
    {
        Input {
            taken,
            blocked: None,
        }
    }

    /// A frame isn't handled yet.
    pub(crate) fn blocked(taken: usize, why: Blocked) -> Input
        ensures { result ≡ record { taken = taken; blocked = Some why } }
    {
        Input {
            taken,
            blocked: Some(why),
        }
    }
}

impl Endpoint {
    /// A new endpoint at a standard modem. It listens to these kinds of unsolicited lines, and its first request has
    /// this number. N1 is the most octets of information that a frame may have. It takes room for 128 requests and 128
    /// outcomes. Refusals: 2 BadN1 where N1 isn't 31 to 32767, checked first; 1 NoMemory.
    pub fn new(
        alloc: Global,
        n1: u16,
        kinds: &[UrcKind],
        first: u64,
    ) -> Result<Endpoint, SessionError>
        ensures ok { IfOk result (λ e. e ≡ new_endpoint n1 kinds.now first) }
        ensures begins { IfOk result (λ e. Begins n1 kinds.now e) }
        ensures bad_n1 { IsErrOf result why.BadN1 ↔ IsBadN1 n1 }
    {
        let machine = Machine::new(alloc, n1, kinds)?;
        Ok(Endpoint {
            machine,
            next: first,
        })
    }

    /// As `new`, at a modem whose codes are those of this dialect. It takes a copy of the dialect.
    pub fn with_dialect(
        alloc: Global,
        n1: u16,
        dialect: &Dialect,
        kinds: &[UrcKind],
        first: u64,
    ) -> Result<Endpoint, SessionError>
        ensures ok { IfOk result (λ e. e ≡ endpoint_by dialect.now n1 kinds.now first) }
        ensures begins { IfOk result (λ e. BeginsBy (dialect_of dialect.now) n1 kinds.now e) }
        ensures bad_n1 { IsErrOf result why.BadN1 ↔ IsBadN1 n1 }
    {
        let machine = Machine::with_dialect(alloc, n1, dialect, kinds)?;
        Ok(Endpoint {
            machine,
            next: first,
        })
    }
}
