//! A line with a relay before the driver.
ghost use Rattle.std.specs.Prelude.{◌≡◌, MatchResult};
ghost use Rattle.std.specs.Borrow.{Lends, sem};
ghost use Rattle.modem_data_line.specs.DataLines.{new_data_line};

use modem_data::Relay;
use serial_line::{History, ReadBuffer, SerialLine};
use std::alloc::Global;
use std::marker::Model;

/// A line on which some connections carry data. A driver reads and writes it as its line (`SerialLine`). Callers of data use
/// its other calls, such as `give` and `read`. Where a session has the line, they reach it by `Session::line_mut`.
///
/// - What the line itself gives goes to the relay. Of its frames all but data go on to the driver.
/// - What the driver writes goes to the relay. Its frames go on to the line, before data. Data leaves only once the driver's
///   last offer was taken whole.
/// - Each call of the driver's writes the line too. While the driver rests, call `flush` after data was given.
/// - After a fault of the line each write of the driver's fails. Its reads fail once all that waits for the driver is read.
///
/// Contracts see the line itself, the relay, what waits between the two, and what the driver read and wrote here.
#[derive(Drop)]
pub struct DataLine<L: SerialLine> {
    pub(crate) line: L,
    pub(crate) relay: Relay,
    pub(crate) unfed: ReadBuffer,
    pub(crate) received: History,
    pub(crate) sent: History,
    pub(crate) is_behind: bool,
    pub(crate) is_lost: bool,
    pub(crate) calls: u64,
    pub(crate) failures: u64,
    pub(crate) empty_reads: u64,
    pub(crate) stalled_writes: u64,
}

impl<L: SerialLine> Model for DataLine<L> {
    ghost use Rattle.modem_data_line.specs.DataLines.{DataLineState};

    ghost Value = { DataLineState L };

    ghost view = { λ l. record {
      line = l.line;
      relay = l.relay;
      unfed = l.unfed;
      received = l.received;
      sent = l.sent;
      is_behind = l.is_behind;
      is_lost = l.is_lost;
      calls = l.calls;
      failures = l.failures;
      empty_reads = l.empty_reads;
      stalled_writes = l.stalled_writes;
    } };
}

impl<L: SerialLine> DataLine<L> {
    ghost use Rattle.modem_data_line.specs.contracts.data_line.DataLine.{the_row};

    /// This line and this relay, between which nothing has passed. Where memory is refused it hands both back.
    pub fn new(alloc: Global, line: L, relay: Relay) -> Result<DataLine<L>, (L, Relay)>
        ensures { MatchResult result (λ l. l ≡ new_data_line line relay) (λ back. (back.0 ≡ line) × (back.1 ≡ relay)) }
    {
        let Ok(unfed) = ReadBuffer::new(alloc) else {
            return Err((line, relay));
        };
        Ok(DataLine {
            line,
            relay,
            unfed,
            received: History::new(),
            sent: History::new(),
            is_behind: false,
            is_lost: false,
            calls: 0,
            failures: 0,
            empty_reads: 0,
            stalled_writes: 0,
        })
    }

    /// The line itself.
    pub fn line(&self) -> &L
        ensures { result.now ≡ self.now.line }
    {
        &self.line
    }

    /// Lends the line itself. What passed between it and the relay still fits afterwards, if the octets that it gave and took stay as they
    /// were.
    pub fn line_mut(&mut self) -> &mut L
        ensures value { result.now ≡ self.old.line }
        ensures* lent { sem 𝓛
            (Lends (the_row L.row L.SerialLine) L.row self.entry result (λ l. record self.old { line = l })) }
    {
        &mut self.line
    }

    /// The line itself and the relay, which keeps the octets that wait there for the line or the driver.
    pub fn into_parts(self) -> (L, Relay)
        ensures line { result.0 ≡ self.line }
        ensures relay { result.1 ≡ self.relay }
    {
        (self.line, self.relay)
    }
}
