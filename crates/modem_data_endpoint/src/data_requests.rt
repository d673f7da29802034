//! What a caller asks of an endpoint with connections that carry data, and what it takes from there.
ghost use Rattle.std.specs.Prelude.{◌≡◌, ◌↔◌, List, true, false, IfOk, IfErr, OnOk, OnErr, MatchOption, []};
ghost use Rattle.std.specs.List.{list_any};
ghost use Rattle.modem_desk.specs.Ends.{DriverView};
ghost use Rattle.modem_desk.specs.declared.request.Ask.TheVariants as Ask;
ghost use Rattle.modem_history.specs.Sessions.{LineView};
ghost use Rattle.modem_driver.specs.Endpoints.{GivesLine, GivesOutcome, IsFull, Loses, Numbers, Refuses, Ticks, wants_time};
ghost use Rattle.modem_driver.specs.declared.endpoint.error.RequestError.TheVariants as why;
ghost use Rattle.modem_data.specs.Switching.{is_behind_lines};
ghost use Rattle.modem_data.specs.Passing.{Lost, carries};
ghost use Rattle.modem_data.specs.PipeSets.{OfEachPast};
ghost use Rattle.modem_data.specs.Hops.{Hops, Passed};
ghost use Rattle.modem_data_endpoint.specs.Joined.{RefusesCommand};

use crate::between::{CommandRefused, command};
use crate::data_endpoint::DataEndpoint;
use at_text::CommandLine;
use modem_desk::{Outcome, Urc};
use modem_driver::{RequestError, SessionFault};
use mux_frame::Dlci;

impl DataEndpoint {
    /// Asks for a connection to be opened, as `Endpoint::open` does.
    pub fn open(&mut self, dlci: Dlci) -> Result<u64, RequestError>
        ensures takes { IfOk result (λ n. Numbers self.old.endpoint self.new.endpoint (Ask.OpenChannel dlci) n) }
        ensures refused { OnErr result (Refuses self.old.endpoint self.new.endpoint) }
        ensures full { IfErr result (λ e. (e ≡ why.Full) ↔ IsFull self.new.endpoint) }
        ensures beside { self.new.relay ≡ self.old.relay }
    {
        self.endpoint.open(dlci)
    }

    /// Asks for a connection to be closed, as `Endpoint::close` does. Data that was given and hasn't left by then isn't sent.
    pub fn close(&mut self, dlci: Dlci) -> Result<u64, RequestError>
        ensures takes { IfOk result (λ n. Numbers self.old.endpoint self.new.endpoint (Ask.CloseChannel dlci) n) }
        ensures refused { OnErr result (Refuses self.old.endpoint self.new.endpoint) }
        ensures full { IfErr result (λ e. (e ≡ why.Full) ↔ IsFull self.new.endpoint) }
        ensures beside { self.new.relay ≡ self.old.relay }
    {
        self.endpoint.close(dlci)
    }

    /// Asks for the multiplexer to be ended, as `Endpoint::stop` does.
    pub fn stop(&mut self) -> Result<u64, RequestError>
        ensures takes { IfOk result (λ n. Numbers self.old.endpoint self.new.endpoint Ask.Stop n) }
        ensures refused { OnErr result (Refuses self.old.endpoint self.new.endpoint) }
        ensures full { IfErr result (λ e. (e ≡ why.Full) ↔ IsFull self.new.endpoint) }
        ensures beside { self.new.relay ≡ self.old.relay }
    {
        self.endpoint.stop()
    }

    /// Asks for a command line to be sent on a connection, as `Endpoint::command` does. Refused with 3 CarriesData where data is under
    /// way on it, which changes nothing.
    pub fn command(&mut self, dlci: Dlci, line: CommandLine) -> Result<u64, CommandRefused>
        ensures takes { IfOk result (λ n. Numbers self.old.endpoint self.new.endpoint (Ask.Command dlci line) n) }
        ensures lines { OnOk result (OfEachPast self.old.relay.pipes (λ role past. false ≡ is_behind_lines (carries role dlci.number past))) }
        ensures refused { IfErr result (λ e. RefusesCommand self.old.relay self.old.endpoint self.new.endpoint dlci line e) }
        ensures beside { self.new.relay ≡ self.old.relay }
    {
        command(&self.relay, &mut self.endpoint, dlci, line)
    }

    /// One T1 has passed, as `Endpoint::tick` says.
    pub fn tick(&mut self) -> Result<(), SessionFault>
        ensures ticks { OnOk result ((l : LineView) (d : DriverView) → Ticks l d self.old.endpoint self.new.endpoint) }
        ensures refused { OnErr result (Refuses self.old.endpoint self.new.endpoint) }
        ensures beside { self.new.relay ≡ self.old.relay }
    {
        self.endpoint.tick()
    }

    /// Whether a tick may send something again or give something up, as `Endpoint::wants_tick` says.
    pub fn wants_tick(&self) -> bool
        ensures { result ≡ list_any wants_time self.now.endpoint.machine.core.hand }
    {
        self.endpoint.wants_tick()
    }

    /// The line was lost: each lane is over, and every request in hand is told LineLost, as `Endpoint::line_lost` says. Where memory is
    /// refused call it again.
    pub fn line_lost(&mut self) -> Result<(), SessionFault>
        ensures lanes { Hops self.old.relay self.new.relay (Passed Lost) }
        ensures loses { OnOk result ((l : LineView) (d : DriverView) → Loses l d self.old.endpoint self.new.endpoint) }
        ensures gone { OnOk result (self.new.endpoint.machine.core.lost ≡ true) }
        ensures refused { OnErr result (Refuses self.old.endpoint self.new.endpoint) }
    {
        self.relay.lost();
        self.endpoint.line_lost()
    }

    /// Removes and gives the first outcome that waits, if any. It takes no memory.
    pub fn poll_outcome(&mut self) -> Option<Outcome>
        ensures gives { MatchOption result ((self.old.endpoint.machine.unplaced ≡ []) × (self.new.endpoint ≡ self.old.endpoint))
            (λ o. GivesOutcome self.old.endpoint self.new.endpoint o) }
        ensures beside { self.new.relay ≡ self.old.relay }
    {
        self.endpoint.poll_outcome()
    }

    /// Removes and gives the first unsolicited line that waits, if any. It takes no memory.
    pub fn poll_unsolicited(&mut self) -> Option<Urc>
        ensures gives { MatchOption result ((self.old.endpoint.machine.unannounced ≡ []) × (self.new.endpoint ≡ self.old.endpoint))
            (λ u. GivesLine self.old.endpoint self.new.endpoint u) }
        ensures beside { self.new.relay ≡ self.old.relay }
    {
        self.endpoint.poll_unsolicited()
    }
}
