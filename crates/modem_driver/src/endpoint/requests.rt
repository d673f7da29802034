//! Requests that the caller makes.
ghost use Rattle.std.specs.Prelude.{◌≡◌, ◌↔◌, true, IfOk, IfErr, OnErr};
ghost use Rattle.modem_driver.specs.GettingSteps.{HasData};
ghost use Rattle.modem_driver.specs.Endpoints.{IsFull, Numbers, Refuses};
ghost use Rattle.modem_driver.specs.declared.endpoint.error.RequestError.TheVariants as why;
ghost use Rattle.modem_desk.specs.declared.request.Ask.TheVariants as Ask;

use crate::endpoint::Endpoint;
use crate::endpoint::error::{RequestError, RequestRefused};
use at_text::CommandLine;
use modem_desk::{Ask, Request};
use mux_frame::{Dlci, ProbeData};

/// The caller of every request of an endpoint.
const CALLER: u8 = 0;

impl Endpoint {
    /// Makes a request, and says its number.
    #[tactic(auto, using(crate::proofs::endpoints::Requests::numbers, crate::proofs::endpoints::Requests::refuses, crate::proofs::endpoints::Requests::fed_after))]
    fn request(&mut self, ask: Ask) -> Result<u64, RequestRefused>
        ensures takes { IfOk result (λ n. Numbers self.old self.new ask n) }
        ensures refused { OnErr result (Refuses self.old self.new) }
        ensures full { IfErr result (λ e. (e.why ≡ why.Full) ↔ IsFull self.new) }
        ensures memory { IfErr result (λ e. e.why ≡ why.NoMemory → HasData self.new.machine) }
        ensures back { IfErr result (λ e. e.ask ≡ ask) }
    {
        let handled = self.machine.handle_frames();
        if self.next == u64::MAX || self.machine.is_full() {
            return Err(RequestRefused::new(RequestError::Full, ask));
        }
        let Ok(()) = handled else {
            return Err(RequestRefused::new(RequestError::NoMemory, ask));
        };
        let number = self.next;
        let request = Request {
            caller: CALLER,
            number,
            ask,
        };
        self.machine.take_request(request);
        self.next += 1;
        Ok(number)
    }
}

impl Endpoint {
    /// Whether a request would be refused as Full: 128 requests are in hand or told and not polled, or all numbers are used up.
    pub fn is_full(&self) -> bool
        ensures { (result ≡ true) ↔ IsFull self.now }
    {
        self.next == u64::MAX || self.machine.is_full()
    }

    /// Asks for a connection to be opened, and gives the request's number; the outcome has that number. It handles the frames at
    /// hand first. A refusal changes nothing else and uses up no number. Refusals: 2 Full where 128 requests are in hand or told
    /// and not polled, or all numbers are used up; else 1 NoMemory, where memory for data of an open connection is refused; that
    /// data stays at hand.
    pub fn open(&mut self, dlci: Dlci) -> Result<u64, RequestError>
        ensures takes { IfOk result (λ n. Numbers self.old self.new (Ask.OpenChannel dlci) n) }
        ensures refused { OnErr result (Refuses self.old self.new) }
        ensures full { IfErr result (λ e. (e ≡ why.Full) ↔ IsFull self.new) }
        ensures memory { IfErr result (λ e. e ≡ why.NoMemory → HasData self.new.machine) }
    {
        match self.request(Ask::OpenChannel(dlci)) {
            Ok(number) => Ok(number),
            Err(refused) => Err(refused.why),
        }
    }

    /// Asks for a connection to be closed, and gives the request's number. Otherwise as `open`.
    pub fn close(&mut self, dlci: Dlci) -> Result<u64, RequestError>
        ensures takes { IfOk result (λ n. Numbers self.old self.new (Ask.CloseChannel dlci) n) }
        ensures refused { OnErr result (Refuses self.old self.new) }
        ensures full { IfErr result (λ e. (e ≡ why.Full) ↔ IsFull self.new) }
        ensures memory { IfErr result (λ e. e ≡ why.NoMemory → HasData self.new.machine) }
    {
        match self.request(Ask::CloseChannel(dlci)) {
            Ok(number) => Ok(number),
            Err(refused) => Err(refused.why),
        }
    }

    /// Asks for a command line to be sent on a connection and its answer read, and gives the request's number. Refusals as those of
    /// `open`, which hand back what it asks for.
    pub fn command(&mut self, dlci: Dlci, line: CommandLine) -> Result<u64, RequestRefused>
        ensures takes { IfOk result (λ n. Numbers self.old self.new (Ask.Command dlci line) n) }
        ensures refused { OnErr result (Refuses self.old self.new) }
        ensures full { IfErr result (λ e. (e.why ≡ why.Full) ↔ IsFull self.new) }
        ensures memory { IfErr result (λ e. e.why ≡ why.NoMemory → HasData self.new.machine) }
        ensures back { IfErr result (λ e. e.ask ≡ Ask.Command dlci line) }
    {
        self.request(Ask::Command(dlci, line))
    }

    /// Asks for octets to be sent back by the other end, and gives the request's number. Refusals as those of `open`, which hand back
    /// what it asks for.
    pub fn probe(&mut self, octets: ProbeData) -> Result<u64, RequestRefused>
        ensures takes { IfOk result (λ n. Numbers self.old self.new (Ask.Probe octets) n) }
        ensures refused { OnErr result (Refuses self.old self.new) }
        ensures full { IfErr result (λ e. (e.why ≡ why.Full) ↔ IsFull self.new) }
        ensures memory { IfErr result (λ e. e.why ≡ why.NoMemory → HasData self.new.machine) }
        ensures back { IfErr result (λ e. e.ask ≡ Ask.Probe octets) }
    {
        self.request(Ask::Probe(octets))
    }

    /// Asks for the multiplexer to be ended, and gives the request's number. Otherwise as `open`.
    pub fn stop(&mut self) -> Result<u64, RequestError>
        ensures takes { IfOk result (λ n. Numbers self.old self.new Ask.Stop n) }
        ensures refused { OnErr result (Refuses self.old self.new) }
        ensures full { IfErr result (λ e. (e ≡ why.Full) ↔ IsFull self.new) }
        ensures memory { IfErr result (λ e. e ≡ why.NoMemory → HasData self.new.machine) }
    {
        match self.request(Ask::Stop) {
            Ok(number) => Ok(number),
            Err(refused) => Err(refused.why),
        }
    }
}
