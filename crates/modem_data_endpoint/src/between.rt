//! Octets between a relay and the endpoint behind it.
ghost use Rattle.std.specs.Prelude.{◌≡◌, ◌≢◌, ◌⊎◌, ◌<◌, [], length, None, IfOk, IfErr, OnOk, false};
ghost use Rattle.modem_desk.specs.Ends.{DriverView};
ghost use Rattle.modem_desk.specs.declared.request.Ask.TheVariants as Ask;
ghost use Rattle.modem_history.specs.Sessions.{LineView};
ghost use Rattle.modem_driver.specs.Endpoints.{GivesOctets, HoldsNothingBack, Numbers};
ghost use Rattle.modem_data.specs.Switching.{is_behind_lines};
ghost use Rattle.modem_data.specs.Passing.{carries};
ghost use Rattle.modem_data.specs.PipeSets.{OfEachPast};
ghost use Rattle.modem_data_endpoint.specs.Joined.{HandsOver, RefusesCommand, TakesOver};
ghost use Rattle.modem_data_endpoint.specs.declared.between.Taken.TheVariants as taken;

use at_text::CommandLine;
use modem_data::Relay;
use modem_driver::{Blocked, Endpoint, RequestRefused};
use mux_frame::Dlci;

/// Hands the octets that wait for the driver to the endpoint, and says what keeps it from going on, if anything does. Where nothing
/// does, it took all. Else call this again: after the endpoint's octets for the line were taken, or once there is memory.
#[tactic(auto, using(crate::proofs::Joins::hands_over))]
pub fn hand_over(relay: &mut Relay, endpoint: &mut Endpoint) -> Option<Blocked>
    ensures { HandsOver relay.old relay.new endpoint.old endpoint.new result }
{
    let part = endpoint.handle_input(relay.for_driver());
    relay.handed(part.taken);
    part.blocked
}

/// What came of asking an endpoint for octets for the line.
#[derive(Clone, Copy)]
pub enum Taken {
    /// It gave an octet, which the relay took.
    One,
    /// It holds nothing back.
    Nothing,
    /// It wasn't asked: octets or a frame of the driver's wait at the relay, and have to go first.
    RelayFirst,
}

/// Takes the next octet of the endpoint for the line, where nothing of the driver's waits at the relay. Call `Relay::ready` after Nothing
/// and RelayFirst alone: so no data overtakes what the endpoint has queued.
#[tactic(auto, using(crate::proofs::Joins::takes_over))]
pub fn take_over(relay: &mut Relay, endpoint: &mut Endpoint) -> Taken
    ensures one { result ≡ taken.One → TakesOver relay.old relay.new endpoint.old endpoint.new }
    ensures nothing { result ≡ taken.Nothing → HoldsNothingBack endpoint.new }
    ensures none { result ≡ taken.Nothing → (l : LineView) (d : DriverView) → GivesOctets l d endpoint.old endpoint.new [] }
    ensures none_at_hand { result ≡ taken.Nothing → relay.old.inner.next ≡ None }
    ensures still { result ≢ taken.One → relay.new ≡ relay.old }
    ensures unasked { result ≡ taken.RelayFirst → endpoint.new ≡ endpoint.old }
    ensures first { result ≡ taken.RelayFirst → (0 < length relay.old.to_line) ⊎ (relay.old.inner.next ≢ None) }
{
    if !relay.wants_driver() {
        return Taken::RelayFirst;
    }
    let mut octet = [0];
    if endpoint.poll_output(&mut octet) == 0 {
        return Taken::Nothing;
    }
    relay.feed_driver(&octet);
    Taken::One
}

/// A command that isn't taken, which is handed back.
#[derive(Drop)]
pub enum CommandRefused {
    /// 3: data is under way on the connection.
    CarriesData(CommandLine),
    /// 1 or 2: the endpoint refuses it.
    Request(RequestRefused),
}

impl CommandRefused {
    ghost use Rattle.std.specs.Prelude.{◌≡◌};
    ghost use Rattle.modem_data_endpoint.specs.Numbered.{command_refused_number};

    /// The number of this refusal.
    pub fn number(&self) -> u8
        ensures { result ≡ command_refused_number self.now }
    {
        match self {
            CommandRefused::CarriesData(_) => 3,
            CommandRefused::Request(refused) => refused.why.number(),
        }
    }
}

/// Asks for a command line to be sent on a connection, as `Endpoint::command` does. Refused with 3 CarriesData where data is under way on
/// it.
pub fn command(
    relay: &Relay,
    endpoint: &mut Endpoint,
    dlci: Dlci,
    line: CommandLine,
) -> Result<u64, CommandRefused>
    ensures takes { IfOk result (λ n. Numbers endpoint.old endpoint.new (Ask.Command dlci line) n) }
    ensures lines { OnOk result (OfEachPast relay.now.pipes (λ role past. false ≡ is_behind_lines (carries role dlci.number past))) }
    ensures refused { IfErr result (λ e. RefusesCommand relay.now endpoint.old endpoint.new dlci line e) }
{
    if relay.is_behind_lines(dlci) {
        return Err(CommandRefused::CarriesData(line));
    }
    match endpoint.command(dlci, line) {
        Ok(number) => Ok(number),
        Err(refused) => Err(CommandRefused::Request(refused)),
    }
}
