//! A simulated modem at its line.
ghost use Rattle.std.specs.Prelude.{◌≡◌, ◌≢◌, ◌↔◌, ◌⊎◌, ◌+◌, ◌<◌, ◌≤◌, [], true, false, None, Ok, Err, IfOk, IfErr, IsErr, OnOk, OnErr, IsErrOf};
ghost use Rattle.std.specs.Borrow.{Lends, sem};
ghost use Rattle.mux_frame.specs.Spelling.{IsBadN1};
ghost use Rattle.modem_sim.specs.Acts.{end_of};
ghost use Rattle.modem_sim.specs.Sims.{FitsSim, SimGoes, end_given, failed_by, has_ended, has_failed, modem_of};
ghost use Rattle.modem_sim.specs.Turns.{GoesTurn, WantsMemory};

use crate::error::SimError;
use crate::modem::Modem;
use crate::script::Script;
use crate::sim_machine::{Room, SimMachine};
use mux_frame::Dlci;
use mux_station::ChannelState;
use serial_line::SerialLine;
use std::alloc::Global;
use std::marker::Model;

/// What a turn did.
#[derive(Clone, Copy, Debug)]
pub enum SimTurn {
    /// Octets came, went or were fed, a frame was got, octets were handed on, a step was done or passed over, a hold was let
    /// go, or a frame was put into the output.
    Moved,
    /// There was nothing to do.
    Idle,
    /// A CLD was asked for or came, and all is written.
    Ended,
}

/// Why a simulated modem wasn't made, and all that was handed in.
#[derive(Drop)]
pub struct SimRefused<L: SerialLine> {
    /// BadN1 or NoMemory.
    pub why: SimError,
    pub line: L,
    pub modem: Modem,
    pub script: Script,
}

/// A simulated modem at its end of a line.
///
/// - `new` takes a line, a `Modem` and a `Script` of what the modem does of its own accord. It is in the multiplexer from the first
///   octet on.
/// - Poll it as a future, or by `advance` in a loop of your own; `turn` is one step. It waits for nothing and holds no clock.
/// - It ends with Ended, behind a CLD, or with a fault; NoMemory is no end.
/// - `state` shows a connection, `unwritten` what the line hasn't taken. `finish` gives the line and the modem back.
#[derive(Drop)]
pub struct Sim<L: SerialLine> {
    line: L,
    pub(crate) machine: SimMachine,
}

impl<L: SerialLine> Model for Sim<L> {
    ghost use Rattle.modem_sim.specs.Sims.{SimState};

    ghost Value = { SimState L };

    ghost view = { λ s. record { line = s.line; machine = s.machine } };
}

impl<L: SerialLine> Sim<L> {
    ghost use Rattle.modem_sim.specs.contracts.sim.Sim.{the_row};
    ghost use Rattle.std.specs.Prelude.{List};
    ghost use Rattle.modem_sim.specs.Acts.{Act, End};
    ghost use Rattle.serial_line.specs.LineViews.{LineView};
    ghost use Rattle.modem_sim.specs.Sims.{state_shown};

    /// A new simulated modem, whatever its line did before. N1 is the most octets of information that a frame may have.
    /// Refusals, which hand everything back: 2 BadN1 where N1 isn't 31 to 32767, checked first; 1 NoMemory.
    pub fn new(
        alloc: Global,
        line: L,
        modem: Modem,
        script: Script,
        n1: u16,
    ) -> Result<Sim<L>, SimRefused<L>>
        ensures begins { IfOk result (λ s. FitsSim L.seen (L.seen line) (end_of n1 modem script) s []) }
        ensures line { IfOk result (λ s. s.line ≡ line) }
        ensures sound { IfOk result (λ s. has_failed s ≡ false) }
        ensures goes_on { IfOk result (λ s. end_given s ≡ None) }
        ensures bad_n1 { (IfErr result (λ r. r.why ≡ SimError.BadN1 → IsBadN1 n1))
            × (IsBadN1 n1 → IsErr result × IfErr result (λ r. r.why ≡ SimError.BadN1)) }
        ensures others { IfErr result (λ r. (r.why ≡ SimError.BadN1) ⊎ (r.why ≡ SimError.NoMemory)) }
        ensures back { IfErr result (λ r. (r.line ≡ line) × (r.modem ≡ modem) × (r.script ≡ script)) }
    {
        match Room::new(alloc, n1) {
            Ok(room) => Ok(Sim {
                line,
                machine: SimMachine::start(room, modem, script),
            }),
            Err(why) => Err(SimRefused {
                why,
                line,
                modem,
                script,
            }),
        }
    }

    /// Makes one turn, in this order: does the steps that are due; offers the line what is to be written; takes the next
    /// outgoing frame, where all is written; takes the frame at hand; reads. A turn after Ended gives Ended and does nothing.
    /// Refusals: 1 NoMemory, which drops nothing and leaves what takes memory to the next turn; 3 Line, where the line fails;
    /// 4 Failed, in every later turn, which does nothing.
    pub fn turn(&mut self) -> Result<SimTurn, SimError>
        ensures goes { SimGoes L.seen self.old self.new }
        ensures turn { IfOk result (λ says. GoesTurn L.seen self.old self.new says) }
        ensures failed { IsErrOf result SimError.Failed ↔ (has_failed self.old ≡ true) }
        ensures fails { has_failed self.new ≡ failed_by (has_failed self.old) result }
        ensures still { has_failed self.old ≡ true → self.new ≡ self.old }
        ensures over { has_failed self.old ≡ false → has_ended self.old ≡ true
            → (result ≡ Ok SimTurn.Ended) × (self.new ≡ self.old) }
        ensures others { OnErr result
            (IsErrOf result SimError.Line
            ⊎ (IsErrOf result SimError.NoMemory ⊎ IsErrOf result SimError.Failed)) }
        ensures memory { IsErrOf result SimError.NoMemory → WantsMemory L.seen self.new }
        ensures ended { IfOk result (λ turn. turn ≡ SimTurn.Ended → has_ended self.new ≡ true) }
        ensures goes_on { IfOk result (λ turn. has_ended self.new ≡ true → turn ≡ SimTurn.Ended) }
        ensures end { end_given self.new ≡ end_given self.old }
        ensures bounded { (L.seen self.new.line).calls ≤ (L.seen self.old.line).calls + 2 }
        ensures beyond { L.other_side self.new.line ≡ L.other_side self.old.line }
        ensures sound { result ≢ Err SimError.Line → (L.seen self.new.line).failures ≡ (L.seen self.old.line).failures }
        ensures failure { result ≡ Err SimError.Line
            → (L.seen self.new.line).failures ≡ (L.seen self.old.line).failures + 1 }
    {
        if self.machine.is_failed() {
            return Err(SimError::Failed);
        }
        if self.machine.is_ended() {
            return Ok(SimTurn::Ended);
        }
        let moved = self.machine.go_on(&mut self.line)?;
        if self.machine.is_ended() {
            return Ok(SimTurn::Ended);
        }
        if moved {
            return Ok(SimTurn::Moved);
        }
        Ok(SimTurn::Idle)
    }

    /// The state of a connection at this end. Connection 0 is Shut before the multiplexer is opened and again once a DISC on 0
    /// was answered, which closes the multiplexer down as a CLD does (27.010, 5.4.6.3.3).
    #[tactic(auto, using(crate::proofs::sims::ShownStates::shown_is))]
    pub fn state(&self, dlci: Dlci) -> ChannelState
        ensures { (at : LineView) (e : End) (past : List Act) → FitsSim L.seen at e self.now past
            → result ≡ state_shown dlci.number past }
    {
        self.machine.core.station.state(dlci)
    }

    /// The line.
    pub fn line(&self) -> &L
        ensures { result.now ≡ self.now.line }
    {
        &self.line
    }

    /// The octets that are to be written and that the line hasn't taken yet.
    pub fn unwritten(&self) -> &[u8]
        ensures { result.now ≡ self.now.machine.out }
    {
        self.machine.line_end.unwritten()
    }

    /// Lends the line. The simulated modem still fits its past afterwards, if the octets that the line received and
    /// sent stay as they were.
    pub fn line_mut(&mut self) -> &mut L
        ensures value { result.now ≡ self.old.line }
        ensures* lent { sem 𝓛
            (Lends (the_row L.row L.SerialLine) L.row self.entry result (λ l. record self.old { line = l })) }
    {
        &mut self.line
    }

    /// Gives back the line and the modem, as they are.
    pub fn finish(self) -> (L, Modem)
        ensures { (result.0 ≡ self.line) × (result.1 ≡ modem_of self) }
    {
        let Sim { line, machine } = self;
        (line, machine.into_modem())
    }
}
