//! A modem for a client whose octets are handed in and out: at plain lines or in the multiplexer.
ghost use Rattle.std.specs.Prelude.{◌≡◌, ◌≢◌, ◌<◌, ◌++◌, ℕ, List, [], None, length, option_map, IfErr, IfOk};
ghost use Rattle.ctl_sim.specs.Entry.{octets_of};
ghost use Rattle.ctl_sim.specs.Serving.{Entry, Setting, with_more};
ghost use Rattle.modem_sim.specs.declared.state.ModemState.{ModemState};
ghost use Rattle.ctl_sim.specs.Endless.{IsEndlessAt};
ghost use Rattle.ctl_sim.specs.EndlessClients.{ComesToEndless, IsEndlessMode, IsEndlessMux};
ghost use Rattle.ctl_sim.specs.Leaving.{IsOfModemBy};
ghost use Rattle.ctl_sim.specs.Standing.{EndsWith, HandlesText, Hears, IsEntered, MayBeFrame, Stands, StepsOn, setting_by, undecided, weight};
ghost use Rattle.ctl_sim.specs.Coming.{may_be_frame, stands_before};
ghost use Rattle.ctl_sim.specs.declared.server.Mode.TheVariants.{Lines, Mux};

use crate::fault::ServeFault;
use crate::held_line::HeldLine;
use crate::mux::{begun, feed};
use crate::plain::PlainMode;
use crate::steps::copied;
use modem_sim::{Modem, Script, Sim, Steps};
use mux_capture::{Found, first_frame};
use mux_frame::N1;
use results::beside;
use std::alloc::{AllocError, Global};
use std::marker::Model;

/// A flag: a frame begins and ends with it (27.010, 5.2.6.1).
pub(crate) const FLAG: u8 = 0xF9;

/// In the multiplexer.
#[derive(Drop)]
pub(crate) struct Muxed {
    sim: Sim<HeldLine>,
    n1: N1,
    /// The octets that can become a frame.
    kept: Vec<u8>,
}

impl Model for Muxed {
    ghost use Rattle.std.specs.Prelude.{[]};
    ghost use Rattle.mux_frame.specs.Reading.{Reads};
    ghost use Rattle.ctl_sim.specs.MuxStates.{MuxState};

    ghost Value = { MuxState };

    ghost view = { λ m. record { sim = m.sim; n1 = m.n1.octets; kept = m.kept.items } };

    ghost invariant = { λ m. Reads m.n1.octets m.kept.items [] m.kept.items };
}

/// How it stands.
#[derive(Drop)]
pub(crate) enum Mode {
    /// At plain command lines.
    Lines(PlainMode),
    /// In the multiplexer.
    Mux(Muxed),
}

/// What answers octets.
pub(crate) trait Answering: Drop {
    /// How it stands after octets that came, of which some are left, and that went, with these entries into the multiplexer.
    ghost holds: { Setting → List ℕ → List ℕ → List Entry → Self → List ℕ → Type 0 };

    /// The octets that it has taken of which it isn't decided yet what they are.
    ghost undecided: { Self → List ℕ };

    /// With these octets left it goes on without an end.
    ghost endless: { Self → List ℕ → Type 0 };

    /// What falls with each line that enters the multiplexer, by how many octets are left.
    ghost weight: { Self → ℕ → ℕ };

    /// Takes octets, to the end of a line that enters the multiplexer at most, and writes what is said to them behind other octets. Gives
    /// the octets behind that line, and the N1 of the multiplexer; none are left where no line enters it.
    fn take_part(
        self,
        setup: &Setup,
        octets: &[u8],
        out: &mut Vec<u8>,
    ) -> Result<(Self, Vec<u8>, Option<N1>), ServeFault>
    where
        Self: Sized,
        ensures all { IfOk result (λ r. r.2 ≡ None → r.1.items ≡ []) }
        ensures fewer { IfOk result (λ r. r.2 ≢ None → weight r.0 (length r.1.items) < weight self (length octets.now)) }
        ensures ends { IfOk result (λ r. EndsWith (undecided self ++ octets.now) (undecided r.0 ++ r.1.items)) }
        ensures steps { IfOk result (λ r. (m : ModemState)
            → StepsOn holds undecided (setting_by setup.now m) self r.0 (option_map octets_of r.2) octets.now r.1.items out.old.items out.new.items) }
        ensures fault { IfErr result
            (IsOfModemBy ((m : ModemState) → ComesToEndless holds endless (setting_by setup.now m) self octets.now)) };

    /// How many octets aren't decided.
    fn undecided_len(&self) -> usize
        ensures { result ≡ length (undecided self.now) };

    /// What isn't decided may become a frame.
    ghost waits: { (s : Setting) (came went : List ℕ) (entries : List Entry) (x : Self) (left : List ℕ)
        → holds s came went entries x left → MayBeFrame (undecided x) };

    /// More octets come.
    ghost brings: { (s : Setting) (came went : List ℕ) (entries : List Entry) (octets : List ℕ) (x : Self)
        → holds s came went entries x [] → holds s (came ++ octets) went (with_more octets [] entries) x octets };
}

/// What is the same all along: N1 where a line doesn't name it, and what the modem does of its own accord in each multiplexer.
#[derive(Drop)]
pub(crate) struct Setup {
    pub(crate) alloc: Global,
    pub(crate) n1: N1,
    pub(crate) steps: Steps,
}

/// The multiplexer begins, with this N1.
fn enter(setup: &Setup, modem: Modem, n1: N1) -> Result<Mode, AllocError>
    ensures { IfOk result (λ mode. IsEntered setup.now modem n1.octets mode) }
{
    let script = Script {
        echo: false,
        steps: copied(setup.alloc, &setup.steps)?,
    };
    Ok(Mode::Mux(Muxed {
        sim: begun(setup.alloc, modem, script, n1)?,
        n1,
        kept: Vec::new(setup.alloc),
    }))
}

/// Has plain lines take octets, to the end of a line that enters the multiplexer at most, and writes what is said to them. Gives the octets
/// behind that line.
fn hear(
    setup: &Setup,
    lines: &mut PlainMode,
    octets: &[u8],
    out: &mut Vec<u8>,
) -> Result<Vec<u8>, AllocError>
    ensures { IfOk result (λ behind. Hears lines.old lines.new octets.now behind.items out.old.items out.new.items) }
{
    let count = lines.feed(octets)?;
    out.extend_from_slice(lines.said())?;
    lines.clear_said();
    Vec::from_slice(setup.alloc, &octets[count..])
}

/// Takes octets at plain lines, to the end of a line that enters the multiplexer at most. Gives those behind it, and the N1.
fn take_lines(
    setup: &Setup,
    plain: PlainMode,
    octets: &[u8],
    out: &mut Vec<u8>,
) -> Result<(Mode, Vec<u8>, Option<N1>), AllocError>
    ensures fewer { IfOk result (λ r. 0 < length octets.now → weight r.0 (length r.1.items) < weight (Lines plain) (length octets.now)) }
    ensures ends { IfOk result (λ r. EndsWith octets.now (undecided r.0 ++ r.1.items)) }
    ensures steps { IfOk result (λ r. (m : ModemState)
        → StepsOn Stands undecided (setting_by setup.now m) (Lines plain) r.0 (option_map octets_of r.2) octets.now r.1.items out.old.items out.new.items) }
{
    let mut plain = plain;
    let (behind, lines) = beside(hear(setup, &mut plain, octets, out), plain)?;
    match lines.entered() {
        Some(n1) => {
            let (mux, behind) = beside(enter(setup, lines.finish(), n1), behind)?;
            Ok((mux, behind, Some(n1)))
        }
        None => Ok((Mode::Lines(lines), behind, None)),
    }
}

/// Handles a frame, and says how it stands behind that: the frame's closing flag can be the next one's first (27.010, 5.2.6.1), or
/// plain lines begin.
fn handle(
    setup: &Setup,
    sim: Sim<HeldLine>,
    n1: N1,
    frame: &[u8],
    out: &mut Vec<u8>,
) -> Result<Mode, ServeFault>
    ensures fault { IfErr result (IsOfModemBy (IsEndlessAt sim frame.now)) }
    ensures handles { IfOk result (λ mode. HandlesText setup.now sim n1.octets frame.now mode out.old.items out.new.items) }
{
    let mut sim = sim;
    let (is_over, sim) = beside(feed(&mut sim, frame, out), sim)?;
    if is_over {
        let (_line, modem) = sim.finish();
        return Ok(Mode::Lines(PlainMode::new(setup.alloc, setup.n1, modem)));
    }
    let (kept, sim) = beside(Vec::from_slice(setup.alloc, &[FLAG]), sim)?;
    Ok(Mode::Mux(Muxed { sim, n1, kept }))
}

/// Takes octets in the multiplexer, to the end of the first frame at most, and gives those behind it.
fn take_frame(
    setup: &Setup,
    mux: Muxed,
    octets: &[u8],
    out: &mut Vec<u8>,
) -> Result<(Mode, Vec<u8>), ServeFault>
    ensures fewer { IfOk result (λ r. 0 < length octets.now → weight r.0 (length r.1.items) < weight (Mux mux) (length octets.now)) }
    ensures fault { IfErr result (IsOfModemBy (IsEndlessMux mux octets.now)) }
    ensures ends { IfOk result (λ r. EndsWith (undecided (Mux mux) ++ octets.now) (undecided r.0 ++ r.1.items)) }
    ensures steps { IfOk result (λ r. (m : ModemState)
        → StepsOn Stands undecided (setting_by setup.now m) (Mux mux) r.0 None octets.now r.1.items out.old.items out.new.items) }
{
    let Muxed {
        sim,
        n1,
        kept: mut text,
    } = mux;
    let seen = text.len();
    text.extend_from_slice(octets)?;
    match first_frame(setup.alloc, n1.octets, text.as_slice(), seen)? {
        Found::None { rest, .. } => {
            let kept = Vec::from_slice(setup.alloc, rest)?;
            Ok((Mode::Mux(Muxed { sim, n1, kept }), Vec::new(setup.alloc)))
        }
        Found::Frame { frame, behind, .. } => {
            let behind = Vec::from_slice(setup.alloc, behind)?;
            Ok((handle(setup, sim, n1, frame, out)?, behind))
        }
    }
}

/// Takes octets from the front, and gives those that are to be taken next: those behind, or behind a frame that was whole only now. Gives
/// the N1 where a line enters the multiplexer.
fn step(
    setup: &Setup,
    mode: Mode,
    octets: &[u8],
    out: &mut Vec<u8>,
) -> Result<(Mode, Vec<u8>, Option<N1>), ServeFault>
    ensures fewer { IfOk result (λ r. 0 < length octets.now → weight r.0 (length r.1.items) < weight mode (length octets.now)) }
    ensures fault { IfErr result (IsOfModemBy (IsEndlessMode mode octets.now)) }
    ensures ends { IfOk result (λ r. EndsWith (undecided mode ++ octets.now) (undecided r.0 ++ r.1.items)) }
    ensures steps { IfOk result (λ r. (m : ModemState)
        → StepsOn Stands undecided (setting_by setup.now m) mode r.0 (option_map octets_of r.2) octets.now r.1.items out.old.items out.new.items) }
{
    match mode {
        Mode::Lines(plain) => Ok(take_lines(setup, plain, octets, out)?),
        Mode::Mux(mux) => {
            let (next, behind) = take_frame(setup, mux, octets, out)?;
            Ok((next, behind, None))
        }
    }
}

/// Takes octets, to the end of a line that enters the multiplexer at most, and writes what is said to them behind other octets. Gives the
/// octets behind that line, and the N1.
fn take_each(
    setup: &Setup,
    mode: Mode,
    octets: &[u8],
    out: &mut Vec<u8>,
) -> Result<(Mode, Vec<u8>, Option<N1>), ServeFault>
    ensures all { IfOk result (λ r. r.2 ≡ None → r.1.items ≡ []) }
    ensures fewer { IfOk result (λ r. r.2 ≢ None → weight r.0 (length r.1.items) < weight mode (length octets.now)) }
    ensures ends { IfOk result (λ r. EndsWith (undecided mode ++ octets.now) (undecided r.0 ++ r.1.items)) }
    ensures steps { IfOk result (λ r. (m : ModemState)
        → StepsOn Stands undecided (setting_by setup.now m) mode r.0 (option_map octets_of r.2) octets.now r.1.items out.old.items out.new.items) }
    ensures fault { IfErr result
        (IsOfModemBy ((m : ModemState) → ComesToEndless Stands IsEndlessMode (setting_by setup.now m) mode octets.now)) }
{
    let mut now = mode;
    let mut rest = Vec::from_slice(setup.alloc, octets)?;
    while !rest.is_empty() {
        let (next, behind, entered) = step(setup, now, rest.as_slice(), out)?;
        if entered.is_some() {
            return Ok((next, behind, entered));
        }
        now = next;
        rest = behind;
    }
    Ok((now, rest, None))
}

impl Answering for Mode {
    ghost holds = { Stands };

    ghost undecided = { undecided };

    ghost endless = { IsEndlessMode };

    ghost weight = { weight };

    ghost waits = { may_be_frame };

    ghost brings = { stands_before };

    fn take_part(
        self,
        setup: &Setup,
        octets: &[u8],
        out: &mut Vec<u8>,
    ) -> Result<(Mode, Vec<u8>, Option<N1>), ServeFault> {
        take_each(setup, self, octets, out)
    }

    fn undecided_len(&self) -> usize {
        match self {
            Mode::Lines(_) => 0,
            Mode::Mux(mux) => mux.kept.len().saturating_sub(1),
        }
    }
}
