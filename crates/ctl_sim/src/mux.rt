//! A simulated modem in the multiplexer, whose octets are handed in and out.
ghost use Rattle.std.specs.Prelude.{◌≡◌, ◌≢◌, ◌⊎◌, ◌&&◌, ◌||◌, [], not, true, false, IfErr, IfOk, List, OnErr};
ghost use Rattle.modem_sim.specs.Acts.{Act, End, is_open_at_modem};
ghost use Rattle.modem_sim.specs.Sims.{SimGoes, has_ended, has_failed};
ghost use Rattle.ctl_sim.specs.Endless.{GoesOn, IsGivenUpFor, IsUnanswered, LacksMemory};
ghost use Rattle.ctl_sim.specs.HeldLine.{held_side, held_view};
ghost use Rattle.ctl_sim.specs.InMux.{mux_end};
ghost use Rattle.ctl_sim.specs.Muxes.{ComesToRest, FitsHeld, FitsMux, IsFed};

use crate::fault::ServeFault;
use crate::held_line::HeldLine;
use modem_sim::{Modem, Script, Sim, SimTurn};
use mux_frame::{Dlci, N1};
use mux_station::ChannelState;
use std::alloc::{AllocError, Global};

/// A simulated modem to which nothing has happened yet, at a line in memory.
pub(crate) fn begun(
    alloc: Global,
    modem: Modem,
    script: Script,
    n1: N1,
) -> Result<Sim<HeldLine>, AllocError>
    ensures fits { IfOk result (λ s. script.echo ≡ false → FitsMux (mux_end n1.octets modem script.steps) [] [] s []) }
    ensures sound { IfOk result (λ s. has_failed s ≡ false) }
{
    match Sim::new(alloc, HeldLine::new(alloc), modem, script, n1.octets) {
        Ok(sim) => Ok(sim),
        Err(_) => Err(AllocError),
    }
}

/// What a turn came to.
#[derive(Clone, Copy)]
enum Turned {
    /// Something was done.
    Moves,
    /// All is read and done, and all is written.
    Rests,
    /// It has closed down.
    Ends,
}

/// Whether no octets wait at its line, to be written or to be read.
fn none_waits(sim: &Sim<HeldLine>) -> bool
    ensures none { result ≡ true → (sim.now.machine.out ≡ []) × (sim.now.line.waiting ≡ []) }
    ensures some { result ≡ false → (sim.now.machine.out ≢ []) ⊎ (sim.now.line.waiting ≢ []) }
{
    sim.unwritten().is_empty() && sim.line().is_read()
}

/// One turn. Where octets wait for its line though it has nothing to do, the line was refused memory.
fn turn(sim: &mut Sim<HeldLine>) -> Result<Turned, AllocError>
    ensures goes { SimGoes held_view sim.old sim.new }
    ensures side { held_side sim.new.line ≡ held_side sim.old.line }
    ensures sound { has_failed sim.new ≡ has_failed sim.old }
    ensures moves { IfOk result (λ turned. turned ≡ Turned.Moves → GoesOn sim.old sim.new) }
    ensures lacks { OnErr result (has_failed sim.old ≡ false → LacksMemory sim.old sim.new) }
    ensures rests { IfOk result (λ turned. turned ≡ Turned.Rests → ComesToRest sim.old sim.new) }
    ensures ends { IfOk result (λ turned. turned ≡ Turned.Ends → has_ended sim.new ≡ true) }
{
    match sim.turn() {
        Ok(SimTurn::Moved) => Ok(Turned::Moves),
        Ok(SimTurn::Ended) => Ok(Turned::Ends),
        Ok(SimTurn::Idle) => {
            if none_waits(sim) {
                Ok(Turned::Rests)
            } else {
                Err(AllocError)
            }
        }
        Err(_) => Err(AllocError),
    }
}

/// Turns until it has closed down (true), or is at rest (false).
fn settle(sim: &mut Sim<HeldLine>) -> Result<bool, ServeFault>
    ensures goes { SimGoes held_view sim.old sim.new }
    ensures side { held_side sim.new.line ≡ held_side sim.old.line }
    ensures rests { IfOk result (λ ended. ended ≡ false → ComesToRest sim.old sim.new) }
    ensures ends { IfOk result (λ ended. ended ≡ true → has_ended sim.new ≡ true) }
    ensures sound { has_failed sim.new ≡ has_failed sim.old }
    ensures fault { IfErr result (λ fault. IsGivenUpFor fault sim.old sim.new) }
{
    for _ in 0..u64::MAX {
        match turn(sim)? {
            Turned::Moves => {}
            Turned::Rests => return Ok(false),
            Turned::Ends => return Ok(true),
        }
    }
    Err(ServeFault::EndlessModem)
}

/// Whether 0 is open at its end.
fn is_up(sim: &Sim<HeldLine>) -> bool
    ensures { (e : End) (past : List Act) → FitsHeld e sim.now past → result ≡ is_open_at_modem 0 past }
{
    match sim.state(Dlci::CONTROL) {
        ChannelState::Opened => true,
        _ => false,
    }
}

/// Whether it has closed down, or 0 was open and isn't any more.
fn is_over(ended: bool, was_up: bool, up: bool) -> bool
    ensures { result ≡ (ended || (was_up && not up)) }
{
    ended || (was_up && !up)
}

/// Takes octets, does all that can be done, and writes what is sent behind the octets in `out`. Says whether the multiplexer was
/// closed down: 0 was open and isn't any more, or a CLD was answered.
pub(crate) fn feed(
    sim: &mut Sim<HeldLine>,
    piece: &[u8],
    out: &mut Vec<u8>,
) -> Result<bool, ServeFault>
    ensures fed { IfOk result (λ over. IsFed sim.old sim.new piece.now out.old.items out.new.items over) }
    ensures sound { has_failed sim.new ≡ has_failed sim.old }
    ensures fault { IfErr result (λ fault. IsUnanswered fault sim.old sim.new piece.now) }
{
    let was_up = is_up(sim);
    sim.line_mut().put(piece)?;
    let ended = settle(sim)?;
    sim.line_mut().take(out)?;
    Ok(is_over(ended, was_up, is_up(sim)))
}
