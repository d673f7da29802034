//! A session and a simulated modem, each at one of two lines in memory, in one thread and in rounds.
ghost use Rattle.std.specs.Prelude.{◌≡◌, true, IfNone, IfSome, Ok, length};
ghost use Rattle.modem_sim.specs.Sims.{SimGoes};
ghost use Rattle.mux_frame.specs.Laws.{AreOctets};
ghost use Rattle.serial_line.specs.CutLine.{cut_view, other_side_of};
ghost use Rattle.modem_bench.specs.OneLine.{StaysOneLine, TellsModemTo};
ghost use Rattle.modem_bench.specs.Rounds.{EndsInRounds, GoesOnRound, IsFull, IsLastRound, IsRound, JoinsOn, RunsFar, judged_by, pair};

use crate::signals::Fault;
use crate::{driving, simulating};
use modem_driver::{Ended, Progress, Session};
use modem_sim::{Sim, SimError, SimTurn};
use serial_line::CutLine;
use std::sync::Wait;

/// The most turns of a simulated modem in a round.
const TURNS: usize = 64;

/// Why rounds end.
#[derive(Clone, Copy)]
pub enum Rest {
    /// In the last one each of the two had ended, or found nothing to do, and no octets were under way.
    Still,
    /// One of the two has sent as many octets as there is room for.
    Full,
    /// All rounds are used up.
    UsedUp,
}

/// What the two came to in a round, and whether octets were carried in it, or the modem sent some behind that.
#[derive(Clone, Copy)]
pub struct Said {
    pub near: Progress,
    pub far: Result<SimTurn, SimError>,
    pub moved: bool,
}

/// The turns of a poll of a simulated modem, and what the last one answers: `advance` gives nothing both where it is
/// idle and after 64.
fn turns(sim: &mut Sim<CutLine>) -> Result<SimTurn, SimError>
    ensures runs { RunsFar sim.old sim.new result }
    ensures goes { SimGoes cut_view sim.old sim.new }
    ensures beyond { other_side_of sim.new.line ≡ other_side_of sim.old.line }
{
    for _ in 0..TURNS {
        match sim.turn() {
            Ok(SimTurn::Moved) => {}
            Ok(SimTurn::Idle) => return Ok(SimTurn::Idle),
            Ok(SimTurn::Ended) => return Ok(SimTurn::Ended),
            Err(why) => return Err(why),
        }
    }
    Ok(SimTurn::Moved)
}

/// What a slice holds are octets.
fn are_octets(octets: &[u8])
    ensures { AreOctets octets.now }
{
    let _count = octets.len();
}

/// So is what a session sent and has to send.
fn near_octets<R: Wait + Drop>(session: &Session<CutLine, R>)
    ensures sent { AreOctets session.now.line.sent }
    ensures unwritten { AreOctets session.now.machine.unwritten }
{
    are_octets(session.line().sent());
    are_octets(session.unwritten());
}

/// So is what a simulated modem sent and has to send.
fn far_octets(sim: &Sim<CutLine>)
    ensures sent { AreOctets sim.now.line.sent }
    ensures unwritten { AreOctets sim.now.machine.out }
{
    are_octets(sim.line().sent());
    are_octets(sim.unwritten());
}

/// How many octets a simulated modem sent.
fn far_sent(sim: &Sim<CutLine>) -> usize
    ensures { result ≡ length sim.now.line.sent }
{
    sim.line().sent().len()
}

/// One round: a poll of the session, one carrying between the lines, and the turns of a poll of the simulated modem.
fn round<R: Wait + Drop>(
    session: &mut Session<CutLine, R>,
    sim: &mut Sim<CutLine>,
    cut: usize,
) -> Said
    ensures round { IsRound cut (pair session.old sim.old) (pair session.new sim.new) (record { near = result.near; far = result.far; moved = result.moved }) }
    ensures joins { JoinsOn (pair session.old sim.old) (pair session.new sim.new) }
    ensures one_line { StaysOneLine (pair session.old sim.old) (pair session.new sim.new) }
{
    far_octets(sim);
    let near = session.advance();
    let before = far_sent(sim);
    let carried = session.line_mut().carry(sim.line_mut(), cut);
    near_octets(session);
    let far = turns(sim);
    let moved = (carried > 0) | (far_sent(sim) > before);
    Said { near, far, moved }
}

/// What ends the rounds with this one, if anything does.
fn judge(said: Said) -> Option<Result<Rest, Fault>>
    ensures { result ≡ judged_by said.near said.far said.moved }
{
    match (said.near, said.far) {
        (Progress::Ended(Err(why)), _) => Some(Err(driving::fault_of(why))),
        (_, Err(why)) => Some(Err(simulating::fault_of(why))),
        (Progress::Idle | Progress::Ended(Ok(Ended::Stopped)), Ok(SimTurn::Idle | SimTurn::Ended))
            if !said.moved => { Some(Ok(Rest::Still)) }
        _ => None,
    }
}

/// Whether one of the two has sent so many octets.
fn is_full<R: Wait + Drop>(
    session: &mut Session<CutLine, R>,
    sim: &mut Sim<CutLine>,
    room: usize,
) -> bool
    ensures full { result ≡ true → IsFull room (pair session.old sim.old) }
    ensures same { (session.new ≡ session.old) × (sim.new ≡ sim.old) }
{
    let near = session.line_mut().sent().len();
    let far = sim.line_mut().sent().len();
    near >= room || far >= room
}

/// The end of the rounds, where one of the two has sent so many octets.
fn full_end<R: Wait + Drop>(
    session: &mut Session<CutLine, R>,
    sim: &mut Sim<CutLine>,
    room: usize,
) -> Option<Result<Rest, Fault>>
    ensures ends { IfSome result (λ end. end ≡ Ok Rest.Full) }
    ensures full { IfSome result (λ _. IsFull room (pair session.old sim.old)) }
    ensures same { (session.new ≡ session.old) × (sim.new ≡ sim.old) }
{
    if is_full(session, sim, room) {
        Some(Ok(Rest::Full))
    } else {
        None
    }
}

/// One round, and how it ends the rounds, if it does.
fn step<R: Wait + Drop>(
    session: &mut Session<CutLine, R>,
    sim: &mut Sim<CutLine>,
    cut: usize,
    room: usize,
) -> Option<Result<Rest, Fault>>
    ensures ends { IfSome result (IsLastRound cut room (pair session.old sim.old) (pair session.new sim.new)) }
    ensures goes { IfNone result (GoesOnRound cut (pair session.old sim.old) (pair session.new sim.new)) }
    ensures joins { JoinsOn (pair session.old sim.old) (pair session.new sim.new) }
    ensures one_line { StaysOneLine (pair session.old sim.old) (pair session.new sim.new) }
{
    let said = round(session, sim, cut);
    match judge(said) {
        Some(end) => Some(end),
        None => full_end(session, sim, room),
    }
}

/// So many rounds at most.
fn steps<R: Wait + Drop>(
    session: &mut Session<CutLine, R>,
    sim: &mut Sim<CutLine>,
    cut: usize,
    room: usize,
    rounds: usize,
) -> Result<Rest, Fault>
    ensures ended { EndsInRounds cut room rounds (pair session.old sim.old) (pair session.new sim.new) result }
    ensures joins { JoinsOn (pair session.old sim.old) (pair session.new sim.new) }
    ensures one_line { StaysOneLine (pair session.old sim.old) (pair session.new sim.new) }
{
    for _ in 0..rounds {
        match step(session, sim, cut, room) {
            Some(end) => return end,
            None => {}
        }
    }
    Ok(Rest::UsedUp)
}

/// Runs a session and a simulated modem, each at one of two lines in memory, in rounds: in each the session is polled
/// once, at most `cut` octets are carried each way, and the simulated modem makes the turns of a poll. Callers submit
/// before it and between two calls of it. It ends after the first round in which both have ended or have nothing to do,
/// no octets were carried and the modem sent none; or after which one of them has sent `room` octets; at the latest
/// after `rounds` rounds. Refusals: the fault of the session, or else that of the simulated modem, after the first
/// round that has one.
///
/// Whatever joint list of acts the two had before goes on to one that they have after it. Where they began at new lines with one N1, it
/// stays one line's: the frames that came at each end are the first that the other sent. Where each connection is asked for at most once
/// and only unsolicited lines are announced, each command told Done is told what the modem answered to it at its place.
#[tactic(auto, using(crate::proofs::OneLine::tells_modem_to))]
pub fn run_in_rounds<R: Wait + Drop>(
    session: &mut Session<CutLine, R>,
    sim: &mut Sim<CutLine>,
    cut: usize,
    room: usize,
    rounds: usize,
) -> Result<Rest, Fault>
    ensures ended { EndsInRounds cut room rounds (pair session.old sim.old) (pair session.new sim.new) result }
    ensures joins { JoinsOn (pair session.old sim.old) (pair session.new sim.new) }
    ensures one_line { StaysOneLine (pair session.old sim.old) (pair session.new sim.new) }
    ensures told { TellsModemTo (pair session.new sim.new) }
{
    steps(session, sim, cut, room, rounds)
}
