//! What a simulated modem on such a line comes to.
ghost use Rattle.modem_data_sim.specs.SimLaws.{RepeatsNone, TellsSim};

use mux_frame::laws::deframed;
use serial_line::SerialLine;

/// A simulated modem over a line with a relay of a responder has the line's own frames, but for data. The frames that it got are
/// the first of those that came, and all of them where nothing waits on the way. Those that it gave on leave whole and in order; the
/// others that it sent wait in its control queue.
#[tactic(auto, using(crate::proofs::SimLaws::tells_sim))]
pub fn modems<L: SerialLine>()
    ensures { TellsSim L.seen }
{
    deframed();
}

/// A modem with words repeats no CONNECT that comes to it. So a lane at its end begins by an answer, not by its client's line come back.
#[tactic(auto, using(crate::proofs::SimLaws::repeats_none))]
pub fn repeated()
    ensures { RepeatsNone }
{}
