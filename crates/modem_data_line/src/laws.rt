//! What any calls of a line with connections that carry data come to.
ghost use Rattle.modem_data_line.specs.LineLaws.{HaveOnePast, TellsSession};

use mux_frame::laws::deframed;
use serial_line::SerialLine;

/// Any calls of a new line with a new relay have one past of that relay: what the line itself gave came to the relay, what it took is
/// what the relay wrote, and the driver read and sent here what the relay handed over and took.
#[tactic(auto, using(crate::proofs::LineLaws::have_one_past))]
pub fn pasts<L: SerialLine>()
    ensures { HaveOnePast L.seen }
{}

/// A session over such a line has the line's own frames, but for data. The frames that it got are the first of those that
/// came. The frames that it sent leave whole and in order.
#[tactic(auto, using(crate::proofs::LineLaws::tells_session))]
pub fn sessions<L: SerialLine>()
    ensures { TellsSession L.seen }
{
    deframed();
}
