//! Frames that go out.
ghost use Rattle.std.specs.Prelude.{◌≡◌, ◌≤◌, length, nat_le, option_map, None, Some, IfNone, IfSome};
ghost use Rattle.modem_core.specs.Running.{CoreIsIdle};
ghost use Rattle.std.specs.Borrow.{sem};
ghost use Rattle.std.specs.Io.BufRead.{Rests};
ghost use Rattle.mux_station.specs.GivenFrames.{outgoing_of, as_turn};
ghost use Rattle.mux_station.specs.Giving.{turn_at};
ghost use Rattle.mux_station.specs.Stations.{channel_at};
ghost use Rattle.std.specs.List.{list_any};
ghost use Rattle.modem_history.specs.Requests.{commands_on};
ghost use Rattle.modem_core.specs.CoreGoing.{begun_by, begun_next, gone_on, turn_in, GoesOut, CoreGoesOn, LeavesLess};
ghost use Rattle.modem_core.specs.Holding.{KeepsHeldOut};

use crate::driver::Core;
use modem_queues::has_command;
use mux_frame::Dlci;
use mux_station::laws::givings;
use mux_station::{Outgoing, Turn};

impl Core {
    ghost use Rattle.modem_core.specs.contracts.driver.Core.{the_row};

    /// The first command on the connection is whole: its window begins, where none is open.
    fn begin_first(&mut self, dlci: Dlci)
        ensures { self.new ≡ begun_by self.old dlci.number (list_any (commands_on dlci.number) self.old.hand) }
    {
        if has_command(&self.hand, dlci) {
            self.lanes.begin(dlci);
        }
    }

    /// Whether all octets that wait on the connection fit one frame.
    fn fits_a_frame(&self, dlci: Dlci) -> bool
        ensures { result
            ≡ nat_le (length (channel_at self.now.station dlci.number).waiting) self.now.station.n1 }
    {
        self.station.waiting(dlci) <= usize::from(self.n1)
    }

    /// A command whose last octets go out next begins its window. That is done before the frame is sent: a frame that
    /// is lent keeps the core lent too.
    fn begin_next(&mut self, turn: Turn)
        requires { turn_at self.old.station self.old.station.queue ≡ Some (as_turn turn) }
        ensures { self.new ≡ begun_next self.old }
    {
        let Turn::Data(dlci) = turn else {
            return;
        };
        if self.fits_a_frame(dlci) {
            self.begin_first(dlci);
        }
    }

    /// What goes out next: the first frame of the control queue, or, where that is empty, data of the connection whose
    /// turn it is. `None` where nothing goes out, as after a loss of the line.
    pub fn next_turn(&self) -> Option<Turn>
        ensures turn { option_map as_turn result ≡ turn_in self.now }
        ensures none { IfNone result (GoesOut self.now None) }
        ensures idle { IfNone result (CoreIsIdle self.now) }
    {
        if self.lost {
            return None;
        }
        self.station.next_turn()
    }

    /// Takes out the frame whose turn it is, and lends it. The condition is that it is the turn that `next_turn` names.
    /// A data frame has as many octets as wait there, at most N1 and at most 1024. It takes no memory.
    pub fn give(&mut self, turn: Turn) -> Outgoing<'_>
        requires { turn_in self.old ≡ Some (as_turn turn) }
        ensures frame { GoesOut self.old (Some (outgoing_of result)) }
        ensures past { CoreGoesOn self.old }
        ensures holds { KeepsHeldOut self.old }
        ensures less { LeavesLess self.old (Some (outgoing_of result)) }
        ensures short { length result.frame.info.now ≤ 1024 }
        ensures* after { sem 𝓛 (Rests the_row self.entry (λ new. new ≡ gone_on self.old)) }
    {
        givings(&self.station);
        self.begin_next(turn);
        self.station.give(turn)
    }

    /// Takes out the next frame for the line and lends it: the first of the control queue, or, where that is empty,
    /// data of the connection whose turn it is. A data frame has as many octets as wait there, at most N1 and at most
    /// 1024. After a loss of the line there is none. It takes no memory.
    pub fn outgoing(&mut self) -> Option<Outgoing<'_>>
        ensures frame { GoesOut self.old (option_map outgoing_of result) }
        ensures past { CoreGoesOn self.old }
        ensures holds { KeepsHeldOut self.old }
        ensures less { LeavesLess self.old (option_map outgoing_of result) }
        ensures short { IfSome result (λ o. length o.frame.info.now ≤ 1024) }
        ensures idle { IfNone result (CoreIsIdle self.old) }
        ensures still { IfNone result (gone_on self.old ≡ self.old) }
        ensures* after { sem 𝓛 (Rests the_row self.entry (λ new. new ≡ gone_on self.old)) }
    {
        let turn = self.next_turn()?;
        Some(self.give(turn))
    }
}
