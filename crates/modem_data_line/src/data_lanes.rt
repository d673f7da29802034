//! What callers of data ask.
ghost use Rattle.std.specs.Prelude.{◌≡◌, ◌≢◌, ◌↔◌, ◌-◌, ◌⊎◌, [], length, take, drop, min, true, false, None, Err, IfOk, OnOk, OnErr};
ghost use Rattle.mux_station.specs.Opening.{is_open};
ghost use Rattle.modem_data.specs.declared.error.DataError.TheVariants as error;
ghost use Rattle.modem_data.specs.DataLanes.{most_to_go};
ghost use Rattle.modem_data.specs.Switching.{Idle as idle, is_behind_lines, is_idle, takes_given};
ghost use Rattle.modem_data.specs.Passing.{Began, EndedLane, Gave, Read, IsOver, carries, data_came, data_read, given, left, to_go, unread, wire};
ghost use Rattle.modem_data.specs.PipeSets.{IsNotData, OfEachPast};
ghost use Rattle.modem_data.specs.Hops.{Hops, Passed};
ghost use Rattle.serial_line.specs.Counts.{one_more};
ghost use Rattle.modem_data_line.specs.DataLines.{LeadsBy, may_go, may_pass};
ghost use Rattle.modem_data_line.specs.Moving.{IsLostBy, NothingGoes};

use crate::data_line::DataLine;
use modem_data::{Begin, DataError, Reading, Until};
use mux_frame::Dlci;
use serial_line::SerialLine;

impl<L: SerialLine> DataLine<L> {
    /// Begins a lane of a connection, as `Relay::begin` does.
    pub fn begin(&mut self, dlci: Dlci, how: Begin, until: Until) -> Result<(), DataError>
        ensures began { OnOk result (Hops self.old.relay self.new.relay (Passed (Began dlci.number how until))) }
        ensures not_data { result ≡ Err error.NotData → IsNotData self.old.relay.pipes dlci.number }
        ensures under_way { result ≡ Err error.UnderWay → OfEachPast self.old.relay.pipes (λ role past. is_idle (carries role dlci.number past) ≡ false) }
        ensures unread { result ≡ Err error.Unread → OfEachPast self.old.relay.pipes (λ role past.
            (carries role dlci.number past ≡ idle) × (data_read dlci.number past ≢ data_came role dlci.number past)) }
        ensures others { OnErr result ((result ≡ Err error.NotData) ⊎ ((result ≡ Err error.UnderWay) ⊎ (result ≡ Err error.Unread))) }
        ensures err { OnErr result (self.new ≡ self.old) }
        ensures beside { self.new ≡ record self.old { relay = self.new.relay } }
    {
        self.relay.begin(dlci, how, until)
    }

    /// Ends the lane of a connection, as `Relay::lines` does.
    pub fn lines(&mut self, dlci: Dlci) -> Result<(), DataError>
        ensures ended { OnOk result (Hops self.old.relay self.new.relay (Passed (EndedLane dlci.number))) }
        ensures not_data { OnErr result ((result ≡ Err error.NotData) × IsNotData self.old.relay.pipes dlci.number) }
        ensures err { OnErr result (self.new ≡ self.old) }
        ensures beside { self.new ≡ record self.old { relay = self.new.relay } }
    {
        self.relay.lines(dlci)
    }

    /// Whether data is under way on a connection, as `Relay::is_behind_lines` says. A command that is submitted for it then would go
    /// among the data.
    pub fn is_behind_lines(&self, dlci: Dlci) -> bool
        ensures { OfEachPast self.now.relay.pipes (λ role past. result ≡ is_behind_lines (carries role dlci.number past)) }
    {
        self.relay.is_behind_lines(dlci)
    }

    /// Gives the first octets of data that wait, as `Relay::read` does.
    pub fn read(&mut self, dlci: Dlci, room: &mut [u8]) -> Result<Reading, DataError>
        ensures count { IfOk result (λ r. OfEachPast self.old.relay.pipes (λ role past. r.count ≡ min (unread role dlci.number past) (length room.old))) }
        ensures read { IfOk result (λ r. Hops self.old.relay self.new.relay (Passed (Read dlci.number (take r.count room.new)))) }
        ensures over { IfOk result (λ r. OfEachPast self.new.relay.pipes (λ role past. r.is_over ≡ true ↔ IsOver role dlci.number past)) }
        ensures behind { IfOk result (λ r. drop r.count room.new ≡ drop r.count room.old) }
        ensures not_data { OnErr result ((result ≡ Err error.NotData) × IsNotData self.old.relay.pipes dlci.number) }
        ensures err { OnErr result ((self.new ≡ self.old) × (room.new ≡ room.old)) }
        ensures beside { self.new ≡ record self.old { relay = self.new.relay } }
    {
        self.relay.read(dlci, room)
    }

    /// Takes the first octets to be sent as data, as `Relay::give` does. They leave by the driver's calls, and by `flush`.
    pub fn give(&mut self, dlci: Dlci, octets: &[u8]) -> Result<usize, DataError>
        ensures count { IfOk result (λ count. OfEachPast self.old.relay.pipes (λ role past.
            count ≡ min (length octets.now) (most_to_go - (length (given dlci.number past) - length (left dlci.number past))))) }
        ensures gave { IfOk result (λ count. Hops self.old.relay self.new.relay (Passed (Gave dlci.number (take count octets.now)))) }
        ensures not_data { result ≡ Err error.NotData → IsNotData self.old.relay.pipes dlci.number }
        ensures not_open { result ≡ Err error.NotOpen → OfEachPast self.old.relay.pipes (λ role past. is_open role dlci.number (wire past) ≡ false) }
        ensures takes_none { result ≡ Err error.Lines → OfEachPast self.old.relay.pipes (λ role past. takes_given (carries role dlci.number past) ≡ false) }
        ensures others { OnErr result ((result ≡ Err error.NotData) ⊎ ((result ≡ Err error.NotOpen) ⊎ (result ≡ Err error.Lines))) }
        ensures err { OnErr result (self.new ≡ self.old) }
        ensures beside { self.new ≡ record self.old { relay = self.new.relay } }
    {
        self.relay.give(dlci, octets)
    }

    /// How many octets were given on a connection and haven't left, as `Relay::to_go` says.
    pub fn to_go(&self, dlci: Dlci) -> Result<usize, DataError>
        ensures count { IfOk result (λ count. OfEachPast self.now.relay.pipes (λ role past. count ≡ to_go dlci.number past)) }
        ensures not_data { OnErr result ((result ≡ Err error.NotData) × IsNotData self.now.relay.pipes dlci.number) }
    {
        self.relay.to_go(dlci)
    }

    /// Makes one write of what may go to the line, and says whether the line took octets. Where data was given while the
    /// driver rests, call it until it says no. The driver sees nothing of this write.
    pub fn flush(&mut self) -> bool
        ensures goes { LeadsBy L.seen (may_go self.old.is_behind) self.old self.new }
        ensures beside { self.new ≡ record self.old { line = self.new.line; relay = self.new.relay; is_lost = self.new.is_lost } }
        ensures some { result ≡ true → (L.seen self.new.line).sent ≢ (L.seen self.old.line).sent }
        ensures tried { result ≡ false → self.new.is_lost ≡ false
            → ((L.seen self.new.line).stalled_writes ≡ one_more (L.seen self.old.line).stalled_writes)
            ⊎ NothingGoes self.old.is_behind self.new.relay }
        ensures lost { IsLostBy L.seen self.old self.new }
    {
        self.write_one()
    }

    /// Takes octets of the line in: those that already wait for the relay, or else those of one read. Says whether a read gave
    /// some. It does nothing while octets wait for the driver. While the driver rests, call it until it says no: so data comes
    /// on even where no frame is the driver's.
    pub fn fill(&mut self) -> bool
        ensures goes { LeadsBy L.seen (may_pass self.old.is_behind) self.old self.new }
        ensures beside { self.new ≡ record self.old {
          line = self.new.line;
          relay = self.new.relay;
          unfed = self.new.unfed;
          is_lost = self.new.is_lost;
        } }
        ensures some { result ≡ true → (L.seen self.new.line).received ≢ (L.seen self.old.line).received }
        ensures none { result ≡ false → self.old.relay.to_driver ≡ [] → self.old.unfed ≡ []
            → (self.new.is_lost ≡ true) ⊎ ((L.seen self.new.line).empty_reads ≡ one_more (L.seen self.old.line).empty_reads) }
        ensures blocks { self.old.relay.to_driver ≡ [] → self.new.unfed ≢ [] → self.new.relay.outer.next ≢ None }
        ensures still { self.old.relay.to_driver ≢ [] → self.new ≡ self.old }
        ensures lost { IsLostBy L.seen self.old self.new }
    {
        self.take_in()
    }
}
