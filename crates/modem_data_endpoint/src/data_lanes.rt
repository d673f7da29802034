//! Lanes of an endpoint's connections that carry data.
ghost use Rattle.std.specs.Prelude.{◌≡◌, ◌≢◌, ◌↔◌, ◌-◌, length, take, drop, min, true, false, Err, IfOk, OnOk, OnErr};
ghost use Rattle.mux_station.specs.Opening.{is_open};
ghost use Rattle.modem_data.specs.declared.error.DataError.TheVariants as error;
ghost use Rattle.modem_data.specs.DataLanes.{most_to_go};
ghost use Rattle.modem_data.specs.Switching.{Idle as idle, is_idle, takes_given};
ghost use Rattle.modem_data.specs.Passing.{Began, EndedLane, Gave, Read, IsOver, carries, data_came, data_read, to_go, unread, wire};
ghost use Rattle.modem_data.specs.PipeSets.{IsNotData, OfEachPast};
ghost use Rattle.modem_data.specs.Hops.{Hops, Passed};

use crate::data_endpoint::DataEndpoint;
use modem_data::{Begin, DataError, Reading, Until};
use mux_frame::Dlci;

impl DataEndpoint {
    /// Begins a lane of a connection, as `Relay::begin` does.
    pub fn begin(&mut self, dlci: Dlci, how: Begin, until: Until) -> Result<(), DataError>
        ensures began { OnOk result (Hops self.old.relay self.new.relay (Passed (Began dlci.number how until))) }
        ensures not_data { result ≡ Err error.NotData → IsNotData self.old.relay.pipes dlci.number }
        ensures under_way { result ≡ Err error.UnderWay → OfEachPast self.old.relay.pipes (λ role past. is_idle (carries role dlci.number past) ≡ false) }
        ensures unread { result ≡ Err error.Unread → OfEachPast self.old.relay.pipes (λ role past.
            (carries role dlci.number past ≡ idle) × (data_read dlci.number past ≢ data_came role dlci.number past)) }
        ensures err { OnErr result (self.new ≡ self.old) }
        ensures beside { self.new.endpoint ≡ self.old.endpoint }
    {
        self.relay.begin(dlci, how, until)
    }

    /// Ends the lane of a connection, as `Relay::lines` does.
    pub fn lines(&mut self, dlci: Dlci) -> Result<(), DataError>
        ensures ended { OnOk result (Hops self.old.relay self.new.relay (Passed (EndedLane dlci.number))) }
        ensures not_data { OnErr result ((result ≡ Err error.NotData) × IsNotData self.old.relay.pipes dlci.number) }
        ensures err { OnErr result (self.new ≡ self.old) }
        ensures beside { self.new.endpoint ≡ self.old.endpoint }
    {
        self.relay.lines(dlci)
    }

    /// Gives the first octets of data that wait, as `Relay::read` does.
    pub fn read(&mut self, dlci: Dlci, room: &mut [u8]) -> Result<Reading, DataError>
        ensures count { IfOk result (λ r. OfEachPast self.old.relay.pipes (λ role past. r.count ≡ min (unread role dlci.number past) (length room.old))) }
        ensures read { IfOk result (λ r. Hops self.old.relay self.new.relay (Passed (Read dlci.number (take r.count room.new)))) }
        ensures over { IfOk result (λ r. OfEachPast self.new.relay.pipes (λ role past. r.is_over ≡ true ↔ IsOver role dlci.number past)) }
        ensures behind { IfOk result (λ r. drop r.count room.new ≡ drop r.count room.old) }
        ensures not_data { OnErr result ((result ≡ Err error.NotData) × IsNotData self.old.relay.pipes dlci.number) }
        ensures err { OnErr result ((self.new ≡ self.old) × (room.new ≡ room.old)) }
        ensures beside { self.new.endpoint ≡ self.old.endpoint }
    {
        self.relay.read(dlci, room)
    }

    /// Takes the first octets to be sent as data, as `Relay::give` does.
    pub fn give(&mut self, dlci: Dlci, octets: &[u8]) -> Result<usize, DataError>
        ensures count { IfOk result (λ count. OfEachPast self.old.relay.pipes (λ role past.
            count ≡ min (length octets.now) (most_to_go - to_go dlci.number past))) }
        ensures gave { IfOk result (λ count. Hops self.old.relay self.new.relay (Passed (Gave dlci.number (take count octets.now)))) }
        ensures not_data { result ≡ Err error.NotData → IsNotData self.old.relay.pipes dlci.number }
        ensures not_open { result ≡ Err error.NotOpen → OfEachPast self.old.relay.pipes (λ role past. is_open role dlci.number (wire past) ≡ false) }
        ensures takes_none { result ≡ Err error.Lines → OfEachPast self.old.relay.pipes (λ role past. takes_given (carries role dlci.number past) ≡ false) }
        ensures err { OnErr result (self.new ≡ self.old) }
        ensures beside { self.new.endpoint ≡ self.old.endpoint }
    {
        self.relay.give(dlci, octets)
    }

    /// How many octets were given on a connection and haven't left, as `Relay::to_go` says.
    pub fn to_go(&self, dlci: Dlci) -> Result<usize, DataError>
        ensures count { IfOk result (λ count. OfEachPast self.now.relay.pipes (λ role past. count ≡ to_go dlci.number past)) }
        ensures not_data { OnErr result ((result ≡ Err error.NotData) × IsNotData self.now.relay.pipes dlci.number) }
    {
        self.relay.to_go(dlci)
    }
}
