//! Octets between a line and its relay.
ghost use Rattle.std.specs.Prelude.{◌≡◌, ◌≢◌, ◌⊎◌, ◌≤◌, ◌<◌, ◌+◌, ◌++◌, [], length, take, drop, min, true, false, None, IfOk, OnOk, OnErr, nat_lt};
ghost use Rattle.serial_line.specs.Counts.{one_more};
ghost use Rattle.serial_line.specs.LineViews.{after_fault, after_write};
ghost use Rattle.modem_data.specs.Hops.{HoldsNothing, Hops, Took};
ghost use Rattle.modem_data_line.specs.DataLines.{LeadsBy, TakesBy, is_of_driver, may_go, may_pass};
ghost use Rattle.modem_data_line.specs.Moving.{WritesOn, Feeds, Hands, IsAsked, IsLostBy, IsOffered, NothingGoes, TakesOn};

use crate::data_line::DataLine;
use modem_data::Relay;
use serial_line::{LineFault, ReadBuffer, SerialLine};

/// Writes the octets that wait at the relay, once, and says how many the line took.
#[tactic(auto, using(crate::proofs::Asked::sent_more))]
fn write<L: SerialLine>(line: &mut L, relay: &mut Relay) -> Result<usize, LineFault>
    ensures wrote { OnOk result (WritesOn (L.seen line.old).sent (L.seen line.new).sent relay.old relay.new) }
    ensures err { OnErr result (relay.new ≡ relay.old) }
    ensures went { IfOk result (λ n. L.seen line.new ≡ after_write n relay.old.to_line (L.seen line.old)) }
    ensures fault { OnErr result (L.seen line.new ≡ after_fault (L.seen line.old)) }
    ensures grew { IfOk result (λ n. 0 < n → (L.seen line.new).sent ≢ (L.seen line.old).sent) }
    ensures stalled { IfOk result (λ n. n ≡ 0 → 0 < length relay.old.to_line
        → (L.seen line.new).stalled_writes ≡ one_more (L.seen line.old).stalled_writes) }
{
    let count = line.try_write(relay.for_line())?;
    relay.wrote(count);
    Ok(count)
}

/// Gives the relay octets that wait for it.
fn feed(relay: &mut Relay, unfed: &mut ReadBuffer)
    ensures feeds { Feeds relay.old relay.new unfed.old unfed.new }
    ensures blocks { unfed.new ≢ [] → relay.new.outer.next ≢ None }
{
    let input = relay.from_line(unfed.as_slice());
    unfed.pass(input.taken);
}

/// Hands octets that wait to the driver: writes them to the front of the room, as many as fit, and says how many.
fn hand(relay: &mut Relay, room: &mut [u8]) -> usize
    ensures hands { Hands relay.old relay.new (take result room.new) }
    ensures count { result ≡ min (length relay.old.to_driver) (length room.old) }
    ensures few { result ≤ length room.old }
    ensures all { result < length room.old → relay.new.to_driver ≡ [] }
    ensures same { relay.new.outer ≡ relay.old.outer }
{
    let octets = relay.for_driver();
    let count = octets.len().min(room.len());
    let (front, _) = room.split_at_mut(count);
    front.copy_from_slice(&octets[..count]);
    relay.handed(count);
    count
}

/// Gives the relay octets of the driver, where it wants some, and says how many it took.
fn take_from(relay: &mut Relay, octets: &[u8]) -> usize
    ensures none { result ≡ 0 → relay.new ≡ relay.old }
    ensures some { 0 < result → Hops relay.old relay.new (Took (take result octets.now)) }
    ensures few { result ≤ length octets.now }
    ensures stuck { result ≡ 0 → 0 < length octets.now → (0 < length relay.new.to_line) ⊎ (relay.new.inner.next ≢ None) }
{
    if octets.is_empty() || !relay.wants_driver() {
        return 0;
    }
    relay.feed_driver(octets)
}

impl<L: SerialLine> DataLine<L> {
    /// Makes the next octets for the line wait, if none wait and some may go. Says whether octets wait.
    #[tactic(auto, using(crate::proofs::Leads::readies_driver, crate::proofs::Leads::readies_any))]
    fn make_ready(&mut self) -> bool
        ensures goes { LeadsBy L.seen (may_go self.old.is_behind) self.old self.new }
        ensures same { self.new ≡ record self.old { relay = self.new.relay } }
        ensures some { result ≡ true → 0 < length self.new.relay.to_line }
        ensures none { result ≡ false → NothingGoes self.old.is_behind self.new.relay }
    {
        if self.is_behind {
            self.relay.ready_driver()
        } else {
            self.relay.ready()
        }
    }

    /// Writes the octets that wait, once, and says whether the line took some. Where the line fails, it is lost.
    #[tactic(auto, using(crate::proofs::Leads::writes_once, crate::proofs::Leads::loses_at, crate::proofs::Lost::lost_wrote, crate::proofs::Lost::lost_fault))]
    fn write_waiting(&mut self) -> bool
        ensures goes { LeadsBy L.seen is_of_driver self.old self.new }
        ensures same { self.new ≡ record self.old { line = self.new.line; relay = self.new.relay; is_lost = self.new.is_lost } }
        ensures lost { IsLostBy L.seen self.old self.new }
        ensures called { (L.seen self.new.line).calls ≡ one_more (L.seen self.old.line).calls }
        ensures none_came { (L.seen self.new.line).received ≡ (L.seen self.old.line).received }
        ensures no_read { (L.seen self.new.line).empty_reads ≡ (L.seen self.old.line).empty_reads }
        ensures some { result ≡ true → (L.seen self.new.line).sent ≢ (L.seen self.old.line).sent }
        ensures stalled { result ≡ false → 0 < length self.old.relay.to_line → self.new.is_lost ≡ false
            → (L.seen self.new.line).stalled_writes ≡ one_more (L.seen self.old.line).stalled_writes }
    {
        match write(&mut self.line, &mut self.relay) {
            Ok(count) => count > 0,
            Err(_) => {
                self.relay.lost();
                self.is_lost = true;
                false
            }
        }
    }

    /// Writes once what may go to the line, and says whether the line took some.
    #[tactic(auto, using(crate::proofs::Leads::leads_none, crate::proofs::Leads::then_driver, crate::proofs::Lost::lost_none, crate::proofs::Lost::lost_sound, crate::proofs::Lost::lost_then))]
    pub(crate) fn write_one(&mut self) -> bool
        ensures goes { LeadsBy L.seen (may_go self.old.is_behind) self.old self.new }
        ensures same { self.new ≡ record self.old { line = self.new.line; relay = self.new.relay; is_lost = self.new.is_lost } }
        ensures lost { IsLostBy L.seen self.old self.new }
        ensures none_came { (L.seen self.new.line).received ≡ (L.seen self.old.line).received }
        ensures no_read { (L.seen self.new.line).empty_reads ≡ (L.seen self.old.line).empty_reads }
        ensures some { result ≡ true → (L.seen self.new.line).sent ≢ (L.seen self.old.line).sent }
        ensures tried { result ≡ false → self.new.is_lost ≡ false
            → ((L.seen self.new.line).stalled_writes ≡ one_more (L.seen self.old.line).stalled_writes)
            ⊎ NothingGoes self.old.is_behind self.new.relay }
    {
        if self.is_lost {
            return false;
        }
        if !self.make_ready() {
            return false;
        }
        self.write_waiting()
    }

    /// Reads the line once, where no octets wait for the relay, and says whether some came. Where it fails, it is lost.
    #[tactic(auto, using(crate::proofs::Leads::leads_none, crate::proofs::Asked::is_asked, crate::proofs::Asked::some_came, crate::proofs::Asked::none_came, crate::proofs::Lost::lost_none, crate::proofs::Lost::lost_read, crate::proofs::Lost::lost_fault))]
    fn read_line(&mut self) -> bool
        ensures goes { LeadsBy L.seen (may_pass self.old.is_behind) self.old self.new }
        ensures same { self.new ≡ record self.old {
          line = self.new.line;
          relay = self.new.relay;
          unfed = self.new.unfed;
          is_lost = self.new.is_lost;
        } }
        ensures asked { self.old.unfed ≡ [] → (self.new.is_lost ≡ true) ⊎ IsAsked L.seen self.old.line self.new.line }
        ensures some { result ≡ true → (L.seen self.new.line).received ≢ (L.seen self.old.line).received }
        ensures none { result ≡ false → self.old.unfed ≡ []
            → (self.new.is_lost ≡ true) ⊎ ((L.seen self.new.line).empty_reads ≡ one_more (L.seen self.old.line).empty_reads) }
        ensures lost { IsLostBy L.seen self.old self.new }
    {
        if self.is_lost || !self.unfed.is_empty() {
            return false;
        }
        match self.unfed.read(&mut self.line) {
            Ok(came) => came > 0,
            Err(_) => {
                self.relay.lost();
                self.is_lost = true;
                false
            }
        }
    }

    /// Gives the relay the octets that wait for it.
    #[tactic(auto, using(crate::proofs::Leads::takes_waiting))]
    fn feed_relay(&mut self)
        ensures goes { LeadsBy L.seen (may_pass self.old.is_behind) self.old self.new }
        ensures same { self.new ≡ record self.old { relay = self.new.relay; unfed = self.new.unfed } }
        ensures blocks { self.new.unfed ≢ [] → self.new.relay.outer.next ≢ None }
    {
        feed(&mut self.relay, &mut self.unfed);
    }

    /// Hands octets that wait to the driver.
    #[tactic(auto, using(crate::proofs::Leads::hands_driver))]
    pub(crate) fn hand_on(&mut self, room: &mut [u8]) -> usize
        ensures goes { LeadsBy L.seen (may_pass self.old.is_behind) self.old self.new }
        ensures same { self.new ≡ record self.old { relay = self.new.relay; received = self.new.received } }
        ensures came { self.new.received ≡ self.old.received ++ take result room.new }
        ensures count { result ≡ min (length self.old.relay.to_driver) (length room.old) }
        ensures few { result ≤ length room.old }
        ensures all { result < length room.old → self.new.relay.to_driver ≡ [] }
        ensures same_line { self.new.relay.outer ≡ self.old.relay.outer }
    {
        let count = hand(&mut self.relay, room);
        self.received.push(&room[..count]);
        count
    }

    /// Where nothing waits for the driver, gives the relay octets that wait for it, or else the next ones of the line, and
    /// says whether some came from the line.
    #[tactic(auto, using(crate::proofs::Leads::leads_none, crate::proofs::Leads::leads_then, crate::proofs::Lost::lost_none, crate::proofs::Lost::lost_sound, crate::proofs::Lost::lost_then))]
    pub(crate) fn take_in(&mut self) -> bool
        ensures goes { LeadsBy L.seen (may_pass self.old.is_behind) self.old self.new }
        ensures same { self.new ≡ record self.old {
          line = self.new.line;
          relay = self.new.relay;
          unfed = self.new.unfed;
          is_lost = self.new.is_lost;
        } }
        ensures asked { self.old.relay.to_driver ≡ [] → self.old.unfed ≡ []
            → (self.new.is_lost ≡ true) ⊎ IsAsked L.seen self.old.line self.new.line }
        ensures blocks { self.old.relay.to_driver ≡ [] → self.new.unfed ≢ [] → self.new.relay.outer.next ≢ None }
        ensures still { self.old.relay.to_driver ≢ [] → self.new ≡ self.old }
        ensures some { result ≡ true → (L.seen self.new.line).received ≢ (L.seen self.old.line).received }
        ensures none { result ≡ false → self.old.relay.to_driver ≡ [] → self.old.unfed ≡ []
            → (self.new.is_lost ≡ true) ⊎ ((L.seen self.new.line).empty_reads ≡ one_more (L.seen self.old.line).empty_reads) }
        ensures lost { IsLostBy L.seen self.old self.new }
    {
        if !self.relay.for_driver().is_empty() {
            return false;
        }
        let came = self.read_line();
        self.feed_relay();
        came
    }

    /// Writes once what may go to the line. Where nothing waits for the driver, octets of the line come to the relay. Then hands octets
    /// that wait to the driver.
    #[tactic(auto, using(crate::proofs::Leads::passes_in, crate::proofs::Lost::lost_sound, crate::proofs::Lost::lost_then))]
    pub(crate) fn pass_in(&mut self, room: &mut [u8]) -> usize
        ensures goes { LeadsBy L.seen (may_pass self.old.is_behind) self.old self.new }
        ensures same { self.new ≡ record self.old {
          line = self.new.line;
          relay = self.new.relay;
          unfed = self.new.unfed;
          received = self.new.received;
          is_lost = self.new.is_lost;
        } }
        ensures came { self.new.received ≡ self.old.received ++ take result room.new }
        ensures few { result ≤ length room.old }
        ensures all { result < length room.old → self.new.relay.to_driver ≡ [] }
        ensures asked { result ≡ 0 → 0 < length room.old → self.old.unfed ≡ []
            → (self.new.is_lost ≡ true) ⊎ IsAsked L.seen self.old.line self.new.line }
        ensures blocks { result ≡ 0 → 0 < length room.old → self.new.unfed ≢ [] → self.new.relay.outer.next ≢ None }
        ensures lost { IsLostBy L.seen self.old self.new }
    {
        self.write_one();
        self.take_in();
        self.hand_on(room)
    }

    /// Writes once what may go to the line of what the driver gave before, and nothing of data.
    #[tactic(auto, using(crate::proofs::Leads::writes_first, crate::proofs::Lost::offered_first, crate::proofs::Lost::lost_sound, crate::proofs::Lost::lost_then))]
    fn write_first(&mut self)
        ensures goes { LeadsBy L.seen is_of_driver self.old self.new }
        ensures same { self.new ≡ record self.old {
          line = self.new.line;
          relay = self.new.relay;
          is_lost = self.new.is_lost;
          is_behind = true;
        } }
        ensures lost { IsLostBy L.seen self.old self.new }
        ensures offered { (self.new.is_lost ≡ true)
            ⊎ (IsOffered L.seen self.old.line self.new.line ⊎ NothingGoes true self.new.relay) }
    {
        self.is_behind = true;
        self.write_one();
    }

    /// Takes octets of the driver's, where the relay wants some.
    #[tactic(auto, using(crate::proofs::Leads::takes_octets))]
    fn take_octets(&mut self, octets: &[u8]) -> usize
        ensures takes { TakesOn L.seen (take result octets.now) self.old self.new }
        ensures same { self.new ≡ record self.old { relay = self.new.relay; sent = self.new.sent; is_behind = self.new.is_behind } }
        ensures went { self.new.sent ≡ self.old.sent ++ take result octets.now }
        ensures few { result ≤ length octets.now }
        ensures behind { self.new.is_behind ≡ nat_lt result (length octets.now) }
        ensures stuck { result ≡ 0 → 0 < length octets.now → (0 < length self.new.relay.to_line) ⊎ (self.new.relay.inner.next ≢ None) }
        ensures none { result ≡ 0 → self.new.relay ≡ self.old.relay }
    {
        let taken = take_from(&mut self.relay, octets);
        self.sent.push(&octets[..taken]);
        self.is_behind = taken < octets.len();
        taken
    }

    /// Writes once what may go to the line, where all that the driver offered was taken.
    #[tactic(auto, using(crate::proofs::Leads::leads_none, crate::proofs::Lost::lost_none))]
    fn write_behind(&mut self)
        ensures goes { LeadsBy L.seen (may_go self.old.is_behind) self.old self.new }
        ensures same { self.new ≡ record self.old { line = self.new.line; relay = self.new.relay; is_lost = self.new.is_lost } }
        ensures lost { IsLostBy L.seen self.old self.new }
        ensures still { self.old.is_behind ≡ true → self.new ≡ self.old }
    {
        if !self.is_behind {
            self.write_one();
        }
    }

    /// Writes once what the driver gave before, takes its next octets, and says how many. Where it took all, it writes once more.
    #[tactic(auto, using(crate::proofs::Leads::takes_by, crate::proofs::Lost::lost_sound, crate::proofs::Lost::lost_then))]
    pub(crate) fn pass_out(&mut self, octets: &[u8]) -> usize
        ensures takes { TakesBy L.seen (take result octets.now) self.old self.new }
        ensures same { self.new ≡ record self.old {
          line = self.new.line;
          relay = self.new.relay;
          sent = self.new.sent;
          is_lost = self.new.is_lost;
          is_behind = self.new.is_behind;
        } }
        ensures went { self.new.sent ≡ self.old.sent ++ take result octets.now }
        ensures few { result ≤ length octets.now }
        ensures behind { self.new.is_behind ≡ nat_lt result (length octets.now) }
        ensures stuck { result ≡ 0 → 0 < length octets.now → (self.new.is_lost ≡ true) ⊎ IsOffered L.seen self.old.line self.new.line }
        ensures lost { IsLostBy L.seen self.old self.new }
    {
        self.write_first();
        let taken = self.take_octets(octets);
        self.write_behind();
        taken
    }
}
