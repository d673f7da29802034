//! What waits is offered to the desk.
ghost use Rattle.std.specs.Prelude.{◌≡◌, ◌<◌, true, false};
ghost use Rattle.modem_core.specs.Placing.{LeavesAll, OffersFirst, Placed, TellsAlone, AnnouncesAlone, caller_of, IsRingOf, IsCaller, IsListenerOf, IsHeard, caller_rings, listener_rings};
ghost use Rattle.modem_queues.specs.LineQueues.{place_of};

use crate::waiting::Waiting;
use modem_desk::DriverEnd;
use modem_queues::KIND_PLACES;

/// How many callers a number of 8 bits can name.
const CALLERS: usize = 256;

impl Waiting {
    /// The first outcome is offered to its caller, unless one of that caller was handed back before. One
    /// that is handed back, or isn't offered, goes behind the others. Whether it was told.
    fn offer_outcome(&mut self, driver: &mut DriverEnd, held_up: &mut [bool; CALLERS]) -> bool
        ensures offers { OffersFirst caller_of IsRingOf (IsCaller driver.old.desk)
            (caller_rings driver.old) (caller_rings driver.new) held_up.old held_up.new
            self.old.outcomes self.new.outcomes result }
        ensures alone { TellsAlone driver.old driver.new }
        ensures lines { self.new.lines ≡ self.old.lines }
    {
        let Some(outcome) = self.outcomes.pop_front() else {
            return false;
        };
        let caller = usize::from(outcome.caller);
        if held_up[caller] || outcome.caller >= driver.callers() {
            self.outcomes.push_back_reserved(outcome);
            return false;
        }
        let Err(outcome) = driver.tell(outcome) else {
            return true;
        };
        held_up[caller] = true;
        self.outcomes.push_back_reserved(outcome);
        false
    }

    /// Offers each outcome to its caller, in order. What is handed back stays, in its order. Once one of a caller was
    /// handed back, no other of that caller is offered. Says whether any was told.
    #[inline(always)]
    pub fn place_outcomes(&mut self, driver: &mut DriverEnd) -> bool
        ensures placed { Placed caller_of IsRingOf (IsCaller driver.old.desk) (caller_rings driver.old)
            (caller_rings driver.new) self.old.outcomes self.new.outcomes result }
        ensures alone { TellsAlone driver.old driver.new }
        ensures lines { self.new.lines ≡ self.old.lines }
    {
        if self.outcomes.is_empty() {
            return false;
        }
        self.place_each_outcome(driver)
    }

    /// The same, also where none waits.
    #[inline(never)]
    fn place_each_outcome(&mut self, driver: &mut DriverEnd) -> bool
        ensures placed { Placed caller_of IsRingOf (IsCaller driver.old.desk) (caller_rings driver.old)
            (caller_rings driver.new) self.old.outcomes self.new.outcomes result }
        ensures alone { TellsAlone driver.old driver.new }
        ensures lines { self.new.lines ≡ self.old.lines }
    {
        let mut held_up = [false; CALLERS];
        let mut moved = false;
        for _place in 0..self.count() {
            moved |= self.offer_outcome(driver, &mut held_up);
        }
        moved
    }

    /// The first line is offered to the listener of its kind, unless one of that kind was handed back
    /// before, as one is that nobody listens to. One that is handed back, or isn't offered, goes behind the others. Whether it
    /// was announced.
    fn offer_line(&mut self, driver: &mut DriverEnd, held_up: &mut [bool; KIND_PLACES]) -> bool
        ensures offers { OffersFirst place_of (IsListenerOf driver.old.desk.kinds)
            (IsHeard driver.old.desk.kinds) (listener_rings driver.old) (listener_rings driver.new)
            held_up.old held_up.new self.old.lines self.new.lines result }
        ensures alone { AnnouncesAlone driver.old driver.new }
        ensures outcomes { self.new.outcomes ≡ self.old.outcomes }
    {
        let Some(line) = self.lines.pop_front() else {
            return false;
        };
        let kind = line.kind.place();
        if held_up[kind] {
            self.lines.push_back_reserved(line);
            return false;
        }
        let Err(line) = driver.announce(line) else {
            return true;
        };
        held_up[kind] = true;
        self.lines.push_back_reserved(line);
        false
    }

    /// Whether a line waits of a kind that is listened to and of which none was handed back.
    fn may_offer(&self, driver: &DriverEnd, held_up: &[bool; KIND_PLACES]) -> bool
        ensures { result ≡ false → LeavesAll driver.now.desk.kinds held_up.now self.now.lines }
    {
        driver.kinds().iter().any(|kind| !held_up[kind.place()] && self.lines.of_kind(*kind) > 0)
    }

    /// Offers each line to the listener of its kind, in order. What is handed back stays, in its order. Once one of a
    /// kind was handed back, no other of that kind is offered. It ends where none is left to be offered. Says whether
    /// any was announced.
    #[inline(always)]
    pub fn place_lines(&mut self, driver: &mut DriverEnd) -> bool
        ensures placed { Placed place_of (IsListenerOf driver.old.desk.kinds) (IsHeard driver.old.desk.kinds)
            (listener_rings driver.old) (listener_rings driver.new) self.old.lines self.new.lines result }
        ensures alone { AnnouncesAlone driver.old driver.new }
        ensures outcomes { self.new.outcomes ≡ self.old.outcomes }
    {
        if self.many() == 0 {
            return false;
        }
        if self.are_held_up(driver) {
            return false;
        }
        self.place_each_line(driver)
    }

    /// Whether all lines that wait are of one kind, whose listener has no place: then the first is handed back, and all stay.
    #[inline(never)]
    fn are_held_up(&self, driver: &mut DriverEnd) -> bool
        ensures placed { result ≡ true → Placed place_of (IsListenerOf driver.old.desk.kinds) (IsHeard driver.old.desk.kinds)
            (listener_rings driver.old) (listener_rings driver.new) self.now.lines self.now.lines false }
        ensures given { driver.new.announced ≡ driver.old.announced }
        ensures back { result ≡ false → driver.new.announced_back ≡ driver.old.announced_back }
        ensures alone { AnnouncesAlone driver.old driver.new }
    {
        let Some(line) = self.lines.front() else {
            return false;
        };
        let kind = line.kind;
        if self.lines.of_kind(kind) < self.many() {
            return false;
        }
        driver.hands_back(kind)
    }

    /// The same, also where none waits.
    #[inline(never)]
    fn place_each_line(&mut self, driver: &mut DriverEnd) -> bool
        ensures placed { Placed place_of (IsListenerOf driver.old.desk.kinds) (IsHeard driver.old.desk.kinds)
            (listener_rings driver.old) (listener_rings driver.new) self.old.lines self.new.lines result }
        ensures alone { AnnouncesAlone driver.old driver.new }
        ensures outcomes { self.new.outcomes ≡ self.old.outcomes }
    {
        let many = self.many();
        let mut held_up = [false; KIND_PLACES];
        let mut moved = false;
        for place in 0..many {
            moved |= self.offer_line(driver, &mut held_up);
            if !self.may_offer(driver, &held_up) {
                self.lines.rotate_left(many - (place + 1));
                return moved;
            }
        }
        moved
    }
}
