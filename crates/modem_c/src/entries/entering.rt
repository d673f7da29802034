//! An entry: a text, and what closes down a modem that was left in the multiplexer.
ghost use Rattle.std.specs.Prelude.{◌≡◌, ◌<◌, ◌≤◌, ◌↔◌, length, take, drop, true, false, None};
ghost use Rattle.modem_c.specs.Entries.{Gives, HearsIn, next_part, now_of};

use crate::entries::asking::{Asking, Heard};
use std::marker::Model;

/// Its text and the octets that close down, which of them is under way, and how often the text may be sent again.
#[derive(Drop)]
pub struct Entering {
    pub(crate) asking: Asking,
    pub(crate) closing: Asking,
    pub(crate) is_closing: bool,
    pub(crate) left: u8,
}

impl Model for Entering {
    ghost use Rattle.modem_c.specs.Entries.{EntryState};

    ghost Value = { EntryState };

    ghost view = { λ e. record { asking = e.asking; closing = e.closing; is_closing = e.is_closing; left = e.left } };
}

impl Entering {
    /// Writes the next octets for the line to the front of the room, as many as fit, and says how many.
    pub(crate) fn give(&mut self, room: &mut [u8]) -> usize
        ensures out { Gives self.old self.new (take result room.new) }
        ensures all { result < length room.old → (now_of self.new).written ≡ length (now_of self.new).text }
        ensures behind { drop result room.new ≡ drop result room.old }
        ensures few { result ≤ length room.old }
        ensures same { length room.new ≡ length room.old }
    {
        if self.is_closing {
            self.closing.give(room)
        } else {
            self.asking.give(room)
        }
    }

    /// The time for what is under way is over. It goes on with what closes down, or with the text again. False where the
    /// text may not be sent again.
    pub(crate) fn go_on(&mut self) -> bool
        ensures ends { (result ≡ false) ↔ ((self.old.is_closing ≡ false) × (self.old.left ≡ 0)) }
        ensures same { result ≡ false → self.new ≡ self.old }
        ensures goes { result ≡ true → self.new ≡ next_part self.old }
    {
        if self.is_closing {
            self.asking.restart();
            self.is_closing = false;
            return true;
        }
        if self.left == 0 {
            return false;
        }
        self.left -= 1;
        self.closing.restart();
        self.is_closing = true;
        true
    }

    /// Whether all that is under way was given.
    pub(crate) fn is_given(&self) -> bool
        ensures { (result ≡ true) ↔ ((now_of self.now).written ≡ length (now_of self.now).text) }
    {
        if self.is_closing {
            self.closing.is_given()
        } else {
            self.asking.is_given()
        }
    }

    /// Takes octets: those that come behind the text to the end of the first final code, those that come while it closes down
    /// all, and drops these. The condition is that all that is under way was given.
    pub(crate) fn hear(&mut self, octets: &[u8]) -> Heard
        requires { (now_of self.old).written ≡ length (now_of self.old).text }
        ensures hears { HearsIn self.old self.new (take result.taken octets.now) result.code }
        ensures all { result.code ≡ None → result.taken ≡ length octets.now }
        ensures few { result.taken ≤ length octets.now }
    {
        if self.is_closing {
            return Heard {
                taken: octets.len(),
                code: None,
            };
        }
        self.asking.hear(octets)
    }
}
