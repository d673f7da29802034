//! A text that goes out, and the first final code that comes behind it.
ghost use Rattle.std.specs.Prelude.{◌≡◌, ◌==◌, ◌+◌, ◌++◌, ◌-◌, ◌<◌, ◌≤◌, ◌∷◌, [], length, min, take, drop, None};
ghost use Rattle.at_text.specs.Reading.{HasRead};
ghost use Rattle.modem_driver.specs.Entries.{SeesCode};
ghost use Rattle.modem_driver.specs.EntrySteps.{step_by};
ghost use Rattle.modem_c.specs.Entries.{Hears, begun};

use at_text::{Final, LineReader, final_of};
use std::marker::Model;

/// The text, how many of its octets were given for the line, and the unfinished line of what came behind it.
#[derive(Drop)]
pub(crate) struct Asking {
    text: Vec<u8>,
    written: usize,
    reader: LineReader,
}

impl Model for Asking {
    ghost use Rattle.std.specs.Prelude.{◌≤◌, length};
    ghost use Rattle.modem_driver.specs.EntrySteps.{EntryView};

    ghost Value = { EntryView };

    ghost view = { λ e. record { text = e.text.items; written = e.written; kept = e.reader } };

    ghost invariant = { λ e. e.written ≤ length e.text.items };
}

/// How many octets were taken, and the final code that ended with the last of them.
#[derive(Clone, Copy)]
pub(crate) struct Heard {
    pub(crate) taken: usize,
    pub(crate) code: Option<Final>,
}

impl Asking {
    /// Nothing is given or read yet.
    pub(crate) fn new(text: Vec<u8>) -> Asking
        ensures { result ≡ begun text.items }
    {
        Asking {
            text,
            written: 0,
            reader: LineReader::new(),
        }
    }

    /// Begins anew.
    pub(crate) fn restart(&mut self)
        ensures { self.new ≡ begun self.old.text }
    {
        self.written = 0;
        self.reader.reset();
    }

    /// Whether the whole text was given.
    pub(crate) fn is_given(&self) -> bool
        ensures { result ≡ (self.now.written == length self.now.text) }
    {
        self.written == self.text.len()
    }

    /// Writes the next octets of the text to the front of the room, as many as fit, and says how many.
    pub(crate) fn give(&mut self, room: &mut [u8]) -> usize
        ensures count { result ≡ min (length self.old.text - self.old.written) (length room.old) }
        ensures out { take result room.new ≡ take result (drop self.old.written self.old.text) }
        ensures all { result < length room.old → self.new.written ≡ length self.new.text }
        ensures behind { drop result room.new ≡ drop result room.old }
        ensures same { length room.new ≡ length room.old }
        ensures goes { self.new ≡ record { text = self.old.text; written = self.old.written + result; kept = self.old.kept } }
    {
        let count = (self.text.len() - self.written).min(room.len());
        let (front, _) = room.split_at_mut(count);
        let (_, rest) = self.text.as_slice().split_at(self.written);
        front.copy_from_slice(&rest[..count]);
        self.written += count;
        count
    }

    /// Reads an octet, and gives the final code that ends with it, if one does. The condition is that the whole text was
    /// given.
    fn hear_octet(&mut self, octet: u8) -> Option<Final>
        requires { self.old.written ≡ length self.old.text }
        ensures hears { Hears self.old self.new (octet ∷ []) (step_by result) }
        ensures text { self.new.text ≡ self.old.text }
        ensures written { self.new.written ≡ self.old.written }
    {
        see(&mut self.reader, octet)
    }

    /// Reads octets to the end of the first line that is a final code, and says how many those are. The condition is that
    /// the whole text was given.
    pub(crate) fn hear(&mut self, octets: &[u8]) -> Heard
        requires { self.old.written ≡ length self.old.text }
        ensures hears { Hears self.old self.new (take result.taken octets.now) (step_by result.code) }
        ensures all { result.code ≡ None → result.taken ≡ length octets.now }
        ensures few { result.taken ≤ length octets.now }
        ensures text { self.new.text ≡ self.old.text }
        ensures written { self.new.written ≡ self.old.written }
    {
        let mut taken = 0;
        while taken < octets.len() {
            let code = self.hear_octet(octets[taken]);
            taken += 1;
            if code.is_some() {
                return Heard { taken, code };
            }
        }
        Heard { taken, code: None }
    }
}

/// Reads an octet, and gives the final code that ends with it, if one does.
#[tactic(auto, using(modem_driver::proofs::Entries::sees_line))]
fn see(reader: &mut LineReader, octet: u8) -> Option<Final>
    ensures keeps { HasRead reader.new (reader.old ++ octet ∷ []) }
    ensures given { SeesCode reader.old octet result }
{
    match reader.push(octet) {
        Some(line) => final_of(line.text),
        None => None,
    }
}
