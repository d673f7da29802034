//! Entering the multiplexer (27.007, 5.7).
ghost use Rattle.std.specs.Prelude.{◌≡◌, ◌<◌, ◌≤◌, ◌+◌, ◌++◌, ◌∷◌, [], length, None, IfOk, IfErr, OnOk, OnErr};
ghost use Rattle.at_text.specs.Reading.{HasRead};
ghost use Rattle.serial_line.specs.LineViews.{after_fault, after_read};
ghost use Rattle.modem_history.specs.Entering.{IsEntry, Entered};
ghost use Rattle.modem_driver.specs.Entries.{
  entry_answer,
  answer_by,
  entry_begun,
  octet_in,
  EntryGoesOn,
  Fails,
  SeesCode,
};

use at_text::{Final, LineReader, final_of};
use serial_line::{LineFault, SerialLine};
use std::marker::Model;
use thiserror::Error;

/// What enters the multiplexer.
const TEXT: &[u8] = b"AT+CMUX=0\r";

/// Why the multiplexer isn't entered.
#[derive(Clone, Copy, PartialEq, Eq, Debug, Error)]
pub enum EntryError {
    /// 1: the answer's final code isn't `OK`.
    #[error("the modem refuses")]
    Refused,
    /// 2: no final code came while the entry could wait.
    #[error("no answer")]
    NoAnswer,
    /// 3: the line failed.
    #[error("the line failed")]
    Line,
}

impl EntryError {
    ghost use Rattle.std.specs.Prelude.{◌≡◌};
    ghost use Rattle.modem_driver.specs.Numbers.{entry_error_number};

    /// The number of this refusal.
    pub fn number(self) -> u8
        ensures { result ≡ entry_error_number self }
    {
        match self {
            EntryError::Refused => 1,
            EntryError::NoAnswer => 2,
            EntryError::Line => 3,
        }
    }
}

/// An entry under way: how many octets of the text were sent, and the unfinished line.
#[derive(Drop)]
struct Entry {
    written: usize,
    reader: LineReader,
}

impl Model for Entry {
    ghost use Rattle.modem_driver.specs.Entries.{Entry};

    ghost Value = { Entry };

    ghost view = { λ e. record { written = e.written; kept = e.reader } };
}

impl Entry {
    /// Nothing is sent or read yet.
    fn new() -> Entry
        ensures { result ≡ entry_begun }
    {
        Entry {
            written: 0,
            reader: LineReader::new(),
        }
    }

    /// One call on the line: the final code, if it came.
    fn go_on<L: SerialLine>(&mut self, line: &mut L) -> Result<Option<Final>, LineFault>
        requires { self.old.written ≤ 10 }
        ensures goes { IfOk result (λ code. EntryGoesOn (L.seen line.old) (L.seen line.new) self.old self.new code) }
        ensures fails { OnErr result (Fails (L.seen line.old) (L.seen line.new) self.old) }
    {
        if self.written < TEXT.len() {
            self.write(line)?;
            return Ok(None);
        }
        self.read(line)
    }

    /// Offers the line the rest of the text.
    fn write<L: SerialLine>(&mut self, line: &mut L) -> Result<(), LineFault>
        requires { self.old.written < 10 }
        ensures goes { OnOk result (EntryGoesOn (L.seen line.old) (L.seen line.new) self.old self.new None) }
        ensures fails { OnErr result (Fails (L.seen line.old) (L.seen line.new) self.old) }
    {
        self.written += line.try_write(&TEXT[self.written..])?;
        Ok(())
    }

    /// Reads an octet, if there is one, and says the final code that it ends.
    fn read<L: SerialLine>(&mut self, line: &mut L) -> Result<Option<Final>, LineFault>
        requires { self.old.written ≡ 10 }
        ensures goes { IfOk result (λ code. EntryGoesOn (L.seen line.old) (L.seen line.new) self.old self.new code) }
        ensures fails { OnErr result (Fails (L.seen line.old) (L.seen line.new) self.old) }
    {
        match next_octet(line)? {
            Some(octet) => Ok(see(&mut self.reader, octet)),
            None => Ok(None),
        }
    }
}

/// The next octet of the line, if there is one.
pub(crate) fn next_octet<L: SerialLine>(line: &mut L) -> Result<Option<u8>, LineFault>
    ensures came { IfOk result (λ octet. L.seen line.new ≡ after_read 1 (length (octet_in octet)) (octet_in octet) (L.seen line.old)) }
    ensures fault { OnErr result (L.seen line.new ≡ after_fault (L.seen line.old)) }
{
    let mut octet = [0];
    if line.try_read(&mut octet)? == 0 {
        return Ok(None);
    }
    Ok(Some(octet[0]))
}

/// Reads an octet, and gives the final code that ends with it, if one does.
#[tactic(auto, using(crate::proofs::Entries::sees_line))]
pub(crate) fn see(reader: &mut LineReader, octet: u8) -> Option<Final>
    ensures keeps { HasRead reader.new (reader.old ++ octet ∷ []) }
    ensures given { SeesCode reader.old octet result }
{
    match reader.push(octet) {
        Some(line) => final_of(line.text),
        None => None,
    }
}

/// Enters the multiplexer: writes `AT+CMUX=0` and CR, then reads octet by octet to the end of the first line that is a
/// final code. It makes at most `turns` calls on the line. Refusals: 1 Refused, where the code isn't `OK`; 2 NoAnswer,
/// where none came in `turns` calls; 3 Line, where the line failed.
pub fn enter<L: SerialLine>(line: &mut L, turns: u32) -> Result<(), EntryError>
    ensures entered { OnOk result (IsEntry turns (L.seen line.old) (L.seen line.new) Entered) }
    ensures not_entered { IfErr result (λ why. IsEntry turns (L.seen line.old) (L.seen line.new) (entry_answer why)) }
{
    let mut entry = Entry::new();
    for _ in 0..turns {
        match entry.go_on(line) {
            Ok(None) => {}
            Ok(Some(code)) => return said_by(code),
            Err(LineFault) => return Err(EntryError::Line),
        }
    }
    Err(EntryError::NoAnswer)
}

/// What the final code says of the entry.
fn said_by(code: Final) -> Result<(), EntryError>
    ensures entered { OnOk result (answer_by code ≡ Entered) }
    ensures not_entered { IfErr result (λ why. answer_by code ≡ entry_answer why) }
{
    match code {
        Final::Good => Ok(()),
        _ => Err(EntryError::Refused),
    }
}
