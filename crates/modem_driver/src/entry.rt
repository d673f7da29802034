//! Entering the multiplexer step by step, with the caller's text (27.007, 5.7).
ghost use Rattle.std.specs.Prelude.{◌≡◌, ◌+◌, ◌<◌, ◌≤◌, ◌==◌, [], length, IfOk, OnOk, OnErr};
ghost use Rattle.serial_line.specs.Counts.{one_more};
ghost use Rattle.serial_line.specs.LineViews.{after_fault};
ghost use Rattle.modem_driver.specs.EntrySteps.{EntryStepsOn, IsAsked, IsUnanswering, MovesBy, step_by, close_down_frame};
ghost use Rattle.modem_history.specs.Sessions.{LineView};
ghost use Rattle.mux_frame.specs.Spelling.{spelled};

use crate::entering::{next_octet, see};
use at_text::{Final, LineReader};
use serial_line::{LineFault, SerialLine};
use std::marker::Model;

/// CLD, a command, on connection 0.
const CLOSE_DOWN: &[u8] = &[0xF9, 0x03, 0xEF, 0x05, 0xC3, 0x01, 0xF2, 0xF9];

/// What a step of an entry did.
#[derive(Clone, Copy, PartialEq, Eq)]
pub enum EntryStep {
    /// Octets of the text were sent, or one was read.
    Moved,
    /// The line took none, or gave none.
    Idle,
    /// The final code came. It is the last step.
    Answered(Final),
}

/// An entry into the multiplexer under way: it sends a text, and then reads octet by octet to the end of the first line
/// that is a final code, however much comes before it. The caller decides when it has waited long enough, by a clock or
/// a count of steps.
///
/// The text is any octets, CR included: `AT+CMUX=0,0,5,127` and CR, say. An entry by `AT+CMUX=?` and CR can go before it, to ask for the
/// ranges. Where nothing answers, a driver that was killed may have left the modem in the multiplexer, and in the middle of a frame. Then
/// send N1 + 3 flags (F9) and `close_down` by an entry of its own, drop that once all is sent, and try again.
///
/// Contracts see the text, how many of its octets were sent, and what is kept of the unfinished line.
#[derive(Drop)]
pub struct Entry<'a> {
    text: &'a [u8],
    written: usize,
    reader: LineReader,
}

impl<'a> Model for Entry<'a> {
    ghost use Rattle.std.specs.Prelude.{◌≤◌, length};
    ghost use Rattle.modem_driver.specs.EntrySteps.{EntryView};

    ghost Value = { EntryView };

    ghost view = { λ e. record { text = e.text.now; written = e.written; kept = e.reader } };

    ghost invariant = { λ e. e.written ≤ length e.text.now };
}

impl<'a> Entry<'a> {
    /// An entry that has sent and read nothing yet.
    pub fn new(text: &'a [u8]) -> Entry<'a>
        ensures value { result ≡ record { text = text.now; written = 0; kept = [] } }
        ensures begins { (first : LineView) → IsAsked first first result }
    {
        Entry {
            text,
            written: 0,
            reader: LineReader::new(),
        }
    }

    /// Whether the whole text was sent.
    pub fn is_sent(&self) -> bool
        ensures { result ≡ (self.now.written == length self.now.text) }
    {
        self.written == self.text.len()
    }

    /// Makes one call on the line: offers the rest of the text, or, once all is sent, reads one octet. Only such a read can end the
    /// entry. Fails where the line fails, and may then be called again.
    pub fn step<L: SerialLine>(&mut self, line: &mut L) -> Result<EntryStep, LineFault>
        ensures text { self.new.text ≡ self.old.text }
        ensures goes { IfOk result (λ said. EntryStepsOn (L.seen line.old) (L.seen line.new) self.old self.new said) }
        ensures moves { IfOk result (λ said. MovesBy said (L.seen line.old) (L.seen line.new)) }
        ensures counted { (L.seen line.new).calls ≡ one_more (L.seen line.old).calls }
        ensures sound { OnOk result ((L.seen line.new).failures ≡ (L.seen line.old).failures) }
        ensures stays { OnErr result ((self.new ≡ self.old) × (L.seen line.new ≡ after_fault (L.seen line.old))) }
        ensures unsent { IfOk result (λ said. self.old.written < length self.old.text → IsUnanswering said) }
    {
        if self.written < self.text.len() {
            return self.write(line);
        }
        self.read(line)
    }

    /// Offers the line the rest of the text.
    fn write<L: SerialLine>(&mut self, line: &mut L) -> Result<EntryStep, LineFault>
        requires { self.old.written < length self.old.text }
        ensures text { self.new.text ≡ self.old.text }
        ensures goes { IfOk result (λ said. EntryStepsOn (L.seen line.old) (L.seen line.new) self.old self.new said) }
        ensures moves { IfOk result (λ said. MovesBy said (L.seen line.old) (L.seen line.new)) }
        ensures counted { (L.seen line.new).calls ≡ one_more (L.seen line.old).calls }
        ensures sound { OnOk result ((L.seen line.new).failures ≡ (L.seen line.old).failures) }
        ensures stays { OnErr result ((self.new ≡ self.old) × (L.seen line.new ≡ after_fault (L.seen line.old))) }
        ensures unsent { IfOk result IsUnanswering }
    {
        let count = line.try_write(&self.text[self.written..])?;
        self.written += count;
        if count == 0 {
            return Ok(EntryStep::Idle);
        }
        Ok(EntryStep::Moved)
    }

    /// Reads an octet, if there is one.
    fn read<L: SerialLine>(&mut self, line: &mut L) -> Result<EntryStep, LineFault>
        requires { self.old.written ≡ length self.old.text }
        ensures text { self.new.text ≡ self.old.text }
        ensures goes { IfOk result (λ said. EntryStepsOn (L.seen line.old) (L.seen line.new) self.old self.new said) }
        ensures moves { IfOk result (λ said. MovesBy said (L.seen line.old) (L.seen line.new)) }
        ensures counted { (L.seen line.new).calls ≡ one_more (L.seen line.old).calls }
        ensures sound { OnOk result ((L.seen line.new).failures ≡ (L.seen line.old).failures) }
        ensures stays { OnErr result ((self.new ≡ self.old) × (L.seen line.new ≡ after_fault (L.seen line.old))) }
    {
        match next_octet(line)? {
            Some(octet) => Ok(step_by(see(&mut self.reader, octet))),
            None => Ok(EntryStep::Idle),
        }
    }
}

/// What a step says where an octet came, by the final code that it ended.
fn step_by(code: Option<Final>) -> EntryStep
    ensures { result ≡ step_by code }
{
    match code {
        Some(code) => EntryStep::Answered(code),
        None => EntryStep::Moved,
    }
}

/// The octets of a CLD command on connection 0, as an initiator sends it (27.010, 5.4.6.3.3). It ends the multiplexer:
/// the modem then takes plain command lines.
pub fn close_down() -> &'static [u8]
    ensures { result.now ≡ spelled close_down_frame }
{
    CLOSE_DOWN
}
