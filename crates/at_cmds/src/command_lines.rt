//! The commands of one line (V.250, 5.2.1, 5.3.1, 5.4.1, 6.3.1).
ghost use Rattle.std.specs.Prelude.{◌≡◌, IfOk, OnOk, option_map};
ghost use Rattle.at_cmds.specs.CommandLines.{begins_at, begins_with_at, commands_in, commands_read, goes_on_at, is_before_at, is_letter_a, is_letter_d, is_letter_t, is_sign, nothing_read, place_after, place_behind, read_octet};
ghost use Rattle.at_text.specs.Octets.{is_digit};

use at_text::Text;
use std::alloc::{AllocError, Global};
use std::marker::Model;
use std::mem;

/// Where a line is.
#[derive(Clone, Copy)]
pub(crate) enum Place {
    /// No `AT` has come.
    Before,
    /// An A has come, which may be that of `AT`.
    Letter,
    /// Between two commands.
    Between,
    /// In a command of one sign and digits, or of an ampersand, a sign and digits.
    Basic,
    /// Behind an ampersand.
    Ampersand,
    /// In a command that goes on to a semicolon.
    Extended,
    /// Between quotes.
    Quoted,
    /// In a command D, which goes on to the end of the line.
    Dialling,
}

/// Whether an octet is no blank and no semicolon.
fn is_sign(octet: u8) -> bool
    ensures { result ≡ is_sign octet }
{
    octet != b' ' && octet != b';'
}

/// Whether it is an A, in either case.
pub fn is_letter_a(octet: u8) -> bool
    ensures { result ≡ is_letter_a octet }
{
    octet == b'A' || octet == b'a'
}

/// Whether it is a T, in either case.
pub fn is_letter_t(octet: u8) -> bool
    ensures { result ≡ is_letter_t octet }
{
    octet == b'T' || octet == b't'
}

/// Whether octets begin with `AT`, its letters in either case.
pub fn begins_with_at(octets: &[u8]) -> bool
    ensures { result ≡ begins_with_at octets.now }
{
    match octets {
        [a, t, ..] => is_letter_a(*a) && is_letter_t(*t),
        _ => false,
    }
}

impl Place {
    /// Where the line is after one more octet behind its `AT`, where no command has begun that goes on to a semicolon.
    fn behind(self, octet: u8) -> Place
        ensures { result ≡ place_behind self octet }
    {
        match octet {
            b' ' => self,
            b';' => Place::Between,
            b'+' => Place::Extended,
            b'&' => Place::Ampersand,
            b'D' | b'd' => Place::Dialling,
            _ => Place::Basic,
        }
    }

    /// Where the line is after one more octet.
    fn after(self, octet: u8) -> Place
        ensures { result ≡ place_after self octet }
    {
        match (self, octet) {
            (Place::Letter, b'T' | b't') => Place::Between,
            (Place::Before | Place::Letter, b'A' | b'a') => Place::Letter,
            (Place::Before | Place::Letter, _) => Place::Before,
            (Place::Between | Place::Basic, _) => self.behind(octet),
            (Place::Ampersand, b' ') => Place::Ampersand,
            (Place::Ampersand, _) => Place::Basic,
            (Place::Extended, b'"') => Place::Quoted,
            (Place::Extended, b';') => Place::Between,
            (Place::Extended, _) => Place::Extended,
            (Place::Quoted, b'"') => Place::Extended,
            (Place::Quoted, _) => Place::Quoted,
            (Place::Dialling, _) => Place::Dialling,
        }
    }

    /// Whether a command begins with this octet.
    fn begins(self, octet: u8) -> bool
        ensures { result ≡ begins_at self octet }
    {
        match self {
            Place::Between => is_sign(octet),
            Place::Basic => is_sign(octet) && !octet.is_ascii_digit(),
            _ => false,
        }
    }

    /// Whether it belongs to the command that has begun.
    fn goes_on(self, octet: u8) -> bool
        ensures { result ≡ goes_on_at self octet }
    {
        match self {
            Place::Basic => octet.is_ascii_digit(),
            Place::Ampersand | Place::Dialling => octet != b' ',
            Place::Extended => is_sign(octet),
            Place::Quoted => true,
            Place::Before | Place::Letter | Place::Between => false,
        }
    }

    /// Whether no `AT` has come.
    fn is_before_at(self) -> bool
        ensures { result ≡ is_before_at self }
    {
        matches!(self, Place::Before | Place::Letter)
    }
}

/// A line so far.
#[derive(Drop)]
struct CommandReader {
    alloc: Global,
    place: Place,
    whole: Vec<Text>,
    begun: Vec<u8>,
}

impl Model for CommandReader {
    ghost use Rattle.at_cmds.specs.CommandLines.{Read};

    ghost Value = { Read };

    ghost view = { λ r. record { place = r.place; whole = r.whole.items; begun = r.begun.items } };
}

impl CommandReader {
    ghost use Rattle.std.specs.Prelude.{◌++◌};
    ghost use Rattle.at_cmds.specs.CommandLines.{one_begun};

    fn new(alloc: Global) -> CommandReader
        ensures { result ≡ nothing_read }
    {
        CommandReader {
            alloc,
            place: Place::Before,
            whole: Vec::new(alloc),
            begun: Vec::new(alloc),
        }
    }

    /// The command that has begun is whole.
    fn end_command(&mut self, next: Vec<u8>) -> Result<(), AllocError>
        ensures { OnOk result
            (self.new ≡ record self.old { whole = self.old.whole ++ one_begun self.old.begun; begun = next.items }) }
    {
        let begun = mem::replace(&mut self.begun, next);
        if begun.len() > 0 {
            self.whole.push(Text::from(begun))?;
        }
        Ok(())
    }

    /// Reads an octet. After an error nothing is said of it.
    fn push(&mut self, octet: u8) -> Result<(), AllocError>
        ensures { OnOk result (self.new ≡ read_octet self.old octet) }
    {
        if self.place.begins(octet) {
            let mut next = Vec::from_slice(self.alloc, b"AT")?;
            next.push(octet)?;
            self.end_command(next)?;
        } else if self.place.goes_on(octet) {
            self.begun.push(octet)?;
        }
        self.place = self.place.after(octet);
        Ok(())
    }

    /// The commands of the line that ends here, if it had an `AT`.
    fn finish(self) -> Result<Option<Vec<Text>>, AllocError>
        ensures { IfOk result (λ read. option_map (λ commands. commands.items) read ≡ commands_read self) }
    {
        if self.place.is_before_at() {
            return Ok(None);
        }
        let CommandReader {
            mut whole,
            begun,
            ..
        } = self;
        if begun.len() > 0 {
            whole.push(Text::from(begun))?;
        }
        Ok(Some(whole))
    }
}

/// The commands of a line, each with `AT` before it and without the blanks that stand outside quotes; nothing where the line has
/// no `AT`, before which anything may stand.
#[tactic(auto, unfolding(crate::specs::CommandLines::commands_in))]
pub fn commands_in(alloc: Global, line: &[u8]) -> Result<Option<Vec<Text>>, AllocError>
    ensures { IfOk result (λ read. option_map (λ commands. commands.items) read ≡ commands_in line.now) }
{
    let mut reader = CommandReader::new(alloc);
    for octet in line {
        reader.push(*octet)?;
    }
    reader.finish()
}
