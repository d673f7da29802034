//! The lines of an input, as they come.
ghost use Rattle.std.specs.Prelude.{◌≡◌, ℕ, ◌++◌, ◌∷◌, [], List, true, false, IfOk, OnOk, MatchOption};
ghost use Rattle.std.specs.Str.Iter.{LacksByte};
ghost use Rattle.ctl_text.specs.Input.{input_lines};
ghost use Rattle.ctl_drive.specs.Input.{Reads, line_in};

use crate::fault::DriveFault;
use ctl_text::ended_line;
use std::alloc::{AllocError, Global};
use std::io::{ErrorKind, Read};
use std::marker::Model;

/// How many octets are read at once.
const ROOM: usize = 512;

/// The lines of a reader that doesn't wait.
#[derive(Drop)]
pub struct Lines<I: Read> {
    alloc: Global,
    input: I,
    text: Vec<u8>,
    ended: bool,
    failed: bool,
}

impl<I: Read> Model for Lines<I> {
    ghost use Rattle.ctl_drive.specs.Input.{LinesView};

    ghost Value = { LinesView };

    ghost view = { λ l. record {
      left = I.remaining l.input;
      text = l.text.items;
      ended = l.ended;
      failed = l.failed;
    } };
}

/// Takes the first line out of a text that may go on, without its end, if LF ends one.
fn cut_line(alloc: Global, text: &mut Vec<u8>) -> Result<Option<Vec<u8>>, AllocError>
    ensures { IfOk result (λ cut. MatchOption cut (LacksByte 10 text.old.items × (text.new.items ≡ text.old.items))
        (λ line. (more : List ℕ) → input_lines (text.old.items ++ more) ≡ line.items ∷ input_lines (text.new.items ++ more))) }
{
    let Some((front, back)) = ended_line(text.as_slice()) else {
        return Ok(None);
    };
    let mut line = Vec::new(alloc);
    let mut rest = Vec::new(alloc);
    line.extend_from_slice(front)?;
    rest.extend_from_slice(back)?;
    *text = rest;
    Ok(Some(line))
}

impl<I: Read> Lines<I> {
    ghost use Rattle.std.specs.Prelude.{◌≡◌, [], false};

    /// The lines of this reader.
    pub fn new(alloc: Global, input: I) -> Lines<I>
        ensures { result ≡ record { left = I.remaining input; text = []; ended = false; failed = false } }
    {
        Lines {
            alloc,
            input,
            text: Vec::new(alloc),
            ended: false,
            failed: false,
        }
    }

    /// Whether all lines were given.
    pub fn has_ended(&self) -> bool
        ensures { result ≡ true → (self.now.ended ≡ true) × (self.now.text ≡ []) }
    {
        self.ended && self.text.is_empty()
    }

    /// Whether the reader failed, in place of giving its end.
    pub fn has_failed(&self) -> bool
        ensures { result ≡ self.now.failed }
    {
        self.failed
    }

    /// Reads on, and says whether octets came. A reader that fails has ended.
    fn read_on(&mut self) -> Result<bool, DriveFault>
        requires { self.old.ended ≡ false }
        ensures { OnOk result (Reads self.old self.new []) }
    {
        let mut piece = [0; ROOM];
        match self.input.read(&mut piece) {
            Ok(0) => {
                self.ended = true;
                Ok(false)
            }
            Ok(count) => {
                self.text.extend_from_slice(&piece[..count])?;
                Ok(true)
            }
            Err(error)
                if matches!(
                    error.kind(),
                    ErrorKind::Interrupted | ErrorKind::WouldBlock | ErrorKind::TimedOut
                ) => Ok(false),
            Err(_) => {
                self.ended = true;
                self.failed = true;
                Ok(false)
            }
        }
    }

    /// The next of the lines that LF ends, if one came.
    fn take_line(&mut self) -> Result<Option<Vec<u8>>, DriveFault>
        ensures reads { IfOk result (λ line. Reads self.old self.new (line_in line)) }
        ensures none { IfOk result (λ line. MatchOption line ((LacksByte 10 self.new.text) × (self.new.ended ≡ self.old.ended)) (λ _. Unit {0})) }
    {
        Ok(cut_line(self.alloc, &mut self.text)?)
    }

    /// The line that no LF ends, once the reader has ended.
    fn take_last(&mut self) -> Option<Vec<u8>>
        requires { LacksByte 10 self.old.text }
        ensures { Reads self.old self.new (line_in result) }
    {
        if !self.ended || self.text.is_empty() {
            return None;
        }
        Some(std::mem::replace(&mut self.text, Vec::new(self.alloc)))
    }

    /// The next line, without its end, if one is there: LF ends it, or the end of the input, and a CR before the LF isn't part of it.
    pub fn next(&mut self) -> Result<Option<Vec<u8>>, DriveFault>
        ensures { IfOk result (λ line. Reads self.old self.new (line_in line)) }
    {
        if let Some(line) = self.take_line()? {
            return Ok(Some(line));
        }
        if self.ended {
            return Ok(self.take_last());
        }
        self.read_on()?;
        match self.take_line()? {
            Some(line) => Ok(Some(line)),
            None => Ok(self.take_last()),
        }
    }
}
