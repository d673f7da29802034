//! Tells on a line of a terminal how much of a capture was read.
ghost use Rattle.std.specs.Prelude.{◌≡◌, ◌≤◌, ◌*◌, ◌<◌, ◌^◌, ℕ, List, Option, false, true};
ghost use Rattle.std.specs.Io.KnownBytes.{Appends};
ghost use Rattle.ctl_text.specs.Writing.{IsBegun};
ghost use Rattle.show_texts.specs.Progress.{Counts, HasTold, IsTold, TellsSteps, step_text};

use ctl_text::{put_octets, write_octets};
use itoa::Buffer;
use std::io::Write;
use std::marker::Model;

/// How many octets lie between two texts: 4 MiB.
const STEP: u64 = 4_194_304;

/// A line of a terminal, on which it is told how much was read: `read 8 MiB` where 8 MiB were. The next text stands over the last one,
/// and blanks at the end. Where there is no terminal, it is made to tell nothing.
///
/// After a write that failed it tells nothing more.
#[derive(Drop)]
pub struct Progress<P: Write> {
    terminal: P,
    is_on: bool,
    read: u64,
}

impl<P: Write> Model for Progress<P> {
    ghost use Rattle.show_texts.specs.Progress.{ProgressState};

    ghost Value = { ProgressState };

    ghost view = { λ p. record { shown = P.contents p.terminal; is_on = p.is_on; read = p.read } };
}

/// Writes the text of a step, and says whether the writer took the whole.
fn put_step<P: Write>(terminal: &mut P, step: u64) -> bool
    requires { step < 2 ^ 62 }
    ensures whole { result ≡ true → Appends (P.contents terminal.old) (P.contents terminal.new) (step_text step) }
    ensures part { IsBegun (P.contents terminal.old) (P.contents terminal.new) (step_text step) }
{
    let mut digits = Buffer::new();
    if !write_octets(terminal, b"read ") {
        return false;
    }
    if !write_octets(terminal, digits.format(4 * step).as_bytes()) {
        return false;
    }
    put_octets(terminal, b" MiB\r")
}

#[tactic(auto, using(crate::proofs::Progressing::steps_none, crate::proofs::Progressing::steps_more, crate::proofs::Progressing::steps_cut))]
/// Writes the texts of the steps behind the first `told`, up to the first `steps`, and says whether the writer took the whole.
fn put_steps<P: Write>(terminal: &mut P, told: u64, steps: u64) -> bool
    requires order { told ≤ steps }
    requires some { steps < 2 ^ 62 }
    ensures { TellsSteps told steps (P.contents terminal.old) (P.contents terminal.new) result }
{
    for step in told..steps {
        if !put_step(terminal, step + 1) {
            return false;
        }
    }
    true
}

impl<P: Write> Progress<P> {
    /// Tells on this terminal, where `is_on`; else it tells nothing.
    pub fn new(terminal: P, is_on: bool) -> Progress<P>
        ensures shown { result.shown ≡ P.contents terminal }
        ensures on { result.is_on ≡ is_on }
    {
        Progress {
            terminal,
            is_on,
            read: 0,
        }
    }

    #[tactic(auto, using(crate::proofs::Progressing::begins))]
    /// Begins another reading.
    pub(crate) fn begin(&mut self)
        ensures begins { IsTold self.old.shown self.new 0 }
        ensures off { self.old.is_on ≡ false → self.new ≡ self.old }
    {
        if self.is_on {
            self.read = 0;
        }
    }

    #[tactic(auto, using(crate::proofs::Progressing::counts_off, crate::proofs::Progressing::counts_on))]
    /// Counts octets that were read, and tells each step that they make whole.
    pub(crate) fn add(&mut self, count: usize)
        ensures counts { Counts self.old self.new count }
        ensures off { self.old.is_on ≡ false → self.new ≡ self.old }
    {
        if !self.is_on {
            return;
        }
        let Some(read) = self.read.checked_add(count as u64) else {
            self.is_on = false;
            return;
        };
        self.is_on = put_steps(&mut self.terminal, self.read / STEP, read / STEP);
        self.read = read;
    }

    #[tactic(auto, using(crate::proofs::Progressing::ends_same, crate::proofs::Progressing::ends_clear))]
    /// Ends the reading, and clears the line where there is a text.
    pub(crate) fn end(&mut self)
        ensures ends { (before : Option (List ℕ)) (n : ℕ) → IsTold before self.old n → HasTold before self.new n }
        ensures off { self.old.is_on ≡ false → self.new ≡ self.old }
    {
        if self.is_on && self.read >= STEP {
            self.is_on = put_octets(&mut self.terminal, b"                        \r");
        }
    }
}
