//! A modem and its answers.
use crate::lines::{Begins, Host, Player};
use crate::printing::mark;
use crate::setup::Setup;
use at_text::AnswerLine;
use ctl_run::Stop;
use modem_sim::{Modem, SimError};
use std::str;

/// A modem and its answers. It reads a command a line, and prints the lines of its answer, each behind `| `. After `marks` a
/// call stands between two marks; `copy` puts a copy of the modem in its place.
#[derive(Drop)]
pub struct Played<R: Host> {
    rt: R,
    modem: Modem,
    marks: bool,
}

impl<R: Host> Played<R> {
    /// Its answer, asked for again where memory was refused.
    fn answer(&mut self, line: &str) -> Result<Vec<AnswerLine>, SimError> {
        match self.modem.execute(line.as_bytes()) {
            Err(SimError::NoMemory) => self.modem.execute(line.as_bytes()),
            answer => answer,
        }
    }

    fn print(&self, line: &AnswerLine) {
        if let Ok(text) = str::from_utf8(line.text.as_slice()) {
            let _ = self.rt.println(format_args!("| {text}"));
        }
    }

    fn execute(&mut self, line: &str) -> Result<(), Stop> {
        mark(&self.rt, self.marks, "> Modem::execute");
        let answer = self.answer(line);
        mark(&self.rt, self.marks, "<");
        let Ok(lines) = answer else {
            return Err(Stop::NoMemory);
        };
        for line in lines.iter() {
            self.print(line);
        }
        Ok(())
    }
}

impl<R: Host> Player for Played<R> {
    fn go(&mut self, line: &str) -> Result<bool, Stop> {
        match line {
            "marks" => self.marks = true,
            "copy" => self.modem = self.modem.copy()?,
            _ => self.execute(line)?,
        }
        Ok(false)
    }
}

impl<R: Host> Begins<R> for Played<R> {
    fn begin(rt: R, setup: &mut Setup) -> Result<Played<R>, Stop> {
        Ok(Played {
            rt,
            modem: setup.modem()?,
            marks: false,
        })
    }
}
