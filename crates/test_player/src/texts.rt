//! Command lines, the lines of what comes, and what these are.
use crate::lines::{Begins, Host, Player};
use crate::printing::{say, show};
use crate::setup::Setup;
use crate::words::{BAD, octets, split};
use at_text::{CommandLine, LineReader, TextError, final_of, unsolicited_of};
use ctl_run::Stop;
use std::str;

/// A reader of lines. What it reads:
///
/// - `command TEXT`: a command line (ITU-T V.250, 5.2.1), which it prints, or what is wrong with it.
/// - `in HEX`: octets that come. It prints each line that ends in them.
/// - `final LINE`: prints the final result code that this line is (27.007, 9.2; V.250, 5.7.1), or `None`.
/// - `unsolicited LINE`: prints the kind of unsolicited result code that this line is, or `None`.
#[derive(Drop)]
pub struct Played<R: Host> {
    rt: R,
    reader: LineReader,
}

pub fn print_text<R: Host>(rt: &R, text: &[u8]) -> Result<(), Stop> {
    let Ok(text) = str::from_utf8(text) else {
        return Err(BAD);
    };
    let _ = rt.println(text);
    Ok(())
}

fn print_command<R: Host>(rt: &R, text: &str) -> Result<(), Stop> {
    match CommandLine::new(rt.alloc(), text.as_bytes()) {
        Ok(line) => return print_text(rt, line.text()),
        Err(TextError::NoMemory) => return Err(Stop::NoMemory),
        Err(why) => say(rt, &why),
    }
    Ok(())
}

impl<R: Host> Played<R> {
    fn come(&mut self, line: &str) -> Result<(), Stop> {
        let octets = octets(self.rt.alloc(), line)?;
        for octet in octets.as_slice() {
            if let Some(line) = self.reader.push(*octet) {
                print_text(&self.rt, line.text)?;
            }
        }
        Ok(())
    }
}

impl<R: Host> Player for Played<R> {
    fn go(&mut self, line: &str) -> Result<bool, Stop> {
        match split(line) {
            ("command", text) => print_command(&self.rt, text)?,
            ("in", _) => self.come(line)?,
            ("final", text) => show(&self.rt, &final_of(text.as_bytes())),
            ("unsolicited", text) => show(&self.rt, &unsolicited_of(text.as_bytes())),
            _ => return Err(BAD),
        }
        Ok(false)
    }
}

impl<R: Host> Begins<R> for Played<R> {
    fn begin(rt: R, _setup: &mut Setup) -> Result<Played<R>, Stop> {
        Ok(Played {
            rt,
            reader: LineReader::new(),
        })
    }
}
