//! Typed commands, and what they are answered.
use crate::lines::{Begins, Host, Player};
use crate::printing::{say, show};
use crate::setup::Setup;
use crate::texts::print_text;
use crate::words::{BAD, number, split};
use at_cmds::{
    Apn, CmdError, Command, OperChoice, OperNumber, Pdp, Pin, Registration, Reply, ReplyFault,
    cme_text,
};
use at_text::AnswerLines;
use ctl_run::Stop;
use std::alloc::{AllocError, Global};

/// A typed command, and what it is answered. What it reads:
///
/// - `command TEXT`: a command, to which the answers are that follow. It prints which one it is and its text, or `-` where it
///   is none.
/// - `answer LINE|LINE..`: the lines of an answer. It prints the reply, or what is wrong with it.
/// - `report LINE`: an unsolicited registration, which it prints with the meaning of its status, or `-`.
/// - `cme NUMBER`: prints the text of this error, or `-`.
/// - `pin DIGITS`, `operator DIGITS`, `context CID NAME`, `reports MODE`, `errors MODE`: a command with this. It prints the
///   command's text, or what is wrong with it.
#[derive(Drop)]
pub struct Played<R: Host> {
    rt: R,
    command: Option<Command>,
}

/// The lines of an answer.
fn answer_lines(alloc: Global, words: &str) -> Result<AnswerLines, AllocError> {
    let mut lines = AnswerLines::new(alloc);
    if words.is_empty() {
        return Ok(lines);
    }
    for line in words.split('|') {
        lines.push(line.as_bytes())?;
    }
    Ok(lines)
}

fn copied(alloc: Global, text: &str) -> Result<Vec<u8>, AllocError> {
    Vec::from_slice(alloc, text.as_bytes())
}

/// The text of a command, or what is wrong with it.
fn print_command<R: Host>(rt: &R, command: &Command) -> Result<(), Stop> {
    match command.line(rt.alloc()) {
        Ok(line) => print_text(rt, line.text()),
        Err(CmdError::NoMemory) => Err(Stop::NoMemory),
        Err(why) => {
            say(rt, &why);
            Ok(())
        }
    }
}

fn made(alloc: Global, word: &str, rest: &str) -> Result<Command, Stop> {
    match word {
        "pin" => Ok(Command::PinEnter(Pin::from(copied(alloc, rest)?))),
        "operator" => {
            let oper = OperNumber::from(copied(alloc, rest)?);
            Ok(Command::OperChoose(OperChoice::Manual(oper)))
        }
        "context" => {
            let (cid, apn) = split(rest);
            Ok(Command::ContextSet {
                cid: number(cid)?,
                pdp: Pdp::Ip,
                apn: Apn::from(copied(alloc, apn)?),
            })
        }
        "reports" => Ok(Command::RegReport(number(rest)?)),
        "errors" => Ok(Command::ErrorMode(number(rest)?)),
        _ => Err(BAD),
    }
}

fn print_reply<R: Host>(rt: &R, reply: Result<Reply, ReplyFault>) -> Result<(), Stop> {
    match reply {
        Ok(reply) => show(rt, &reply),
        Err(ReplyFault::NoMemory) => return Err(Stop::NoMemory),
        Err(fault) => say(rt, &fault),
    }
    Ok(())
}

fn print_report<R: Host>(rt: &R, line: &str) {
    let _ = match Registration::read(line.as_bytes()) {
        Some(registration) => {
            let status = registration.status();
            rt.println(format_args!("{registration:?} {status}"))
        }
        None => rt.println("-"),
    };
}

fn print_cme<R: Host>(rt: &R, number: u32) {
    let _ = rt.println(cme_text(number).unwrap_or("-"));
}

impl<R: Host> Played<R> {
    fn read_command(&mut self, text: &str) -> Result<(), Stop> {
        let Ok(command) = Command::read(self.rt.alloc(), text.as_bytes()) else {
            return Err(Stop::NoMemory);
        };
        self.command = command;
        self.show_command()
    }

    /// Prints which command it is and its text, or `-` where there is none.
    fn show_command(&self) -> Result<(), Stop> {
        let Some(command) = &self.command else {
            let _ = self.rt.println("-");
            return Ok(());
        };
        let _ = self.rt.print(format_args!("{command:?} "));
        print_command(&self.rt, command)
    }

    fn read_answer(&self, words: &str) -> Result<(), Stop> {
        let Some(command) = &self.command else {
            return Err(BAD);
        };
        let lines = answer_lines(self.rt.alloc(), words)?;
        print_reply(&self.rt, Reply::read(self.rt.alloc(), command, &lines))
    }

    fn make(&self, word: &str, rest: &str) -> Result<(), Stop> {
        let command = made(self.rt.alloc(), word, rest)?;
        print_command(&self.rt, &command)
    }
}

impl<R: Host> Player for Played<R> {
    fn go(&mut self, line: &str) -> Result<bool, Stop> {
        match split(line) {
            ("command", text) => self.read_command(text)?,
            ("answer", words) => self.read_answer(words)?,
            ("report", line) => print_report(&self.rt, line),
            ("cme", word) => print_cme(&self.rt, number(word)?),
            (word, rest) => self.make(word, rest)?,
        }
        Ok(false)
    }
}

impl<R: Host> Begins<R> for Played<R> {
    fn begin(rt: R, _setup: &mut Setup) -> Result<Played<R>, Stop> {
        Ok(Played { rt, command: None })
    }
}
