//! Asks a typed command, and reads its reply (27.007, 8.5).
use crate::Stop;
use crate::first::signal;
use crate::holding::with;
use crate::own_modem::modem_in_memory;
use at_cmds::{Command, Reply};
use at_text::CommandLine;
use modem_driver::{Answer, Ask};
use mux_frame::Dlci;
use std::alloc::Global;
use std::io::Print;

/// `AT+CSQ`.
pub fn signal_command(alloc: Global) -> Result<CommandLine, Stop> {
    match Command::Signal.line(alloc) {
        Ok(line) => Ok(line),
        Err(_) => Err(Stop::NoMemory),
    }
}

/// A request for it on connection 1.
pub fn signal_ask(alloc: Global) -> Result<Ask, Stop> {
    Ok(Ask::Command(Dlci::new(1).unwrap(), signal_command(alloc)?))
}

/// Prints a reply to it.
fn print_reply<R: Print>(rt: &R, reply: &Reply) -> Result<(), Stop> {
    let Reply::Signal { rssi, ber } = reply else {
        return Err(Stop::Unexpected);
    };
    let _ = rt.println(format_args!("strength {rssi}, errors {ber}"));
    Ok(())
}

/// Reads what it was answered.
pub fn print_signal<R: Print>(rt: &R, alloc: Global, answer: &Answer) -> Result<(), Stop> {
    let Answer::Done(lines) = answer else {
        return Err(Stop::Unexpected);
    };
    match Reply::read(alloc, &Command::Signal, lines) {
        Ok(reply) => print_reply(rt, &reply),
        Err(fault) => {
            let _ = rt.println(format_args!("{fault}"));
            Ok(())
        }
    }
}

/// A driver, and a modem at the other end. `with` (holding.rt) lends the modem.
pub fn run<R: Print>(rt: &R, alloc: Global) -> Result<(), Stop> {
    let modem = modem_in_memory(alloc, Vec::new(alloc));
    let outcome = with(modem, |modem| signal(alloc, modem))?;
    print_signal(rt, alloc, &outcome.answer)
}
