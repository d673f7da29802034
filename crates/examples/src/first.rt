//! The first program: a driver, a question, and the answer. A simulated modem stands at the other end of the line.
use crate::Stop;
use at_text::CommandLine;
use modem_driver::{Endpoint, Outcome};
use modem_sim::Sim;
use mux_frame::Dlci;
use serial_line::CutLine;
use std::alloc::Global;

/// Asks the modem for its signal (27.007, 8.5).
pub fn signal(alloc: Global, modem: &mut Sim<CutLine>) -> Result<Outcome, Stop> {
    let mut driver = Endpoint::new(alloc, 31, &[], 1)?;
    ask(alloc, &mut driver, modem, Dlci::new(1).unwrap(), b"AT+CSQ")
}

/// Opens connection 0 and this one, sends the command, and gives its outcome.
pub fn ask(
    alloc: Global,
    driver: &mut Endpoint,
    modem: &mut Sim<CutLine>,
    dlci: Dlci,
    command: &[u8],
) -> Result<Outcome, Stop> {
    driver.open(Dlci::CONTROL)?;
    outcome(driver, modem)?;
    driver.open(dlci)?;
    outcome(driver, modem)?;
    driver.command(dlci, CommandLine::new(alloc, command)?)?;
    outcome(driver, modem)
}

/// Goes on until an outcome comes.
fn outcome(driver: &mut Endpoint, modem: &mut Sim<CutLine>) -> Result<Outcome, Stop> {
    let mut octets = [0; 64];
    for _ in 0..100 {
        // At a real modem, write these to the terminal.
        let count = driver.poll_output(&mut octets);
        modem.line_mut().put(&octets[..count]);
        modem.turn()?;
        // At a real modem, read these from the terminal.
        let count = modem.line_mut().take(&mut octets);
        if driver.handle_input(&octets[..count]).blocked.is_some() {
            return Err(Stop::NoMemory);
        }
        if let Some(outcome) = driver.poll_outcome() {
            return Ok(outcome);
        }
    }
    Err(Stop::Unexpected)
}
