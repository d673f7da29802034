//! A modem whose codes go beyond the standard's, and what it is asked.
use crate::first::ask;
use crate::holding::with;
use crate::own_modem::{modem_in_memory, says};
use crate::{Stop, dialect};
use modem_driver::{Endpoint, Outcome};
use modem_sim::{Sim, Step, StepAct};
use mux_frame::Dlci;
use serial_line::CutLine;
use std::alloc::{AllocError, Global};
use std::io::Print;

/// Behind the first command it holds its answers on connection 1 back, and behind the second it says these lines there.
fn steps(alloc: Global) -> Result<Vec<Step>, AllocError> {
    let mut steps = Vec::new(alloc);
    let hold = StepAct::Hold(Dlci::new(1).unwrap(), Dlci::new(2).unwrap());
    steps.push(Step {
        after: 1,
        act: hold,
    })?;
    steps.push(says(alloc, 2, b"+QIURC: \"closed\",0")?)?;
    steps.push(says(alloc, 2, b"SEND FAIL")?)?;
    Ok(steps)
}

/// Asks a command on connection 2, and then one on connection 1, and gives the outcome of the second.
pub fn ask_both(
    alloc: Global,
    driver: &mut Endpoint,
    modem: &mut Sim<CutLine>,
) -> Result<Outcome, Stop> {
    let _answered = ask(alloc, driver, modem, Dlci::new(2).unwrap(), b"AT")?;
    ask(alloc, driver, modem, Dlci::new(1).unwrap(), b"AT+QISEND=0")
}

/// Runs a driver that knows the dialect, and this modem. `with` lends the modem.
pub fn run<R: Print>(rt: &R, alloc: Global) -> Result<(), Stop> {
    let modem = modem_in_memory(alloc, steps(alloc)?);
    with(modem, |modem| dialect::run(rt, alloc, modem))
}
