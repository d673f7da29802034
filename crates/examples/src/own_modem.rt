//! A modem of one's own for tests: it answers as 27.007 has it, and does what a script says.
use crate::Stop;
use at_text::Text;
use modem_sim::{Modem, ModemStart, Script, Sim, Step, StepAct, Steps};
use mux_frame::Dlci;
use serial_line::{CutLine, SerialLine};
use std::alloc::{AllocError, Global};

/// A step: once so many commands have come it says a line on connection 1.
pub fn says(alloc: Global, after: u64, line: &[u8]) -> Result<Step, AllocError> {
    let text = Text::from(Vec::from_slice(alloc, line)?);
    Ok(Step {
        after,
        act: StepAct::Announce(Dlci::new(1).unwrap(), text),
    })
}

/// It wants no PIN, and its signal is 18, with 99 for unknown errors (27.007, 8.5).
pub fn modem_on<L: SerialLine + Drop>(
    alloc: Global,
    line: L,
    steps: Vec<Step>,
) -> Result<Sim<L>, Stop> {
    let start = ModemStart {
        pin: None,
        rssi: 18,
        ber: 99,
    };
    let script = Script {
        echo: false,
        steps: Steps::from(steps),
    };
    match Sim::new(alloc, line, Modem::new(alloc, start), script, 31) {
        Ok(modem) => Ok(modem),
        Err(_) => Err(Stop::NoMemory),
    }
}

/// Its line is in memory.
pub fn modem_in_memory(alloc: Global, steps: Vec<Step>) -> Result<Sim<CutLine>, Stop> {
    match CutLine::new(alloc, &[], &[], &[], 4096) {
        Ok(line) => modem_on(alloc, line, steps),
        Err(_) => Err(Stop::NoMemory),
    }
}
