//! What is said of a modem with files beside connections, where it ends or isn't begun, as far as the writer takes it.
ghost use Rattle.std.specs.Prelude.{◌≡◌, true, OnOk, IfErr};
ghost use Rattle.ctl_text.specs.Writing.{IsBegun};
ghost use Rattle.ctl_sim.specs.DataSaying.{SaysUnopened, concerns_file, data_fault_line};

use crate::data_fault::DataFault;
use ctl_text::say_line;
use file_threads::{FileFault, Unopened, quoted};
use std::alloc::Global;
use std::fmt;
use std::fmt::Write as _;
use std::io::Write;

/// Says why it ended, and gives the status.
pub(crate) fn say_data_fault<E: Write>(faults: &mut E, fault: DataFault) -> u8
    ensures status { result ≡ 1 }
    ensures said { IsBegun (E.contents faults.old) (E.contents faults.new) (data_fault_line fault) }
{
    say_line(faults, fault.words(), "", "");
    1
}

/// Says why it ended before its input, if it did, and gives the status.
pub(crate) fn end_data<E: Write>(faults: &mut E, ended: Result<(), DataFault>) -> u8
    ensures well { OnOk ended ((result ≡ 0) × (faults.new ≡ faults.old)) }
    ensures said { IfErr ended (λ fault. (result ≡ 1)
        × IsBegun (E.contents faults.old) (E.contents faults.new) (data_fault_line fault)) }
{
    match ended {
        Ok(()) => 0,
        Err(fault) => say_data_fault(faults, fault),
    }
}

/// What stands behind the path of a file that can't be had. Refused where memory is, and where the fault concerns no path.
fn behind_path(alloc: Global, path: &str, fault: FileFault) -> Result<String, fmt::Error>
    ensures { OnOk result (concerns_file fault ≡ true) }
{
    let mut text = String::new(alloc);
    match fault {
        FileFault::NoDevice(why) => write!(text, " can't be opened: {why}")?,
        FileFault::NotSetUp => {
            write!(
                text,
                " is a regular file; it is to be a FIFO, a device, or a terminal that is set up: stty -F {path:?} raw -echo min 0 time 1",
            )?;
        }
        FileFault::NoMemory | FileFault::NoThread => return Err(fmt::Error),
    }
    Ok(text)
}

/// Says why a file can't be had, and gives the status. Its path is named where the fault concerns it, unless memory is refused.
#[tactic(auto, using(crate::proofs::DataEnding::names_file))]
pub(crate) fn say_unopened<E: Write>(
    alloc: Global,
    faults: &mut E,
    path: &str,
    fault: FileFault,
) -> u8
    ensures status { result ≡ 1 }
    ensures said { SaysUnopened path.now fault (E.contents faults.old) (E.contents faults.new) }
{
    let Ok(quoted) = quoted(alloc, path) else {
        return say_data_fault(faults, DataFault::File(fault));
    };
    match behind_path(alloc, path, fault) {
        Ok(rest) => {
            say_line(faults, "fault: the file ", quoted.as_str(), rest.as_str());
            1
        }
        Err(_) => say_data_fault(faults, DataFault::File(fault)),
    }
}
