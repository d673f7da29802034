//! What a line in memory lets through, call by call.
ghost use Rattle.std.specs.Prelude.{◌≡◌, ◌+◌, ◌≤◌, drop, IfOk, OnOk, OnErr};

use crate::line::LineFault;
use std::marker::Model;
use std::vec::IntoIter;

/// An entry: what becomes of one call on a line in memory.
#[derive(Clone, Copy)]
pub enum Cut {
    /// At most so many octets go through.
    Upto(usize),
    /// The call fails. Where the count of failures is at its greatest value it gives 0 octets instead, and counts.
    Fault,
}

/// The entries that are left for the calls to come.
#[derive(Drop)]
pub(crate) struct Cuts {
    entries: IntoIter<Cut>,
}

impl Model for Cuts {
    ghost use Rattle.std.specs.Prelude.{List};
    ghost use Rattle.std.specs.Vec.Iter.{into_iter_items};
    ghost use Rattle.serial_line.specs.declared.cuts.Cut.{Cut};

    ghost Value = { List Cut };

    ghost view = { λ c. into_iter_items c.entries };
}

impl Cuts {
    ghost use Rattle.serial_line.specs.Cuts.{outcome_of};

    pub(crate) fn new(entries: Vec<Cut>) -> Cuts
        ensures { result ≡ entries.items }
    {
        Cuts {
            entries: entries.into_iter(),
        }
    }

    /// Uses up the next entry, which says how many of these octets go through, or that the call
    /// fails.
    pub(crate) fn pass(&mut self, there: usize, failures: &mut u64) -> Result<usize, LineFault>
        ensures used { self.new ≡ drop 1 self.old }
        ensures value { result ≡ outcome_of self.old failures.old there }
        ensures bound { IfOk result (λ n. n ≤ there) }
        ensures sound { OnOk result (failures.new ≡ failures.old) }
        ensures failure { OnErr result (failures.new ≡ failures.old + 1) }
    {
        match self.entries.next() {
            None => Ok(there),
            Some(Cut::Upto(most)) => Ok(there.min(most)),
            Some(Cut::Fault) if *failures < u64::MAX => {
                *failures += 1;
                Err(LineFault)
            }
            Some(Cut::Fault) => Ok(0),
        }
    }
}
