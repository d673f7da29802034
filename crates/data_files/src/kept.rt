//! Octets of a lane that is over, kept so that the next lane can begin.
ghost use Rattle.std.specs.Prelude.{◌≡◌, ◌<◌, ◌≤◌, ◌+◌, ◌++◌, [], drop, length, vec_capacity, vec_len, IfOk, OnErr, OnOk};
ghost use Rattle.serial_line.specs.Counts.{one_more};
ghost use Rattle.data_files.specs.Moves.{IsKept, KeepsOn, ReadsSome};

use modem_data::DataError;
use modem_data_line::DataLine;
use mux_frame::Dlci;
use serial_line::{LineFault, SerialLine};
use std::alloc::{AllocError, Global};
use std::marker::Model;

/// The most octets that are read at once.
const ROOM: usize = 512;

/// The octets that are kept. Contracts see them as a list.
#[derive(Drop)]
pub(crate) struct Kept {
    octets: Vec<u8>,
    start: usize,
}

impl Model for Kept {
    ghost use Rattle.std.specs.Prelude.{ℕ, List, drop, vec_len, ◌≤◌};

    ghost Value = { List ℕ };

    ghost view = { λ k. drop k.start k.octets.items };

    ghost invariant = { λ k. k.start ≤ vec_len k.octets };
}

/// Makes room for 512 octets more.
#[tactic(auto, using(crate::proofs::Keeping::cut_same))]
fn make_room(octets: &mut Vec<u8>) -> Result<(), AllocError>
    ensures same { octets.new.items ≡ octets.old.items }
    ensures room { OnOk result (vec_len octets.new + 512 ≤ vec_capacity octets.new) }
{
    let length = octets.len();
    octets.resize(length + ROOM, 0)?;
    octets.truncate(length);
    if octets.capacity() - octets.len() < ROOM {
        return Err(AllocError);
    }
    Ok(())
}

impl Kept {
    /// None is kept.
    pub fn new(alloc: Global) -> Kept
        ensures { result ≡ [] }
    {
        Kept {
            octets: Vec::new(alloc),
            start: 0,
        }
    }

    /// How many are kept.
    pub fn len(&self) -> usize
        ensures count { result ≡ length self.now }
        ensures few { result + 512 ≤ usize.MAX }
    {
        self.octets.len() - self.start
    }

    /// Drops those that went, where all did.
    fn clear_gone(&mut self)
        ensures { self.new ≡ self.old }
    {
        if self.start == self.octets.len() {
            self.octets.clear();
            self.start = 0;
        }
    }

    /// Reads data of a connection behind these, at most 512 octets, and says whether its lane is over and read. Refused as
    /// `DataLine::read` is, and for memory.
    pub fn read<L: SerialLine>(
        &mut self,
        line: &mut DataLine<L>,
        dlci: Dlci,
    ) -> Result<bool, DataError>
        ensures keeps { OnOk result (KeepsOn line.old.relay line.new.relay dlci.number self.old self.new) }
        ensures some { OnOk result (ReadsSome line.old.relay.pipes dlci.number self.old self.new) }
        ensures beside { line.new ≡ record line.old { relay = line.new.relay } }
        ensures err { OnErr result ((line.new ≡ line.old) × (self.new ≡ self.old)) }
    {
        let mut room = [0; ROOM];
        self.clear_gone();
        make_room(&mut self.octets)?;
        let reading = line.read(dlci, &mut room)?;
        let count = reading.count.min(ROOM);
        let _ = self.octets.extend_from_slice(&room[..count]);
        Ok(reading.is_over)
    }

    /// Writes them to a file, once, and says how many it took.
    #[tactic(auto, using(crate::proofs::Waiting::splits, crate::proofs::Waiting::grew, crate::proofs::Growing::none_stalled, crate::proofs::Growing::kept_counted, crate::proofs::Growing::kept_same))]
    pub fn write<P: SerialLine>(&mut self, file: &mut P) -> Result<usize, LineFault>
        ensures split { (P.seen file.new).sent ++ self.new ≡ (P.seen file.old).sent ++ self.old }
        ensures same { ((P.seen file.new).received ≡ (P.seen file.old).received) × ((P.seen file.new).empty_reads ≡ (P.seen file.old).empty_reads) }
        ensures count { IfOk result (λ n. self.new ≡ drop n self.old) }
        ensures some { IfOk result (λ n. 0 < n → length (P.seen file.old).sent < length (P.seen file.new).sent) }
        ensures none { IfOk result (λ n. n ≡ 0 → 0 < length self.old
            → one_more (P.seen file.old).stalled_writes ≤ (P.seen file.new).stalled_writes) }
        ensures stalled { IsKept (P.seen file.old).stalled_writes (P.seen file.new).stalled_writes }
        ensures err { OnErr result (self.new ≡ self.old) }
    {
        let count = file.try_write(&self.octets[self.start..])?;
        self.start += count;
        Ok(count)
    }
}
