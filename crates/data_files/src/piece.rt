//! A piece of what was read of a connection.
ghost use Rattle.std.specs.Prelude.{◌≡◌, ◌≢◌, ◌⊎◌, ◌↔◌, ◌+◌, ◌<◌, ◌≤◌, ◌==◌, ◌++◌, [], drop, length, true, IfOk, OnErr, OnOk};
ghost use Rattle.serial_line.specs.Counts.{one_more};
ghost use Rattle.modem_data.specs.Passing.{IsOver, Read};
ghost use Rattle.modem_data.specs.PipeSets.{IsNotData, OfEachPast};
ghost use Rattle.modem_data.specs.Hops.{Hops, Passed};
ghost use Rattle.data_files.specs.Moves.{IsKept, IsUnread};

use modem_data::DataError;
use modem_data_line::DataLine;
use mux_frame::Dlci;
use serial_line::{LineFault, SerialLine};
use std::marker::Model;

/// The most octets that wait.
const ROOM: usize = 512;

/// The octets that wait, at most 512. Contracts see them as a list.
#[derive(Drop)]
pub(crate) struct Piece {
    octets: [u8; ROOM],
    start: usize,
    end: usize,
}

impl Model for Piece {
    ghost use Rattle.std.specs.Prelude.{◌≡◌, ℕ, List, take, drop, ◌≤◌};

    ghost Value = { List ℕ };

    ghost view = { λ p. drop p.start (take p.end p.octets) };

    ghost invariant = { λ p. (p.start ≤ p.end) × (p.end ≤ 512) };
}

impl Piece {
    /// None waits.
    pub fn new() -> Piece
        ensures { result ≡ [] }
    {
        Piece {
            octets: [0; ROOM],
            start: 0,
            end: 0,
        }
    }

    /// Whether none waits.
    pub fn is_empty(&self) -> bool
        ensures { result ≡ (length self.now == 0) }
    {
        self.start == self.end
    }

    /// How many wait.
    pub fn len(&self) -> usize
        ensures count { result ≡ length self.now }
        ensures few { result ≤ 512 }
    {
        self.as_slice().len()
    }

    /// The octets, lent.
    fn as_slice(&self) -> &[u8]
        ensures value { result.now ≡ self.now }
        ensures few { length result.now ≤ 512 }
    {
        &self.octets[self.start..self.end]
    }

    /// Reads data of a connection, with room for 512 octets, and says whether its lane is over. Requires that none waits.
    #[tactic(auto, using(crate::proofs::Waiting::reads_512, crate::proofs::Waiting::counts_512))]
    pub fn read<L: SerialLine>(
        &mut self,
        line: &mut DataLine<L>,
        dlci: Dlci,
    ) -> Result<bool, DataError>
        requires { self.old ≡ [] }
        ensures count { OnOk result (IsUnread line.old.relay.pipes dlci.number (length self.new)) }
        ensures read { OnOk result (Hops line.old.relay line.new.relay (Passed (Read dlci.number self.new))) }
        ensures over { IfOk result (λ over. OfEachPast line.new.relay.pipes (λ role past. over ≡ true ↔ IsOver role dlci.number past)) }
        ensures beside { line.new ≡ record line.old { relay = line.new.relay } }
        ensures not_data { OnErr result (IsNotData line.old.relay.pipes dlci.number) }
        ensures err { OnErr result ((line.new ≡ line.old) × (self.new ≡ [])) }
    {
        self.start = 0;
        self.end = 0;
        let reading = line.read(dlci, &mut self.octets)?;
        self.end = reading.count.min(ROOM);
        Ok(reading.is_over)
    }

    /// Writes them to a file, once, and says how many it took.
    #[tactic(auto, using(crate::proofs::Waiting::splits, crate::proofs::Waiting::grew, crate::proofs::Growing::none_stalled, crate::proofs::Growing::kept_counted, crate::proofs::Growing::kept_same))]
    pub fn write<P: SerialLine>(&mut self, file: &mut P) -> Result<usize, LineFault>
        ensures split { (P.seen file.new).sent ++ self.new ≡ (P.seen file.old).sent ++ self.old }
        ensures same { ((P.seen file.new).received ≡ (P.seen file.old).received) × ((P.seen file.new).empty_reads ≡ (P.seen file.old).empty_reads) }
        ensures count { IfOk result (λ n. self.new ≡ drop n self.old) }
        ensures bound { IfOk result (λ n. n ≤ length self.old) }
        ensures some { IfOk result (λ n. 0 < n → length (P.seen file.old).sent < length (P.seen file.new).sent) }
        ensures none { IfOk result (λ n. n ≡ 0 → 0 < length self.old
            → one_more (P.seen file.old).stalled_writes ≤ (P.seen file.new).stalled_writes) }
        ensures stalled { IsKept (P.seen file.old).stalled_writes (P.seen file.new).stalled_writes }
        ensures err { OnErr result (self.new ≡ self.old) }
    {
        let count = file.try_write(self.as_slice())?;
        self.start += count;
        Ok(count)
    }
}
