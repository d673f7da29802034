//! Octets that were read of a connection and wait for its file.
ghost use Rattle.std.specs.Prelude.{◌≡◌, ◌≢◌, ◌⊎◌, ◌↔◌, ◌+◌, ◌<◌, ◌≤◌, ◌==◌, ◌++◌, [], drop, length, true, IfOk, OnErr, OnOk};
ghost use Rattle.serial_line.specs.Counts.{one_more};
ghost use Rattle.modem_data.specs.Passing.{IsOver, Read};
ghost use Rattle.modem_data.specs.PipeSets.{IsNotData, OfEachPast};
ghost use Rattle.modem_data.specs.Hops.{Hops, Passed};
ghost use Rattle.data_files.specs.Moves.{IsKept, IsUnread, KeepsOn, ReadsSome};

use crate::kept::Kept;
use crate::piece::Piece;
use modem_data::DataError;
use modem_data_line::DataLine;
use mux_frame::Dlci;
use serial_line::{LineFault, SerialLine};
use std::alloc::Global;
use std::marker::Model;

/// The octets that wait: of the last read, at most 512, and behind them what lanes that are over left. Contracts see them as a list.
#[derive(Drop)]
pub(crate) struct Unwritten {
    piece: Piece,
    kept: Kept,
}

impl Model for Unwritten {
    ghost use Rattle.std.specs.Prelude.{ℕ, List, ◌++◌};

    ghost Value = { List ℕ };

    ghost view = { λ u. u.piece ++ u.kept };
}

impl Unwritten {
    /// None waits.
    pub fn new(alloc: Global) -> Unwritten
        ensures { result ≡ [] }
    {
        Unwritten {
            piece: Piece::new(),
            kept: Kept::new(alloc),
        }
    }

    /// Whether none waits.
    pub fn is_empty(&self) -> bool
        ensures { result ≡ (length self.now == 0) }
    {
        self.len() == 0
    }

    /// How many wait.
    pub fn len(&self) -> usize
        ensures { result ≡ length self.now }
    {
        self.piece.len() + self.kept.len()
    }

    /// Reads data of a connection, with room for 512 octets, and says whether its lane is over. Requires that none waits.
    pub fn read<L: SerialLine>(
        &mut self,
        line: &mut DataLine<L>,
        dlci: Dlci,
    ) -> Result<bool, DataError>
        requires { self.old ≡ [] }
        ensures count { OnOk result (IsUnread line.old.relay.pipes dlci.number (length self.new)) }
        ensures read { OnOk result (Hops line.old.relay line.new.relay (Passed (Read dlci.number self.new))) }
        ensures over { IfOk result (λ over. OfEachPast line.new.relay.pipes (λ role past. over ≡ true ↔ IsOver role dlci.number past)) }
        ensures beside { line.new ≡ record line.old { relay = line.new.relay } }
        ensures not_data { OnErr result (IsNotData line.old.relay.pipes dlci.number) }
        ensures err { OnErr result ((line.new ≡ line.old) × (self.new ≡ [])) }
    {
        self.piece.read(line, dlci)
    }

    /// Reads data of a connection behind these, at most 512 octets, and says whether its lane is over and read. Refused as
    /// `DataLine::read` is, and for memory.
    pub fn keep<L: SerialLine>(
        &mut self,
        line: &mut DataLine<L>,
        dlci: Dlci,
    ) -> Result<bool, DataError>
        ensures keeps { OnOk result (KeepsOn line.old.relay line.new.relay dlci.number self.old self.new) }
        ensures some { OnOk result (ReadsSome line.old.relay.pipes dlci.number self.old self.new) }
        ensures beside { line.new ≡ record line.old { relay = line.new.relay } }
        ensures err { OnErr result ((line.new ≡ line.old) × (self.new ≡ self.old)) }
    {
        self.kept.read(line, dlci)
    }

    /// Writes them to a file, once, and says how many it took.
    pub fn write<P: SerialLine>(&mut self, file: &mut P) -> Result<usize, LineFault>
        ensures split { (P.seen file.new).sent ++ self.new ≡ (P.seen file.old).sent ++ self.old }
        ensures same { ((P.seen file.new).received ≡ (P.seen file.old).received) × ((P.seen file.new).empty_reads ≡ (P.seen file.old).empty_reads) }
        ensures count { IfOk result (λ n. self.new ≡ drop n self.old) }
        ensures some { IfOk result (λ n. 0 < n → length (P.seen file.old).sent < length (P.seen file.new).sent) }
        ensures none { IfOk result (λ n. n ≡ 0 → 0 < length self.old
            → one_more (P.seen file.old).stalled_writes ≤ (P.seen file.new).stalled_writes) }
        ensures stalled { IsKept (P.seen file.old).stalled_writes (P.seen file.new).stalled_writes }
        ensures err { OnErr result (self.new ≡ self.old) }
    {
        if self.piece.is_empty() {
            return self.kept.write(file);
        }
        self.piece.write(file)
    }
}
