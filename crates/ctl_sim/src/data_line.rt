//! The line of a simulated modem, beside whose connections there are files.
ghost use Rattle.std.specs.Prelude.{◌≡◌, ◌≤◌, ℕ, All, List, [], IfOk, OnOk, Option, length, map, true};
ghost use Rattle.mux_station.specs.declared.role.Role.TheVariants.{Responder};
ghost use Rattle.modem_data.specs.Hops.{BeginsAs};
ghost use Rattle.modem_data.specs.PipeSets.{numbers};
ghost use Rattle.data_files.specs.Files.{FileFits, dlcis};
ghost use Rattle.ctl_sim.specs.DataEnds.{BeginsLine, EndsFiles, SaysEndings};
ghost use Rattle.ctl_sim.specs.HeldLine.{HeldState};

use crate::held_line::HeldLine;
use data_files::{DataFile, FiledLine};
use file_threads::{say_files, write_out};
use modem_data::{DataError, Relay};
use mux_frame::{Dlci, N1};
use mux_station::Role;
use serial_line::{LineFault, SerialLine};
use std::alloc::{AllocError, Global};
use std::io::Write;
use std::rt::Clock;

/// So many octets of a connection's file lanes took that were over before these left.
#[derive(Clone, Copy)]
pub(crate) struct Unsent {
    pub(crate) dlci: Dlci,
    pub(crate) count: usize,
}

/// A line whose octets are handed in and out, and beside whose connections there are files, each the same to the end.
pub(crate) trait ModemLine: Drop {
    /// The connections of its files, in order.
    ghost named: { Self → List ℕ };

    /// How it is in the end, and what is said of that.
    ghost ends: { Self → (before after : Option (List ℕ)) → Type 0 };

    /// Hands octets in, behind those that wait.
    fn put(&mut self, octets: &[u8]) -> Result<(), AllocError>
        ensures { named self.new ≡ named self.old };

    /// Whether all that was handed in is read.
    fn is_read(&self) -> bool;

    /// Reads octets for the modem, and says how many.
    fn hear(&mut self, piece: &mut [u8]) -> Result<usize, LineFault>
        ensures bound { IfOk result (λ count. count ≤ length piece.old) }
        ensures named { named self.new ≡ named self.old };

    /// Takes octets of the modem from the front, and says how many.
    fn say(&mut self, octets: &[u8]) -> Result<usize, LineFault>
        ensures bound { IfOk result (λ count. count ≤ length octets.now) }
        ensures named { named self.new ≡ named self.old };

    /// Hands out what was taken, behind other octets.
    fn take(&mut self, out: &mut Vec<u8>) -> Result<(), AllocError>
        ensures { named self.new ≡ named self.old };

    /// Moves octets between connections and files.
    fn move_all(&mut self)
        ensures { named self.new ≡ named self.old };

    /// The next multiplexer begins: the files go on, and what lanes of each took and didn't send is noted.
    fn begin_again(
        &mut self,
        alloc: Global,
        n1: N1,
        unsent: &mut Vec<Unsent>,
    ) -> Result<(), AllocError>
        ensures { named self.new ≡ named self.old };

    /// Has what came written to the files, for ten seconds at most, says what came of each, and hands out what was taken, behind other
    /// octets. Says whether all is written.
    fn finish<K: Clock, E: Write>(
        &mut self,
        clock: &K,
        out: &mut Vec<u8>,
        faults: &mut E,
    ) -> Result<bool, AllocError>
        ensures named { named self.new ≡ named self.old }
        ensures ends { IfOk result (λ written. written ≡ true → ends self.new (E.contents faults.old) (E.contents faults.new)) }
        ensures said { SaysEndings (E.contents faults.old) (E.contents faults.new) };
}

/// The connections of these files, in order.
#[tactic(auto, using(crate::proofs::DataLines::dlcis_none, crate::proofs::DataLines::dlcis_more, crate::proofs::DataLines::dlcis_all))]
fn dlcis_of<P: SerialLine>(alloc: Global, files: &[DataFile<P>]) -> Result<Vec<Dlci>, AllocError>
    ensures { IfOk result (λ named. numbers named.items ≡ dlcis files.now) }
{
    let mut named = Vec::new(alloc);
    let mut place = 0;
    while place < files.len() {
        named.push(files[place].dlci())?;
        place += 1;
    }
    Ok(named)
}

/// A relay for the connections of these files, at the modem's end, where nothing has passed. Refused where more than 8 connections are
/// named, one of them is 0 or one is named twice, and for memory.
fn relay_for<P: SerialLine>(
    alloc: Global,
    n1: N1,
    files: &[DataFile<P>],
) -> Result<Relay, DataError>
    ensures { IfOk result (λ relay. BeginsAs Responder n1.octets (dlcis files.now) relay) }
{
    let named = dlcis_of(alloc, files)?;
    Relay::with_role(alloc, Role::Responder, n1.octets, named.as_slice())
}

/// A line in memory with these files, at the modem's end, where nothing has passed. Refused as `relay_for` is.
pub(crate) fn begun_line<P: SerialLine + Drop>(
    alloc: Global,
    n1: N1,
    files: Vec<DataFile<P>>,
) -> Result<FiledLine<HeldLine, P>, DataError>
    requires { All (FileFits P.seen []) files.items }
    ensures { IfOk result (λ line. BeginsLine n1.octets files.items line) }
{
    let relay = relay_for(alloc, n1, files.as_slice())?;
    FiledLine::with_role(
        alloc,
        Role::Responder,
        HeldLine::new(alloc),
        relay,
        n1.octets,
        files,
    )
}

/// Notes what lanes of each file took and didn't send.
fn note_unsent<P: SerialLine>(
    line: &FiledLine<HeldLine, P>,
    unsent: &mut Vec<Unsent>,
) -> Result<(), AllocError> {
    let files = line.files();
    let mut place = 0;
    while place < files.len() {
        let dlci = files[place].dlci();
        let count = line.unsent(dlci).saturating_add(files[place].dropped());
        unsent.push(Unsent { dlci, count })?;
        place += 1;
    }
    Ok(())
}

/// The files go on beside a line at the modem's end where nothing has passed.
fn go_on<P: SerialLine + Drop>(
    line: &mut FiledLine<HeldLine, P>,
    alloc: Global,
    n1: N1,
) -> Result<(), DataError>
    ensures { dlcis line.new.files ≡ dlcis line.old.files }
{
    let relay = relay_for(alloc, n1, line.files())?;
    line.go_on_at(
        alloc,
        Role::Responder,
        HeldLine::new(alloc),
        relay,
        n1.octets,
    )
}

impl<P: SerialLine + Drop> ModemLine for FiledLine<HeldLine, P> {
    ghost named = { λ line. dlcis line.files };

    ghost ends = { EndsFiles P.seen };

    fn put(&mut self, octets: &[u8]) -> Result<(), AllocError> {
        FiledLine::put(self, octets)
    }

    fn is_read(&self) -> bool {
        FiledLine::is_read(self)
    }

    #[tactic(auto, using(crate::proofs::DataLines::named_by_turns))]
    fn hear(&mut self, piece: &mut [u8]) -> Result<usize, LineFault> {
        self.try_read(piece)
    }

    fn say(&mut self, octets: &[u8]) -> Result<usize, LineFault> {
        self.write_line(octets)
    }

    fn take(&mut self, out: &mut Vec<u8>) -> Result<(), AllocError> {
        FiledLine::take(self, out)
    }

    #[tactic(auto, using(crate::proofs::DataLines::named_by_turns))]
    fn move_all(&mut self) {
        FiledLine::move_all(self);
    }

    #[tactic(auto, using(crate::proofs::DataLines::named_by_turns))]
    fn begin_again(
        &mut self,
        alloc: Global,
        n1: N1,
        unsent: &mut Vec<Unsent>,
    ) -> Result<(), AllocError> {
        FiledLine::move_all(self);
        note_unsent(self, unsent)?;
        // A relay for these connections was had before: memory alone is refused.
        match go_on(self, alloc, n1) {
            Ok(()) => Ok(()),
            Err(_) => Err(AllocError),
        }
    }

    #[tactic(auto, using(crate::proofs::DataLines::named_by_turns, crate::proofs::DataEnding::ends_files, crate::proofs::DataEnding::says_endings))]
    fn finish<K: Clock, E: Write>(
        &mut self,
        clock: &K,
        out: &mut Vec<u8>,
        faults: &mut E,
    ) -> Result<bool, AllocError> {
        let is_written = write_out(clock, self);
        say_files(faults, self);
        FiledLine::take(self, out)?;
        self.has_moved();
        Ok(is_written)
    }
}
