//! A line some of whose connections carry the data of files.
ghost use Rattle.std.specs.Prelude.{◌≡◌, ◌+◌, ◌<◌, ◌≤◌, ◌++◌, [], All, length, map, take, IfOk, OnOk, OnErr, MatchResult};
ghost use Rattle.serial_line.specs.Counts.{one_more, counted_if_none};
ghost use Rattle.modem_data.specs.Hops.{BeginsAs, BeginsRelay};
ghost use Rattle.modem_data_line.specs.DataLines.{new_data_line};
ghost use Rattle.data_files.specs.Files.{BeginsFiled, FileFits, HasMoved, IsFresh, again, dlcis};
ghost use Rattle.data_files.specs.Moves.{HadTurns, HasBegunTo, IsUnsent, MovesAt};

use crate::before::Before;
use crate::data_file::{DataFile, unsent};
use modem_data::{DataError, Relay};
use modem_data_line::DataLine;
use mux_frame::Dlci;
use mux_station::Role;
use serial_line::{LineFault, SerialLine};
use std::alloc::Global;
use std::marker::Model;

/// So many times all moves in one call at most: more often than 65,536 octets need by 512.
const ROUNDS: u32 = 256;

/// A line some of whose connections carry data, and a file beside each of these. A driver reads and writes it as its line.
/// Before each read octets move between connections and files, as `move_all` does. What a file gave goes to its connection,
/// and what came on the connection goes to the file, in order and as far as it is taken. What isn't taken waits.
///
/// Contracts see the line with its relay, the files, which end of the line it is, N1, and what the line itself had given and taken before.
#[derive(Drop)]
pub struct FiledLine<L: SerialLine, P: SerialLine> {
    pub(crate) line: DataLine<L>,
    pub(crate) files: Vec<DataFile<P>>,
    role: Role,
    n1: u16,
    before: Before,
}

impl<L: SerialLine, P: SerialLine> Model for FiledLine<L, P> {
    ghost use Rattle.data_files.specs.Files.{FiledState, HasMoved};

    ghost Value = { FiledState L P };

    ghost view = { λ l. record { line = l.line; files = l.files.items; role = l.role; n1 = l.n1; before = l.before } };

    ghost invariant = { λ l. HasMoved L.seen P.seen (record {
      line = l.line;
      files = l.files.items;
      role = l.role;
      n1 = l.n1;
      before = l.before;
    }) };
}

/// Has each file begin again, for another line.
#[tactic(auto, using(crate::proofs::Again::again_none, crate::proofs::Again::again_more, crate::proofs::Again::again_all))]
fn begin_again<P: SerialLine>(files: &mut Vec<DataFile<P>>)
    ensures { files.new.items ≡ map (again P.seen) files.old.items }
{
    let mut place = 0;
    while place < files.len() {
        files[place].begin_again();
        place += 1;
    }
}

/// Begins the lane of each file, in order. Refused as `DataLine::begin` is.
#[tactic(auto, using(crate::proofs::Begins::begins_none, crate::proofs::Begins::begins_more))]
fn begin_all<L: SerialLine, P: SerialLine>(
    line: &mut DataLine<L>,
    files: &[DataFile<P>],
) -> Result<(), DataError>
    ensures { OnOk result (HasBegunTo L.seen files.now line.old line.new) }
{
    let mut place = 0;
    while place < files.len() {
        let file = &files[place];
        line.begin(file.dlci(), file.how(), file.until())?;
        place += 1;
    }
    Ok(())
}

/// A line with this relay, on which the lane of each file has begun. Refused as `DataLine::begin` is, and for memory.
fn begun_line<L: SerialLine + Drop, P: SerialLine>(
    alloc: Global,
    line: L,
    relay: Relay,
    files: &[DataFile<P>],
) -> Result<DataLine<L>, DataError>
    ensures { IfOk result (HasBegunTo L.seen files.now (new_data_line line relay)) }
{
    let Ok(mut line) = DataLine::new(alloc, line, relay) else {
        return Err(DataError::NoMemory);
    };
    match begin_all(&mut line, files) {
        Ok(()) => Ok(line),
        Err(error) => Err(error),
    }
}

impl<L: SerialLine + Drop, P: SerialLine + Drop> FiledLine<L, P> {
    /// This line at the client's end, with these files, as `with_role` has it. Requires that nothing waits at the files.
    #[tactic(auto, using(crate::proofs::Begins::all_fresh))]
    pub fn new(
        alloc: Global,
        line: L,
        relay: Relay,
        n1: u16,
        files: Vec<DataFile<P>>,
    ) -> Result<FiledLine<L, P>, DataError>
        requires relay { BeginsRelay n1 (dlcis files.items) relay }
        requires fresh { All (IsFresh P.seen) files.items }
        ensures begins { IfOk result (BeginsFiled L.seen line relay n1 files.items) }
    {
        FiledLine::with_role(alloc, Role::Initiator, line, relay, n1, files)
    }

    /// This line with these files, on whose connections alone its relay carries data. The lane of each begins. Refused for memory.
    /// Requires that nothing has passed at the files since they were put beside this line, and at the relay, which was made for this end
    /// of the line. Octets may wait at the files.
    #[tactic(auto, using(crate::proofs::Begins::begins_filed, crate::proofs::Begins::has_begun))]
    pub fn with_role(
        alloc: Global,
        role: Role,
        line: L,
        relay: Relay,
        n1: u16,
        files: Vec<DataFile<P>>,
    ) -> Result<FiledLine<L, P>, DataError>
        requires relay { BeginsAs role n1 (dlcis files.items) relay }
        requires fits { All (FileFits P.seen []) files.items }
        ensures begins { IfOk result (BeginsFiled L.seen line relay n1 files.items) }
    {
        let before = Before::of(&line);
        let line = begun_line(alloc, line, relay, files.as_slice())?;
        Ok(FiledLine {
            line,
            files,
            role,
            n1,
            before,
        })
    }

    /// The files go on beside this line, with this relay, which was made for this end of it and for their connections. The line before is
    /// dropped, and what waits at each file goes on. Refused for memory: then all is as it was.
    pub fn go_on_at(
        &mut self,
        alloc: Global,
        role: Role,
        line: L,
        relay: Relay,
        n1: u16,
    ) -> Result<(), DataError>
        requires { BeginsAs role n1 (dlcis self.old.files) relay }
        ensures begins { OnOk result
            (BeginsFiled L.seen line relay n1 (map (again P.seen) self.old.files) self.new) }
        ensures err { OnErr result (self.new ≡ self.old) }
    {
        let before = Before::of(&line);
        let line = begun_line(alloc, line, relay, self.files.as_slice())?;
        begin_again(&mut self.files);
        self.line = line;
        self.role = role;
        self.n1 = n1;
        self.before = before;
        Ok(())
    }
}

impl<L: SerialLine, P: SerialLine> FiledLine<L, P> {
    /// What has moved: it does nothing, and its clause says so of the line as it is.
    pub fn has_moved(&self)
        ensures { HasMoved L.seen P.seen self.now }
    {
        let _ = &self.line;
    }

    /// The files.
    pub fn files(&self) -> &[DataFile<P>]
        ensures { result.now ≡ self.now.files }
    {
        self.files.as_slice()
    }

    /// How many octets a connection took of its file that haven't left. Once its lane is over they are never sent.
    pub fn unsent(&self, dlci: Dlci) -> usize
        ensures { IsUnsent self.now.line.relay.pipes dlci.number result }
    {
        unsent(&self.line, dlci)
    }

    /// The line with its relay, and the files. What was given and read is what the files' own octets say.
    pub fn into_parts(self) -> (DataLine<L>, Vec<DataFile<P>>)
        ensures line { result.0 ≡ self.line }
        ensures files { result.1.items ≡ self.files }
        ensures moved { HasMoved L.seen P.seen self }
    {
        (self.line, self.files)
    }

    /// Moves octets of one file and its connection. Requires that there is this place.
    #[tactic(auto, using(crate::proofs::Lifts::moves_at))]
    fn move_file(&mut self, place: usize) -> bool
        requires { place < length self.old.files }
        ensures moves { MovesAt L.seen P.seen place self.old self.new }
        ensures same { self.new ≡ record self.old { line = self.new.line; files = self.new.files } }
        ensures beside { self.new.line ≡ record self.old.line { relay = self.new.line.relay } }
        ensures count { length self.new.files ≡ length self.old.files }
    {
        self.files[place].move_on(&mut self.line)
    }

    /// Moves octets of each file and its connection, and says whether any moved.
    #[tactic(auto, using(crate::proofs::Turns::turns_none, crate::proofs::Turns::turns_more, crate::proofs::Turns::turns_all))]
    fn move_files(&mut self) -> bool
        ensures turns { HadTurns L.seen P.seen self.old self.new.files }
        ensures same { self.new ≡ record self.old { line = self.new.line; files = self.new.files } }
        ensures beside { self.new.line ≡ record self.old.line { relay = self.new.line.relay } }
    {
        let mut moved = false;
        let mut place = 0;
        while place < self.files.len() {
            moved |= self.move_file(place);
            place += 1;
        }
        moved
    }

    /// Writes once what may go to the line, and says whether it took some.
    #[tactic(auto, using(crate::proofs::Lifts::line_goes))]
    fn flush(&mut self) -> bool
        ensures same { self.new ≡ record self.old { line = self.new.line } }
        ensures beside { self.new.line ≡ record self.old.line {
          line = self.new.line.line;
          relay = self.new.line.relay;
          is_lost = self.new.line.is_lost;
        } }
    {
        self.line.flush()
    }

    /// Takes octets of the line in, where none wait for the driver, and says whether some came.
    #[tactic(auto, using(crate::proofs::Lifts::line_passes))]
    fn fill(&mut self) -> bool
        ensures same { self.new ≡ record self.old { line = self.new.line } }
        ensures beside { self.new.line ≡ record self.old.line {
          line = self.new.line.line;
          relay = self.new.line.relay;
          unfed = self.new.line.unfed;
          is_lost = self.new.line.is_lost;
        } }
    {
        self.line.fill()
    }

    /// One round: it moves octets of each file, writes the line once and reads it once, and says whether anything moved.
    fn round(&mut self) -> bool
        ensures turns { HadTurns L.seen P.seen self.old self.new.files }
        ensures same { self.new ≡ record self.old { line = self.new.line; files = self.new.files } }
        ensures beside { self.new.line ≡ record self.old.line {
          line = self.new.line.line;
          relay = self.new.line.relay;
          unfed = self.new.line.unfed;
          is_lost = self.new.line.is_lost;
        } }
    {
        let moved = self.move_files();
        let went = self.flush();
        let came = self.fill();
        moved | went | came
    }

    /// Moves octets between connections and files, both ways, and writes and reads the line, in rounds: until a round moves
    /// nothing, at most 256. Each file has a turn. The driver sees nothing of it.
    #[tactic(auto, using(crate::proofs::Turns::turns_then))]
    pub fn move_all(&mut self)
        ensures turns { HadTurns L.seen P.seen self.old self.new.files }
        ensures same { self.new ≡ record self.old { line = self.new.line; files = self.new.files } }
        ensures beside { self.new.line ≡ record self.old.line {
          line = self.new.line.line;
          relay = self.new.line.relay;
          unfed = self.new.line.unfed;
          is_lost = self.new.line.is_lost;
        } }
    {
        if !self.round() {
            return;
        }
        for _ in 1..ROUNDS {
            if !self.round() {
                return;
            }
        }
    }

    /// The driver's read of the line.
    #[tactic(auto, using(crate::proofs::Lifts::line_passes, crate::proofs::Lifts::line_counts))]
    pub(crate) fn read_line(&mut self, buffer: &mut [u8]) -> Result<usize, LineFault>
        ensures call { MatchResult result
            (λ n. self.new ≡ record self.old {
              line = record self.old.line {
                line = self.new.line.line;
                relay = self.new.line.relay;
                unfed = self.new.line.unfed;
                is_lost = self.new.line.is_lost;
                received = self.old.line.received ++ take n buffer.new;
                calls = one_more self.old.line.calls;
                empty_reads = counted_if_none (length buffer.old) n self.old.line.empty_reads;
              };
            })
            (λ _. self.new ≡ record self.old {
              line = record self.old.line {
                calls = one_more self.old.line.calls;
                failures = self.old.line.failures + 1;
              };
            }) }
        ensures bound { IfOk result (λ n. n ≤ length buffer.old) }
        ensures last { OnErr result (self.old.line.failures < u64.MAX) }
    {
        self.line.try_read(buffer)
    }
}
