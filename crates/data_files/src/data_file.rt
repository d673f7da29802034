//! A file beside a connection that carries data.
ghost use Rattle.std.specs.Prelude.{◌≡◌, ◌≢◌, ◌⊎◌, ◌↔◌, ◌≤◌, ℕ, List, [], length, true, false, IfOk, OnErr, OnOk};
ghost use Rattle.mux_station.specs.declared.role.Role.{Role};
ghost use Rattle.modem_data.specs.Passing.{IsOver, Pass};
ghost use Rattle.modem_data.specs.PipeSets.{IsNotData, NoneOf, OfEachPast};
ghost use Rattle.modem_data_line.specs.DataLines.{Before as Had};
ghost use Rattle.data_files.specs.Files.{FileFits, again, new_file};
ghost use Rattle.data_files.specs.Moves.{FileGrows, FileMoves, GaveFirst, GivesOn, HadTurn, IsAskedFile, IsOfferedFile, IsUnsent, KeepsLeft, KeepsUnread, ReadsOn, Renews, StaysOver};

use crate::before::Before;
use crate::unwritten::Unwritten;
use modem_data::{Begin, DataError, Until};
use modem_data_line::DataLine;
use mux_frame::Dlci;
use serial_line::{ReadBuffer, SerialLine};
use std::alloc::{AllocError, Global};
use std::marker::Model;

/// A file beside a connection. The file is a line of its own, on which no call waits.
#[derive(Drop)]
pub struct DataFile<P: SerialLine> {
    dlci: Dlci,
    how: Begin,
    until: Until,
    renews: bool,
    file: P,
    before: Before,
    ungiven: ReadBuffer,
    unwritten: Unwritten,
    has_ended: bool,
    is_broken: bool,
    is_over: bool,
    renewals: u64,
    dropped: usize,
}

impl<P: SerialLine> Model for DataFile<P> {
    ghost use Rattle.data_files.specs.Files.{FileState};

    ghost Value = { FileState P };

    ghost view = { λ f. record {
      dlci = f.dlci.number;
      how = f.how;
      until = f.until;
      renews = f.renews;
      file = f.file;
      before = f.before;
      ungiven = f.ungiven;
      unwritten = f.unwritten;
      has_ended = f.has_ended;
      is_broken = f.is_broken;
      is_over = f.is_over;
      renewals = f.renewals;
      dropped = f.dropped;
    } };
}

/// Gives a connection the first of these octets, as many as it takes, and says how many. Refused as `DataLine::give` is.
#[tactic(auto, using(crate::proofs::Waiting::gave_first, crate::proofs::Waiting::gives_ok, crate::proofs::Waiting::gives_err))]
fn give<L: SerialLine>(
    line: &mut DataLine<L>,
    dlci: Dlci,
    octets: &mut ReadBuffer,
) -> Result<usize, DataError>
    ensures gave { OnOk result (GaveFirst line.old.relay line.new.relay dlci.number octets.old octets.new) }
    ensures gives { GivesOn line.old.relay.pipes dlci.number octets.old octets.new }
    ensures beside { line.new ≡ record line.old { relay = line.new.relay } }
    ensures err { OnErr result ((line.new ≡ line.old) × (octets.new ≡ octets.old)) }
    ensures fewer { length octets.new ≤ length octets.old }
{
    let waiting = octets.as_slice();
    let length = waiting.len();
    let count = line.give(dlci, waiting)?;
    let count = count.min(length);
    octets.pass(count);
    Ok(count)
}

/// How many octets a connection took that haven't left.
pub(crate) fn unsent<L: SerialLine>(line: &DataLine<L>, dlci: Dlci) -> usize
    ensures { IsUnsent line.now.relay.pipes dlci.number result }
{
    match line.to_go(dlci) {
        Ok(count) => count,
        Err(_) => 0,
    }
}

impl<P: SerialLine + Drop> DataFile<P> {
    /// This file beside this connection, whose lane begins and lasts so. Refusal: no memory.
    pub fn new(
        alloc: Global,
        dlci: Dlci,
        how: Begin,
        until: Until,
        file: P,
    ) -> Result<DataFile<P>, AllocError>
        ensures { IfOk result (λ f. f ≡ new_file P.seen dlci.number how until file) }
    {
        let ungiven = ReadBuffer::new(alloc)?;
        let before = Before::of(&file);
        Ok(DataFile {
            dlci,
            how,
            until,
            renews: false,
            file,
            before,
            ungiven,
            unwritten: Unwritten::new(alloc),
            has_ended: false,
            is_broken: false,
            is_over: false,
            renewals: 0,
            dropped: 0,
        })
    }

    /// The same file, whose connection carries one lane after the other: where one is over and all of its data was read, the next begins,
    /// as the first did. What came on a lane that is over and that the file hasn't taken is kept in memory until then, so that the next can
    /// begin at once. What the file gave that a lane took and didn't send is dropped then, and counted.
    pub fn renewed(self) -> DataFile<P>
        ensures { result ≡ record self { renews = true } }
    {
        DataFile {
            renews: true,
            ..self
        }
    }
}

impl<P: SerialLine> DataFile<P> {
    /// The connection.
    pub fn dlci(&self) -> Dlci
        ensures { result.number ≡ self.now.dlci }
    {
        self.dlci
    }

    /// For another line, at which nothing has passed: what waits for the file and of it goes on there. Its counts begin anew.
    pub(crate) fn begin_again(&mut self)
        ensures { self.new ≡ again P.seen self.old }
    {
        self.before = Before::but(&self.file, &self.ungiven, &self.unwritten);
        self.is_over = false;
        self.renewals = 0;
        self.dropped = 0;
    }

    /// The file, for what comes after. Octets that wait are dropped.
    pub fn into_file(self) -> P
        ensures { result ≡ self.file }
    {
        let DataFile { file, .. } = self;
        file
    }

    /// How its lane begins.
    pub fn how(&self) -> Begin
        ensures { result ≡ self.now.how }
    {
        self.how
    }

    /// Until when its lane lasts.
    pub fn until(&self) -> Until
        ensures { result ≡ self.now.until }
    {
        self.until
    }

    /// Whether the file gives no more: a read of it failed.
    pub fn has_ended(&self) -> bool
        ensures { result ≡ self.now.has_ended }
    {
        self.has_ended
    }

    /// Whether the file takes no more: a write to it failed. What is read of its connection then waits.
    pub fn is_broken(&self) -> bool
        ensures { result ≡ self.now.is_broken }
    {
        self.is_broken
    }

    /// Whether the connection's lane is over and all of its data was read, as the last read of it said.
    pub fn is_over(&self) -> bool
        ensures { result ≡ self.now.is_over }
    {
        self.is_over
    }

    /// How many octets the file gave that its connection hasn't taken.
    pub fn ungiven(&self) -> usize
        ensures { result ≡ length self.now.ungiven }
    {
        self.ungiven.as_slice().len()
    }

    /// How many lanes of the connection began behind the first.
    pub fn renewals(&self) -> u64
        ensures { result ≡ self.now.renewals }
    {
        self.renewals
    }

    /// How many octets of the file lanes took that were over before these left; a next lane had begun.
    pub fn dropped(&self) -> usize
        ensures { result ≡ self.now.dropped }
    {
        self.dropped
    }

    /// How many octets were read of the connection that the file hasn't taken.
    pub fn unwritten(&self) -> usize
        ensures { result ≡ length self.now.unwritten }
    {
        self.unwritten.len()
    }

    /// Reads the file once, where none of its octets wait to be given.
    #[tactic(auto, using(crate::proofs::FileSteps::came_of_file, crate::proofs::Growing::grows_none))]
    fn read_file(&mut self)
        ensures fits { (past : List Pass) → FileFits P.seen past self.old → FileFits P.seen past self.new }
        ensures same { self.new ≡ record self.old {
          file = self.new.file;
          ungiven = self.new.ungiven;
          has_ended = self.new.has_ended;
        } }
        ensures asked { self.old.ungiven ≡ [] → self.old.has_ended ≡ false → IsAskedFile P.seen self.old self.new }
        ensures still { self.old.ungiven ≢ [] → self.new ≡ self.old }
        ensures grows { FileGrows P.seen self.old self.new }
        ensures none_went { ((P.seen self.new.file).sent ≡ (P.seen self.old.file).sent) × ((P.seen self.new.file).stalled_writes ≡ (P.seen self.old.file).stalled_writes) }
    {
        if self.has_ended || !self.ungiven.is_empty() {
            return;
        }
        if self.ungiven.read(&mut self.file).is_err() {
            self.has_ended = true;
        }
    }

    /// Gives the connection octets that wait for it, and says whether it took some.
    #[tactic(auto, using(crate::proofs::FileSteps::gives, crate::proofs::FileSteps::moves_same, crate::proofs::Growing::unread_same))]
    fn give<L: SerialLine>(&mut self, line: &mut DataLine<L>) -> bool
        ensures moves { FileMoves L.seen P.seen line.old line.new self.old self.new }
        ensures same { self.new ≡ record self.old { ungiven = self.new.ungiven } }
        ensures beside { line.new ≡ record line.old { relay = line.new.relay } }
        ensures gives { GivesOn line.old.relay.pipes self.old.dlci self.old.ungiven self.new.ungiven }
        ensures fewer { length self.new.ungiven ≤ length self.old.ungiven }
        ensures unread { KeepsUnread L.seen line.old line.new self.old.dlci }
    {
        match give(line, self.dlci, &mut self.ungiven) {
            Ok(count) => count > 0,
            Err(_) => false,
        }
    }

    /// Reads data of the connection, where none waits for the file, and says whether some came.
    #[tactic(auto, using(crate::proofs::FileSteps::takes, crate::proofs::FileSteps::moves_same))]
    fn take<L: SerialLine>(&mut self, line: &mut DataLine<L>) -> bool
        ensures moves { FileMoves L.seen P.seen line.old line.new self.old self.new }
        ensures same { self.new ≡ record self.old { unwritten = self.new.unwritten; is_over = self.new.is_over } }
        ensures beside { line.new ≡ record line.old { relay = line.new.relay } }
        ensures reads { self.old.unwritten ≡ [] → ReadsOn line.old.relay.pipes self.old.dlci self.new.unwritten }
        ensures over { self.old.unwritten ≡ [] → IsNotData line.old.relay.pipes self.old.dlci
            ⊎ OfEachPast line.new.relay.pipes (λ role past. self.new.is_over ≡ true ↔ IsOver role self.old.dlci past) }
        ensures still { self.old.unwritten ≢ [] → self.new ≡ self.old }
        ensures more { length self.old.unwritten ≤ length self.new.unwritten }
    {
        if !self.unwritten.is_empty() {
            return false;
        }
        let Ok(over) = self.unwritten.read(line, self.dlci) else {
            return false;
        };
        self.is_over = over;
        !self.unwritten.is_empty()
    }

    /// Writes octets that wait to the file, once, and says whether it took some.
    #[tactic(auto, using(crate::proofs::FileSteps::went_to_file, crate::proofs::Growing::grows_none))]
    fn write_file(&mut self) -> bool
        ensures fits { (past : List Pass) → FileFits P.seen past self.old → FileFits P.seen past self.new }
        ensures same { self.new ≡ record self.old {
          file = self.new.file;
          unwritten = self.new.unwritten;
          is_broken = self.new.is_broken;
        } }
        ensures offered { self.old.unwritten ≢ [] → IsOfferedFile P.seen self.old self.new }
        ensures still { self.old.unwritten ≡ [] → self.new ≡ self.old }
        ensures grows { FileGrows P.seen self.old self.new }
        ensures none_came { ((P.seen self.new.file).received ≡ (P.seen self.old.file).received) × ((P.seen self.new.file).empty_reads ≡ (P.seen self.old.file).empty_reads) }
    {
        if self.is_broken || self.unwritten.is_empty() {
            return false;
        }
        match self.unwritten.write(&mut self.file) {
            Ok(count) => count > 0,
            Err(_) => {
                self.is_broken = true;
                false
            }
        }
    }

    /// Begins the next lane of the connection, where one is to follow the last, which is over and read. Says whether it did.
    #[tactic(auto, using(crate::proofs::Renewing::stays_over))]
    fn renew<L: SerialLine>(&mut self, line: &mut DataLine<L>) -> bool
        ensures renews { result ≡ true → Renews line.old line.new self.old self.new }
        ensures line { result ≡ false → line.new ≡ line.old }
        ensures still { result ≡ false → self.new ≡ self.old }
        ensures over { result ≡ false → StaysOver self.old.renews line.old.relay.pipes self.old.dlci }
        ensures same { self.new ≡ record self.old {
          is_over = self.new.is_over;
          renewals = self.new.renewals;
          dropped = self.new.dropped;
        } }
        ensures beside { line.new ≡ record line.old { relay = line.new.relay } }
    {
        if !self.renews {
            return false;
        }
        let kept = unsent(line, self.dlci);
        match line.begin(self.dlci, self.how, self.until) {
            Ok(()) => {
                self.is_over = false;
                self.renewals = self.renewals.saturating_add(1);
                self.dropped = self.dropped.saturating_add(kept);
                true
            }
            Err(_) => false,
        }
    }

    /// Where data waits for the file and none is under way on the connection, reads what is left of a lane that is over, at most 512 octets, so
    /// that the next can begin. Says whether some came. Refused for memory: then nothing is read.
    fn keep<L: SerialLine>(&mut self, line: &mut DataLine<L>) -> Result<bool, DataError>
        ensures moves { FileMoves L.seen P.seen line.old line.new self.old self.new }
        ensures keeps { OnOk result (self.old.renews ≡ true → self.old.unwritten ≢ []
            → KeepsLeft line.old.relay.pipes self.old.dlci self.old.unwritten self.new.unwritten) }
        ensures some { IfOk result (λ some. some ≡ false → length self.new.unwritten ≤ length self.old.unwritten) }
        ensures same { self.new ≡ record self.old { unwritten = self.new.unwritten; is_over = self.new.is_over } }
        ensures beside { line.new ≡ record line.old { relay = line.new.relay } }
        ensures more { length self.old.unwritten ≤ length self.new.unwritten }
    {
        if !self.renews || self.unwritten.is_empty() {
            return Ok(false);
        }
        if line.is_behind_lines(self.dlci) {
            return Ok(false);
        }
        let length = self.unwritten.len();
        match self.unwritten.keep(line, self.dlci) {
            Ok(over) => {
                self.is_over = over;
                Ok(self.unwritten.len() > length)
            }
            Err(error) => Err(error),
        }
    }

    /// Begins the next lane where one is due, moves octets between the connection and its file, both ways, and says whether anything
    /// moved. What a lane that is over left is kept, where there is memory.
    pub(crate) fn move_on<L: SerialLine>(&mut self, line: &mut DataLine<L>) -> bool
        ensures moves { FileMoves L.seen P.seen line.old line.new self.old self.new }
        ensures beside { line.new ≡ record line.old { relay = line.new.relay } }
        ensures turn { (role : Role) (n1 : ℕ) (ds : List ℕ) (b : Had) → (NoneOf ds self.old.dlci → ⊥)
            → HadTurn L.seen P.seen role n1 ds b line.old self.old self.new }
    {
        let began = self.renew(line);
        self.read_file();
        let gave = self.give(line);
        let took = self.take(line);
        let wrote = self.write_file();
        let kept = matches!(self.keep(line), Ok(true));
        began | gave | took | wrote | kept
    }
}
