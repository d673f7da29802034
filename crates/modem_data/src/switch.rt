//! Where a connection turns from lines to data, or to a text.
ghost use Rattle.std.specs.Prelude.{◌≡◌, ◌↔◌, ◌<◌, ◌≤◌, ◌+◌, ◌==◌, ◌&&◌, ◌||◌, ◌++◌, [], ◌∷◌, ℕ, List, length, take, drop, true, false};
ghost use Rattle.modem_data.specs.Prompts.{before_prompt, behind_prompt, may_prompt};
ghost use Rattle.modem_data.specs.Switching.{Carries as Stands, is_behind_lines, lets_leave, takes_given, ended_by_call, is_idle, Idle, Data, Ended, Lines, Prompts, Marked, Owes, Owns, as_own, carries_from, carries_prompt, carries_after, carries_sent, data_of, data_from, is_connect, connects, IsCut, lines_from, behind_end, marked, StaysLines, TurnsToData};
ghost use Rattle.modem_data.specs.Stages.{stands};
ghost use Rattle.at_text.specs.Lines.{is_line_end, kept_run};

use at_text::LineReader;
use std::marker::Model;

/// What comes.
#[derive(Clone, Copy)]
pub enum Stage {
    /// Nothing but what is the driver's.
    Idle,
    Lines,
    /// A CONNECT line has just ended by this octet.
    Ended(u8),
    Data,
    /// Lines, before a prompt: whether the next octet begins one.
    Prompts(bool),
    /// A `>` that begins a line has come, and is held back: it may be the prompt's.
    Marked,
    /// The prompt has come; what comes are lines.
    Sends,
    /// The lane was ended while a `>` was held back, which goes before what comes next.
    Owes,
    /// Lines, before a CONNECT line of the driver's own.
    Owns,
    /// Data; the driver's CONNECT line has ended by a CR, and no octet has gone behind it.
    Answered,
}

/// Finds the end of the first CONNECT line, or the first prompt, among octets that come in any pieces.
#[derive(Drop)]
pub struct Switch {
    stage: Stage,
    reader: LineReader,
}

impl Model for Switch {
    ghost use Rattle.modem_data.specs.Switching.{Carries};
    ghost use Rattle.modem_data.specs.Stages.{stands};

    ghost Value = { Carries };

    ghost view = { λ s. stands s.stage s.reader };
}

/// Which octets of some are lines.
#[derive(Clone, Copy)]
pub struct LineCut {
    /// A `>` that was held back goes before them.
    pub is_marked: bool,
    /// So many of the first are lines.
    pub before: usize,
    /// From here on they are lines again: those behind a prompt.
    pub behind: usize,
}

/// Which octets of some are lines, and where their data begins.
#[derive(Clone, Copy)]
pub struct Cut {
    pub lines: LineCut,
    /// From here on they are data.
    pub from: usize,
}

/// What octets come to: how they are cut, and what comes behind them.
#[derive(Clone, Copy)]
struct Turn {
    cut: Cut,
    stage: Stage,
}

/// So many of the first octets are lines, and from this place on they are data.
fn cut_at(octets: &[u8], lines: usize, from: usize) -> Cut
    ensures marked { result.lines.is_marked ≡ false }
    ensures before { result.lines.before ≡ lines }
    ensures behind { result.lines.behind ≡ length octets.now }
    ensures from { result.from ≡ from }
{
    Cut {
        lines: LineCut {
            is_marked: false,
            before: lines,
            behind: octets.len(),
        },
        from,
    }
}

/// Whether a line says that data follows: CONNECT, alone or before a blank and a text (V.250, 6.3.1; 27.007, 10.1.12).
pub fn is_connect(line: &[u8]) -> bool
    ensures { result ≡ is_connect line.now }
{
    line == b"CONNECT".as_slice() || line.starts_with(b"CONNECT ")
}

/// Reads an octet, and says whether it ends a CONNECT line.
fn connects(reader: &mut LineReader, octet: u8) -> bool
    ensures says { result ≡ connects reader.old octet }
    ensures reader { reader.new ≡ kept_run (reader.old ++ octet ∷ []) }
{
    match reader.push(octet) {
        Some(line) => is_connect(line.text),
        None => false,
    }
}

/// Whether an LF at the front belongs to the end of the line that this octet ended.
fn gap(by: u8, octets: &[u8]) -> usize
    ensures few { result ≤ length octets.now }
    ensures rest { drop result octets.now ≡ behind_end by octets.now }
{
    match octets {
        [b'\n', ..] if by == b'\r' => 1,
        _ => 0,
    }
}

impl Switch {
    /// Nothing is data.
    pub fn idle() -> Switch
        ensures { result ≡ Idle }
    {
        Switch {
            stage: Stage::Idle,
            reader: LineReader::new(),
        }
    }

    /// Nothing is data from now on.
    pub fn to_idle(&mut self)
        ensures { self.new ≡ Idle }
    {
        self.stage = Stage::Idle;
    }

    /// Lines come from now on, as far as the end of a CONNECT line.
    pub fn to_lines(&mut self)
        ensures { self.new ≡ Lines [] }
    {
        self.stage = Stage::Lines;
        self.reader.reset();
    }

    /// Data comes from now on.
    pub fn to_data(&mut self)
        ensures { self.new ≡ Data }
    {
        self.stage = Stage::Data;
    }

    /// Lines come from now on, and among them a prompt.
    pub fn to_prompt(&mut self)
        ensures { self.new ≡ Prompts true }
    {
        self.stage = Stage::Prompts(true);
    }

    /// Lines come and go from now on, as far as the end of a CONNECT line that the driver writes.
    pub fn to_own(&mut self)
        ensures { self.new ≡ Owns [] }
    {
        self.stage = Stage::Owns;
        self.reader.reset();
    }

    /// The driver writes octets: behind a CONNECT line of its own what comes is data.
    pub fn wrote(&mut self, octets: &[u8])
        ensures { self.new ≡ carries_sent self.old octets.now }
    {
        self.stage = match self.stage {
            Stage::Owns => own_stage(cut_lines(&mut self.reader, octets).stage),
            Stage::Answered if !octets.is_empty() => Stage::Data,
            stage => stage,
        };
    }

    /// Nothing is data from now on. A `>` that is held back goes before what comes next.
    pub fn end(&mut self)
        ensures { self.new ≡ ended_by_call self.old }
    {
        self.stage = match self.stage {
            Stage::Marked | Stage::Owes => Stage::Owes,
            _ => Stage::Idle,
        };
    }

    /// Whether what was given may leave.
    pub fn lets_leave(&self) -> bool
        ensures { result ≡ lets_leave self.now }
    {
        matches!(self.stage, Stage::Data | Stage::Sends)
    }

    /// Whether octets may be given.
    pub fn takes_given(&self) -> bool
        ensures { result ≡ takes_given self.now }
    {
        matches!(
            self.stage,
            Stage::Data | Stage::Prompts(_) | Stage::Marked | Stage::Sends | Stage::Answered
        )
    }

    /// Whether the CONNECT line has ended, data came from the beginning on, or the prompt has come.
    pub fn is_behind_lines(&self) -> bool
        ensures { result ≡ is_behind_lines self.now }
    {
        matches!(
            self.stage,
            Stage::Ended(_) | Stage::Data | Stage::Sends | Stage::Answered
        )
    }

    /// Whether nothing is data.
    pub fn is_idle(&self) -> bool
        ensures { result ≡ is_idle self.now }
    {
        matches!(self.stage, Stage::Idle)
    }

    /// Reads octets, and says which of them are lines and which are data.
    pub fn cut(&mut self, octets: &[u8]) -> Cut
        ensures few { result.lines.before ≤ result.lines.behind }
        ensures behind { result.lines.behind ≤ length octets.now }
        ensures some { result.lines.is_marked ≡ true → 0 < length octets.now }
        ensures from { result.from ≤ length octets.now }
        ensures lines { IsCut result.lines self.old octets.now }
        ensures rest { drop result.from octets.now ≡ data_of self.old octets.now }
        ensures after { self.new ≡ carries_after self.old octets.now }
    {
        let turn = match self.stage {
            Stage::Idle | Stage::Sends | Stage::Owns => Turn {
                cut: cut_at(octets, octets.len(), octets.len()),
                stage: self.stage,
            },
            Stage::Data | Stage::Answered => Turn {
                cut: cut_at(octets, 0, 0),
                stage: self.stage,
            },
            Stage::Ended(by) => cut_ended(octets, by),
            Stage::Lines => cut_lines(&mut self.reader, octets),
            Stage::Prompts(starts) => cut_prompt(octets, starts),
            Stage::Marked => cut_marked(octets),
            Stage::Owes => cut_owed(octets),
        };
        self.stage = turn.stage;
        turn.cut
    }
}

/// How a lane stands behind the driver's own lines, where one by the other end's stands so.
fn own_stage(stage: Stage) -> Stage
    ensures { (kept : List ℕ) → stands result kept ≡ as_own (stands stage kept) }
{
    match stage {
        Stage::Lines => Stage::Owns,
        Stage::Ended(by) if by == b'\r' => Stage::Answered,
        Stage::Ended(_) => Stage::Data,
        other => other,
    }
}

/// Octets behind a CONNECT line that ended by this octet are data.
fn cut_ended(octets: &[u8], by: u8) -> Turn
    ensures few { result.cut.lines.before ≤ result.cut.lines.behind }
    ensures behind { result.cut.lines.behind ≤ length octets.now }
    ensures from { result.cut.from ≤ length octets.now }
    ensures some { result.cut.lines.is_marked ≡ false }
    ensures lines { IsCut result.cut.lines (Ended by) octets.now }
    ensures rest { drop result.cut.from octets.now ≡ data_of (Ended by) octets.now }
    ensures after { (kept : List ℕ) → stands result.stage kept ≡ carries_after (Ended by) octets.now }
{
    let stage = if octets.is_empty() {
        Stage::Ended(by)
    } else {
        Stage::Data
    };
    Turn {
        cut: cut_at(octets, 0, gap(by, octets)),
        stage,
    }
}

/// Reads lines, as far as the end of a CONNECT line. All behind it is data.
fn cut_lines(reader: &mut LineReader, octets: &[u8]) -> Turn
    ensures few { result.cut.lines.before ≤ result.cut.lines.behind }
    ensures behind { result.cut.lines.behind ≤ length octets.now }
    ensures from { result.cut.from ≤ length octets.now }
    ensures some { result.cut.lines.is_marked ≡ false }
    ensures lines { IsCut result.cut.lines (Lines reader.old) octets.now }
    ensures rest { drop result.cut.from octets.now ≡ data_of (Lines reader.old) octets.now }
    ensures after { stands result.stage reader.new ≡ carries_after (Lines reader.old) octets.now }
{
    let read = read_lines(reader, octets);
    if !read.has_switched {
        return Turn {
            cut: cut_at(octets, read.count, read.count),
            stage: Stage::Lines,
        };
    }
    let by = octets[read.count - 1];
    let more = &octets[read.count..];
    let stage = if more.is_empty() {
        Stage::Ended(by)
    } else {
        Stage::Data
    };
    Turn {
        cut: cut_at(octets, read.count, read.count + gap(by, more)),
        stage,
    }
}

/// Whether octets behind a `>` that begins a line say that it may be the prompt's: there are none yet, or the first is a blank.
fn may_prompt(octets: &[u8]) -> bool
    ensures { result ≡ may_prompt octets.now }
{
    match octets.first() {
        Some(octet) => *octet == b' ',
        None => true,
    }
}

/// What stands behind a `>` that may be the prompt's: none, a `>` being held back; or the prompt has come.
fn marked_by(octets: &[u8]) -> Stage
    ensures { (kept : List ℕ) → stands result kept ≡ marked octets.now }
{
    if octets.is_empty() {
        Stage::Marked
    } else {
        Stage::Sends
    }
}

/// Finds the prompt. The octets before it are lines, and those behind it.
fn cut_prompt(octets: &[u8], starts: bool) -> Turn
    ensures few { result.cut.lines.before ≤ result.cut.lines.behind }
    ensures behind { result.cut.lines.behind ≤ length octets.now }
    ensures from { result.cut.from ≡ length octets.now }
    ensures some { result.cut.lines.is_marked ≡ false }
    ensures lines { IsCut result.cut.lines (Prompts starts) octets.now }
    ensures after { (kept : List ℕ) → stands result.stage kept ≡ carries_prompt starts octets.now }
{
    let found = find_prompt(octets, starts);
    if found.place == octets.len() {
        return Turn {
            cut: cut_at(octets, octets.len(), octets.len()),
            stage: Stage::Prompts(found.starts),
        };
    }
    let more = &octets[found.place + 1..];
    let behind = octets.len().min(found.place + 2);
    Turn {
        cut: Cut {
            lines: LineCut {
                is_marked: false,
                before: found.place,
                behind,
            },
            from: octets.len(),
        },
        stage: marked_by(more),
    }
}

/// Octets behind a `>` that is held back: the rest of the prompt, or lines that the `>` goes before.
fn cut_marked(octets: &[u8]) -> Turn
    ensures few { result.cut.lines.before ≤ result.cut.lines.behind }
    ensures behind { result.cut.lines.behind ≤ length octets.now }
    ensures from { result.cut.from ≡ length octets.now }
    ensures some { result.cut.lines.is_marked ≡ true → 0 < length octets.now }
    ensures lines { IsCut result.cut.lines Marked octets.now }
    ensures after { (kept : List ℕ) → stands result.stage kept ≡ carries_after Marked octets.now }
{
    if may_prompt(octets) {
        return Turn {
            cut: Cut {
                lines: LineCut {
                    is_marked: false,
                    before: 0,
                    behind: octets.len().min(1),
                },
                from: octets.len(),
            },
            stage: marked_by(octets),
        };
    }
    let turn = cut_prompt(octets, false);
    Turn {
        cut: Cut {
            lines: LineCut {
                is_marked: true,
                ..turn.cut.lines
            },
            ..turn.cut
        },
        ..turn
    }
}

/// Octets behind a lane that was ended while a `>` was held back: they are lines, and the `>` goes before them.
fn cut_owed(octets: &[u8]) -> Turn
    ensures few { result.cut.lines.before ≤ result.cut.lines.behind }
    ensures behind { result.cut.lines.behind ≤ length octets.now }
    ensures from { result.cut.from ≡ length octets.now }
    ensures some { result.cut.lines.is_marked ≡ true → 0 < length octets.now }
    ensures lines { IsCut result.cut.lines Owes octets.now }
    ensures after { (kept : List ℕ) → stands result.stage kept ≡ carries_after Owes octets.now }
{
    let is_some = !octets.is_empty();
    Turn {
        cut: Cut {
            lines: LineCut {
                is_marked: is_some,
                before: octets.len(),
                behind: octets.len(),
            },
            from: octets.len(),
        },
        stage: if is_some { Stage::Idle } else { Stage::Owes },
    }
}

/// Where a `>` stands that is the prompt's, or may be; or how many octets there are, and whether the next one begins a line.
#[derive(Clone, Copy)]
struct Found {
    place: usize,
    starts: bool,
}

/// Looks for a `>` at the beginning of a line that ends the octets, or that a blank stands behind.
fn find_prompt(octets: &[u8], starts: bool) -> Found
    ensures few { result.place ≤ length octets.now }
    ensures before { take result.place octets.now ≡ before_prompt starts octets.now }
    ensures none { result.place ≡ length octets.now → (behind_prompt starts octets.now ≡ [])
        × (carries_prompt starts octets.now ≡ Prompts result.starts) }
    ensures there { result.place < length octets.now → (behind_prompt starts octets.now ≡ drop (result.place + 2) octets.now)
        × (carries_prompt starts octets.now ≡ marked (drop (result.place + 1) octets.now)) }
{
    let mut starts = starts;
    let mut place = 0;
    while place < octets.len() {
        let octet = octets[place];
        if starts && octet == b'>' && may_prompt(&octets[place + 1..]) {
            return Found { place, starts };
        }
        starts = octet == b'\r' || octet == b'\n';
        place += 1;
    }
    Found { place, starts }
}

/// How many octets were read as lines, and whether the last of them ended a CONNECT line.
#[derive(Clone, Copy)]
pub struct LinesRead {
    pub count: usize,
    pub has_switched: bool,
}

/// Reads octets as far as the end of a CONNECT line.
fn read_lines(reader: &mut LineReader, octets: &[u8]) -> LinesRead
    ensures few { result.count ≤ length octets.now }
    ensures lines { take result.count octets.now ≡ lines_from reader.old octets.now }
    ensures still { result.has_switched ≡ false → StaysLines reader.old reader.new octets.now result.count }
    ensures switched { result.has_switched ≡ true → TurnsToData reader.old octets.now result.count }
{
    let mut count = 0;
    while count < octets.len() {
        let octet = octets[count];
        count += 1;
        if connects(reader, octet) {
            return LinesRead {
                count,
                has_switched: true,
            };
        }
    }
    LinesRead {
        count,
        has_switched: false,
    }
}
