//! Reads the lines of a connection, and says what each is.
ghost use Rattle.std.specs.Prelude.{◌≡◌, ◌↔◌, ◌≤◌, ◌<◌, ℕ, List, [], ◌∷◌, ◌++◌, false, true, length, take, drop, Option, None, OnOk, IfOk};
ghost use Rattle.std.specs.List.{Contains, list_any};
ghost use Rattle.modem_history.specs.Acts.{Act as Happening};
ghost use Rattle.at_text.specs.Lines.{is_line_end};
ghost use Rattle.at_text.specs.InPlace.{Grows};
ghost use Rattle.at_text.specs.OpenWindow.{OpenWindow, seen_by};
ghost use Rattle.at_text.specs.UnderWay.{window_of};
ghost use Rattle.at_text.specs.Runs.{LineRun, kept_in, LeadsBack};
ghost use Rattle.modem_queues.specs.declared.asker.Asker.{Asker};
ghost use Rattle.modem_core.specs.Reports.{ReadingView, reading_of, heard_by, said_as, ReportSays, ReadsAll};
ghost use Rattle.modem_core.specs.Settling.{settled, SaysPlaced, Stands, StartsWith};

use at_text::{Dialect, LineRun, Placed, Text, UnderWay, UrcKind, run_len};
use modem_desk::Urc;
use modem_queues::LineRoom;
use mux_frame::Dlci;
use std::alloc::{AllocError, Global};

/// The connection whose lines are read, and how.
#[derive(Clone, Copy)]
pub(crate) struct Reading<'a> {
    pub alloc: Global,
    pub dlci: Dlci,
    /// The text of the command under way, where a line may be its echo.
    pub command: &'a [u8],
    pub dialect: &'a Dialect,
    /// The kinds that are listened to.
    pub kinds: &'a [UrcKind],
}

/// Whether this kind is listened to.
fn is_heard(kinds: &[UrcKind], kind: UrcKind) -> bool
    ensures { (result ≡ true) ↔ Contains kinds.now kind }
{
    kinds.contains(&kind)
}

/// A line that no command asked for is heard, where its kind is listened to.
#[inline(always)]
fn hear<P: LineRoom>(
    reading: &Reading<'_>,
    kind: UrcKind,
    line: &[u8],
    lines: &mut P,
) -> Result<(), AllocError>
    ensures says { OnOk result ((owner : Option Asker) → ReportSays (reading_of owner reading.now)
        (λ listens. heard_by listens reading.now.dlci.number kind line.now) (P.heard lines.old) (P.heard lines.new)) }
    ensures begins { (was : List Happening) → StartsWith was (P.heard lines.old) → StartsWith was (P.heard lines.new) }
{
    if !is_heard(reading.kinds, kind) {
        return Ok(());
    }
    let text = line.to_vec(reading.alloc)?;
    lines.hear(Urc {
        kind,
        dlci: reading.dlci,
        line: Text::from(text),
    })
}

/// The same of a line behind an answer that is whole.
fn hear_behind<P: LineRoom>(
    reading: &Reading<'_>,
    line: &[u8],
    lines: &mut P,
) -> Result<(), AllocError>
    ensures says { OnOk result ((owner : Option Asker) → let r = reading_of owner reading.now in ReportSays r
        (λ listens. said_as listens r.dlci owner line.now (seen_by r.dialect None line.now))
        (P.heard lines.old) (P.heard lines.new)) }
    ensures begins { (was : List Happening) → StartsWith was (P.heard lines.old) → StartsWith was (P.heard lines.new) }
{
    match reading.dialect.unsolicited_of(line) {
        Some(kind) => hear(reading, kind, line, lines),
        None => hear(reading, UrcKind::Other, line, lines),
    }
}

/// A line, and what it is at its place. Where the answer is whole with it, that is noted. The condition is that none was before.
fn say<P: LineRoom>(
    reading: &Reading<'_>,
    line: &[u8],
    placed: Placed,
    answer: &mut Option<usize>,
    lines: &mut P,
) -> Result<(), AllocError>
    requires { answer.old ≡ None }
    ensures says { OnOk result ((owner : Option Asker) (window : Option OpenWindow) → SaysPlaced (reading_of owner reading.now)
        line.now placed window (P.heard lines.old) answer.new (P.heard lines.new)) }
    ensures begins { (was : List Happening) → StartsWith was (P.heard lines.old) → StartsWith was (P.heard lines.new) }
{
    match placed {
        Placed::Echo | Placed::Kept => Ok(()),
        Placed::Whole => {
            *answer = Some(lines.len());
            Ok(())
        }
        Placed::Unsolicited(kind) => hear(reading, kind, line, lines),
        Placed::Other => hear(reading, UrcKind::Other, line, lines),
    }
}

/// Reads octets that end no line, and a line end behind them.
fn read_line<P: LineRoom>(
    reading: &Reading<'_>,
    octets: &[u8],
    line: &mut LineRun,
    under_way: &mut UnderWay,
    answer: &mut Option<usize>,
    lines: &mut P,
) -> Result<(), AllocError>
    requires { list_any is_line_end octets.now ≡ false }
    ensures read { OnOk result (Stands answer.old (window_of reading.now.command.now under_way.old) (P.heard lines.old)
        → (owner : Option Asker) (c : ℕ) → is_line_end c ≡ true → ReadsAll (reading_of owner reading.now) (octets.now ++ c ∷ [])
        (settled owner (kept_in line.old) (window_of reading.now.command.now under_way.old) answer.old (P.heard lines.old))
        (settled owner (kept_in line.new) (window_of reading.now.command.now under_way.new) answer.new (P.heard lines.new))) }
    ensures stands { OnOk result (Stands answer.old (window_of reading.now.command.now under_way.old) (P.heard lines.old)
        → Stands answer.new (window_of reading.now.command.now under_way.new) (P.heard lines.new)) }
    ensures grows { Grows (window_of reading.now.command.now under_way.old) (window_of reading.now.command.now under_way.new) }
    ensures back { (was : LineRun) → LeadsBack was line.old → LeadsBack was line.new }
    ensures begins { (was : List Happening) → StartsWith was (P.heard lines.old) → StartsWith was (P.heard lines.new) }
{
    let Some(ended) = line.end(octets) else {
        return Ok(());
    };
    if answer.is_some() {
        return hear_behind(reading, ended.text, lines);
    }
    let Ok(placed) = under_way.place_by(reading.command, reading.dialect, ended.text) else {
        return Err(AllocError);
    };
    say(reading, ended.text, placed, answer, lines)
}

/// Keeps octets none of which ends a line. Where there are none, nothing is touched.
pub(crate) fn keep_rest(line: &mut LineRun, octets: &[u8])
    requires { list_any is_line_end octets.now ≡ false }
    ensures { (r : ReadingView) (w : Option OpenWindow) (acts : List Happening)
        → ReadsAll r octets.now (record { kept = kept_in line.old; window = w; acts = acts })
        (record { kept = kept_in line.new; window = w; acts = acts }) }
{
    if !octets.is_empty() {
        line.keep(octets);
    }
}

/// How many of the first octets call for nothing: those that end no line, since nothing stands before them. So the second octet of a
/// line end is passed, and the line end before the next line.
fn skipped(line: &LineRun, octets: &[u8]) -> usize
    ensures within { result ≤ length octets.now }
    ensures read { (r : ReadingView) (w : Option OpenWindow) (acts : List Happening)
        → ReadsAll r (take result octets.now) (record { kept = kept_in line.now; window = w; acts = acts })
        (record { kept = kept_in line.now; window = w; acts = acts }) }
{
    let mut count = 0;
    while line.skips(&octets[count..]) {
        count += 1;
    }
    count
}

/// Reads octets through the first that ends a line and those behind it that call for nothing. Says how many: none where no line ends.
fn read_run<P: LineRoom>(
    reading: &Reading<'_>,
    octets: &[u8],
    line: &mut LineRun,
    under_way: &mut UnderWay,
    answer: &mut Option<usize>,
    lines: &mut P,
) -> Result<usize, AllocError>
    ensures within { IfOk result (λ count. count ≤ length octets.now) }
    ensures none { IfOk result (λ count. count ≡ 0 → list_any is_line_end octets.now ≡ false) }
    ensures read { IfOk result (λ count. Stands answer.old (window_of reading.now.command.now under_way.old) (P.heard lines.old)
        → (owner : Option Asker) → ReadsAll (reading_of owner reading.now) (take count octets.now)
        (settled owner (kept_in line.old) (window_of reading.now.command.now under_way.old) answer.old (P.heard lines.old))
        (settled owner (kept_in line.new) (window_of reading.now.command.now under_way.new) answer.new (P.heard lines.new))) }
    ensures stands { OnOk result (Stands answer.old (window_of reading.now.command.now under_way.old) (P.heard lines.old)
        → Stands answer.new (window_of reading.now.command.now under_way.new) (P.heard lines.new)) }
    ensures grows { Grows (window_of reading.now.command.now under_way.old) (window_of reading.now.command.now under_way.new) }
    ensures back { (was : LineRun) → LeadsBack was line.old → LeadsBack was line.new }
    ensures begins { (was : List Happening) → StartsWith was (P.heard lines.old) → StartsWith was (P.heard lines.new) }
{
    let end = run_len(octets);
    if end == octets.len() {
        return Ok(0);
    }
    read_line(reading, &octets[..end], line, under_way, answer, lines)?;
    let (_, left) = octets.split_at(end + 1);
    Ok(end + 1 + skipped(line, left))
}

/// Reads the lines that end in these octets, in place. Says how many octets it has read: those behind them end no line. Where an
/// answer is whole, it is noted behind how many of the lines that are heard it comes.
pub(crate) fn read_lines<P: LineRoom>(
    reading: &Reading<'_>,
    octets: &[u8],
    line: &mut LineRun,
    under_way: &mut UnderWay,
    answer: &mut Option<usize>,
    lines: &mut P,
) -> Result<usize, AllocError>
    requires { Stands answer.old (window_of reading.now.command.now under_way.old) (P.heard lines.old) }
    ensures within { IfOk result (λ count. count ≤ length octets.now) }
    ensures rest { IfOk result (λ count. list_any is_line_end (drop count octets.now) ≡ false) }
    ensures read { IfOk result (λ count. (owner : Option Asker) → ReadsAll (reading_of owner reading.now) (take count octets.now)
        (settled owner (kept_in line.old) (window_of reading.now.command.now under_way.old) answer.old (P.heard lines.old))
        (settled owner (kept_in line.new) (window_of reading.now.command.now under_way.new) answer.new (P.heard lines.new))) }
    ensures stands { OnOk result (Stands answer.new (window_of reading.now.command.now under_way.new) (P.heard lines.new)) }
    ensures grows { Grows (window_of reading.now.command.now under_way.old) (window_of reading.now.command.now under_way.new) }
    ensures back { (was : LineRun) → LeadsBack was line.old → LeadsBack was line.new }
    ensures begins { (was : List Happening) → StartsWith was (P.heard lines.old) → StartsWith was (P.heard lines.new) }
{
    let mut place = skipped(line, octets);
    while place < octets.len() {
        let count = read_run(reading, &octets[place..], line, under_way, answer, lines)?;
        if count == 0 {
            return Ok(place);
        }
        place += count;
    }
    Ok(place)
}
