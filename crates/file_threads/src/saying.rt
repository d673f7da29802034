//! What is said of files beside connections that carry data, as far as the writer takes it.
ghost use Rattle.std.specs.Prelude.{◌≡◌, ◌++◌, IfOk, IfSome, codes};
ghost use Rattle.std.specs.Fmt.{debug_str};
ghost use Rattle.std.specs.String.{string_bytes};
ghost use Rattle.ctl_text.specs.Writing.{IsBegun};
ghost use Rattle.file_threads.specs.FileEnds.{SaysEnd, SaysEnds, count_texts, data_text, octets_text, texts_if};
ghost use Rattle.file_threads.specs.Said.{AreSaid};

use ctl_text::say_line;
use data_files::{DataFile, FiledLine};
use itoa::Buffer;
use mux_frame::Dlci;
use serial_line::SerialLine;
use std::alloc::Global;
use std::fmt;
use std::fmt::Write as _;
use std::io::Write;

/// A path between quotation marks. Refused where memory is.
pub fn quoted(alloc: Global, path: &str) -> Result<String, fmt::Error>
    ensures { IfOk result (λ quoted. IfSome (debug_str path.now) (λ text. string_bytes quoted ≡ text)) }
{
    let mut text = String::new(alloc);
    write!(text, "{path:?}")?;
    Ok(text)
}

/// Says these words of a connection.
pub fn say_of<E: Write>(faults: &mut E, dlci: Dlci, words: &str)
    ensures { IsBegun (E.contents faults.old) (E.contents faults.new) (data_text dlci.number words.now) }
{
    let mut digits = Buffer::new();
    say_line(faults, "data ", digits.format(dlci.number()), words);
}

/// Says how many octets are left.
fn say_octets<E: Write>(faults: &mut E, count: usize)
    ensures { IsBegun (E.contents faults.old) (E.contents faults.new) (octets_text count) }
{
    let mut digits = Buffer::new();
    say_line(faults, "left ", digits.format(count), " octets at least");
}

/// Says these words of a connection, where it is so.
#[tactic(auto, using(crate::proofs::FileEnds::said_no, crate::proofs::FileEnds::said_yes))]
fn say_if<E: Write>(faults: &mut E, dlci: Dlci, is_so: bool, words: &str)
    ensures { AreSaid (E.contents faults.old) (E.contents faults.new) (texts_if is_so dlci.number words.now) }
{
    if is_so {
        say_of(faults, dlci, words);
    }
}

/// Says these words of a connection and how many octets are left, where any are.
fn say_count<E: Write>(faults: &mut E, dlci: Dlci, words: &str, count: usize)
    ensures { AreSaid (E.contents faults.old) (E.contents faults.new) (count_texts dlci.number words.now count) }
{
    if count == 0 {
        return;
    }
    say_of(faults, dlci, words);
    say_octets(faults, count);
}

/// Says how many octets of a connection's file lanes took that were over before these left, where any did.
pub fn say_unsent<E: Write>(faults: &mut E, dlci: Dlci, count: usize)
    ensures { AreSaid (E.contents faults.old) (E.contents faults.new) (count_texts dlci.number (codes ": not all that its file gave was sent") count) }
{
    say_count(faults, dlci, ": not all that its file gave was sent", count);
}

/// Says what came of a file beside a connection of this line.
fn say_file<L: SerialLine, P: SerialLine, E: Write>(
    faults: &mut E,
    line: &FiledLine<L, P>,
    file: &DataFile<P>,
)
    ensures { SaysEnd line.now.line.relay.pipes file.now (E.contents faults.old) (E.contents faults.new) }
{
    let dlci = file.dlci();
    say_if(faults, dlci, file.has_ended(), ": its file gives no more");
    say_if(faults, dlci, file.is_broken(), ": its file takes no more");
    say_count(
        faults,
        dlci,
        ": not all that its file gave was sent",
        file.ungiven()
            .saturating_add(line.unsent(dlci))
            .saturating_add(file.dropped()),
    );
    say_count(
        faults,
        dlci,
        ": not all that came was written to its file",
        file.unwritten(),
    );
}

/// Says what came of each file of this line.
pub fn say_files<L: SerialLine, P: SerialLine, E: Write>(faults: &mut E, line: &FiledLine<L, P>)
    ensures { SaysEnds line.now.line.relay.pipes line.now.files (E.contents faults.old) (E.contents faults.new) }
{
    let files = line.files();
    let mut place = 0;
    while place < files.len() {
        say_file(faults, line, &files[place]);
        place += 1;
    }
}
