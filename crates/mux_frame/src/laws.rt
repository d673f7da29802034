//! Laws of frames, and a reading of a whole text at once.
ghost use Rattle.std.specs.Prelude.{◌≡◌, ◌+◌, ◌<◌, ◌≤◌, ◌++◌, ◌∷◌, List, ℕ, Some, None, drop, length, map, slice_index, IfOk, OnErr, MatchOption};
ghost use Rattle.std.specs.Option.{option_copied};
ghost use Rattle.mux_frame.specs.Deframing.{IsDeframed};
ghost use Rattle.mux_frame.specs.Frames.{kept_frame};
ghost use Rattle.mux_frame.specs.Laws.{IsFunction, IsTotal, OneSpelling, ReadsBeginning, ReadsOn, ReadsSpelled, ReadsWritten, SpellsShortest};
ghost use Rattle.mux_frame.specs.Reading.{Reads, after_flag};
ghost use Rattle.mux_frame.specs.Rows.{AreRead, AreSpelled};

use crate::error::FrameError;
use crate::frame::FrameBuf;
use crate::judge::Verdict;
use crate::write::FLAG;
use memchr::memchr;
use std::alloc::Global;

/// The text after the first flag.
fn text_after_flag(octets: &[u8]) -> Option<&[u8]>
    ensures { option_copied result ≡ after_flag octets.now }
{
    let len = octets.len();
    let place = memchr(FLAG, octets)?;
    Some(&octets[place + 1..len])
}

/// Reads a whole text at once: its frames, and the rest that may still become one (27.010, 5.2.3, 5.2.5 and 5.2.6.1).
/// Refused with 2 NoMemory.
pub fn read_plain(
    alloc: Global,
    n1: u16,
    octets: &[u8],
) -> Result<(Vec<FrameBuf>, Vec<u8>), FrameError>
    ensures ok { IfOk result
        (λ read. Reads n1 octets.now (map kept_frame read.0.items) read.1.items) }
    ensures err { OnErr result (result ≡ Err FrameError.NoMemory) }
{
    let mut frames = Vec::new(alloc);
    let mut left = octets;
    while let Some(text) = text_after_flag(left) {
        match Verdict::on(n1, text) {
            Verdict::Unfinished => {
                let mut rest = Vec::new(alloc);
                rest.push(FLAG)?;
                rest.extend_from_slice(text)?;
                return Ok((frames, rest));
            }
            Verdict::Refused => left = text,
            Verdict::Fits(header) => {
                frames.push(header.view(text).to_buf(alloc)?)?;
                left = header.later(text);
            }
        }
    }
    Ok((frames, Vec::new(alloc)))
}

/// Octets spell at most one frame, and no spelling is a prefix of another.
pub fn one_spelling()
    ensures { OneSpelling }
{}

/// No spelling of a frame is shorter than the one that is written.
pub fn spells_shortest()
    ensures { SpellsShortest }
{}

/// A text has at most one reading: its frames and its rest.
pub fn one_reading()
    ensures { IsFunction }
{}

/// Reading on from the rest gives what reading all octets anew gives.
pub fn reads_on()
    ensures { ReadsOn }
{}

/// A frame that was written is read, whatever follows its closing flag.
pub fn reads_written()
    ensures { ReadsWritten }
{}

/// Frames that are written one after the other are read as those frames.
pub fn reads_spelled()
    ensures { ReadsSpelled }
{}

/// The frames read in a prefix of the octets are the first of those read in all octets.
pub fn reads_beginning()
    ensures { ReadsBeginning }
{}

/// Every text of octets has a reading.
pub fn total_reading()
    ensures { IsTotal }
{}

/// A deframer hands out exactly the frames that are read in the octets taken, in order.
pub fn deframed()
    ensures { IsDeframed }
{}

/// Worked examples of frames are spelled as they should be.
pub fn example_frames()
    ensures { AreSpelled }
{}

/// Worked examples of texts are read as they should be.
pub fn example_texts()
    ensures { AreRead }
{}
