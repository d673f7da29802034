//! The first frame of a text of octets (27.010, 5.2.3, 5.2.5 and 5.2.6.1).
ghost use Rattle.std.specs.Prelude.{◌≡◌, ◌≢◌, ◌<◌, ◌≤◌, ◌-◌, [], length, map, take, true, IfOk};
ghost use Rattle.mux_frame.specs.Frames.{kept_frame};
ghost use Rattle.mux_frame.specs.Reading.{Reads};
ghost use Rattle.mux_capture.specs.FrontFrames.{IsFound, IsFront, can_fill};

use mux_frame::FrameBuf;
use mux_frame::laws::read_plain;
use std::alloc::{AllocError, Global};

/// The most octets that a frame has beside its information: two flags, address, control, two of length, and the check octet.
const MOST_BESIDE: usize = 7;

/// What the octets at the front of a text are.
#[derive(Clone, Copy)]
enum Front {
    /// They can become a frame.
    Begins,
    /// So many of them are a frame, from flag to flag.
    Frame(usize),
    /// No frame begins with the first of them.
    Other,
}

/// The first frame of a text.
#[derive(Clone, Copy)]
pub enum Found<'a> {
    /// There is none yet.
    None {
        /// The octets that read as none.
        front: &'a [u8],
        /// The octets behind them, at the end of the text, which can become a frame.
        rest: &'a [u8],
    },
    /// There is one.
    Frame {
        /// The octets in front of it, which read as none.
        front: &'a [u8],
        /// The frame, from flag to flag.
        frame: &'a [u8],
        /// The octets behind it.
        behind: &'a [u8],
    },
}

/// Whether the first of these frames can be as long as a text.
fn can_fill(frames: &[FrameBuf], len: usize) -> bool
    ensures { result ≡ can_fill (map kept_frame frames.now) len }
{
    match frames {
        [first, ..] => len <= first.info.as_slice().len() + MOST_BESIDE,
        [] => false,
    }
}

/// What a text is, all octets of which but the last could become a frame.
fn judge(alloc: Global, n1: u16, text: &[u8]) -> Result<Front, AllocError>
    requires some { text.now ≢ [] }
    requires front { Reads n1 (take (length text.now - 1) text.now) [] (take (length text.now - 1) text.now) }
    ensures { IfOk result (λ front. IsFront n1 text.now front) }
{
    let Ok((frames, rest)) = read_plain(alloc, n1, text) else {
        return Err(AllocError);
    };
    if rest.len() == text.len() {
        return Ok(Front::Begins);
    }
    if can_fill(frames.as_slice(), text.len()) {
        return Ok(Front::Frame(text.len()));
    }
    Ok(Front::Other)
}

/// Whether all of a text can become a frame.
fn can_begin(alloc: Global, n1: u16, text: &[u8]) -> Result<bool, AllocError>
    ensures { IfOk result (λ is. is ≡ true → Reads n1 text.now [] text.now) }
{
    let Ok((_, rest)) = read_plain(alloc, n1, text) else {
        return Err(AllocError);
    };
    Ok(rest.len() == text.len())
}

/// How many octets at the front of a text can become a frame, of which so many are known to: all but the last of the text at most.
fn ahead(alloc: Global, n1: u16, text: &[u8], known: usize) -> Result<usize, AllocError>
    requires bound { known < length text.now }
    requires known { Reads n1 (take known text.now) [] (take known text.now) }
    ensures within { IfOk result (λ count. known ≤ count) }
    ensures bound { IfOk result (λ count. count < length text.now) }
    ensures begins { IfOk result (λ count. Reads n1 (take count text.now) [] (take count text.now)) }
{
    let mut low = known;
    let mut high = text.len().min(usize::from(n1) + MOST_BESIDE);
    while low < high && high - low > 1 {
        let middle = low + (high - low) / 2;
        if can_begin(alloc, n1, &text[..middle])? {
            low = middle;
        } else {
            high = middle;
        }
    }
    Ok(low)
}

/// What the octets at the front of a text are, of which so many are known to be able to become a frame.
fn front_of(alloc: Global, n1: u16, text: &[u8], seen: usize) -> Result<Front, AllocError>
    requires bound { seen ≤ length text.now }
    requires seen { Reads n1 (take seen text.now) [] (take seen text.now) }
    ensures { IfOk result (λ front. IsFront n1 text.now front) }
{
    let mut known = seen;
    while known < text.len() {
        let count = ahead(alloc, n1, text, known)?;
        match judge(alloc, n1, &text[..count + 1])? {
            Front::Begins => known = count + 1,
            front => return Ok(front),
        }
    }
    Ok(Front::Begins)
}

/// Finds the first frame of a text. The first `seen` octets are known to hold no frame yet, and to be able to become one.
pub fn first_frame<'a>(
    alloc: Global,
    n1: u16,
    text: &'a [u8],
    seen: usize,
) -> Result<Found<'a>, AllocError>
    requires bound { seen ≤ length text.now }
    requires seen { Reads n1 (take seen text.now) [] (take seen text.now) }
    ensures { IfOk result (λ found. IsFound n1 text.now found) }
{
    let mut passed = 0;
    let mut known = seen;
    while passed < text.len() {
        let (front, left) = text.split_at(passed);
        match front_of(alloc, n1, left, known)? {
            Front::Begins => return Ok(Found::None { front, rest: left }),
            Front::Frame(count) => {
                let (frame, behind) = left.split_at(count);
                return Ok(Found::Frame {
                    front,
                    frame,
                    behind,
                });
            }
            Front::Other => {
                passed += 1;
                known = 0;
            }
        }
    }
    let (front, rest) = text.split_at(passed);
    Ok(Found::None { front, rest })
}
