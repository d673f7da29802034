//! Frames are read however their octets are cut.
ghost use Rattle.std.specs.Prelude.{◌≡◌, ◌<◌, None, OnOk};

use mux_frame::laws::read_plain;
use mux_frame::*;
use std::alloc::Global;
use std::test::*;

/// Frames, and the octets of the rest.
pub type Reading = (Vec<FrameBuf>, Vec<u8>);

fn same(a: FrameView<'_>, b: FrameView<'_>) -> bool {
    a.dlci.number() == b.dlci.number()
        && a.kind == b.kind
        && a.cr == b.cr
        && a.pf == b.pf
        && a.info == b.info
}

/// Takes out all frames that are whole.
fn take_frames(
    alloc: Global,
    input: &mut Deframer,
    frames: &mut Vec<FrameBuf>,
) -> Result<(), FrameError>
    ensures { OnOk result (input.new.next ≡ None) }
{
    while let Some(frame) = input.peek() {
        frames.push(frame.to_buf(alloc)?)?;
        input.advance();
    }
    Ok(())
}

/// Feeds the whole piece, taking out frames where there is no room.
pub fn feed_piece(
    alloc: Global,
    input: &mut Deframer,
    piece: &[u8],
    frames: &mut Vec<FrameBuf>,
) -> Result<(), FrameError>
    requires { input.old.next ≡ None }
    ensures { OnOk result (input.new.next ≡ None) }
{
    let mut left = piece;
    while !left.is_empty() {
        let count = input.feed(left);
        left = &left[count..];
        take_frames(alloc, input, frames)?;
    }
    Ok(())
}

pub fn reads_same(a: &Reading, b: &Reading) -> bool {
    let mut pairs = a.0.iter().zip(b.0.iter());
    pairs.all(|(x, y)| same(x.view(), y.view()))
        && a.0.len() == b.0.len()
        && a.1.as_slice() == b.1.as_slice()
}

/// The octets as a deframer reads them, fed in pieces of this size.
fn read_in_pieces(alloc: Global, n1: u16, octets: &[u8], size: usize) -> Result<Reading, FrameError>
    requires { 0 < size }
{
    let mut input = Deframer::new(alloc, n1)?;
    let mut frames = Vec::new(alloc);
    for piece in octets.chunks(size) {
        feed_piece(alloc, &mut input, piece, &mut frames)?;
    }
    let mut rest = Vec::new(alloc);
    input.rest(&mut rest)?;
    Ok((frames, rest))
}

/// Whether a deframer, however its octets are cut, reads what is read plainly, which is so many frames.
pub fn reads_alike(
    alloc: Global,
    n1: u16,
    octets: &[u8],
    count: usize,
) -> Result<bool, FrameError> {
    let plain = read_plain(alloc, n1, octets)?;
    for size in [1, 2, 3, 7] {
        if !reads_same(&read_in_pieces(alloc, n1, octets, size)?, &plain) {
            return Ok(false);
        }
    }
    Ok(plain.0.len() == count)
}

/// Octets, and how many frames they are.
type Cut = (&'static [u8], usize);

/// Answers of a modem, with two flags between them and with one; a frame that is cut short; one whose check octet is one off;
/// flags inside a frame; candidates that fail.
const CUTS: [Cut; 8] = [
    (
        b"\xF9\x03\x73\x01\xD7\xF9\xF9\x07\x73\x01\x15\xF9\xF9\x05\xEF\x1F\r\n+CSQ: 18,99\r\n\xA0\xF9\xF9\x05\xEF\x0D\r\nOK\r\n\x5F\xF9",
        4,
    ),
    (
        b"\xF9\x05\xEF\x1F\r\n+CSQ: 18,99\r\n\xA0\xF9\x05\xEF\x0D\r\nOK\r\n\x5F\xF9",
        2,
    ),
    (b"\xF9\x05\xEF\x0D\x41\x42\xF9\x03\x73\x01\xD7\xF9", 1),
    (b"\xF9\x03\x73\x01\xD6\xF9\x07\x73\x01\x15\xF9", 1),
    (b"\xF9\x05\xEF\x05\xF9\xF9\x51\xF9", 1),
    (b"\xF9\x05\xEF\x0A\x00\x41\x41\x41\x41\x41\xE5\xF9", 1),
    (b"\xF9\x05\xEF\x41", 0),
    (b"\xF9\x05\xEF\x3E", 0),
];

#[test]
fn octets_are_read_however_they_are_cut(rt: HostRuntime) -> Result<(), Fail> {
    for (octets, count) in CUTS {
        assert!(rt; reads_alike(rt.alloc(), 31, octets, count)?);
    }
    Ok(())
}

#[test]
fn n1_has_its_bounds(rt: HostRuntime) {
    for (n1, good) in [
        (0, false),
        (30, false),
        (31, true),
        (32767, true),
        (32768, false),
    ] {
        let made = Deframer::new(rt.alloc(), n1);
        assert!(rt; made.is_ok() == good);
        assert!(rt; good || made.err() == Some(FrameError::BadN1));
    }
}
