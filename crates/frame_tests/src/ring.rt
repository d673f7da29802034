//! The deframer's ring: frames that are cut anywhere, and frames that wrap round its end.
use crate::reading::{Reading, feed_piece, reads_alike, reads_same};
use mux_frame::laws::read_plain;
use mux_frame::*;
use std::alloc::Global;
use std::test::*;

const FLAG: u8 = 0xF9;

/// What a deframer reads whose ring begins so many octets on: a flag after the other has passed.
fn read_from_place(
    alloc: Global,
    n1: u16,
    octets: &[u8],
    place: usize,
) -> Result<Reading, FrameError> {
    let mut input = Deframer::new(alloc, n1)?;
    let mut frames = Vec::new(alloc);
    for _ in 0..place {
        feed_piece(alloc, &mut input, &[FLAG], &mut frames)?;
    }
    feed_piece(alloc, &mut input, octets, &mut frames)?;
    let mut rest = Vec::new(alloc);
    input.rest(&mut rest)?;
    Ok((frames, rest))
}

fn uih(info: &[u8]) -> FrameView<'_> {
    FrameView {
        dlci: Dlci::new(1).unwrap_or(Dlci { number: 2 }),
        kind: Kind::Uih,
        cr: false,
        pf: false,
        info,
    }
}

/// So many frames with so many octets of information, each other than those before it.
fn frames_of(alloc: Global, len: usize, count: usize) -> Result<Vec<u8>, FrameError> {
    let mut octets = Vec::new(alloc);
    let mut info = Vec::new(alloc);
    for number in 0..count {
        info.clear();
        for place in 0..len {
            info.push((number.wrapping_mul(7).wrapping_add(place) % 256) as u8)?;
        }
        write_frame(uih(info.as_slice()), 127, &mut octets)?;
    }
    Ok(octets)
}

#[test]
fn frames_are_read_at_each_cut(rt: HostRuntime) -> Result<(), Fail> {
    let alloc = rt.alloc();
    let (letters, flags) = ([0x41; 127], [FLAG; 127]);
    let mut octets = Vec::new(alloc);
    for len in [31, 32, 127] {
        write_frame(uih(&letters[..len]), 127, &mut octets)?;
        write_frame(uih(&flags[..len]), 127, &mut octets)?;
    }
    for (n1, count) in [(31, 2), (32, 4), (127, 6)] {
        assert!(rt; reads_alike(alloc, n1, octets.as_slice(), count)?);
    }
    Ok(())
}

// The ring has room for 8192 octets, so its end lies in another place of a frame each time.
#[test]
fn frames_wrap_at_each_place(rt: HostRuntime) -> Result<(), Fail> {
    let alloc = rt.alloc();
    for (len, count) in [(0, 1400), (31, 250), (127, 80)] {
        let octets = frames_of(alloc, len, count)?;
        let plain = read_plain(alloc, 127, octets.as_slice())?;
        assert!(rt; plain.0.len() == count);
        for place in 0..len + 8 {
            let read = read_from_place(alloc, 127, octets.as_slice(), place)?;
            assert!(rt; reads_same(&read, &plain));
        }
    }
    Ok(())
}
