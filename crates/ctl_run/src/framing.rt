//! Octets are read as frames.
ghost use Rattle.std.specs.Prelude.{◌≡◌, ◌++◌, None, Some, Ok, Err, map, IfOk, OnOk, OnErr};
ghost use Rattle.mux_frame.specs.Frames.{kept_frame};
ghost use Rattle.mux_frame.specs.Reading.{Reads};
ghost use Rattle.ctl_run.specs.Framing.{HandsAll};

use mux_frame::{Deframer, FrameBuf, FrameError, N1};
use std::alloc::{AllocError, Global};

/// Takes the frames out that are at hand.
fn take_frames(
    alloc: Global,
    deframer: &mut Deframer,
    frames: &mut Vec<FrameBuf>,
) -> Result<(), AllocError>
    ensures all { OnOk result (deframer.new.next ≡ None) }
    ensures past { OnOk result
        (HandsAll deframer.old (map kept_frame frames.old.items) deframer.new
        (map kept_frame frames.new.items)) }
{
    while let Some(frame) = deframer.peek() {
        frames.push(frame.to_buf(alloc)?)?;
        deframer.advance();
    }
    Ok(())
}

/// The frames that octets are read as, and the octets of the rest. Refusal: NoMemory.
#[tactic(auto, using(crate::proofs::inputs::ReadFrames::taken_none, crate::proofs::inputs::ReadFrames::taken_more, crate::proofs::inputs::ReadFrames::read_all))]
pub fn read_frames(
    alloc: Global,
    n1: N1,
    octets: &[u8],
) -> Result<(Vec<FrameBuf>, Vec<u8>), FrameError>
    ensures ok { IfOk result (λ read. Reads n1.octets octets.now (map kept_frame read.0.items) read.1.items) }
    ensures no_memory { OnErr result (result ≡ Err FrameError.NoMemory) }
{
    let mut deframer = Deframer::new(alloc, n1.octets)?;
    let mut frames = Vec::new(alloc);
    let mut left = octets;
    while !left.is_empty() {
        let count = deframer.feed(left);
        (_, left) = left.split_at(count);
        take_frames(alloc, &mut deframer, &mut frames)?;
    }
    let mut rest = Vec::new(alloc);
    deframer.rest(&mut rest)?;
    Ok((frames, rest))
}
