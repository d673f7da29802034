//! How many frames there are in octets.
ghost use Rattle.std.specs.Prelude.{◌≡◌, ◌≢◌, ◌<◌, ◌↔◌, None, IfOk, IsErrOf};
ghost use Rattle.mux_frame.specs.Spelling.{IsBadN1};
ghost use Rattle.mux_frame_c.specs.Counting.{CountsOn, IsCountOf};

use mux_frame::{Deframer, FrameError};
use std::alloc::Global;

/// The octets that are fed at once.
const PIECE: usize = 4096;

/// How many frames were read, and how many octets their information has in all.
#[repr(C)]
#[derive(Clone, Copy)]
pub struct Counts {
    pub frames: usize,
    pub information: usize,
}

/// Takes the frames out that are at hand, and counts them too. The sums can't wrap in the end: octets
/// are never as many as that.
fn count_frames(deframer: &mut Deframer, mut counts: Counts) -> Counts
    ensures all { deframer.new.next ≡ None }
    ensures past { CountsOn deframer.old counts deframer.new result }
{
    while let Some(frame) = deframer.peek() {
        counts.frames = counts.frames.wrapping_add(1);
        counts.information = counts.information.wrapping_add(frame.info.len());
        deframer.advance();
    }
    counts
}

/// Counts the frames that octets are read as. Refusals: BadN1 where N1 isn't 31 to 32767, checked
/// first; NoMemory.
#[tactic(auto, using(crate::proofs::FrameCounts::counted_none, crate::proofs::FrameCounts::counted_more, crate::proofs::FrameCounts::counted_all))]
pub(crate) fn count_octets(alloc: Global, n1: u16, octets: &[u8]) -> Result<Counts, FrameError>
    ensures ok { IfOk result (λ counts. IsCountOf n1 octets.now counts) }
    ensures bad_n1 { IsErrOf result FrameError.BadN1 ↔ IsBadN1 n1 }
    ensures others { result ≢ Err FrameError.TooLong }
{
    let mut deframer = Deframer::new(alloc, n1)?;
    let mut counts = Counts {
        frames: 0,
        information: 0,
    };
    let mut left = octets;
    while !left.is_empty() {
        let count = deframer.feed(&left[..left.len().min(PIECE)]);
        (_, left) = left.split_at(count);
        counts = count_frames(&mut deframer, counts);
    }
    Ok(counts)
}
