//! Laws of the first frame of a text, and of captures.
ghost use Rattle.mux_capture.specs.FirstFrame.{FirstIsRead, FirstStays, OneFirst};
ghost use Rattle.mux_capture.specs.Passing.{CatchesAll, CatchesFrames, OverIsRead};

/// A text has at most one first frame, and one rest behind it: so both are the same however the octets came. Reading goes on from the
/// frame's closing flag. More octets change neither the frame nor where it ends.
#[tactic(auto, using(crate::proofs::FirstLaws::one_first, crate::proofs::FirstLaws::first_is_read, crate::proofs::FirstLaws::first_stays))]
pub fn first_frames()
    ensures one { OneFirst }
    ensures read { FirstIsRead }
    ensures stays { FirstStays }
{}

/// The frames that were captured each way are those that all octets that passed that way are read as, however they came. But for
/// flags, nothing that passed is missing: it is captured, or can still become a frame; and in a stretch that is over it is captured.
#[tactic(auto, using(crate::proofs::Passing::catches_frames, crate::proofs::Passing::catches_all))]
pub fn captured_pieces()
    ensures frames { CatchesFrames }
    ensures all { CatchesAll }
    ensures over { OverIsRead }
{}
