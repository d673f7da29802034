//! Reads octets as frames and counts them, for a caller in C.
#![tactic(auto)]

ghost use Rattle.std.specs.Prelude.{◌≡◌, ◌≢◌, ◌<◌, ◌↔◌, ◌⊎◌};
ghost use Rattle.mux_frame.specs.Spelling.{IsBadN1};
ghost use Rattle.mux_frame_c.specs.Counting.{IsCountOf};

mod counts;
#[cfg(test)]
mod tests;

pub use counts::Counts;
use counts::count_octets;
use mux_frame::FrameError;
use std::alloc::Global;

/// Reads octets as frames, in pieces of 4096, and counts what it read. It answers 0. A refusal leaves
/// the counts as they were: 3, checked first, where N1 isn't 31 to 32767; 2 where memory is refused.
#[unsafe(no_mangle)]
pub extern "C" fn mux_frame_c_count(
    alloc: Global,
    n1: u16,
    octets: &[u8],
    counts: &mut Counts,
) -> u8
    ensures counted { result ≡ 0 → IsCountOf n1 octets.now counts.new }
    ensures refused { result ≢ 0 → counts.new ≡ counts.old }
    ensures bad_n1 { result ≡ 3 ↔ IsBadN1 n1 }
    ensures others { (result ≡ 0) ⊎ (result ≡ 2) ⊎ (result ≡ 3) }
{
    match count_octets(alloc, n1, octets) {
        Ok(counted) => {
            *counts = counted;
            0
        }
        Err(FrameError::BadN1) => 3,
        Err(_) => 2,
    }
}
