//! Octets that wait for the line.
ghost use Rattle.std.specs.Prelude.{◌≡◌, ◌≢◌, ◌≤◌, ◌==◌, [], length, drop, IfOk};
ghost use Rattle.mux_frame.specs.Frames.{frame_of};
ghost use Rattle.mux_frame.specs.Spelling.{most_info, spelled};

use mux_frame::{FrameView, Kind, write_frame};
use std::alloc::{AllocError, Global};
use std::marker::Model;

/// The most octets that a frame has besides its information: both its flags, address, control, two
/// length octets and the check octet (27.010, 5.2.1).
const AROUND: usize = 7;

/// The most octets of information that a frame that goes out has.
const LONGEST: u16 = 1024;

/// The octets of the last frame for the line that the line hasn't taken yet.
#[derive(Drop)]
pub struct WriteBuffer {
    octets: Vec<u8>,
    written: usize,
}

impl Model for WriteBuffer {
    ghost use Rattle.std.specs.Prelude.{ℕ, List, drop, vec_capacity, ◌≤◌};
    ghost use Rattle.std.specs.Vec.{vec_len};

    ghost Value = { List ℕ };

    ghost view = { λ o. drop o.written o.octets.items };

    ghost invariant = { λ o. (o.written ≤ vec_len o.octets) × (1031 ≤ vec_capacity o.octets) };
}

impl WriteBuffer {
    /// An empty buffer with room for a frame.
    pub fn new(alloc: Global) -> Result<WriteBuffer, AllocError>
        ensures { IfOk result (λ o. o ≡ []) }
    {
        let octets = Vec::with_capacity(alloc, usize::from(LONGEST) + AROUND)?;
        Ok(WriteBuffer { octets, written: 0 })
    }

    /// Puts in the octets of a frame, between two flags. Requires that the buffer is empty and that the information is at most 1024
    /// octets. A kind other than UIH has no information (27.010, 5.2.1.4), and none is written. Takes no memory.
    pub fn put(&mut self, frame: FrameView<'_>)
        requires none { self.old ≡ [] }
        requires short { length frame.info.now ≤ 1024 }
        ensures some { self.new ≢ [] }
        ensures octets { length (frame_of frame.entry).info ≤ most_info 1024 (frame_of frame.entry).kind
            → self.new ≡ spelled (frame_of frame.entry) }
    {
        let info = match frame.kind {
            Kind::Uih => frame.info,
            _ => &[],
        };
        self.octets.clear();
        self.written = 0;
        let _ = write_frame(FrameView { info, ..frame }, LONGEST, &mut self.octets);
    }

    /// Whether the line has taken all octets.
    pub fn is_empty(&self) -> bool
        ensures { result ≡ (length self.now == 0) }
    {
        self.written == self.octets.len()
    }

    /// The octets, lent.
    pub fn as_slice(&self) -> &[u8]
        ensures { result.now ≡ self.now }
    {
        &self.octets[self.written..]
    }

    /// Drops the first `count` octets, which the line took.
    pub fn pass(&mut self, count: usize)
        requires { count ≤ length self.old }
        ensures { self.new ≡ drop count self.old }
    {
        self.written += count;
    }
}
