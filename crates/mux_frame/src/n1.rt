//! N1, the most octets of information (27.010, 5.7.2).
ghost use Rattle.std.specs.Prelude.{◌≡◌, ◌<◌, ◌≤◌, ◌↔◌, IfSome};
ghost use Rattle.std.specs.Option.{IsNone};
ghost use Rattle.mux_frame.specs.Spelling.{IsBadN1};

/// The most octets of information that a frame may have: 31 to 32767.
#[derive(Clone, Copy)]
pub struct N1 {
    pub octets: u16,
    pub ghost in_range: { (31 ≤ octets) × (octets ≤ 32767) },
}

impl N1 {
    /// The octets of N1 where none are given (27.007, 5.7).
    pub const DEFAULT: u16 = 31;

    /// N1 of so many octets; `None` unless they are 31 to 32767.
    pub fn new(octets: u16) -> Option<N1>
        ensures none { IsNone result ↔ IsBadN1 octets }
        ensures octets { IfSome result (λ n1. n1.octets ≡ octets) }
    {
        if octets < 31 || octets > 32767 {
            None
        } else {
            Some(N1 { octets })
        }
    }
}
