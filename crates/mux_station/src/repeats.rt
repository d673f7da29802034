//! Counts of repeated frames and of ticks.
ghost use Rattle.std.specs.Prelude.{◌≡◌, ◌+◌, ◌<◌, ◌↔◌, IfSome, IsNone};

/// How often a SABM or DISC was sent again, or how many ticks came. At the fourth tick it is given up.
#[derive(Clone, Copy)]
pub(crate) struct Repeats {
    pub count: u8,
    pub ghost few: { count < 4 },
}

impl Repeats {
    pub fn none() -> Repeats
        ensures { result.count ≡ 0 }
    {
        Repeats { count: 0 }
    }

    /// One more, where this isn't the last.
    pub fn next(self) -> Option<Repeats>
        ensures last { IsNone result ↔ (self.count ≡ 3) }
        ensures more { IfSome result (λ r. r.count ≡ self.count + 1) }
    {
        if self.count == 3 {
            None
        } else {
            Some(Repeats {
                count: self.count + 1,
            })
        }
    }
}
