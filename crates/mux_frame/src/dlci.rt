//! Numbers of connections (27.010, 5.2.1.2).
ghost use Rattle.std.specs.Prelude.{◌≡◌, ◌<◌, ◌↔◌, IsSome, IfSome};

/// The number of a connection, 0 to 61 (27.010, 5.2.1.2 and 5.6). 0 is the control channel.
#[derive(Clone, Copy, PartialEq, Eq, Debug)]
pub struct Dlci {
    pub number: u8,
    pub ghost in_range: { number < 62 },
}

impl Dlci {
    /// How many connections there are, the control channel among them.
    pub const COUNT: usize = 62;

    /// The control channel (27.010, 5.6).
    pub const CONTROL: Dlci = Dlci { number: 0 };

    /// The connection of this number; `None` unless it is 0 to 61.
    pub fn new(number: u8) -> Option<Dlci>
        ensures some { IsSome result ↔ (number < 62) }
        ensures number { IfSome result (λ dlci. dlci.number ≡ number) }
    {
        if number < 62 {
            Some(Dlci { number })
        } else {
            None
        }
    }

    /// Its number, 0 to 61.
    pub fn number(self) -> u8
        ensures number { result ≡ self.number }
        ensures in_range { result < 62 }
    {
        self.number
    }
}
