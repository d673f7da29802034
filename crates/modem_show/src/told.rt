//! What is told of the lines of a connection.
ghost use Rattle.std.specs.Prelude.{◌≡◌};
ghost use Rattle.at_text.specs.Rules.{dialect_of};
ghost use Rattle.modem_show.specs.Talking.{is_unprompted, line_of, overlaps};

use at_text::{Dialect, Seen, Text as Octets};

/// What is told of a line.
#[derive(Drop)]
pub enum Told {
    /// A command of the driver, and whether another one was under way.
    Command(Octets, bool),
    /// Another line of the driver.
    Text(Octets),
    /// A line of the modem, and what it is at its place.
    Line(Octets, Seen),
}

impl Told {
    /// The line, without its end, cut to 512 octets.
    pub fn line(&self) -> &[u8]
        ensures { result.now ≡ line_of self.now }
    {
        match self {
            Told::Command(line, _) => line.as_slice(),
            Told::Text(line) => line.as_slice(),
            Told::Line(line, _) => line.as_slice(),
        }
    }

    /// Whether it is a command while another one is under way.
    pub fn overlaps(&self) -> bool
        ensures { result ≡ overlaps self.now }
    {
        match self {
            Told::Command(_, under_way) => *under_way,
            _ => false,
        }
    }

    /// Whether it is a final code that answers no command.
    pub fn is_unprompted(&self, dialect: &Dialect) -> bool
        ensures { result ≡ is_unprompted (dialect_of dialect.now) self.now }
    {
        match self {
            Told::Line(line, Seen::Other) => dialect.is_final(line.as_slice()),
            _ => false,
        }
    }
}
