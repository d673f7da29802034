//! Final codes.
ghost use Rattle.std.specs.Prelude.{◌≡◌};
ghost use Rattle.at_text.specs.Finals.{final_of};

use crate::octets::number_in;

/// What a final code says (V.250, 5.7.1; 27.007, 9.2).
#[derive(Clone, Copy, PartialEq, Eq, Debug)]
pub enum Final {
    /// `OK`.
    Good,
    /// `ERROR`.
    Error,
    /// `+CME ERROR:`. It has its number where behind the colon stand any blanks, then 1 to 9 digits, and nothing else.
    Cme(Option<u32>),
    /// A final code of a dialect's own: the place of its rule among the dialect's final rules, from 0.
    Named(u8),
}

const CME: &[u8] = b"+CME ERROR:";

/// What a line says, if it is a final code: the last line of an answer.
pub fn final_of(line: &[u8]) -> Option<Final>
    ensures { result ≡ final_of line.now }
{
    match line {
        b"OK" => Some(Final::Good),
        b"ERROR" => Some(Final::Error),
        [b'+', b'C', b'M', ..] if line.starts_with(CME) => {
            Some(Final::Cme(number_in(&line[CME.len()..])))
        }
        _ => None,
    }
}
