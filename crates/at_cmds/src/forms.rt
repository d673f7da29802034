//! The forms of values in commands (27.007, 8.3, 10.1.1; V.250, 5.4.2).
ghost use Rattle.std.specs.Prelude.{◌≡◌, ◌++◌, OnOk};
ghost use Rattle.at_cmds.specs.Forms.{numeral_in, cid_in, in_quotes, is_pin};

use at_text::octets::all_digits;
use std::alloc::AllocError;

/// The number that a numeral without leading zeros stands for, below 100.
#[tactic(auto, unfolding(crate::specs::Forms::numeral_in))]
pub fn numeral_in(text: &[u8]) -> Option<u8>
    ensures { result ≡ numeral_in text.now }
{
    match text {
        [low] if low.is_ascii_digit() => Some(low - b'0'),
        [high, low] if *high != b'0' && high.is_ascii_digit() && low.is_ascii_digit() => {
            Some((high - b'0') * 10 + (low - b'0'))
        }
        _ => None,
    }
}

/// The number of a context: 1 to 15, without leading zeros (27.007, 10.1.1).
pub fn cid_in(text: &[u8]) -> Option<u8>
    ensures { result ≡ cid_in text.now }
{
    let cid = numeral_in(text)?;
    if cid < 1 || cid > 15 {
        return None;
    }
    Some(cid)
}

/// Whether this is a PIN: 4 to 8 digits (27.007, 8.3).
pub fn is_pin(text: &[u8]) -> bool
    ensures { result ≡ is_pin text.now }
{
    all_digits(text) && text.len() >= 4 && text.len() <= 8
}

/// Writes a text between quotes behind other octets (V.250, 5.4.2.2). After an error nothing is said of what was written.
pub fn push_quoted(line: &mut Vec<u8>, text: &[u8]) -> Result<(), AllocError>
    ensures { OnOk result (line.new.items ≡ line.old.items ++ in_quotes text.now) }
{
    line.push(b'"')?;
    line.extend_from_slice(text)?;
    line.push(b'"')?;
    Ok(())
}
