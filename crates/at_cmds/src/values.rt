//! Numbers and texts that a parameter has.
ghost use Rattle.std.specs.Prelude.{◌≡◌, ◌^◌, ◌<◌, ◌≤◌, length, IsTrue, option_map};
ghost use Rattle.std.specs.List.{list_all};
ghost use Rattle.std.specs.Char.{is_ascii_hexdigit, digit_value};
ghost use Rattle.at_cmds.specs.Params.{number_of, quoted_of, unquoted, hex_of, cell_code_of, hexadecimal, optional};

use at_text::octets::{all_digits, skip_blanks, value_of};

/// A number: after any blanks 1 to 3 digits, at most 255.
#[tactic(auto, unfolding(crate::specs::Params::number_of))]
pub(crate) fn number_of(param: &[u8]) -> Option<u8>
    ensures { result ≡ number_of param.now }
{
    let digits = skip_blanks(param);
    if !all_digits(digits) || digits.is_empty() || digits.len() > 3 {
        return None;
    }
    u8::try_from(value_of(digits)).ok()
}

/// A quoted text: a text without quotes between two quotes.
#[tactic(auto, unfolding(crate::specs::Params::unquoted))]
pub(crate) fn unquoted(quoted: &[u8]) -> Option<&[u8]>
    ensures { option_map (λ text. text.now) result ≡ unquoted quoted.now }
{
    let inner = quoted.strip_prefix(b"\"")?.strip_suffix(b"\"")?;
    if inner.contains(&b'"') {
        return None;
    }
    Some(inner)
}

/// A quoted text after any blanks.
pub(crate) fn quoted_of(param: &[u8]) -> Option<&[u8]>
    ensures { option_map (λ text. text.now) result ≡ quoted_of param.now }
{
    unquoted(skip_blanks(param))
}

/// The number that 1 to 8 hexadecimal digits spell, in either case.
#[tactic(auto, unfolding(crate::specs::Params::hex_of))]
fn hex_of(digits: &[u8]) -> Option<u32>
    ensures { result ≡ hex_of digits.now }
{
    if !all_hex(digits) || digits.is_empty() || digits.len() > 8 {
        return None;
    }
    Some(hex_value_of(digits))
}

fn all_hex(text: &[u8]) -> bool
    ensures { result ≡ list_all is_ascii_hexdigit text.now }
{
    text.iter().all(|octet| octet.is_ascii_hexdigit())
}

fn hex_value_of(digits: &[u8]) -> u32
    requires digits { IsTrue (list_all is_ascii_hexdigit digits.now) }
    requires short { length digits.now ≤ 8 }
    ensures { result ≡ hexadecimal digits.now }
{
    let mut value = 0;
    for digit in digits {
        value = value * 16 + hex_digit(*digit);
    }
    value
}

fn hex_digit(octet: u8) -> u32
    requires { IsTrue (is_ascii_hexdigit octet) }
    ensures value { result ≡ digit_value octet }
    ensures small { result < 16 }
{
    let value = match octet {
        b'0'..=b'9' => octet - b'0',
        b'A'..=b'F' => octet - b'A' + 10,
        _ => octet - b'a' + 10,
    };
    u32::from(value)
}

/// A location area code or a cell: a quoted text of 1 to 8 hexadecimal digits.
#[tactic(auto, unfolding(crate::specs::Params::cell_code_of))]
fn cell_code_of(param: &[u8]) -> Option<u32>
    ensures { result ≡ cell_code_of param.now }
{
    hex_of(quoted_of(param)?)
}

/// A location area code or a cell, or nothing at all.
pub(crate) fn optional_cell_code(param: &[u8]) -> Option<Option<u32>>
    ensures { result ≡ optional cell_code_of param.now }
{
    if param.is_empty() {
        return Some(None);
    }
    Some(Some(cell_code_of(param)?))
}

/// A number, or nothing at all.
pub(crate) fn optional_number(param: &[u8]) -> Option<Option<u8>>
    ensures { result ≡ optional number_of param.now }
{
    if param.is_empty() {
        return Some(None);
    }
    Some(Some(number_of(param)?))
}
