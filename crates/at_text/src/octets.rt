//! Blanks and numbers in lines.
ghost use Rattle.std.specs.Prelude.{◌≡◌, ◌≤◌, length, IsTrue};
ghost use Rattle.std.specs.List.{list_all};
ghost use Rattle.at_text.specs.Octets.{is_digit, skip_blanks as from_first, decimal, number_in as number_of};

/// The text without its leading blanks.
pub fn skip_blanks(text: &[u8]) -> &[u8]
    ensures { result.now ≡ from_first text.now }
{
    let mut rest = text;
    while let [b' ', more @ ..] = rest {
        rest = more;
    }
    rest
}

/// The number in a text that is any blanks, then 1 to 9 digits and nothing else.
pub(crate) fn number_in(text: &[u8]) -> Option<u32>
    ensures { result ≡ number_of text.now }
{
    let digits = skip_blanks(text);
    if !all_digits(digits) || digits.is_empty() || digits.len() > 9 {
        return None;
    }
    Some(value_of(digits))
}

/// Whether all are digits, 30 to 39 hex.
pub fn all_digits(text: &[u8]) -> bool
    ensures { result ≡ list_all is_digit text.now }
{
    text.iter().all(|octet| octet.is_ascii_digit())
}

/// The number that at most nine digits spell.
pub fn value_of(digits: &[u8]) -> u32
    requires digits { IsTrue (list_all is_digit digits.now) }
    requires short { length digits.now ≤ 9 }
    ensures { result ≡ decimal digits.now }
{
    let mut value = 0;
    for digit in digits {
        value = value * 10 + u32::from(digit - b'0');
    }
    value
}
