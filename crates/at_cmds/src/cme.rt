//! CME numbers and their texts.
ghost use Rattle.std.specs.Prelude.{◌≡◌, option_map};
ghost use Rattle.at_cmds.specs.Cme.{cme_text, cme_number, is_text_of};

/// The numbers that have a text here (27.007, 9.2.1 and 9.2.2).
const CME_NUMBERS: [u32; 14] = [0, 3, 4, 10, 11, 12, 13, 14, 15, 16, 30, 31, 32, 100];

/// The text of a CME number, as a modem writes it at CMEE 2 (27.007, 9.2). Most numbers have none here.
pub fn cme_text(number: u32) -> Option<&'static str>
    ensures { option_map (λ text. text.now) result ≡ cme_text number }
{
    let text = match number {
        0 => "phone failure",
        3 => "operation not allowed",
        4 => "operation not supported",
        10 => "SIM not inserted",
        11 => "SIM PIN required",
        12 => "SIM PUK required",
        13 => "SIM failure",
        14 => "SIM busy",
        15 => "SIM wrong",
        16 => "incorrect password",
        30 => "no network service",
        31 => "network timeout",
        32 => "network not allowed (emergency calls only)",
        100 => "unknown",
        _ => return None,
    };
    Some(text)
}

/// The number whose text this is.
#[tactic(auto, unfolding(crate::specs::Cme::cme_number))]
pub(crate) fn cme_number(text: &[u8]) -> Option<u32>
    ensures { result ≡ cme_number text.now }
{
    CME_NUMBERS
        .iter()
        .copied()
        .find(|number| is_text_of(*number, text))
}

fn is_text_of(number: u32, text: &[u8]) -> bool
    ensures { result ≡ is_text_of text.now number }
{
    match cme_text(number) {
        Some(words) => words.as_bytes() == text,
        None => false,
    }
}
