//! A text is cut at an octet, and into lines.
ghost use Rattle.std.specs.Prelude.{◌≡◌, ℕ, ◌<◌, List, [], ◌∷◌, ◌++◌, length, IfSome, MatchOption};
ghost use Rattle.std.specs.Str.Iter.{LacksByte};
ghost use Rattle.ctl_text.specs.Input.{input_lines};
ghost use Rattle.ctl_text.specs.LineFaults.{behind_word, first_word};

use memchr::{memchr, memrchr};

/// The text before the first of these octets, and that behind it. `None` without one.
#[tactic(auto, using(crate::proofs::CutTexts::lacking, crate::proofs::CutTexts::cut_at))]
pub fn split_once(text: &[u8], octet: u8) -> Option<(&[u8], &[u8])>
    ensures { MatchOption result (LacksByte octet text.now)
        (λ parts. (LacksByte octet parts.0.now) × (text.now ≡ parts.0.now ++ octet ∷ parts.1.now)) }
{
    let place = memchr(octet, text)?;
    Some((&text[..place], &text[place + 1..]))
}

/// The text before the last of these octets, and that behind it. `None` without one.
#[tactic(auto, using(crate::proofs::CutTexts::lacking_last, crate::proofs::CutTexts::cut_last))]
pub fn split_last(text: &[u8], octet: u8) -> Option<(&[u8], &[u8])>
    ensures { MatchOption result (LacksByte octet text.now)
        (λ parts. (LacksByte octet parts.1.now) × (text.now ≡ parts.0.now ++ octet ∷ parts.1.now)) }
{
    let last = memrchr(octet, text)?;
    Some((&text[..last], &text[last + 1..]))
}

/// The first word of a text, and what stands behind the blank after it: nothing where no blank stands in the text.
pub fn first_word(text: &[u8]) -> (&[u8], &[u8])
    ensures word { result.0.now ≡ first_word text.now }
    ensures behind { result.1.now ≡ behind_word text.now }
{
    split_once(text, b' ').unwrap_or((text, &[]))
}

/// The first line that an LF ends, without its end, and the text behind it. `None` where no LF stands in the text: the
/// line may go on.
pub fn ended_line(text: &[u8]) -> Option<(&[u8], &[u8])>
    ensures cut { MatchOption result (LacksByte 10 text.now)
        (λ parts. (more : List ℕ) → input_lines (text.now ++ more) ≡ parts.0.now ∷ input_lines (parts.1.now ++ more)) }
    ensures shorter { IfSome result (λ parts. length parts.1.now < length text.now) }
{
    let (line, rest) = split_once(text, b'\n')?;
    Some((line.strip_suffix(b"\r").unwrap_or(line), rest))
}

/// The first line of a text, without its end, and the text behind it. `None` of an empty text.
pub fn next_line(text: &[u8]) -> Option<(&[u8], &[u8])>
    ensures cut { MatchOption result (text.now ≡ [])
        (λ parts. input_lines text.now ≡ parts.0.now ∷ input_lines parts.1.now) }
    ensures shorter { IfSome result (λ parts. length parts.1.now < length text.now) }
{
    if text.is_empty() {
        return None;
    }
    match ended_line(text) {
        Some(parts) => Some(parts),
        None => Some((text, &[])),
    }
}
