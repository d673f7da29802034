//! The words of a line: connections, and commands on them.
ghost use Rattle.std.specs.Prelude.{◌≡◌, ◌≢◌, ℕ, ◌<◌, ◌≤◌, IfErr, MatchOption, MatchResult};
ghost use Rattle.ctl_text.specs.LineFaults.{CommandFault, ConnectionFault, HasFault};
ghost use Rattle.ctl_text.specs.Words.{IsCommand, IsNoCommand, number_text};
ghost use Rattle.ctl_text.specs.declared.expected.Expected.TheVariants as Fault;
ghost use Rattle.ctl_text.specs.declared.refusal.Refusal.TheVariants as Refusal;

use crate::expected::Expected;
use crate::lines::first_word;
use crate::refusal::Refusal;
use at_text::CommandLine;
use mux_frame::Dlci;
use std::alloc::Global;

/// The number of a connection in decimal without leading zeros: 0 to 61.
fn dlci_of(word: &[u8]) -> Option<Dlci>
    ensures { MatchOption result ((n : ℕ) → n < 62 → word.now ≢ number_text n)
        (λ dlci. word.now ≡ number_text dlci.number) }
{
    let number = match word {
        [ones] if ones.is_ascii_digit() => *ones - b'0',
        [tens, ones] if *tens != b'0' && tens.is_ascii_digit() && ones.is_ascii_digit() => {
            10 * (*tens - b'0') + (*ones - b'0')
        }
        _ => return None,
    };
    Dlci::new(number)
}

/// The connection that a word is. Every other word is refused as bad.
pub fn connection_of(word: &[u8]) -> Result<Dlci, Refusal>
    ensures { MatchResult result
        (λ dlci. word.now ≡ number_text dlci.number)
        (λ why. (why ≡ Refusal.Bad Fault.Connection) × ((n : ℕ) → n < 62 → word.now ≢ number_text n)) }
{
    dlci_of(word).ok_or(Refusal::Bad(Expected::Connection))
}

/// The connection that these words are, the last of a line. Others are refused as bad.
pub fn last_connection(words: &[u8]) -> Result<Dlci, Refusal>
    ensures says { MatchResult result
        (λ dlci. words.now ≡ number_text dlci.number)
        (λ _. (n : ℕ) → n < 62 → words.now ≢ number_text n) }
    ensures fault { IfErr result (HasFault (ConnectionFault words.now)) }
{
    let (word, _) = first_word(words);
    let dlci = connection_of(word)?;
    if word.len() < words.len() {
        return Err(Refusal::Bad(Expected::End));
    }
    Ok(dlci)
}

/// The number of a connection that carries commands: 1 to 61.
fn carrier_of(word: &[u8]) -> Result<Dlci, Refusal>
    ensures { MatchResult result
        (λ dlci. (1 ≤ dlci.number) × (word.now ≡ number_text dlci.number))
        (λ why. (why ≡ Refusal.Bad Fault.Carrier) × ((n : ℕ) → 1 ≤ n → n < 62 → word.now ≢ number_text n)) }
{
    match dlci_of(word) {
        Some(dlci) if dlci.number() > 0 => Ok(dlci),
        _ => Err(Refusal::Bad(Expected::Carrier)),
    }
}

/// A connection that carries commands, one blank and a command line. Refusals: Bad, where the words are no such thing, with the
/// first part that isn't as it must be; NoMemory.
pub fn command_of(alloc: Global, words: &[u8]) -> Result<(Dlci, CommandLine), Refusal>
    ensures says { MatchResult result (λ r. IsCommand words.now r.0.number r.1)
        (λ why. why ≢ Refusal.NoMemory → IsNoCommand words.now) }
    ensures fault { IfErr result (HasFault (CommandFault words.now)) }
{
    let (word, text) = first_word(words);
    let dlci = carrier_of(word)?;
    let line = CommandLine::new(alloc, text)?;
    Ok((dlci, line))
}
