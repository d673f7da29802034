//! Command lines.
ghost use Rattle.std.specs.Prelude.{◌≡◌, ◌++◌, ◌∷◌, [], IfOk, MatchOption, MatchResult};
ghost use Rattle.std.specs.List.{list_all};
ghost use Rattle.at_text.specs.Commands.{refusal_of, has_at, is_printable};

use crate::error::TextError;
use smallvec::SmallVec;
use std::alloc::{AllocError, Global};
use std::marker::Model;

/// How many octets a command line has at most.
pub(crate) const COMMAND_LEN: usize = 256;

/// A command line of so many octets, its CR among them, takes no memory.
const SHORT: usize = 16;

/// A command line without its CR: `AT` or `at`, then octets 20 to 7E hex (V.250, 5.2.1).
#[derive(Drop)]
pub struct CommandLine {
    /// Its text and CR.
    octets: SmallVec<u8, SHORT>,
}

impl Model for CommandLine {
    ghost use Rattle.std.specs.Prelude.{◌≡◌, ℕ, List, None};
    ghost use Rattle.at_text.specs.Commands.{without_cr, IsEnded};

    ghost Value = { List ℕ };

    ghost view = { λ c. without_cr c.octets.items };

    ghost invariant = { λ c. IsEnded c.octets.items };
}

#[tactic(auto, using(crate::proofs::CommandTexts::refused_long, crate::proofs::CommandTexts::taken_unrefused, crate::proofs::CommandTexts::is_ended, crate::proofs::CommandTexts::text_ended))]
impl CommandLine {
    /// A command line of this text, given without its CR. Refused with the first that applies: 1 NoAt, 2 BadOctet, 3
    /// TooLong, 4 NoMemory.
    pub fn new(alloc: Global, text: &[u8]) -> Result<CommandLine, TextError>
        ensures { MatchOption (refusal_of text.now)
            (MatchResult result (λ line. line ≡ text.now) (λ why. why ≡ TextError.NoMemory))
            (λ why. result ≡ Err why) }
    {
        if !begins_with_at(text) {
            return Err(TextError::NoAt);
        }
        if !all_printable(text) {
            return Err(TextError::BadOctet);
        }
        if text.len() > COMMAND_LEN {
            return Err(TextError::TooLong);
        }
        let octets = ended(alloc, text)?;
        Ok(CommandLine { octets })
    }

    /// Its text, without CR.
    pub fn text(&self) -> &[u8]
        ensures text { result.now ≡ self.now }
        ensures form { refusal_of result.now ≡ None }
    {
        let octets = self.octets.as_slice();
        let (text, _) = octets.split_at(octets.len().saturating_sub(1));
        text
    }

    /// Its text and CR.
    pub fn with_cr(&self) -> &[u8]
        ensures { result.now ≡ self.now ++ 13 ∷ [] }
    {
        self.octets.as_slice()
    }

    /// A copy of the line.
    pub fn copy(&self) -> Result<CommandLine, AllocError>
        ensures { IfOk result (λ copy. copy ≡ self.now) }
    {
        let octets = SmallVec::from_slice(*self.octets.allocator(), self.octets.as_slice())?;
        Ok(CommandLine { octets })
    }
}

impl PartialEq for CommandLine {
    ghost use Rattle.std.specs.Str.{bytes_eq};
    ghost use Rattle.std.proofs.Common.{rules};
    ghost use Rattle.std.specs.Cmp.Rules.{comparing};

    ghost eq = { bytes_eq };

    ghost laws = { Prim.search (comparing, rules) };

    fn eq(&self, other: &CommandLine) -> bool {
        self.text() == other.text()
    }
}

impl Eq for CommandLine {
    ghost use Rattle.std.proofs.Common.{rules};
    ghost use Rattle.std.specs.Cmp.Rules.{comparing};

    ghost laws = { Prim.search (comparing, rules) };
}

/// A text and CR.
fn ended(alloc: Global, text: &[u8]) -> Result<SmallVec<u8, SHORT>, AllocError>
    ensures { IfOk result (λ octets. octets.items ≡ text.now ++ 13 ∷ []) }
{
    let mut octets = SmallVec::with_capacity(alloc, text.len() + 1)?;
    octets.extend_from_slice(text)?;
    octets.push(b'\r')?;
    Ok(octets)
}

fn begins_with_at(text: &[u8]) -> bool
    ensures { result ≡ has_at text.now }
{
    text.starts_with(b"AT") || text.starts_with(b"at")
}

fn all_printable(text: &[u8]) -> bool
    ensures { result ≡ list_all is_printable text.now }
{
    text.iter().all(|octet| (0x20..=0x7E).contains(octet))
}
