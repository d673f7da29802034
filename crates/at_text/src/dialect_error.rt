//! Why a dialect refused a rule.
use std::alloc::{AllocError, AllocFailed};
use thiserror::Error;

/// Why a dialect refuses a rule.
#[derive(Clone, Copy, Debug, PartialEq, Eq, Error)]
pub enum DialectError {
    /// 1: it has 64 rules already.
    #[error("a dialect has at most 64 rules of its own")]
    TooManyRules,
    /// 2: the rule's text is empty.
    #[error("a rule has a text")]
    NoText,
    /// 3: the rule's text has more than 64 octets.
    #[error("the text of a rule has at most 64 octets")]
    TextTooLong,
    /// 4: the rule's text has CR or LF, which end a line.
    #[error("the text of a rule has neither CR nor LF")]
    LineEnd,
    /// 5: the rule's name doesn't have 1 to 64 octets 21 to 7E hex.
    #[error("the name of a rule has 1 to 64 printable octets and no blanks")]
    BadName,
    /// 6: a line of the rule begins with `AT` or `at`, and may be the echo of a command.
    #[error("a line of the rule could be the echo of a command")]
    Command,
    /// 7: with the rule some line would end an answer and be unsolicited.
    #[error("some line would both end an answer and be unsolicited")]
    Ambiguous,
    /// 8: memory was refused.
    #[error("out of memory")]
    NoMemory,
}

impl DialectError {
    ghost use Rattle.std.specs.Prelude.{◌≡◌};
    ghost use Rattle.at_text.specs.Refusals.{dialect_error_number};

    /// The number of this refusal.
    pub fn number(self) -> u8
        ensures { result ≡ dialect_error_number self }
    {
        match self {
            DialectError::TooManyRules => 1,
            DialectError::NoText => 2,
            DialectError::TextTooLong => 3,
            DialectError::LineEnd => 4,
            DialectError::BadName => 5,
            DialectError::Command => 6,
            DialectError::Ambiguous => 7,
            DialectError::NoMemory => 8,
        }
    }
}

impl From<AllocError> for DialectError {
    ghost use Rattle.std.specs.Prelude.{◌≡◌};
    ghost use Rattle.at_text.specs.declared.dialect_error.DialectError.TheVariants.{NoMemory};

    ghost from_gives = { λ _ e. e ≡ NoMemory };

    fn from(_refused: AllocError) -> DialectError {
        DialectError::NoMemory
    }
}
