//! A line of an answer by itself.
ghost use Rattle.std.specs.Prelude.{◌≡◌, IfOk};

use crate::text::Text;
use std::alloc::AllocError;

/// One line of an answer, without its line end (V.250, 5.7.1).
#[derive(Drop, Debug, PartialEq, Eq)]
pub struct AnswerLine {
    /// Its octets. A reader keeps at most 512.
    pub text: Text,
}

impl AnswerLine {
    /// A copy of the line.
    pub fn copy(&self) -> Result<AnswerLine, AllocError>
        ensures { IfOk result (λ copy. copy ≡ self.now) }
    {
        let text = self.text.copy()?;
        Ok(AnswerLine { text })
    }
}
