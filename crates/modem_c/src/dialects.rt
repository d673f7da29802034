//! Dialects that C keeps: which lines of a modem end an answer, and which are unsolicited.
mod adding;
mod handle;
mod kept;
mod making;

pub use kept::CimbalotyDialect;
