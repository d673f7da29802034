//! Rules of the dialects that come ready.
ghost use Rattle.std.specs.Prelude.{◌≡◌, IfOk};
ghost use Rattle.at_text.specs.KnownRules.{common, dialling};

use crate::rules::{Form, Pattern, Urc, push_pattern, push_urc};
use std::alloc::{AllocError, Global};

/// The final codes of `Dialect::common`.
pub(crate) fn common_finals(alloc: Global) -> Result<Vec<Pattern>, AllocError>
    ensures { IfOk result (λ finals. finals.items ≡ common.finals) }
{
    let mut finals = Vec::new(alloc);
    push_pattern(&mut finals, Form::Prefix, b"+CMS ERROR:")?;
    Ok(finals)
}

/// The final codes of `Dialect::dialling`.
pub(crate) fn dialling_finals(alloc: Global) -> Result<Vec<Pattern>, AllocError>
    ensures { IfOk result (λ finals. finals.items ≡ dialling.finals) }
{
    let mut finals = common_finals(alloc)?;
    push_pattern(&mut finals, Form::Line, b"NO CARRIER")?;
    push_pattern(&mut finals, Form::Line, b"BUSY")?;
    push_pattern(&mut finals, Form::Line, b"NO ANSWER")?;
    push_pattern(&mut finals, Form::Line, b"NO DIALTONE")?;
    Ok(finals)
}

/// The unsolicited lines of both.
pub(crate) fn common_urcs(alloc: Global) -> Result<Vec<Urc>, AllocError>
    ensures { IfOk result (λ urcs. urcs.items ≡ common.urcs) }
{
    let mut urcs = Vec::new(alloc);
    push_urc(&mut urcs, 0, b"CEREG", Form::OpenReport, b"+CEREG:")?;
    push_urc(&mut urcs, 1, b"C5GREG", Form::OpenReport, b"+C5GREG:")?;
    push_urc(&mut urcs, 2, b"CMTI", Form::Prefix, b"+CMTI:")?;
    push_urc(&mut urcs, 3, b"CDSI", Form::Prefix, b"+CDSI:")?;
    push_urc(&mut urcs, 4, b"CLIP", Form::Quoted, b"+CLIP:")?;
    push_urc(&mut urcs, 5, b"CCWA", Form::Quoted, b"+CCWA:")?;
    push_urc(&mut urcs, 6, b"CTZV", Form::Prefix, b"+CTZV:")?;
    push_urc(&mut urcs, 7, b"CTZE", Form::Prefix, b"+CTZE:")?;
    Ok(urcs)
}
