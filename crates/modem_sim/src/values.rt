//! Lines about the values that commands take, and how errors are told.
ghost use Rattle.std.specs.Prelude.{◌≡◌, ◌++◌, codes, map, IfOk, OnOk};
ghost use Rattle.std.specs.Fmt.{decimal};
ghost use Rattle.modem_sim.specs.SettingTexts.{form_texts, network_text};
ghost use Rattle.modem_sim.specs.Steps.{line_of};

use crate::wording::push_text;
use crate::words::Form;
use at_text::AnswerLine;
use std::alloc::{AllocError, Global};

/// How errors are told (27.007, 9.1).
pub(crate) fn errors_line(alloc: Global, errors: u8) -> Result<Vec<u8>, AllocError>
    ensures { IfOk result (λ text. text.items ≡ codes "+CMEE: " ++ decimal errors) }
{
    Ok(format!(in alloc; "+CMEE: {errors}")?.into_bytes())
}

/// The network that there is (27.007, 7.3).
fn network_line(registered: bool) -> &'static str
    ensures { result.now ≡ network_text registered }
{
    if registered {
        "+COPS: (2,\"Network 00101\",\"N00101\",\"00101\",7),,(0-3),(0-2)"
    } else {
        "+COPS: (1,\"Network 00101\",\"N00101\",\"00101\",7),,(0-3),(0-2)"
    }
}

/// Writes the values that a command takes behind other lines, where they are named.
pub(crate) fn push_forms(
    alloc: Global,
    registered: bool,
    form: Form,
    answer: &mut Vec<AnswerLine>,
) -> Result<(), AllocError>
    ensures { OnOk result (answer.new.items ≡ answer.old.items ++ map line_of (form_texts registered form)) }
{
    match form {
        Form::Unnamed => Ok(()),
        Form::Operators => push_text(alloc, network_line(registered), answer),
        Form::Strength => push_text(alloc, "+CSQ: (0-31,99),(0-7,99)", answer),
        Form::Errors => push_text(alloc, "+CMEE: (0-2)", answer),
        Form::Attachment => push_text(alloc, "+CGATT: (0,1)", answer),
        Form::DataState => push_text(alloc, "+CGDATA: (\"PPP\")", answer),
        Form::Multiplexer => push_text(
            alloc,
            "+CMUX: (0),(0),(1-8),(31-32767),(1-255),(0-100),(2-255),(1-255)",
            answer,
        ),
    }
}
