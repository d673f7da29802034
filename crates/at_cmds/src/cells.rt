//! A registration's parameters.
ghost use Rattle.std.specs.Prelude.{◌≡◌, option_map};
ghost use Rattle.at_cmds.specs.Params.{parameters, parameters_behind};
ghost use Rattle.at_cmds.specs.Registrations.{registration_of, act_of};

use crate::params::first_param;
use crate::registration::Registration;
use crate::values::{number_of, optional_cell_code, optional_number};

/// A status and optionally a cell.
#[tactic(auto, unfolding(crate::specs::Registrations::registration_of))]
pub(crate) fn registration_in(text: &[u8]) -> Option<Registration>
    ensures { result ≡ registration_of (parameters text.now) }
{
    let (stat, rest) = first_param(text);
    let stat = number_of(stat)?;
    let Some(rest) = rest else {
        return Some(Registration {
            stat,
            lac: None,
            ci: None,
            act: None,
        });
    };
    let (lac, rest) = first_param(rest);
    let (ci, rest) = first_param(rest?);
    Some(Registration {
        stat,
        lac: optional_cell_code(lac)?,
        ci: optional_cell_code(ci)?,
        act: act_in(rest)?,
    })
}

/// The access technology behind a cell, if a comma follows the cell.
fn act_in(rest: Option<&[u8]>) -> Option<Option<u8>>
    ensures { result ≡ act_of (parameters_behind (option_map (λ text. text.now) rest.entry)) }
{
    match rest {
        Some(rest) => optional_number(first_param(rest).0),
        None => Some(None),
    }
}
