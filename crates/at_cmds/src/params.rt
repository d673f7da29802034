//! The parameters of a line, between its commas.
ghost use Rattle.std.specs.Prelude.{◌≡◌, [], ◌∷◌, option_map, MatchOption};
ghost use Rattle.at_cmds.specs.Params.{parameters, parameters_behind, EndsAt};

/// The first parameter of a text, and what follows the comma behind it, if there is one. A comma in quotes ends no parameter.
pub(crate) fn first_param(text: &[u8]) -> (&[u8], Option<&[u8]>)
    ensures { parameters text.now
        ≡ result.0.now ∷ parameters_behind (option_map (λ rest. rest.now) result.1) }
{
    match param_end(text) {
        Some(end) => (&text[..end], Some(&text[end + 1..])),
        None => (text, None),
    }
}

/// The place of the first comma that stands outside quotes.
#[tactic(auto, using(crate::proofs::values_read::Parameters::begun, crate::proofs::values_read::Parameters::passed, crate::proofs::values_read::Parameters::ended))]
fn param_end(text: &[u8]) -> Option<usize>
    ensures { MatchOption result (parameters text.now ≡ text.now ∷ []) (λ end. EndsAt text.now end) }
{
    let mut is_quoted = false;
    for (i, octet) in text.iter().enumerate() {
        match *octet {
            b',' if !is_quoted => return Some(i),
            b'"' => is_quoted = !is_quoted,
            _ => {}
        }
    }
    None
}
