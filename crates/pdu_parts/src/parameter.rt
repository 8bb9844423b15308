//! Parameters: code, length and value (X.233, options part; X.224, variable part; ISO 9542, options).

ghost use Rattle.std.specs.Prelude.{◌≡◌, ◌==◌, length, option_map};
ghost use Rattle.pdu_parts.specs.Lent.{parameter_of};
ghost use Rattle.pdu_parts.specs.Parameter.{front_parameter, left_in};

/// A parameter: `code, length, value` in the octets.
#[derive(Clone, Copy, Debug, PartialEq, Eq)]
pub struct ParameterRef<'a> {
    /// The parameter code.
    pub code: u8,
    /// The parameter value.
    pub value: &'a [u8],
}

/// The parameter at the front of the octets, and the octets after it. None exactly where none stands there whole.
pub fn split_parameter(octets: &[u8]) -> Option<(ParameterRef<'_>, &[u8])>
    ensures { option_map (λ x. (parameter_of x.0, x.1.now)) result ≡ front_parameter octets.now }
{
    match octets {
        [code, length, rest @ ..] if usize::from(*length) <= rest.len() => {
            let (value, after) = rest.split_at(usize::from(*length));
            Some((ParameterRef { code: *code, value }, after))
        }
        _ => None,
    }
}

/// Whether the octets are parameters one after another, with nothing left behind them.
pub fn are_parameters(octets: &[u8]) -> bool
    ensures { result ≡ (length (left_in octets.now) == 0) }
{
    let mut rest = octets;
    while let Some((_, after)) = split_parameter(rest) {
        rest = after;
    }
    rest.is_empty()
}
