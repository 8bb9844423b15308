//! The parameters of a UD: code, length, value (X.234, variable part).

ghost use Rattle.std.specs.Prelude.{◌≡◌, ◌+◌, ◌<◌, ◌^◌, length, IfOk};
ghost use Rattle.pdu_parts.specs.Lent.{parameter_of};
ghost use Rattle.pdu_parts.proofs.Readings.{Gives};
ghost use Rattle.cltp.specs.Parameters.{lengths_of, trouble};
ghost use Rattle.cltp.specs.steps.Reading.{checked, parameter_at, values_view, with_parameter};

use crate::fault::UdFault;
use pdu_parts::{ParameterRef, split_parameter};
use script_journal::UdCause;

/// Source transport selector.
pub const SOURCE: u8 = 0xc1;

/// Destination transport selector.
pub const DESTINATION: u8 = 0xc2;

/// Checksum.
pub const CHECKSUM: u8 = 0xc3;

/// The place of the first parameter.
const FIRST_PLACE: u32 = 3;

/// The least and the most octets of a value.
#[derive(Clone, Copy, Debug, PartialEq, Eq)]
pub struct Lengths {
    pub least: usize,
    pub most: usize,
}

/// The values that count: of each code the last. Of a checksum its place.
#[derive(Clone, Copy, Debug)]
pub struct ValuesRef<'a> {
    pub source: Option<&'a [u8]>,
    pub destination: Option<&'a [u8]>,
    pub sum: Option<u32>,
}

impl<'a> ValuesRef<'a> {
    /// The values with those of one parameter more, which begins at the place.
    fn with(self, parameter: &ParameterRef<'a>, place: u32) -> ValuesRef<'a>
        requires { place < 2 ^ 16 }
        ensures { values_view result ≡ with_parameter place (parameter_of parameter.now) (values_view self.entry) }
    {
        match parameter.code {
            SOURCE => ValuesRef {
                source: Some(parameter.value),
                ..self
            },
            DESTINATION => ValuesRef {
                destination: Some(parameter.value),
                ..self
            },
            CHECKSUM => ValuesRef {
                sum: Some(place + 2),
                ..self
            },
            _ => self,
        }
    }
}

/// The lengths of a parameter's value; None where the code is not known.
fn known_lengths(code: u8) -> Option<Lengths>
    ensures { result ≡ lengths_of code }
{
    match code {
        SOURCE | DESTINATION => Some(Lengths { least: 1, most: 32 }),
        CHECKSUM => Some(Lengths { least: 2, most: 2 }),
        _ => None,
    }
}

/// What is wrong with a parameter that fits.
fn trouble(parameter: &ParameterRef<'_>) -> Option<UdCause>
    ensures { result ≡ trouble (parameter_of parameter.now) }
{
    let Some(lengths) = known_lengths(parameter.code) else {
        return Some(UdCause::Unknown);
    };
    let count = parameter.value.len();
    if lengths.least <= count && count <= lengths.most {
        None
    } else {
        Some(UdCause::Param)
    }
}

/// The parameter at the front, which begins at the place, and the octets after it.
#[tactic(auto, unfolding(crate::specs::steps::Reading::parameter_at))]
fn parameter_at(place: u32, octets: &[u8]) -> Result<(ParameterRef<'_>, &[u8]), UdFault>
    ensures gives { Gives (λ x. (parameter_of x.0, x.1.now)) result (parameter_at place octets.now) }
    ensures count { IfOk result (λ x. length octets.now ≡ 2 + length x.0.value.now + length x.1.now) }
{
    let Some((parameter, rest)) = split_parameter(octets) else {
        return Err(UdFault::at(UdCause::Param, place));
    };
    match trouble(&parameter) {
        Some(cause) => Err(UdFault::at(cause, place)),
        None => Ok((parameter, rest)),
    }
}

/// The values of the parameters of a header.
pub fn check_parameters(octets: &[u8]) -> Result<ValuesRef<'_>, UdFault>
    requires { length octets.now < 2 ^ 15 }
    ensures { Gives values_view result (checked 3 octets.now) }
{
    let mut left = octets;
    let mut place = FIRST_PLACE;
    let mut values = ValuesRef {
        source: None,
        destination: None,
        sum: None,
    };
    while !left.is_empty() {
        let (parameter, rest) = parameter_at(place, left)?;
        values = values.with(&parameter, place);
        place += 2 + parameter.value.len() as u32;
        left = rest;
    }
    Ok(values)
}
