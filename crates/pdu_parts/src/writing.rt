//! Writing parameters, parts behind their length, and numbers.

ghost use Rattle.std.specs.Prelude.{◌≡◌, ◌<◌, ◌++◌, length, OnOk};
ghost use Rattle.pdu_parts.specs.Field.{field};
ghost use Rattle.pdu_parts.specs.Number.{two_octets};
ghost use Rattle.pdu_parts.specs.Parameter.{spelled_one};

use std::alloc::AllocError;

/// Appends a parameter: code, length, value. Memory is its only error.
pub fn push_parameter(octets: &mut Vec<u8>, code: u8, value: &[u8]) -> Result<(), AllocError>
    requires { length value.now < 256 }
    ensures { OnOk result (octets.new.items ≡ octets.old.items ++ spelled_one (record { code = code; value = value.now })) }
{
    octets.extend_from_slice(&[code, value.len() as u8])?;
    octets.extend_from_slice(value)
}

/// Appends a length and that many octets. Memory is its only error.
pub fn push_field(octets: &mut Vec<u8>, value: &[u8]) -> Result<(), AllocError>
    requires { length value.now < 256 }
    ensures { OnOk result (octets.new.items ≡ octets.old.items ++ field value.now) }
{
    octets.push(value.len() as u8)?;
    octets.extend_from_slice(value)
}

/// Appends a number in two octets, the higher one first. Memory is its only error.
pub fn push_number(octets: &mut Vec<u8>, number: u16) -> Result<(), AllocError>
    ensures { OnOk result (octets.new.items ≡ octets.old.items ++ two_octets number) }
{
    octets.extend_from_slice(&number.to_be_bytes())
}
