//! Parameters of a header: code, length, value (X.224, variable part).

ghost use Rattle.std.specs.Prelude.{◌≡◌, ◌==◌, ◌+◌, ◌<◌, ◌^◌, ◌≢◌, ◌∷◌, length, IfOk, Some, None, if◌then◌else◌};
ghost use Rattle.pdu_parts.specs.Lent.{parameter_of};
ghost use Rattle.pdu_parts.specs.Parameter.{parameters_in};
ghost use Rattle.pdu_parts.proofs.Readings.{Gives, GivesSome};
ghost use Rattle.tpdu.specs.Parameters.{lengths_in, lengths_of, sum_rows, size_of, preferred_of, number_in, has_sizes, trouble, last_value, octet_in, pair_in};
ghost use Rattle.tpdu.specs.steps.Reading.{checked, parameter_at};
ghost use Rattle.tpdu.specs.Values.{octet_under, pair_under, preferred, size, text};
ghost use Rattle.tpdu.specs.declared.kind.Kind.TheVariants as kinds;

use crate::fault::{TpduCause, TpduFault};
use crate::kind::Kind;
use pdu_parts::{ParameterRef, split_parameter};

/// Calling transport selector; in an ER the header of the rejected TPDU.
pub const CALLING: u8 = 0xc1;

/// Called transport selector.
pub const CALLED: u8 = 0xc2;

/// TPDU size.
pub const SIZE: u8 = 0xc0;

/// Preferred maximum TPDU size.
pub const PREFERRED: u8 = 0xf0;

/// Version number.
pub const VERSION: u8 = 0xc4;

/// Additional option selection.
pub const EXTRA: u8 = 0xc6;

/// Checksum.
pub const CHECKSUM: u8 = 0xc3;

/// Alternative protocol classes.
pub const CLASSES: u8 = 0xc7;

/// Acknowledgement time.
pub const ACK_TIME: u8 = 0x85;

/// Subsequence number.
pub const SUBSEQUENCE: u8 = 0x8a;

/// Flow control confirmation.
pub const CONFIRMATION: u8 = 0x8c;

/// Additional information on a release.
pub const INFO: u8 = 0xe0;

/// The least and the most octets of a value.
#[derive(Clone, Copy)]
pub struct Lengths {
    pub least: usize,
    pub most: usize,
}

/// The lengths of a parameter's value; None where the kind does not know the code.
fn known_lengths(kind: Kind, code: u8) -> Option<Lengths>
    ensures { result ≡ lengths_of kind code }
{
    match kind {
        Kind::Cr | Kind::Cc => connect_lengths(code),
        Kind::Dr => one_of(
            code,
            INFO,
            Lengths {
                least: 0,
                most: 255,
            },
        ),
        Kind::Ak => ack_lengths(code),
        Kind::Er => one_of(
            code,
            CALLING,
            Lengths {
                least: 0,
                most: 255,
            },
        ),
        Kind::Dc | Kind::Dt | Kind::Ed | Kind::Ea => sum_lengths(code),
    }
}

fn connect_lengths(code: u8) -> Option<Lengths>
    ensures { result ≡ lengths_of kinds.Cr code }
{
    match code {
        CALLING | CALLED => Some(Lengths { least: 0, most: 32 }),
        SIZE | VERSION | EXTRA => Some(Lengths { least: 1, most: 1 }),
        PREFERRED => Some(Lengths { least: 1, most: 4 }),
        CLASSES => Some(Lengths {
            least: 0,
            most: 255,
        }),
        ACK_TIME => Some(Lengths { least: 2, most: 2 }),
        _ => sum_lengths(code),
    }
}

fn ack_lengths(code: u8) -> Option<Lengths>
    ensures { result ≡ lengths_of kinds.Ak code }
{
    match code {
        SUBSEQUENCE => Some(Lengths { least: 2, most: 2 }),
        CONFIRMATION => Some(Lengths { least: 8, most: 8 }),
        _ => sum_lengths(code),
    }
}

/// The lengths in a kind that knows one parameter beside the checksum.
fn one_of(code: u8, known: u8, lengths: Lengths) -> Option<Lengths>
    requires { known ≢ 0xC3 }
    ensures { result ≡ lengths_in (record { code = known; least = lengths.least; most = lengths.most } ∷ sum_rows) code }
{
    if code == known {
        Some(lengths)
    } else {
        sum_lengths(code)
    }
}

fn sum_lengths(code: u8) -> Option<Lengths>
    ensures { result ≡ lengths_in sum_rows code }
{
    match code {
        CHECKSUM => Some(Lengths { least: 2, most: 2 }),
        _ => None,
    }
}

/// The size in octets that the value of a size parameter stands for.
pub fn size_of(value: &[u8]) -> Option<u16>
    ensures { result ≡ size_of value.now }
{
    match value {
        [0x07] => Some(128),
        [0x08] => Some(256),
        [0x09] => Some(512),
        [0x0a] => Some(1024),
        [0x0b] => Some(2048),
        [0x0c] => Some(4096),
        [0x0d] => Some(8192),
        _ => None,
    }
}

/// The number of one to four octets; 0 where there are none, or more.
fn number_in(value: &[u8]) -> u32
    ensures { result ≡ number_in value.now }
{
    match value {
        [a] => u32::from(*a),
        [a, b] => u32::from(*a) * 256 + u32::from(*b),
        [a, b, c] => u32::from(*a) * 65536 + (u32::from(*b) * 256 + u32::from(*c)),
        [a, b, c, d] => {
            (u32::from(*a) * 256 + u32::from(*b)) * 65536 + (u32::from(*c) * 256 + u32::from(*d))
        }
        _ => 0,
    }
}

/// The preferred size, in units of 128 octets, that the value of its parameter stands for.
pub fn preferred_of(value: &[u8]) -> Option<u32>
    ensures { result ≡ preferred_of value.now }
{
    match number_in(value) {
        0 => None,
        number => Some(number),
    }
}

/// Whether a size has a code, and a preferred size is a number of at least 1.
fn has_sizes(parameter: &ParameterRef<'_>) -> bool
    ensures { result ≡ has_sizes (parameter_of parameter.now) }
{
    (parameter.code != SIZE || size_of(parameter.value).is_some())
        && (parameter.code != PREFERRED || preferred_of(parameter.value).is_some())
}

/// What is wrong with a parameter that fits.
fn trouble(kind: Kind, parameter: &ParameterRef<'_>) -> Option<TpduCause>
    ensures { result ≡ trouble kind (parameter_of parameter.now) }
{
    let Some(lengths) = known_lengths(kind, parameter.code) else {
        return if kind.is_connect() {
            None
        } else {
            Some(TpduCause::Unknown)
        };
    };
    let count = parameter.value.len();
    let suits = lengths.least <= count && count <= lengths.most;
    if suits && has_sizes(parameter) {
        None
    } else {
        Some(TpduCause::Param)
    }
}

/// The parameter at the front, which begins at the place, and the octets after it.
#[tactic(auto, unfolding(crate::specs::steps::Reading::parameter_at))]
fn parameter_at(
    kind: Kind,
    place: u32,
    octets: &[u8],
) -> Result<(ParameterRef<'_>, &[u8]), TpduFault>
    ensures gives { Gives (λ x. (parameter_of x.0, x.1.now)) result (parameter_at kind place octets.now) }
    ensures count { IfOk result (λ x. length octets.now ≡ 2 + length x.0.value.now + length x.1.now) }
{
    let Some((parameter, rest)) = split_parameter(octets) else {
        return Err(TpduFault::at(TpduCause::Param, place));
    };
    match trouble(kind, &parameter) {
        Some(cause) => Err(TpduFault::at(cause, place)),
        None => Ok((parameter, rest)),
    }
}

/// The place of the value of the last checksum, where there is one. The first octet is at the place
/// `first`.
pub fn check_parameters(kind: Kind, first: u32, octets: &[u8]) -> Result<Option<u32>, TpduFault>
    requires { first + length octets.now < 2 ^ 16 }
    ensures { Gives (λ x. x) result (checked kind first octets.now) }
{
    let mut left = octets;
    let mut place = first;
    let mut sum = None;
    while !left.is_empty() {
        let (parameter, rest) = parameter_at(kind, place, left)?;
        sum = sum_place(&parameter, place).or(sum);
        place += 2 + parameter.value.len() as u32;
        left = rest;
    }
    Ok(sum)
}

/// The place of the value of a checksum that begins at the place.
fn sum_place(parameter: &ParameterRef<'_>, place: u32) -> Option<u32>
    requires { place < 2 ^ 16 }
    ensures { result ≡ (if parameter.now.code == 195 then Some (place + 2) else None) }
{
    if parameter.code == CHECKSUM {
        Some(place + 2)
    } else {
        None
    }
}

/// The value of the last parameter with this code; None where there is none.
pub fn last_value(octets: &[u8], code: u8) -> Option<&[u8]>
    ensures { GivesSome (λ value. value.now) result (last_value code (parameters_in octets.now)) }
{
    let mut left = octets;
    let mut found = None;
    while let Some((parameter, rest)) = split_parameter(left) {
        found = value_under(&parameter, code).or(found);
        left = rest;
    }
    found
}

/// The value of the parameter, where it has this code.
fn value_under<'a>(parameter: &ParameterRef<'a>, code: u8) -> Option<&'a [u8]>
    ensures { GivesSome (λ value. value.now) result (if parameter.now.code == code then Some parameter.now.value.now else None) }
{
    (parameter.code == code).then_some(parameter.value)
}

/// The last value with this code, empty where there is none.
pub fn text(octets: &[u8], code: u8) -> &[u8]
    ensures { result.now ≡ text code (parameters_in octets.now) }
{
    match last_value(octets, code) {
        Some(value) => value,
        None => &[],
    }
}

/// The last value with this code, of one octet.
pub fn octet_under(octets: &[u8], code: u8) -> Option<u8>
    ensures { result ≡ octet_under code (parameters_in octets.now) }
{
    match last_value(octets, code) {
        Some(value) => Some(octet_in(value)),
        None => None,
    }
}

/// The last value with this code, of two octets.
pub fn pair_under(octets: &[u8], code: u8) -> Option<u16>
    ensures { result ≡ pair_under code (parameters_in octets.now) }
{
    match last_value(octets, code) {
        Some(value) => Some(pair_in(value)),
        None => None,
    }
}

/// The size that the parameters name.
pub fn size(octets: &[u8]) -> Option<u16>
    ensures { result ≡ size (parameters_in octets.now) }
{
    match last_value(octets, SIZE) {
        Some(value) => size_of(value),
        None => None,
    }
}

/// The preferred size that the parameters name, in units of 128 octets.
pub fn preferred(octets: &[u8]) -> Option<u32>
    ensures { result ≡ preferred (parameters_in octets.now) }
{
    match last_value(octets, PREFERRED) {
        Some(value) => preferred_of(value),
        None => None,
    }
}

/// The octet of a value of one octet.
fn octet_in(value: &[u8]) -> u8
    ensures { result ≡ octet_in value.now }
{
    match value {
        [octet] => *octet,
        _ => 0,
    }
}

/// The number of a value of two octets.
fn pair_in(value: &[u8]) -> u16
    ensures { result ≡ pair_in value.now }
{
    match value {
        [high, low] => u16::from_be_bytes([*high, *low]),
        _ => 0,
    }
}
