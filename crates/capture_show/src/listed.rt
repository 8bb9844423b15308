//! Lists in a field, with commas between their members: addresses and parameters.

ghost use Rattle.std.specs.Prelude.{◌≡◌, ◌++◌, ◌∷◌, [], OnOk, is_some, if◌then◌else◌};
ghost use Rattle.pdu_parts.specs.Lent.{parameter_of};
ghost use Rattle.pdu_parts.specs.Parameter.{parameters_in};
ghost use Rattle.clnp_options.specs.Options.{listed};
ghost use Rattle.esis_pdu.specs.Addresses.{addresses_in};
ghost use Rattle.tpdu.specs.Parameters.{lengths_of};
ghost use Rattle.capture_show.specs.Texts.{addresses_text, parameter_text, parameters_text};
ghost use Rattle.capture_show.specs.Tpdus.{known};
ghost use Rattle.capture_show.specs.steps.Written.{going_on};

use crate::address::show_nsap;
use crate::field::push_octets;
use clnp_options::OptionsRef;
use osi_base::NoMemory;
use pdu_parts::{ParameterRef, address_at, split_parameter};
use text_parts::{push, push_hex};
use tpdu::Kind;

/// Calling transport selector; in an ER the header of the rejected TPDU.
const CALLING: u8 = 0xc1;

/// Called transport selector.
const CALLED: u8 = 0xc2;

/// Preferred maximum TPDU size.
const PREFERRED: u8 = 0xf0;

/// TPDU size.
const SIZE: u8 = 0xc0;

/// Version number.
const VERSION: u8 = 0xc4;

/// Additional option selection.
const EXTRA: u8 = 0xc6;

/// Checksum.
const CHECKSUM: u8 = 0xc3;

/// Alternative protocol classes.
const CLASSES: u8 = 0xc7;

/// Acknowledgement time.
const ACK_TIME: u8 = 0x85;

/// Subsequence number.
const SUBSEQUENCE: u8 = 0x8a;

/// Flow control confirmation.
const CONFIRMATION: u8 = 0x8c;

/// Additional information on a release.
const INFO: u8 = 0xe0;

/// Appends so many addresses that stand behind their lengths.
pub fn push_addresses(count: u8, octets: &[u8], out: &mut Vec<u8>) -> Result<(), NoMemory>
    ensures { OnOk result (out.new.items ≡ out.old.items ++ addresses_text (addresses_in count octets.now)) }
{
    let mut left = octets;
    let mut some = false;
    for _ in 0..count {
        let Some(found) = address_at(left) else {
            return push_none(some, out);
        };
        push_comma(some, out)?;
        show_nsap(&found.0, out)?;
        some = true;
        left = found.1;
    }
    push_none(some, out)
}

/// Appends the options of a PDU.
pub fn push_options(options: &OptionsRef<'_>, out: &mut Vec<u8>) -> Result<(), NoMemory>
    ensures { OnOk result (out.new.items ≡ out.old.items ++ parameters_text (listed options.now)) }
{
    let mut some = false;
    for option in options.iter() {
        push_comma(some, out)?;
        push_parameter(&option, out)?;
        some = true;
    }
    push_none(some, out)
}

/// Appends the parameters of the octets.
pub fn push_parameters(octets: &[u8], out: &mut Vec<u8>) -> Result<(), NoMemory>
    ensures { OnOk result (out.new.items ≡ out.old.items ++ parameters_text (parameters_in octets.now)) }
{
    let mut left = octets;
    let mut some = false;
    while let Some((parameter, rest)) = split_parameter(left) {
        push_comma(some, out)?;
        push_parameter(&parameter, out)?;
        some = true;
        left = rest;
    }
    push_none(some, out)
}

/// Appends the parameters of the octets that a TPDU of this kind knows.
pub fn push_known(kind: Kind, octets: &[u8], out: &mut Vec<u8>) -> Result<(), NoMemory>
    ensures { OnOk result (out.new.items ≡ out.old.items ++ parameters_text (known kind (parameters_in octets.now))) }
{
    let mut left = octets;
    let mut some = false;
    while let Some((parameter, rest)) = split_parameter(left) {
        if knows(kind, parameter.code) {
            push_comma(some, out)?;
            push_parameter(&parameter, out)?;
            some = true;
        }
        left = rest;
    }
    push_none(some, out)
}

/// Whether a TPDU of this kind knows parameters of this code.
fn knows(kind: Kind, code: u8) -> bool
    ensures { result ≡ is_some (lengths_of kind code) }
{
    match kind {
        Kind::Cr | Kind::Cc => matches!(
            code,
            CALLING | CALLED | SIZE | PREFERRED | VERSION | EXTRA | CHECKSUM | CLASSES | ACK_TIME
        ),
        Kind::Dr => matches!(code, INFO | CHECKSUM),
        Kind::Ak => matches!(code, SUBSEQUENCE | CONFIRMATION | CHECKSUM),
        Kind::Er => matches!(code, CALLING | CHECKSUM),
        Kind::Dc | Kind::Dt | Kind::Ed | Kind::Ea => code == CHECKSUM,
    }
}

/// Appends a comma, where a member stands before.
fn push_comma(some: bool, out: &mut Vec<u8>) -> Result<(), NoMemory>
    ensures { OnOk result (out.new.items ≡ out.old.items ++ (if some then 44 ∷ [] else [])) }
{
    if some { push(b",", out) } else { Ok(()) }
}

/// Appends `-`, where no member stands before.
fn push_none(some: bool, out: &mut Vec<u8>) -> Result<(), NoMemory>
    ensures { OnOk result (out.new.items ≡ out.old.items ++ going_on some []) }
{
    if some { Ok(()) } else { push(b"-", out) }
}

/// Appends `code=value`.
fn push_parameter(parameter: &ParameterRef<'_>, out: &mut Vec<u8>) -> Result<(), NoMemory>
    ensures { OnOk result (out.new.items ≡ out.old.items ++ parameter_text (parameter_of parameter.now)) }
{
    push_hex(&[parameter.code], out)?;
    push(b"=", out)?;
    push_octets(parameter.value, out)
}
