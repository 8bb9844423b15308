//! The fixed part of a header: references, numbers, credits and classes (X.224, encoding of TPDUs).

ghost use Rattle.std.specs.Prelude.{◌≡◌, ◌==◌, ◌≤◌, ◌+◌, ◌/◌, ◌∷◌, ◌++◌, [], length, Some, OnOk, unwrap_or};
ghost use Rattle.std.specs.List.{list_any};
ghost use Rattle.pdu_parts.specs.Number.{number_at, two_octets};
ghost use Rattle.tpdu.specs.Faults.{format_at};
ghost use Rattle.tpdu.specs.Kinds.{number_count};
ghost use Rattle.tpdu.specs.Values.{quad_at, number_of, is_last, class_format, destination_of, format_for};
ghost use Rattle.tpdu.specs.Writing.{class_for, credit_for, fixed_for, number_for};

use crate::kind::Kind;
use crate::{Format, Tpdu};
use pdu_parts::push_number;
use std::alloc::AllocError;

/// The top bit of a number of one octet: a transport unit ends here.
const LAST: u8 = 0x80;

/// The top bit of a number of four octets.
const EXTENDED_LAST: u32 = 0x8000_0000;

/// The class of these TPDUs, in the high half of its octet.
const CLASS: u8 = 4;

/// The class octet of normal formats: class 4.
const NORMAL_CLASS: u8 = 0x40;

/// The class octet of extended formats.
const EXTENDED_CLASS: u8 = 0x42;

/// The number of a DT, ED, AK or EA, and its top bit.
#[derive(Clone, Copy)]
pub struct Numbered {
    pub last: bool,
    pub number: u32,
}

/// The number of two octets.
pub fn number_at(octets: &[u8], at: usize) -> u16
    requires { at + 2 ≤ length octets.now }
    ensures { result ≡ number_at at octets.now }
{
    u16::from_be_bytes([octets[at], octets[at + 1]])
}

/// The number of four octets.
fn quad_at(octets: &[u8], at: usize) -> u32
    requires { at + 4 ≤ length octets.now }
    ensures { result ≡ quad_at at octets.now }
{
    u32::from_be_bytes([octets[at], octets[at + 1], octets[at + 2], octets[at + 3]])
}

/// The number behind the destination reference.
pub fn numbered_at(format: Format, fixed: &[u8]) -> Numbered
    requires { 2 + number_count format ≤ length fixed.now }
    ensures number { result.number ≡ number_of format fixed.now }
    ensures last { result.last ≡ is_last format fixed.now }
{
    match format {
        Format::Normal => Numbered {
            last: LAST <= fixed[2],
            number: u32::from(fixed[2] % LAST),
        },
        Format::Extended => {
            let number = quad_at(fixed, 2);
            Numbered {
                last: EXTENDED_LAST <= number,
                number: number % EXTENDED_LAST,
            }
        }
    }
}

/// Whether the class octet has class 4; its low half does not matter.
pub fn has_class(octet: u8) -> bool
    ensures { result ≡ (octet / 16 == 4) }
{
    octet / 16 == CLASS
}

/// The format that a class octet asks for.
pub fn class_format(octet: u8) -> Format
    ensures { result ≡ class_format octet }
{
    if octet / 2 % 2 == 1 {
        Format::Extended
    } else {
        Format::Normal
    }
}

/// The format of a TPDU by the header behind its code: extended where the destination reference is
/// listed. A CR has no such reference.
pub fn format_at(extended: &[u16], kind: Kind, fields: &[u8]) -> Format
    ensures { result ≡ format_at extended.now kind fields.now }
{
    match (kind, fields) {
        (Kind::Cr, _) => Format::Normal,
        (_, [high, low, ..]) => format_for(extended, u16::from_be_bytes([*high, *low])),
        _ => Format::Normal,
    }
}

fn format_for(extended: &[u16], destination: u16) -> Format
    ensures { result ≡ format_for extended.now (Some destination) }
{
    if is_listed(extended, destination) {
        Format::Extended
    } else {
        Format::Normal
    }
}

fn is_listed(extended: &[u16], destination: u16) -> bool
    ensures { result ≡ list_any (λ reference. reference == destination) extended.now }
{
    extended.iter().any(|reference| *reference == destination)
}

fn class_octet(format: Format) -> u8
    ensures { result ≡ class_for format }
{
    match format {
        Format::Normal => NORMAL_CLASS,
        Format::Extended => EXTENDED_CLASS,
    }
}

/// Appends a number of 7 bits in one octet, or of 31 in four, with its top bit.
fn push_numbered(
    out: &mut Vec<u8>,
    format: Format,
    last: bool,
    number: u32,
) -> Result<(), AllocError>
    ensures { OnOk result (out.new.items ≡ out.old.items ++ number_for format last number) }
{
    match format {
        Format::Normal => {
            let top = if last { LAST } else { 0 };
            out.push((number % u32::from(LAST)) as u8 + top)?;
        }
        Format::Extended => {
            let top = if last { EXTENDED_LAST } else { 0 };
            out.extend_from_slice(&(number % EXTENDED_LAST + top).to_be_bytes())?;
        }
    }
    Ok(())
}

/// Appends the credit of an AK that does not stand in its code octet.
fn push_credit(out: &mut Vec<u8>, format: Format, credit: u16) -> Result<(), AllocError>
    ensures { OnOk result (out.new.items ≡ out.old.items ++ credit_for format credit) }
{
    match format {
        Format::Normal => Ok(()),
        Format::Extended => push_number(out, credit),
    }
}

/// Appends a source reference and an octet: a class, or a reason.
fn push_source(out: &mut Vec<u8>, source: u16, octet: u8) -> Result<(), AllocError>
    ensures { OnOk result (out.new.items ≡ out.old.items ++ (two_octets source ++ octet ∷ [])) }
{
    push_number(out, source)?;
    Ok(out.push(octet)?)
}

/// Appends the fixed part behind the code.
pub fn push_fixed(out: &mut Vec<u8>, tpdu: &Tpdu, format: Format) -> Result<(), AllocError>
    ensures { OnOk result (out.new.items ≡ out.old.items ++ fixed_for format tpdu.now) }
{
    push_number(out, destination_of(tpdu))?;
    match tpdu {
        Tpdu::Cr { source, format, .. } | Tpdu::Cc { source, format, .. } => {
            push_source(out, *source, class_octet(*format))
        }
        Tpdu::Dr { source, reason, .. } => push_source(out, *source, *reason),
        Tpdu::Dc { source, .. } => push_number(out, *source),
        Tpdu::Dt { last, number, .. } | Tpdu::Ed { last, number, .. } => {
            push_numbered(out, format, *last, *number)
        }
        Tpdu::Ak { number, credit, .. } => {
            push_numbered(out, format, false, *number)?;
            push_credit(out, format, *credit)
        }
        Tpdu::Ea { number, .. } => push_numbered(out, format, false, *number),
        Tpdu::Er { cause, .. } => Ok(out.push(*cause)?),
    }
}

/// The destination reference; 0 in a CR, which has none.
fn destination_of(tpdu: &Tpdu) -> u16
    ensures { result ≡ unwrap_or (destination_of tpdu.now) 0 }
{
    match tpdu {
        Tpdu::Cr { .. } => 0,
        Tpdu::Cc { destination, .. }
        | Tpdu::Dr { destination, .. }
        | Tpdu::Dc { destination, .. }
        | Tpdu::Dt { destination, .. }
        | Tpdu::Ed { destination, .. }
        | Tpdu::Ak { destination, .. }
        | Tpdu::Ea { destination, .. }
        | Tpdu::Er { destination, .. } => *destination,
    }
}
