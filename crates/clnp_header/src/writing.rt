//! Writing a PDU (X.233, structure of PDUs).

ghost use Rattle.std.specs.Prelude.{◌≡◌, ◌+◌, ◌<◌, ◌≤◌, ◌++◌, ◌↔◌, length, Err, IfOk, OnOk};
ghost use Rattle.pdu_parts.specs.Field.{IsAddress};
ghost use Rattle.pdu_parts.specs.Parameter.{spelled};
ghost use Rattle.clnp_header.specs.Grammar.{IsPdu, segment_part};
ghost use Rattle.clnp_header.specs.Values.{parameters};
ghost use Rattle.clnp_header.specs.Writing.{IsShort, IsTooLong, IsWritable, IsWritten, SealsIf, fixed_part_of, header_length as length_of_header, header_of, pdu_length, with_body};

use crate::flags::flags_octet;
use crate::pdu::{
    CHECKSUM, CLNP, FIXED_PART, LONGEST_HEADER, LONGEST_PDU, OwnOpt, Pdu, SegmentPart, VERSION,
};
use crate::reading::segment_length;
use lan_frame::HEADER;
use osi_base::{HeaderRefusal, fletcher_seal};
use pdu_parts::{push_field, push_number, push_parameter};
use std::alloc::{AllocError, Global};

/// The octets of the PDU: in the grammar where the grammar allows the value, and else its fields as they are.
///
/// A checksum in use has no octet that is 0. In an ER PDU the bits MS and E/R are 0. TooLong exactly where the header
/// passes 254 octets or the PDU 65,535.
pub fn write_pdu(alloc: Global, pdu: &Pdu) -> Result<Vec<u8>, HeaderRefusal>
    ensures ok { IfOk result (λ octets. IsWritable pdu.now → IsPdu octets.items pdu.now) }
    ensures written { IfOk result (λ octets. IsWritten pdu.now octets.items) }
    ensures length { IfOk result (λ octets. length octets.items ≡ pdu_length pdu.now) }
    ensures too_long { (result ≡ Err HeaderRefusal.TooLong) ↔ IsTooLong pdu.now }
{
    write_pdu_with(alloc, pdu, pdu.body.as_slice())
}

/// The octets of the PDU with these data in place of its own, as [`write_pdu`] gives them.
pub fn write_pdu_with(alloc: Global, pdu: &Pdu, body: &[u8]) -> Result<Vec<u8>, HeaderRefusal>
    ensures ok { IfOk result (λ octets. IsWritable (with_body pdu.now body.now) → IsPdu octets.items (with_body pdu.now body.now)) }
    ensures written { IfOk result (λ octets. IsWritten (with_body pdu.now body.now) octets.items) }
    ensures length { IfOk result (λ octets. length octets.items ≡ pdu_length (with_body pdu.now body.now)) }
    ensures too_long { (result ≡ Err HeaderRefusal.TooLong) ↔ IsTooLong (with_body pdu.now body.now) }
{
    let Some(header) = header_length(pdu) else {
        return Err(HeaderRefusal::TooLong);
    };
    if body.len() > LONGEST_PDU - header {
        return Err(HeaderRefusal::TooLong);
    }
    let whole = header + body.len();
    // The room behind the PDU is for the header of its frame, which then goes before it in place.
    let mut octets = Vec::with_capacity(alloc, whole + HEADER)?;
    push_header(&mut octets, pdu, header as u8, whole as u16)?;
    seal(&mut octets, pdu.checksum_used);
    octets.extend_from_slice(body)?;
    Ok(octets)
}

/// How many octets the header has. None exactly where it passes 254.
pub fn header_length(pdu: &Pdu) -> Option<usize>
    ensures { IsShort (length_of_header pdu.now) result }
{
    let destination = pdu.destination.octets().len();
    let source = pdu.source.octets().len();
    let before = FIXED_PART + 1 + destination + 1 + source + segment_length(&pdu.segment);
    length_with(before, pdu.options.as_slice())
}

/// The length with the options behind so many octets. None exactly where it passes 254.
fn length_with(before: usize, options: &[OwnOpt]) -> Option<usize>
    requires { before ≤ 254 }
    ensures { IsShort (before + length (spelled (parameters options.now))) result }
{
    let mut count = before;
    for option in options {
        let value = option.value.as_slice().len();
        let room = LONGEST_HEADER - count;
        if room < 2 || value > room - 2 {
            return None;
        }
        count += 2 + value;
    }
    Some(count)
}

/// Appends the header of so many octets of a PDU of so many, with a checksum that is not used.
fn push_header(octets: &mut Vec<u8>, pdu: &Pdu, header: u8, whole: u16) -> Result<(), AllocError>
    requires header { header ≡ length_of_header pdu.now }
    ensures parts { OnOk result (octets.new.items ≡ octets.old.items ++ header_of pdu.now whole) }
    ensures addresses { OnOk result (IsAddress pdu.now.destination × IsAddress pdu.now.source) }
{
    push_fixed_part(octets, pdu, header, whole)?;
    push_field(octets, pdu.destination.octets())?;
    push_field(octets, pdu.source.octets())?;
    push_segment(octets, &pdu.segment)?;
    push_options(octets, pdu.options.as_slice())
}

/// Appends the fixed part.
fn push_fixed_part(
    octets: &mut Vec<u8>,
    pdu: &Pdu,
    header: u8,
    whole: u16,
) -> Result<(), AllocError>
    requires header { header ≡ length_of_header pdu.now }
    ensures { OnOk result (octets.new.items ≡ octets.old.items ++ fixed_part_of pdu.now whole) }
{
    let [high, low] = whole.to_be_bytes();
    let flags = flags_octet(pdu.kind, &pdu.segment, pdu.report);
    let fixed = [CLNP, header, VERSION, pdu.lifetime, flags, high, low, 0, 0];
    octets.extend_from_slice(&fixed)
}

/// Appends the segmentation part, where there is one.
fn push_segment(octets: &mut Vec<u8>, segment: &Option<SegmentPart>) -> Result<(), AllocError>
    ensures { OnOk result (octets.new.items ≡ octets.old.items ++ segment_part segment.now) }
{
    let Some(part) = segment else {
        return Ok(());
    };
    push_number(octets, part.id)?;
    push_number(octets, part.offset)?;
    push_number(octets, part.total)
}

/// Appends the options, one after another.
fn push_options(octets: &mut Vec<u8>, options: &[OwnOpt]) -> Result<(), AllocError>
    requires { length (spelled (parameters options.now)) ≤ 255 }
    ensures { OnOk result (octets.new.items ≡ octets.old.items ++ spelled (parameters options.now)) }
{
    for option in options {
        push_parameter(octets, option.code, option.value.as_slice())?;
    }
    Ok(())
}

/// Writes the checksum of the header where it is used.
pub fn seal(header: &mut [u8], used: bool)
    requires least { 9 ≤ length header.old }
    requires most { length header.old ≤ 65535 }
    ensures { SealsIf used header.old header.new }
{
    if used {
        fletcher_seal(header, CHECKSUM);
    }
}
