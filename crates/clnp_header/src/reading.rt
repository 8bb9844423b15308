//! Reading a PDU, with its first fault (X.233, structure of PDUs).

ghost use Rattle.std.specs.Prelude.{◌≡◌, ◌+◌, ◌≤◌, ℕ, List, length, take, IfOk, IfErr, IsOkAnd};
ghost use Rattle.pdu_parts.specs.Front.{BeginsWith};
ghost use Rattle.pdu_parts.specs.Number.{number_at};
ghost use Rattle.pdu_parts.proofs.Readings.{Gives};
ghost use Rattle.clnp_options.specs.Options.{listed};
ghost use Rattle.clnp_header.specs.declared.pdu.Pdu.{Pdu};
ghost use Rattle.clnp_header.specs.Faults.{IsPduFault};
ghost use Rattle.clnp_header.specs.Grammar.{IsPdu};
ghost use Rattle.clnp_header.specs.Values.{value_of};
ghost use Rattle.clnp_header.specs.Writing.{header_length};
ghost use Rattle.clnp_header.specs.steps.Reading.{address_read, body_read, checksum_read, header_read, options_read, pdu_read, placed_read, segment_octets, segment_read};

use crate::fault::early;
use crate::flags::{Flags, flags_of};
use crate::pdu::{
    CLNP, FIXED_PART, LONGEST_HEADER, PduRef, SEGMENTATION_PART, SHORTEST_HEADER, SegmentPart,
    VERSION,
};
use clnp_options::{Fault, OptionsRef, Reason, read_options};
use nsap::Nsap;
use pdu_parts::{address_at, checksum_in};

/// The PDU at the front of the octets; octets past its segment length are ignored.
///
/// The first fault in the order of the header's fields. The header that is lent has the octets up to the data.
// Inlined at its few callers: a PDU is a large value, which is moved once less.
#[inline(always)]
pub fn read_pdu(octets: &[u8]) -> Result<PduRef<'_>, Fault>
    ensures ok { IfOk result (λ pdu. (rest : List ℕ) × BeginsWith IsPdu octets.now (value_of pdu) rest) }
    ensures header { IfOk result (λ pdu. pdu.header.now ≡ take (header_length (value_of pdu)) octets.now) }
    ensures only { (pdu : Pdu) (rest : List ℕ) → BeginsWith IsPdu octets.now pdu rest → IsOkAnd result (λ found. value_of found ≡ pdu) }
    ensures fault { IfErr result (λ fault. IsPduFault octets.now fault) }
{
    read(octets)
}

/// The PDU at the front of the octets, field by field.
#[tactic(auto, unfolding(crate::specs::steps::Reading::pdu_read))]
fn read(octets: &[u8]) -> Result<PduRef<'_>, Fault>
    ensures { Gives (λ pdu. (pdu.header.now, value_of pdu)) result (pdu_read octets.now) }
{
    let header = header_of(octets)?;
    let checksum_used = checksum_of(header)?;
    let flags = flags_of(header[4])?;
    let destination = address_of(header, FIXED_PART)?;
    let source_at = FIXED_PART + 1 + destination.octets().len();
    let source = address_of(header, source_at)?;
    let start = source_at + 1 + source.octets().len();
    let segment = segment_of(header, start, flags)?;
    let options = options_of(header, start + segment_length(&segment), flags)?;
    let body = body_of(octets, header.len(), flags)?;
    let whole = header.len() + body.len();
    check_placed(&segment, whole, start as u8 + 5, flags.report)?;
    Ok(PduRef {
        kind: flags.kind,
        destination,
        source,
        lifetime: header[3],
        checksum_used,
        report: flags.report,
        segment,
        options,
        header,
        body,
    })
}

/// The header, by its length indicator.
#[tactic(auto, unfolding(crate::specs::steps::Reading::header_read))]
fn header_of(octets: &[u8]) -> Result<&[u8], Fault>
    ensures value { Gives (λ header. header.now) result (header_read octets.now) }
    ensures length { IfOk result (λ header. (13 ≤ length header.now) × (length header.now ≤ 254) × (length header.now ≤ length octets.now)) }
{
    if octets.len() < FIXED_PART {
        return Err(early(Reason::IncompletePdu, 0));
    }
    if octets[0] != CLNP {
        return Err(early(Reason::HeaderSyntax, 1));
    }
    let length = usize::from(octets[1]);
    if length < SHORTEST_HEADER || length > LONGEST_HEADER {
        return Err(early(Reason::HeaderSyntax, 2));
    }
    if length > octets.len() {
        return Err(early(Reason::IncompletePdu, 2));
    }
    if octets[2] != VERSION {
        return Err(early(Reason::UnsupportedVersion, 3));
    }
    Ok(&octets[..length])
}

/// Whether the header has a checksum, which then holds.
fn checksum_of(header: &[u8]) -> Result<bool, Fault>
    requires { 9 ≤ length header.now }
    ensures { result ≡ checksum_read header.now }
{
    checksum_in(header).ok_or(early(Reason::IncorrectChecksum, 8))
}

/// The address whose length stands at the position.
fn address_of(header: &[u8], at: usize) -> Result<Nsap, Fault>
    requires inside { at ≤ length header.now }
    requires place { at ≤ 254 }
    ensures value { result ≡ address_read header.now at }
    ensures length { IfOk result (λ address. at + 1 + length address ≤ length header.now) }
{
    match address_at(&header[at..]) {
        Some(found) => Ok(found.0),
        None => Err(early(Reason::HeaderSyntax, at as u8 + 1)),
    }
}

/// The segmentation part at the position, where segmentation is permitted.
#[tactic(auto, unfolding(crate::specs::steps::Reading::segment_read))]
fn segment_of(header: &[u8], at: usize, flags: Flags) -> Result<Option<SegmentPart>, Fault>
    requires inside { at ≤ length header.now }
    requires short { length header.now ≤ 254 }
    ensures value { result ≡ segment_read header.now at flags }
    ensures length { IfOk result (λ segment. at + segment_octets segment ≤ length header.now) }
{
    if !flags.segmented {
        return Ok(None);
    }
    if at + SEGMENTATION_PART > header.len() {
        return Err(flags.fault(Reason::HeaderSyntax, at as u8 + 1));
    }
    let offset = number_in(header, at + 2);
    if offset % 8 != 0 {
        return Err(flags.fault(Reason::HeaderSyntax, at as u8 + 3));
    }
    Ok(Some(SegmentPart {
        id: number_in(header, at),
        offset,
        total: number_in(header, at + 4),
        more: flags.more,
    }))
}

/// The number in the two octets at the position, the higher one first.
fn number_in(octets: &[u8], at: usize) -> u16
    requires { at + 2 ≤ length octets.now }
    ensures { result ≡ number_at at octets.now }
{
    u16::from_be_bytes([octets[at], octets[at + 1]])
}

/// How many octets the segmentation part has.
pub fn segment_length(segment: &Option<SegmentPart>) -> usize
    ensures { result ≡ segment_octets segment.now }
{
    match segment {
        None => 0,
        Some(_) => SEGMENTATION_PART,
    }
}

/// The options, which end the header.
fn options_of(header: &[u8], at: usize, flags: Flags) -> Result<OptionsRef<'_>, Fault>
    requires inside { at ≤ length header.now }
    requires short { length header.now ≤ 254 }
    ensures { Gives listed result (options_read header.now at flags) }
{
    match read_options(&header[at..], flags.kind, at as u8 + 1) {
        Ok(options) => Ok(options),
        Err(fault) => Err(flags.fault(fault.reason, fault.place)),
    }
}

/// The data, by the segment length. Where more segments follow it is some, and a multiple of 8 octets.
#[tactic(auto, unfolding(crate::specs::steps::Reading::body_read))]
fn body_of(octets: &[u8], header: usize, flags: Flags) -> Result<&[u8], Fault>
    requires least { 9 ≤ header }
    requires inside { header ≤ length octets.now }
    ensures value { Gives (λ body. body.now) result (body_read octets.now header flags) }
    ensures short { IfOk result (λ body. header + length body.now ≤ 65535) }
{
    let whole = usize::from(number_in(octets, 5));
    if whole < header {
        return Err(flags.fault(Reason::HeaderSyntax, 6));
    }
    if whole > octets.len() {
        return Err(flags.fault(Reason::IncompletePdu, 6));
    }
    if flags.more && (whole <= header || (whole - header) % 8 != 0) {
        return Err(flags.fault(Reason::HeaderSyntax, 6));
    }
    Ok(&octets[header..whole])
}

/// A segment ends before the end of the initial PDU where more follow, and else at its end.
#[tactic(auto, unfolding(crate::specs::steps::Reading::placed_read))]
fn check_placed(
    segment: &Option<SegmentPart>,
    whole: usize,
    place: u8,
    report: bool,
) -> Result<(), Fault>
    requires { whole ≤ 65535 }
    ensures { result ≡ placed_read segment.now whole place report }
{
    let Some(part) = segment else {
        return Ok(());
    };
    let end = usize::from(part.offset) + whole;
    let total = usize::from(part.total);
    let placed = if part.more { end < total } else { end == total };
    if placed {
        Ok(())
    } else {
        Err(Fault {
            reason: Reason::HeaderSyntax,
            place,
            reportable: report,
        })
    }
}
