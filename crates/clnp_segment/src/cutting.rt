//! Cutting a PDU for a room (X.233, segmentation).

ghost use Rattle.std.specs.Prelude.{◌≡◌, ◌+◌, ◌≤◌, ◌∷◌, ◌↔◌, [], length, Err, IfOk, IfSome, Some, None};
ghost use Rattle.clnp_header.specs.Writing.{header_length as length_of_header};
ghost use Rattle.clnp_segment.specs.declared.cutting.CutRefusal.TheVariants.{NoMemory as CutNoMemory};
ghost use Rattle.clnp_segment.specs.Cutting.{Cuts, IsStep};

use clnp_header::{OwnOpt, Pdu, SegmentPart, header_length};
use osi_base::{Bytes, Items, NoMemory};
use std::alloc::Global;

/// Why a PDU is not cut.
#[derive(Clone, Copy, Debug, PartialEq, Eq)]
pub enum CutRefusal {
    /// It does not fit, and may not be cut.
    NotPermitted,
    /// There is no memory for the pieces.
    NoMemory,
}

impl From<NoMemory> for CutRefusal {
    ghost from_gives = { λ _ e. e ≡ CutNoMemory };

    fn from(_: NoMemory) -> CutRefusal {
        CutRefusal::NoMemory
    }
}

/// The pieces of a PDU for a room of so many octets, each with a header of its own; a PDU that fits is its one piece.
///
/// NotPermitted exactly where it does not fit and has no segmentation part.
pub fn cut(alloc: Global, pdu: &Pdu, room: u32) -> Result<Vec<Pdu>, CutRefusal>
    requires least { 264 ≤ room }
    requires header { length_of_header pdu.now ≤ 254 }
    requires offsets { IfSome pdu.now.segment (λ part. part.offset + length pdu.now.body ≤ 65535) }
    ensures ok { IfOk result (λ pdus. Cuts pdu.now room pdu.now.segment (Some pdus.items)) }
    ensures refused { (result ≡ Err CutRefusal.NotPermitted) ↔ Cuts pdu.now room pdu.now.segment None }
{
    let header = header_length(pdu).unwrap();
    let room = room as usize;
    match pdu.segment {
        Some(part) => Ok(pieces(alloc, pdu, part, header, room)?),
        None if room < header + pdu.body.as_slice().len() => Err(CutRefusal::NotPermitted),
        None => Ok(whole(alloc, pdu)?),
    }
}

/// The PDU itself.
fn whole(alloc: Global, pdu: &Pdu) -> Result<Vec<Pdu>, NoMemory>
    ensures { IfOk result (λ pdus. pdus.items ≡ pdu.now ∷ []) }
{
    let mut one = Vec::new(alloc);
    one.push(with_body(alloc, pdu, pdu.segment, pdu.body.as_slice())?)?;
    Ok(one)
}

/// Its runs, one after another.
fn pieces(
    alloc: Global,
    pdu: &Pdu,
    part: SegmentPart,
    header: usize,
    room: usize,
) -> Result<Vec<Pdu>, NoMemory>
    requires header { header ≡ length_of_header pdu.now }
    requires short { header ≤ 254 }
    requires least { 264 ≤ room }
    requires offsets { part.offset + length pdu.now.body ≤ 65535 }
    ensures { IfOk result (λ pdus. Cuts pdu.now room (Some part) (Some pdus.items)) }
{
    let body = pdu.body.as_slice();
    let step = step_for(header, room);
    let mut pieces = Vec::new(alloc);
    let mut at = 0;
    while room - header < body.len() - at {
        let segment = part_at(part, at, true);
        pieces.push(with_body(alloc, pdu, Some(segment), &body[at..at + step])?)?;
        at += step;
    }
    let last = part_at(part, at, part.more);
    pieces.push(with_body(alloc, pdu, Some(last), &body[at..])?)?;
    Ok(pieces)
}

/// The most octets that fit and are a multiple of 8.
fn step_for(header: usize, room: usize) -> usize
    requires { header + 8 ≤ room }
    ensures step { IsStep room header result }
    ensures some { 8 ≤ result }
{
    (room - header) / 8 * 8
}

/// The segmentation part of the run at that position.
fn part_at(part: SegmentPart, at: usize, more: bool) -> SegmentPart
    requires { part.offset + at ≤ 65535 }
    ensures { result ≡ record part { offset = part.offset + at; more = more } }
{
    SegmentPart {
        id: part.id,
        offset: part.offset + at as u16,
        total: part.total,
        more,
    }
}

/// The PDU with another segmentation part and other data.
fn with_body(
    alloc: Global,
    pdu: &Pdu,
    segment: Option<SegmentPart>,
    octets: &[u8],
) -> Result<Pdu, NoMemory>
    ensures { IfOk result (λ made. made ≡ record pdu.now { segment = segment; body = octets.now }) }
{
    let options = copy_of(alloc, pdu.options.as_slice())?;
    let body = Vec::from_slice(alloc, octets)?;
    Ok(Pdu {
        kind: pdu.kind,
        destination: pdu.destination,
        source: pdu.source,
        lifetime: pdu.lifetime,
        checksum_used: pdu.checksum_used,
        report: pdu.report,
        segment,
        options: Items::of(options),
        body: Bytes::of(body),
    })
}

/// The same options.
fn copy_of(alloc: Global, options: &[OwnOpt]) -> Result<Vec<OwnOpt>, NoMemory>
    ensures { IfOk result (λ copy. copy.items ≡ options.now) }
{
    let mut copy = Vec::new(alloc);
    for option in options {
        let value = Vec::from_slice(alloc, option.value.as_slice())?;
        copy.push(OwnOpt {
            code: option.code,
            value: Bytes::of(value),
        })?;
    }
    Ok(copy)
}
