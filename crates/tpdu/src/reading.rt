//! Reading TPDUs, several of which may follow one another in a unit (X.224, concatenation and separation).

ghost use Rattle.std.specs.Prelude.{◌≡◌, ◌+◌, ◌<◌, ◌≤◌, List, ℕ, length, slice_index, IfOk, IfErr, IsOkAnd};
ghost use Rattle.pdu_parts.proofs.Readings.{Gives};
ghost use Rattle.tpdu.specs.Faults.{IsTpduFault, indicator};
ghost use Rattle.tpdu.specs.Grammar.{BeginsWithTpdu};
ghost use Rattle.tpdu.specs.Kinds.{fixed_count};
ghost use Rattle.tpdu.specs.Values.{TpduAndSum, seen};
ghost use Rattle.tpdu.specs.steps.Reading.{head_view, head_for, sections_view, head_at, sections_at, close_at, read_at};

use crate::TpduRef;
use crate::fault::{TpduCause, TpduFault};
use crate::fixed::{format_at, has_class};
use crate::kind::Kind;
use crate::parameter::check_parameters;
use crate::sections::{HeadRef, SectionsRef, tpdu_at};
use osi_base::fletcher_ok;

/// The most octets of a header without its length indicator.
const LONGEST: usize = 254;

/// The place of the class octet.
const CLASS_PLACE: u32 = 7;

/// The place of the first octet behind the code.
const FIELDS_PLACE: u32 = 3;

/// The first TPDU of the octets, and the octets behind it. A TPDU whose destination reference is listed
/// in `extended` has extended formats.
///
/// The fault is the first in the order of [`TpduCause`](crate::TpduCause).
pub fn read_first<'a>(
    octets: &'a [u8],
    extended: &[u16],
) -> Result<(TpduRef<'a>, &'a [u8]), TpduFault>
    // What is read stands at the front.
    ensures ok { IfOk result (λ found. BeginsWithTpdu extended.now octets.now (seen found.0) found.1.now) }
    // What stands at the front is read.
    ensures only { (tpdu : TpduAndSum) (rest : List ℕ) → BeginsWithTpdu extended.now octets.now tpdu rest
        → IsOkAnd result (λ found. (seen found.0 ≡ tpdu) × (found.1.now ≡ rest)) }
    ensures fault { IfErr result (IsTpduFault extended.now octets.now) }
{
    read(octets, extended)
}

#[tactic(auto, unfolding(crate::specs::steps::Reading::read_at, crate::specs::Values::value_of))]
fn read<'a>(octets: &'a [u8], extended: &[u16]) -> Result<(TpduRef<'a>, &'a [u8]), TpduFault>
    ensures { Gives (λ x. (seen x.0, x.1.now)) result (read_at extended.now octets.now) }
{
    let head = head_at(octets)?;
    let sections = sections_at(extended, head.kind, head.fields)?;
    let place = FIELDS_PLACE + sections.fixed.len() as u32;
    let sum = check_parameters(head.kind, place, sections.parameters)?;
    let body_place = u32::from(octets[0]) + 2;
    check_close(head.kind, sum, head.all, body_place, head.body)?;
    let tpdu = tpdu_at(&head, &sections, sum.is_some());
    Ok((tpdu, head.rest))
}

#[tactic(auto, unfolding(crate::specs::steps::Reading::head_at))]
fn head_at(octets: &[u8]) -> Result<HeadRef<'_>, TpduFault>
    ensures gives { Gives head_view result (head_at octets.now) }
    ensures some { IfOk result (λ head. 2 ≤ length octets.now) }
    ensures short { IfOk result (λ head. length head.fields.now ≤ 253) }
{
    let [indicator, code, ..] = octets else {
        return Err(TpduFault::at(TpduCause::Short, 0));
    };
    let count = usize::from(*indicator);
    if count == 0 || LONGEST < count || octets.len() <= count {
        return Err(TpduFault::at(TpduCause::Length, 1));
    }
    let Some(kind) = Kind::of(*code) else {
        return Err(TpduFault::at(TpduCause::Code, 2));
    };
    Ok(head_by(kind, octets))
}

/// The front of a TPDU of this kind whose header stands whole.
fn head_by(kind: Kind, octets: &[u8]) -> HeadRef<'_>
    requires least { 1 ≤ indicator octets.now }
    requires most { indicator octets.now < length octets.now }
    ensures { head_view result ≡ head_for kind octets.now }
{
    let (header, behind) = octets.split_at(usize::from(octets[0]) + 1);
    let (code, fields) = (octets[1], &header[2..]);
    if kind.takes_rest() {
        HeadRef {
            kind,
            code,
            fields,
            all: octets,
            body: behind,
            rest: &[],
        }
    } else {
        HeadRef {
            kind,
            code,
            fields,
            all: header,
            body: &[],
            rest: behind,
        }
    }
}

#[tactic(auto, unfolding(crate::specs::steps::Reading::sections_at))]
fn sections_at<'a>(
    extended: &[u16],
    kind: Kind,
    fields: &'a [u8],
) -> Result<SectionsRef<'a>, TpduFault>
    ensures gives { Gives sections_view result (sections_at extended.now kind fields.now) }
    ensures fixed { IfOk result (λ sections. length sections.fixed.now ≡ fixed_count kind sections.format) }
    ensures count { IfOk result (λ sections. length sections.fixed.now + length sections.parameters.now ≡ length fields.now) }
{
    let format = format_at(extended, kind, fields);
    let count = kind.fixed_count(format);
    if fields.len() < count {
        return Err(TpduFault::at(TpduCause::Fixed, 1));
    }
    if kind.is_connect() && !has_class(fields[4]) {
        return Err(TpduFault::at(TpduCause::Class, CLASS_PLACE));
    }
    let (fixed, parameters) = fields.split_at(count);
    Ok(SectionsRef {
        format,
        fixed,
        parameters,
    })
}

/// Whether the checksum, where there is one, holds, and the data has a length that the kind allows.
#[tactic(auto, unfolding(crate::specs::steps::Reading::close_at))]
fn check_close(
    kind: Kind,
    sum: Option<u32>,
    all: &[u8],
    place: u32,
    body: &[u8],
) -> Result<(), TpduFault>
    ensures { Gives (λ x. x) result (close_at kind sum all.now place body.now) }
{
    match sum {
        Some(sum) if !fletcher_ok(all) => Err(TpduFault::at(TpduCause::Checksum, sum)),
        None if kind.is_request() => Err(TpduFault::at(TpduCause::Checksum, 0)),
        _ if !kind.data_suits(body.len()) => Err(TpduFault::at(TpduCause::Body, place)),
        _ => Ok(()),
    }
}
