//! The lines of TPDUs (X.224, structure and encoding of TPDUs; concatenation and separation).

ghost use Rattle.std.specs.Prelude.{◌≡◌, ◌<◌, ◌≤◌, ◌+◌, ◌-◌, ◌∷◌, ◌++◌, codes, List, ℕ, length, drop, take, slice_index, option_map, OnOk, IfOk, IfErr, IfSome};
ghost use Rattle.pdu_parts.specs.Parameter.{parameters_in};
ghost use Rattle.tpdu.specs.Faults.{IsTpduFault, reference};
ghost use Rattle.tpdu.specs.Grammar.{BeginsWithTpdu};
ghost use Rattle.tpdu.specs.Kinds.{fixed_count};
ghost use Rattle.tpdu.specs.Values.{format_for, seen, tpdu_of};
ghost use Rattle.tpdu.specs.Writing.{body_for};
ghost use Rattle.capture_show.specs.Ends.{learned, references_of};
ghost use Rattle.capture_show.specs.Tpdus.{bad_tpdu_line, bit, cause_text, fixed_texts, format_bit, tpdu_line};
ghost use Rattle.capture_show.specs.steps.Units.{WritesNext, WritesUnit};
ghost use Rattle.capture_show.specs.steps.Written.{before};

use crate::ends::{End, ExtendedEnds};
use crate::field::{Field, push_end, push_numbers, write};
use crate::listed::push_known;
use clnp_header::PduRef;
use nsap::Nsap;
use osi_base::NoMemory;
use tpdu::{Format, Kind, TpduCause, TpduFault, TpduRef, read_first};

/// Appends a line for each TPDU of the unit that a PDU carries, up to the first fault.
pub fn write_unit(
    pdu: &PduRef<'_>,
    ends: &mut ExtendedEnds,
    out: &mut Vec<u8>,
) -> Result<(), NoMemory>
    ensures { OnOk result (WritesUnit pdu.now.destination pdu.now.source ends.old pdu.now.body.now out.old.items
        ends.new out.new.items) }
{
    let mut left = pdu.body;
    while !left.is_empty() {
        let Some(rest) = write_next(left, pdu, ends, out)? else {
            return Ok(());
        };
        left = rest;
    }
    Ok(())
}

/// Appends the line of the TPDU at the front of the octets, or of its fault. The octets behind it; None after a fault.
fn write_next<'a>(
    octets: &'a [u8],
    pdu: &PduRef<'_>,
    ends: &mut ExtendedEnds,
    out: &mut Vec<u8>,
) -> Result<Option<&'a [u8]>, NoMemory>
    requires { 0 < length octets.now }
    ensures writes { IfOk result (λ rest. WritesNext pdu.now.destination pdu.now.source ends.old octets.now out.old.items
        (option_map (λ r. r.now) rest) ends.new out.new.items) }
    ensures shorter { IfOk result (λ rest. IfSome rest (λ r. length r.now < length octets.now)) }
{
    let format = format_of(octets, &pdu.destination, ends);
    match read_in(format, octets) {
        Ok((tpdu, rest)) => {
            let parameters = parameters_of(octets, tpdu.kind(), format);
            write_tpdu(&tpdu, parameters, out)?;
            learn(&tpdu, pdu, ends)?;
            Ok(Some(rest))
        }
        Err(fault) => {
            write_bad(fault, out)?;
            Ok(None)
        }
    }
}

/// The reference behind the code of a TPDU.
fn reference_of(octets: &[u8]) -> Option<u16>
    ensures { result ≡ reference (drop 2 octets.now) }
{
    match octets {
        [_, _, high, low, ..] => Some(u16::from_be_bytes([*high, *low])),
        _ => None,
    }
}

/// The format of the TPDU at the front of the octets, on its way to an address.
fn format_of(octets: &[u8], to: &Nsap, ends: &ExtendedEnds) -> Format
    ensures { result ≡ format_for (references_of to.now ends.now) (reference (drop 2 octets.now)) }
{
    match reference_of(octets) {
        Some(reference) => format_at(reference, to, ends),
        None => Format::Normal,
    }
}

/// The format for a reference at an address.
fn format_at(reference: u16, to: &Nsap, ends: &ExtendedEnds) -> Format
    ensures { result ≡ format_for (references_of to.now ends.now) (Some reference) }
{
    let end = End {
        reference,
        address: *to,
    };
    if ends.has(&end) {
        Format::Extended
    } else {
        Format::Normal
    }
}

/// The TPDU at the front of the octets, in this format, and the octets behind it.
fn read_in(format: Format, octets: &[u8]) -> Result<(TpduRef<'_>, &[u8]), TpduFault>
    ensures ok { (extended : List ℕ) → format_for extended (reference (drop 2 octets.now)) ≡ format
        → IfOk result (λ found. BeginsWithTpdu extended octets.now (seen found.0) found.1.now) }
    ensures fault { (extended : List ℕ) → format_for extended (reference (drop 2 octets.now)) ≡ format
        → IfErr result (λ fault. IsTpduFault extended octets.now fault) }
{
    match format {
        Format::Normal => read_first(octets, &[]),
        Format::Extended => read_first(octets, &[reference_of(octets).unwrap_or(0)]),
    }
}

/// The parameters of a TPDU of this kind at the front of the octets.
fn parameters_of(octets: &[u8], kind: Kind, format: Format) -> &[u8]
    requires least { 1 + fixed_count kind format ≤ slice_index octets.now 0 }
    requires most { slice_index octets.now 0 < length octets.now }
    ensures { result.now ≡ drop (2 + fixed_count kind format) (take (slice_index octets.now 0 + 1) octets.now) }
{
    let (header, _) = octets.split_at(usize::from(octets[0]) + 1);
    &header[2 + kind.fixed_count(format)..]
}

/// Names the two ends of a CC with extended formats.
fn learn(tpdu: &TpduRef<'_>, pdu: &PduRef<'_>, ends: &mut ExtendedEnds) -> Result<(), NoMemory>
    ensures { OnOk result (ends.new ≡ learned pdu.now.destination pdu.now.source (tpdu_of tpdu.now) ends.old) }
{
    let TpduRef::Cc {
        destination,
        source,
        format: Format::Extended,
        ..
    } = tpdu
    else {
        return Ok(());
    };
    ends.name(End {
        reference: *destination,
        address: pdu.destination,
    })?;
    ends.name(End {
        reference: *source,
        address: pdu.source,
    })
}

/// Appends the line of a TPDU whose header has these parameters.
fn write_tpdu(tpdu: &TpduRef<'_>, parameters: &[u8], out: &mut Vec<u8>) -> Result<(), NoMemory>
    ensures { OnOk result (out.new.items ≡ out.old.items ++ tpdu_line (tpdu_of tpdu.now) (parameters_in parameters.now)) }
{
    push_fixed(tpdu, out)?;
    push_known(tpdu.kind(), parameters, out)?;
    push_end(count_of(tpdu), out)
}

/// The octets of the data.
fn count_of(tpdu: &TpduRef<'_>) -> usize
    ensures { result ≡ length (body_for (tpdu_of tpdu.now)) }
{
    match tpdu {
        TpduRef::Cr { octets, .. }
        | TpduRef::Cc { octets, .. }
        | TpduRef::Dr { octets, .. }
        | TpduRef::Dt { octets, .. }
        | TpduRef::Ed { octets, .. } => octets.len(),
        TpduRef::Dc { .. } | TpduRef::Ak { .. } | TpduRef::Ea { .. } | TpduRef::Er { .. } => 0,
    }
}

/// Appends the kind of a TPDU, and what its code and its fixed part hold, with a blank behind each.
fn push_fixed(tpdu: &TpduRef<'_>, out: &mut Vec<u8>) -> Result<(), NoMemory>
    ensures { OnOk result (out.new.items ≡ out.old.items ++ before (codes " tpdu" ∷ fixed_texts (tpdu_of tpdu.now))) }
{
    match tpdu {
        TpduRef::Cr {
            credit,
            source,
            format,
            ..
        } => push_numbers(
            " tpdu cr ",
            &[u32::from(*credit), u32::from(*source), format_bit(*format)],
            out,
        ),
        TpduRef::Cc {
            credit,
            destination,
            source,
            format,
            ..
        } => push_numbers(
            " tpdu cc ",
            &[
                u32::from(*credit),
                u32::from(*destination),
                u32::from(*source),
                format_bit(*format),
            ],
            out,
        ),
        TpduRef::Dr {
            destination,
            source,
            reason,
            ..
        } => push_numbers(
            " tpdu dr ",
            &[
                u32::from(*destination),
                u32::from(*source),
                u32::from(*reason),
            ],
            out,
        ),
        TpduRef::Dc {
            destination,
            source,
            ..
        } => push_numbers(
            " tpdu dc ",
            &[u32::from(*destination), u32::from(*source)],
            out,
        ),
        TpduRef::Dt {
            destination,
            last,
            number,
            ..
        } => push_numbers(
            " tpdu dt ",
            &[u32::from(*destination), bit(*last), *number],
            out,
        ),
        TpduRef::Ed {
            destination,
            last,
            number,
            ..
        } => push_numbers(
            " tpdu ed ",
            &[u32::from(*destination), bit(*last), *number],
            out,
        ),
        TpduRef::Ak {
            destination,
            number,
            credit,
            ..
        } => push_numbers(
            " tpdu ak ",
            &[u32::from(*destination), *number, u32::from(*credit)],
            out,
        ),
        TpduRef::Ea {
            destination,
            number,
            ..
        } => push_numbers(" tpdu ea ", &[u32::from(*destination), *number], out),
        TpduRef::Er {
            destination,
            cause,
            ..
        } => push_numbers(
            " tpdu er ",
            &[u32::from(*destination), u32::from(*cause)],
            out,
        ),
    }
}

/// 1 for extended formats.
fn format_bit(format: Format) -> u32
    ensures { result ≡ format_bit format }
{
    match format {
        Format::Normal => 0,
        Format::Extended => 1,
    }
}

fn bit(set: bool) -> u32
    ensures { result ≡ bit set }
{
    if set { 1 } else { 0 }
}

/// Appends the line of a fault.
fn write_bad(fault: TpduFault, out: &mut Vec<u8>) -> Result<(), NoMemory>
    ensures { OnOk result (out.new.items ≡ out.old.items ++ bad_tpdu_line fault) }
{
    write(
        &[
            Field::Word(" tpdu"),
            Field::Word("bad"),
            Field::Word(cause_word(fault.cause)),
            Field::Number(fault.place as usize),
        ],
        out,
    )
}

fn cause_word(cause: TpduCause) -> &'static str
    ensures { result.now ≡ cause_text cause }
{
    match cause {
        TpduCause::Short => "short",
        TpduCause::Length => "length",
        TpduCause::Code => "code",
        TpduCause::Fixed => "fixed",
        TpduCause::Class => "class",
        TpduCause::Param => "param",
        TpduCause::Unknown => "unknown",
        TpduCause::Checksum => "checksum",
        TpduCause::Body => "body",
    }
}
