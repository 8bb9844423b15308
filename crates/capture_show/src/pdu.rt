//! The lines of PDUs of the connectionless network protocol (X.233, structure of PDUs).

ghost use Rattle.std.specs.Prelude.{◌≡◌, ◌∷◌, [], ◌++◌, OnOk, Some};
ghost use Rattle.std.specs.Fmt.{decimal};
ghost use Rattle.clnp_header.specs.Values.{value_of};
ghost use Rattle.capture_show.specs.Pdus.{dt_line, er_line, bad_pdu_line, discard_in, discard_of, is_transport, is_whole};
ghost use Rattle.capture_show.specs.Texts.{address_text};
ghost use Rattle.capture_show.specs.steps.Written.{before, discard_view};

use crate::address::show_nsap;
use crate::field::{Field, push_end, push_flags, push_numbers, push_segment, write};
use crate::listed::push_options;
use clnp_header::{Fault, PduRef, SegmentPart};
use clnp_options::{REASON, get};
use nsap::TRANSPORT;
use osi_base::NoMemory;
use text_parts::push;

/// Appends the line of a DT PDU.
pub fn write_dt(pdu: &PduRef<'_>, out: &mut Vec<u8>) -> Result<(), NoMemory>
    ensures { OnOk result (out.new.items ≡ out.old.items ++ dt_line (value_of pdu.now)) }
{
    push_ways("dt ", pdu, out)?;
    push_flags(pdu.segment, pdu.report, out)?;
    push(b" ", out)?;
    push_segment(pdu.segment, out)?;
    push(b" ", out)?;
    push_options(&pdu.options, out)?;
    push_end(pdu.body.len(), out)
}

/// Appends a word, the addresses of a PDU and its lifetime, the last three with a blank behind each.
fn push_ways(word: &str, pdu: &PduRef<'_>, out: &mut Vec<u8>) -> Result<(), NoMemory>
    ensures { OnOk result (out.new.items ≡ out.old.items ++ (word.now
        ++ before (address_text pdu.now.destination ∷ address_text pdu.now.source ∷ decimal pdu.now.lifetime ∷ []))) }
{
    push(word.as_bytes(), out)?;
    show_nsap(&pdu.destination, out)?;
    push(b" ", out)?;
    show_nsap(&pdu.source, out)?;
    push_numbers(" ", &[u32::from(pdu.lifetime)], out)
}

/// Appends the line of an ER PDU.
pub fn write_er(pdu: &PduRef<'_>, out: &mut Vec<u8>) -> Result<(), NoMemory>
    ensures { OnOk result (out.new.items ≡ out.old.items ++ er_line (value_of pdu.now)) }
{
    let discard = discard_of(pdu);
    write(
        &[
            Field::Word("er"),
            Field::Address(&pdu.destination),
            Field::Address(&pdu.source),
            Field::Number(usize::from(pdu.lifetime)),
            Field::Octet(discard.reason),
            Field::Number(usize::from(discard.place)),
            Field::Number(pdu.body.len()),
        ],
        out,
    )
}

/// Appends the line of octets that are no PDU.
pub fn write_bad(fault: &Fault, out: &mut Vec<u8>) -> Result<(), NoMemory>
    ensures { OnOk result (out.new.items ≡ out.old.items ++ bad_pdu_line fault.now) }
{
    write(
        &[
            Field::Word("badclnp"),
            Field::Octet(fault.reason.code()),
            Field::Number(usize::from(fault.place)),
        ],
        out,
    )
}

/// The reason for a discard, and the place in the header that it tells of.
#[derive(Clone, Copy)]
pub struct Discard {
    pub reason: u8,
    pub place: u8,
}

/// What the option of an error report tells.
fn discard_of(pdu: &PduRef<'_>) -> Discard
    ensures { discard_view result ≡ discard_of (value_of pdu.now) }
{
    match get(&pdu.options, REASON) {
        Some(value) => discard_in(value),
        None => Discard {
            reason: 0,
            place: 0,
        },
    }
}

/// The reason and the place in the two octets of the option.
fn discard_in(value: &[u8]) -> Discard
    ensures { discard_view result ≡ discard_in (Some value.now) }
{
    match value {
        [reason, place] => Discard {
            reason: *reason,
            place: *place,
        },
        _ => Discard {
            reason: 0,
            place: 0,
        },
    }
}

/// Whether the data is a unit of transport.
pub fn is_transport(pdu: &PduRef<'_>) -> bool
    ensures { result ≡ is_transport (value_of pdu.now) }
{
    pdu.destination.selector() == TRANSPORT && is_whole(&pdu.segment)
}

/// Whether the data is that of a whole initial PDU.
fn is_whole(segment: &Option<SegmentPart>) -> bool
    ensures { result ≡ is_whole segment.now }
{
    match segment {
        None => true,
        Some(part) => part.offset == 0 && !part.more,
    }
}
