//! The octet of the flags and the type (X.233, fixed part).

ghost use Rattle.std.specs.Prelude.{◌≡◌, ◌≤◌};
ghost use Rattle.clnp_header.specs.Flags.{written_flags};
ghost use Rattle.clnp_header.specs.steps.Reading.{flags_read, segment_bits};

use crate::fault::early;
use crate::pdu::SegmentPart;
use clnp_options::{Fault, PduKind, Reason};

/// Segmentation is permitted, and the header has a segmentation part.
const SEGMENTATION_PERMITTED: u8 = 0x80;

/// More segments follow.
const MORE_SEGMENTS: u8 = 0x40;

/// The source wants an error report.
const ERROR_REPORT: u8 = 0x20;

/// The bits of the type.
const TYPE_BITS: u8 = 0x1f;

/// The type DT.
const DT: u8 = 0x1c;

/// The type ER.
const ER: u8 = 0x01;

/// What the flags and the type of the fixed part say. In an ER PDU none of the flags is set.
#[derive(Clone, Copy)]
pub struct Flags {
    /// The type.
    pub kind: PduKind,
    /// Whether the header has a segmentation part.
    pub segmented: bool,
    /// Whether more segments follow.
    pub more: bool,
    /// Whether the source wants an error report.
    pub report: bool,
}

impl Flags {
    /// A fault behind the addresses, of which the source may want a report.
    pub fn fault(self, reason: Reason, place: u8) -> Fault
        ensures { result ≡ record { reason = reason; place = place; reportable = self.report } }
    {
        Fault {
            reason,
            place,
            reportable: self.report,
        }
    }
}

/// The flags and the type, of which some do not go together.
#[tactic(auto, unfolding(crate::specs::steps::Reading::flags_read))]
pub fn flags_of(octet: u8) -> Result<Flags, Fault>
    ensures { result ≡ flags_read octet }
{
    let segmented = octet & SEGMENTATION_PERMITTED != 0;
    let more = octet & MORE_SEGMENTS != 0;
    let kind = octet & TYPE_BITS;
    if kind == DT && (segmented || !more) {
        let report = octet & ERROR_REPORT != 0;
        return Ok(Flags {
            kind: PduKind::Dt,
            segmented,
            more,
            report,
        });
    }
    if kind == ER && !segmented {
        return Ok(Flags {
            kind: PduKind::Er,
            segmented,
            more: false,
            report: false,
        });
    }
    Err(early(Reason::HeaderSyntax, 5))
}

/// The octet of the flags and the type. In an ER PDU none of the flags is set.
pub fn flags_octet(kind: PduKind, segment: &Option<SegmentPart>, report: bool) -> u8
    ensures { result ≡ written_flags kind segment.now report }
{
    let report = if report { ERROR_REPORT } else { 0 };
    match kind {
        PduKind::Dt => segment_flags(segment) + report + DT,
        PduKind::Er => ER,
    }
}

/// The flags on the segmentation part.
fn segment_flags(segment: &Option<SegmentPart>) -> u8
    ensures value { result ≡ segment_bits segment.now }
    ensures most { result ≤ 192 }
{
    match segment {
        None => 0,
        Some(part) if part.more => SEGMENTATION_PERMITTED | MORE_SEGMENTS,
        Some(_) => SEGMENTATION_PERMITTED,
    }
}
