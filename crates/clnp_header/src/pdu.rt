//! A PDU of the connectionless network protocol (X.233, structure of PDUs).

use clnp_options::{OptionsRef, PduKind};
use nsap::Nsap;
use osi_base::{Bytes, Items};

/// The segmentation part of a PDU.
#[derive(Clone, Copy, Debug, PartialEq, Eq)]
pub struct SegmentPart {
    /// The data unit identifier, the same in all segments of an initial PDU.
    pub id: u16,
    /// The position of the data in that of the initial PDU, in octets.
    pub offset: u16,
    /// The octets of the initial PDU, header and data.
    pub total: u16,
    /// Whether more segments follow.
    pub more: bool,
}

/// An option that a value owns.
#[derive(Debug, Drop, PartialEq, Eq)]
pub struct OwnOpt {
    /// The parameter code.
    pub code: u8,
    /// The parameter value.
    pub value: Bytes,
}

/// A PDU over the octets that it was read from.
#[derive(Clone, Copy, Debug)]
pub struct PduRef<'a> {
    /// The type.
    pub kind: PduKind,
    /// The destination address.
    pub destination: Nsap,
    /// The source address.
    pub source: Nsap,
    /// The lifetime that is left, in units of 500 ms.
    pub lifetime: u8,
    /// Whether the header has a checksum.
    pub checksum_used: bool,
    /// Whether the source wants an error report.
    pub report: bool,
    /// The segmentation part, where segmentation is permitted.
    pub segment: Option<SegmentPart>,
    /// The options.
    pub options: OptionsRef<'a>,
    /// The whole header.
    pub header: &'a [u8],
    /// The data.
    pub body: &'a [u8],
}

/// A PDU on its own: the fields of a [`PduRef`] but for the header.
#[derive(Debug, Drop, PartialEq, Eq)]
pub struct Pdu {
    /// The type.
    pub kind: PduKind,
    /// The destination address.
    pub destination: Nsap,
    /// The source address.
    pub source: Nsap,
    /// The lifetime that is left, in units of 500 ms.
    pub lifetime: u8,
    /// Whether the header has a checksum.
    pub checksum_used: bool,
    /// Whether the source wants an error report.
    pub report: bool,
    /// The segmentation part, where segmentation is permitted.
    pub segment: Option<SegmentPart>,
    /// The options.
    pub options: Items<OwnOpt>,
    /// The data.
    pub body: Bytes,
}

/// The network layer protocol identifier of the connectionless network protocol, the first octet of its PDUs.
pub const CLNP: u8 = 0x81;

/// The protocol version.
pub const VERSION: u8 = 0x01;

/// The octets of the fixed part.
pub const FIXED_PART: usize = 9;

/// The octets of a segmentation part.
pub const SEGMENTATION_PART: usize = 6;

/// The position of the checksum.
pub const CHECKSUM: usize = 7;

/// The least octets of a header: the fixed part and two addresses.
pub const SHORTEST_HEADER: usize = 13;

/// The most octets of a header.
pub const LONGEST_HEADER: usize = 254;

/// The most octets of a PDU.
pub const LONGEST_PDU: usize = 65_535;
