//! A frame that carries a network PDU (IEEE 802.3, MAC frame structure; ISO/IEC 8802-2, LLC PDU).

use nsap::Snpa;

/// A frame over the octets that it was read from.
#[derive(Clone, Copy, Debug, PartialEq, Eq)]
pub struct FrameRef<'a> {
    /// The destination address.
    pub to: Snpa,
    /// The source address.
    pub from: Snpa,
    /// The network PDU, of 1 to 1,497 octets.
    pub pdu: &'a [u8],
}

/// The octets of a frame before its network PDU.
pub const HEADER: usize = 17;

/// DSAP, SSAP and control of the network layer's LLC PDU.
pub const LLC: [u8; 3] = [0xfe, 0xfe, 0x03];
