//! The fixed terms of a connection, and what its halves answer.

use nsap::Nsap;
use tpdu::Format;

/// The fixed terms of a connection, as its halves use them.
#[derive(Clone, Copy)]
pub struct FlowRules {
    /// The end's own reference.
    pub own: u16,
    /// The reference of its partner.
    pub partner: u16,
    /// The partner's address.
    pub to: Nsap,
    pub format: Format,
    /// Each TPDU has a checksum.
    pub sum: bool,
    /// The most octets of a unit in one DT.
    pub piece: u16,
    /// The ticks after which a DT or an ED without its acknowledgement is sent again.
    pub t1: u32,
    /// How often a DT or an ED is sent.
    pub sendings: u32,
    /// The ticks for which a number is in use.
    pub limit: u32,
}

/// Whether a sending half goes on.
#[derive(Clone, Copy)]
pub enum Life {
    Goes,
    /// A DT or an ED was sent as often as it may be, and was not acknowledged in time.
    Exhausted,
}

/// Why a unit was not taken, in this order.
#[derive(Clone, Copy, Debug)]
pub enum SubmitRefusal {
    /// It has no octets.
    EmptyUnit,
    /// It has more than 16,384 octets, or 16 of an expedited unit.
    TooLong,
    /// 64 units wait, or their octets would pass 131,072.
    QueueFull,
}
