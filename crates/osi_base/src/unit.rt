//! What a carrier takes and hands up, and what it answers (X.233, connectionless-mode network
//! service).

use crate::{Bytes, Note};

/// Octets on their way from one address to another.
#[derive(Drop, Debug, PartialEq, Eq)]
pub struct Unit<A> {
    /// The address that sent it.
    pub from: A,
    /// The address that it goes to.
    pub to: A,
    /// What it carries.
    pub octets: Bytes,
}

/// A unit that came to a system.
#[derive(Drop, Debug, PartialEq, Eq)]
pub struct Arrival<A> {
    /// The system to which it came.
    pub system: u8,
    /// The unit.
    pub unit: Unit<A>,
}

/// What a carrier hands up: a unit that came, or what it tells of itself.
#[derive(Drop, Debug, PartialEq, Eq)]
pub enum Up<A> {
    /// A unit came to a system.
    Unit(Arrival<A>),
    /// Something happened in the carrier.
    Note(Note),
}

/// How a unit is to be sent (X.233, segmentation, error reporting, route recording and source
/// routing).
#[derive(Clone, Copy, Debug, PartialEq, Eq)]
pub struct Wish {
    /// The unit may be cut.
    pub cut: bool,
    /// The sender wants error reports.
    pub report: bool,
    /// The unit records its route.
    pub trace: bool,
    /// The number of its source route, from 1; any other number means none.
    pub path: u8,
}

/// Why a carrier drops a unit that it is offered.
#[derive(Clone, Copy, Debug, PartialEq, Eq)]
pub enum DropCause {
    /// The unit has more octets than there is room for.
    TooLong,
    /// There is no way from its source to its destination.
    NoRoute,
    /// The carrier holds as many units as it may.
    Full,
    /// No data unit identifier is free.
    IdsSpent,
}

/// The answer to an offer.
#[derive(Clone, Copy, Debug, PartialEq, Eq)]
pub enum Offered {
    /// The unit may arrive from now on.
    Taken,
    /// The unit never arrives.
    Dropped(DropCause),
}

/// The answer to a choice of what arrives next.
#[derive(Clone, Copy, Debug, PartialEq, Eq)]
pub enum Picked {
    /// It arrived.
    Taken,
    /// Nothing has that number.
    NoSuch,
    /// It is older than it may be.
    Late,
    /// The system is not where it went.
    NotThere,
    /// The system is not one that takes it.
    NotOurs,
}

/// The answer to octets that no system of the network sent.
#[derive(Clone, Copy, Debug, PartialEq, Eq)]
pub enum Injected {
    /// The system got them.
    Taken,
    /// The system is not there.
    NotThere,
}
