//! The end systems of a network by the inactive subset (X.233, Inactive Network Layer Protocol subset, subnetwork addresses).

use nsap::{Nsap, Port};

/// An end system, with its one address and its one port.
#[derive(Clone, Copy, Debug, PartialEq, Eq)]
pub struct InactiveRow {
    /// The system's number.
    pub system: u8,
    /// Its address, for which no frame has room.
    pub address: Nsap,
    /// Its port, which stands for the address.
    pub port: Port,
    /// How many ticks a frame for the port may float.
    pub bound: u32,
    /// How many octets a frame for the port may have.
    pub room: u32,
}

/// The way of a unit: from one end system to another on its LAN.
#[derive(Clone, Copy, Debug, PartialEq, Eq)]
pub struct Way {
    /// The end system that has the unit's source.
    pub source: InactiveRow,
    /// The end system that has its destination.
    pub goal: InactiveRow,
}
