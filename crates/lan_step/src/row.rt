//! LANs, and which system has which port (IEEE 802.3; ISO 9542, subnetwork addresses).

use nsap::Port;

/// One LAN.
#[derive(Clone, Copy, Debug, PartialEq, Eq)]
pub struct Lan {
    /// For how many ticks a frame may be taken.
    pub bound: u32,
    /// The most octets of a network PDU in one frame.
    pub room: u32,
}

/// A system has a port.
#[derive(Clone, Copy, Debug, PartialEq, Eq)]
pub struct PortRow {
    /// The system's number.
    pub system: u8,
    /// Whether it is an end system, and else an intermediate one.
    pub end: bool,
    /// The port.
    pub port: Port,
}
