//! Where a system is reached on a LAN (X.233, Route PDU function).

use crate::{Nsap, Snpa};

/// A point of attachment: a LAN and the SNPA there.
#[derive(Clone, Copy, Debug, PartialEq, Eq)]
pub struct Port {
    /// The LAN's number.
    pub lan: u8,
    /// The system's address on that LAN.
    pub snpa: Snpa,
}

/// The next system on the way, with its entity title where that is known.
#[derive(Clone, Copy, Debug, PartialEq, Eq)]
pub struct Hop {
    /// Where frames to it go.
    pub port: Port,
    /// Its entity title.
    pub title: Option<Nsap>,
}
