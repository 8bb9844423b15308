//! What a network tells of itself (X.233, discard and error reporting; ISO 9542, hellos and
//! redirects).

use crate::Address;

/// Why a hello cannot be read (ISO 9542, structure and encoding of PDUs).
#[derive(Clone, Copy, Debug, PartialEq, Eq)]
pub enum HelloCause {
    /// Octets are missing.
    Short,
    /// The length indicator fits no PDU.
    Length,
    /// It has another version.
    Version,
    /// The checksum does not hold.
    Checksum,
    /// It is of no known kind.
    Kind,
    /// An address does not fit.
    Address,
    /// An option does not fit.
    Option,
}

/// The kinds of PDU that tell of neighbours (ISO 9542, structure and encoding of PDUs).
#[derive(Clone, Copy, Debug, PartialEq, Eq)]
pub enum HelloKind {
    /// An end system hello.
    Esh,
    /// An intermediate system hello.
    Ish,
    /// A redirect.
    Rd,
}

/// One thing that happened in a network.
#[derive(Drop, Debug, PartialEq, Eq)]
pub enum Note {
    /// A system sent a frame to an SNPA, of so many octets in all.
    Frame {
        number: u32,
        lan: u8,
        system: u8,
        snpa: [u8; 6],
        length: u32,
    },
    /// A frame of a system was lost, since the LANs hold as many as they may.
    DropFrame {
        system: u8,
    },
    /// A system discards a PDU, for a fault at that octet.
    Discard {
        system: u8,
        reason: u8,
        place: u8,
    },
    /// A system got an error report.
    Report {
        system: u8,
        reason: u8,
        place: u8,
    },
    /// A system got a frame that holds no PDU of the network.
    Alien {
        system: u8,
    },
    /// A system got a hello that it cannot read.
    BadHello {
        system: u8,
        cause: HelloCause,
    },
    /// A system has no room for what a hello tells.
    HelloFull {
        system: u8,
    },
    /// A system heard a hello.
    Hello {
        system: u8,
        kind: HelloKind,
        snpa: [u8; 6],
    },
    /// A system learned a better way to an address.
    Redirect {
        system: u8,
        address: Address,
        snpa: [u8; 6],
    },
}
