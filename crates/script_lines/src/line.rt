//! The lines of the script, with their fields read.

use crate::settings::Key;
use nsap::{Nsap, Prefix, Snpa};
use osi_base::{Bytes, Items, Wish};
use tpdu::Options;

/// How closely a unit keeps to its source route (X.233, source routing).
#[derive(Clone, Copy)]
pub enum PathKind {
    /// Other systems may lie between two of the route.
    Partial,
    /// The unit goes through the systems of the route alone.
    Complete,
}

/// One line of the script. Systems and LANs go by their numbers, from 0 in the order of declaration,
/// source routes from 1.
#[derive(Drop)]
pub enum Line {
    /// An empty line or a comment.
    Nothing,
    /// The version of the script, 1 or 2.
    Version(u32),
    /// A setting.
    Set {
        key: Key,
        value: u32,
    },
    /// A LAN.
    Lan {
        name: u8,
        bound: u32,
        room: u32,
    },
    /// An end system.
    Es {
        name: u8,
        title: Nsap,
    },
    /// An intermediate system.
    Is {
        name: u8,
        title: Nsap,
    },
    /// A port of a system on a LAN.
    Port {
        system: u8,
        lan: u8,
        snpa: Snpa,
    },
    /// A row of a system's table: units under the prefix go to the next system on the LAN.
    Route {
        system: u8,
        prefix: Prefix,
        next: u8,
        lan: u8,
    },
    /// A source route through intermediate systems.
    Path {
        name: u8,
        kind: PathKind,
        systems: Items<u8>,
    },
    /// A transport selector at which a system takes connections.
    Tsap {
        system: u8,
        selector: Bytes,
    },
    /// A transport selector at which a system joins each connection with one to another system, where `called` is the selector.
    Relay {
        system: u8,
        selector: Bytes,
        to: u8,
        called: Bytes,
    },
    /// The end of the set-up.
    Start,
    /// A connect request, with the calling and the called selector.
    Connect {
        system: u8,
        selector: Bytes,
        to: u8,
        called: Bytes,
        options: Options,
        octets: Bytes,
    },
    /// A connect response.
    Accept {
        end: u32,
        options: Options,
        octets: Bytes,
    },
    /// A refusal of a connect indication.
    Refuse {
        end: u32,
        octets: Bytes,
    },
    /// A disconnect request.
    Disconnect {
        end: u32,
        octets: Bytes,
    },
    /// A normal unit to send.
    Data {
        end: u32,
        octets: Bytes,
    },
    /// An expedited unit to send.
    Expedite {
        end: u32,
        octets: Bytes,
    },
    /// The credit that an end grants.
    Window {
        end: u32,
        credit: u16,
    },
    /// A raw unit to send.
    Unit {
        system: u8,
        to: u8,
        wish: Wish,
        octets: Bytes,
    },
    /// A tick of the clock.
    Tick,
    /// Deliveries until nothing is left.
    Settle,
    /// A delivery of a frame.
    Deliver {
        frame: u32,
        system: u8,
    },
    /// Octets that a system gets, though no system sent them.
    Inject {
        lan: u8,
        system: u8,
        octets: Bytes,
    },
    /// The transport entity of an end system begins again, without its ends.
    Restart {
        system: u8,
    },
    /// A datagram to send, with the source and the destination selector.
    Send {
        system: u8,
        selector: Bytes,
        to: u8,
        called: Bytes,
        octets: Bytes,
    },
}
