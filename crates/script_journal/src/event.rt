//! What happens in a run: one event for each line of the transcript.

use crate::boxed::Boxed;
use crate::cause::{Refused, Settled, UdCause};
use osi_base::{Address, Bytes, DropCause, Note, Tick};
use tpdu::{EndTold, Kind, Options, TpduCause};

/// What a connect request says (X.214, T-CONNECT request).
#[derive(Drop)]
pub struct Request {
    /// The end that it makes, and its system.
    pub end: u32,
    pub system: u8,
    /// The reference of the end.
    pub reference: u16,
    /// The address and the selector that it comes from.
    pub calling: Address,
    pub calling_selector: Bytes,
    /// The address and the selector that it is for.
    pub called: Address,
    pub called_selector: Bytes,
    /// The octets that go with it.
    pub octets: Bytes,
}

/// What a connect indication says (X.214, T-CONNECT indication).
#[derive(Drop)]
pub struct Indication {
    /// The end that it makes, and its system.
    pub end: u32,
    pub system: u8,
    /// The reference of the end.
    pub reference: u16,
    /// The address that it comes from, and the reference of the partner end there.
    pub calling: Address,
    pub partner: u16,
    pub calling_selector: Bytes,
    /// The address and the selector that it is for.
    pub called: Address,
    pub called_selector: Bytes,
    /// What is proposed.
    pub options: Options,
    /// The octets that go with it.
    pub octets: Bytes,
}

/// One line of the transcript. Systems and LANs go by their numbers, from 0 in the order of
/// declaration, ends by theirs, from 1 in the order in which they are made.
pub enum Event {
    /// The clock, at `start` and at each tick.
    Tick {
        now: Tick,
    },
    /// A connect request, which makes an end.
    Connect(Boxed<Request>),
    /// A connect indication, which makes an end.
    Incoming(Boxed<Indication>),
    /// What an end tells its user.
    End {
        number: u32,
        what: EndTold,
    },
    /// A normal unit that an end was asked to send.
    Data {
        end: u32,
        octets: Bytes,
    },
    /// An expedited unit that an end was asked to send.
    Expedite {
        end: u32,
        octets: Bytes,
    },
    /// A refusal of a connect indication.
    Refuse {
        end: u32,
        octets: Bytes,
    },
    /// A disconnect request.
    Disconnect {
        end: u32,
        octets: Bytes,
    },
    /// A call that is refused.
    No {
        cause: Refused,
    },
    /// A raw unit that the network took from a system, for an address.
    Sent {
        system: u8,
        to: Address,
        octets: Bytes,
    },
    /// A raw unit that is shown at a system, from an address.
    Unit {
        system: u8,
        from: Address,
        octets: Bytes,
    },
    /// What the network tells of itself.
    Net(Note),
    /// A transport unit that the network does not take.
    Dropped {
        system: u8,
        cause: DropCause,
    },
    /// A frame that is taken by a system.
    Deliver {
        number: u32,
        system: u8,
    },
    /// No frame has this number yet.
    NoSuch {
        number: u32,
        system: u8,
    },
    /// The frame is older than the bound of its LAN.
    Late {
        number: u32,
        system: u8,
    },
    /// The system has no port on the frame's LAN.
    NotThere {
        number: u32,
        system: u8,
    },
    /// The system sent the frame, or it is for another one.
    NotOurs {
        number: u32,
        system: u8,
    },
    /// The end of a `settle`.
    Settle {
        answer: Settled,
    },
    /// Octets that a system got, though no system sent them.
    Inject {
        system: u8,
    },
    /// The system has no port on the LAN of such octets.
    InjectNotThere {
        system: u8,
    },
    /// A TPDU that cannot be read, with the octet at which it cannot.
    BadTpdu {
        system: u8,
        cause: TpduCause,
        place: u32,
    },
    /// A TPDU that is for no end of the system.
    Unknown {
        system: u8,
        kind: Kind,
    },
    /// The transport entity of a system begins again, without its ends.
    Restart {
        system: u8,
    },
    /// A transport unit that came to a system whose entity is silent.
    Silent {
        system: u8,
    },
    /// A datagram that the network took from a selector of a system, for an address and a selector there. Its lists stand
    /// apart, so that an event is small.
    Send {
        system: u8,
        selector: Boxed<Bytes>,
        to: Address,
        called: Boxed<Bytes>,
        octets: Boxed<Bytes>,
    },
    /// A datagram that is shown at a system, from an address and a selector there, for a selector of the system.
    Datagram {
        system: u8,
        from: Address,
        calling: Boxed<Bytes>,
        called: Boxed<Bytes>,
        octets: Boxed<Bytes>,
    },
    /// A UD that cannot be read, with the octet at which it cannot.
    BadUd {
        system: u8,
        cause: UdCause,
        place: u32,
    },
    /// A UD for a selector at which its system has no user.
    NoUser {
        system: u8,
    },
    /// Two ends that a relay joins: the one that was asked, and the one that it made on.
    Joined {
        inbound: u32,
        outbound: u32,
    },
}

// By hand, so that it is proved here alone: what is derived is proved again in each crate that lets one go.
impl Drop for Event {
    fn drop(self) {
        match self {
            Event::Tick { now: _ } => {}
            Event::Connect(_) => {}
            Event::Incoming(_) => {}
            Event::End { number: _, what: _ } => {}
            Event::Data { end: _, octets: _ } => {}
            Event::Expedite { end: _, octets: _ } => {}
            Event::Refuse { end: _, octets: _ } => {}
            Event::Disconnect { end: _, octets: _ } => {}
            Event::No { cause: _ } => {}
            Event::Sent {
                system: _,
                to: _,
                octets: _,
            } => {}
            Event::Unit {
                system: _,
                from: _,
                octets: _,
            } => {}
            Event::Net(_) => {}
            Event::Dropped {
                system: _,
                cause: _,
            } => {}
            Event::Deliver {
                number: _,
                system: _,
            } => {}
            Event::NoSuch {
                number: _,
                system: _,
            } => {}
            Event::Late {
                number: _,
                system: _,
            } => {}
            Event::NotThere {
                number: _,
                system: _,
            } => {}
            Event::NotOurs {
                number: _,
                system: _,
            } => {}
            Event::Settle { answer: _ } => {}
            Event::Inject { system: _ } => {}
            Event::InjectNotThere { system: _ } => {}
            Event::BadTpdu {
                system: _,
                cause: _,
                place: _,
            } => {}
            Event::Unknown { system: _, kind: _ } => {}
            Event::Restart { system: _ } => {}
            Event::Silent { system: _ } => {}
            Event::Send {
                system: _,
                selector: _,
                to: _,
                called: _,
                octets: _,
            } => {}
            Event::Datagram {
                system: _,
                from: _,
                calling: _,
                called: _,
                octets: _,
            } => {}
            Event::BadUd {
                system: _,
                cause: _,
                place: _,
            } => {}
            Event::NoUser { system: _ } => {}
            Event::Joined {
                inbound: _,
                outbound: _,
            } => {}
        }
    }
}
