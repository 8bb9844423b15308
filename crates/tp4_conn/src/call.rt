//! The calls of a user of an end (X.214, service primitives).

use crate::Timers;
use nsap::Nsap;
use osi_base::Bytes;
use tpdu::{Options, State};

/// What a user asks of its end.
#[derive(Drop)]
pub enum UserCall {
    /// A connect response, with octets for the CC.
    Accept(Options, Bytes),
    /// A refusal, with octets for the DR.
    Refuse(Bytes),
    /// A normal unit.
    Normal(Bytes),
    /// An expedited unit.
    Urgent(Bytes),
    /// The credit that the partner gets, 255 at most.
    Window(u16),
    /// A disconnect request, with octets for the DR.
    Disconnect(Bytes),
}

/// Why a call was refused, in this order.
#[derive(Clone, Copy, Debug)]
pub enum CallRefusal {
    /// The state has no row for the call.
    WrongState(State),
    /// A unit has no octets.
    EmptyUnit,
    /// More than 32 octets of an accept, 64 of a refusal or a disconnect, 16,384 of a normal unit, 16 of an expedited one.
    TooLong,
    /// Expedited data is not agreed.
    NoExpedited,
    /// 64 units wait, or the octets of normal ones would pass 131,072.
    QueueFull,
    /// Memory ran out.
    NoMemory,
}

/// What a user asks for who wants a connection.
#[derive(Drop)]
pub struct ConnectRequest {
    /// The calling selector, of 1 to 32 octets.
    pub from_selector: Bytes,
    /// The address of the partner.
    pub to: Nsap,
    /// The called selector, of 1 to 32 octets.
    pub to_selector: Bytes,
    /// What the CR proposes.
    pub options: Options,
    /// The octets of the CR, 32 at most.
    pub octets: Bytes,
}

/// What an end that calls is made by.
#[derive(Drop)]
pub struct ConnectCall {
    /// The reference of the new end.
    pub own: u16,
    /// What the user asks for.
    pub request: ConnectRequest,
    /// Its timers.
    pub rules: Timers,
}
