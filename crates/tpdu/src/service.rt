//! The words of the transport service and of its ends (X.214, service primitives; X.224, state tables).

use crate::Format;
use osi_base::Bytes;

/// How a connection is asked for or answered, and what two ends agree on.
#[derive(Clone, Copy, Debug)]
pub struct Options {
    /// Normal or extended formats.
    pub format: Format,
    /// The most octets of a TPDU.
    pub size: u16,
    /// Expedited data.
    pub expedited: bool,
    /// A checksum in each TPDU.
    pub sum: bool,
    /// Whether the size is a preferred one: a multiple of 128 octets.
    pub preferred: bool,
}

/// A state of an end (X.224, state tables).
#[derive(Clone, Copy, Debug, PartialEq, Eq)]
pub enum State {
    /// A CR was sent.
    CrWait,
    /// A CR was sent, and the user disconnected.
    WaitBeforeClose,
    /// A CR came, and the user has not answered.
    UserWait,
    /// A CC was sent.
    AkWait,
    /// Data flow both ways.
    Opened,
    /// A DR was sent.
    Closing,
    /// The end is over, and its reference is kept from use.
    Frozen,
}

/// Why an end is gone (X.214, T-DISCONNECT indication).
#[derive(Clone, Copy, Debug, PartialEq, Eq)]
pub enum GoneCause {
    /// A DR with this reason came.
    Reason(u8),
    /// The partner end broke a rule of the protocol.
    Protocol,
    /// A TPDU was sent as often as it may be, and no answer came to the last sending.
    Exhausted,
    /// Nothing came from the partner end for too long.
    Inactive,
    /// The user did not answer a connect indication in time.
    AnswerTime,
}

/// Of what the number rule holds a number back.
#[derive(Clone, Copy, Debug)]
pub enum HeldKind {
    Dt,
    Ed,
}

/// What an end tells its user.
#[derive(Drop, Debug)]
pub enum EndTold {
    /// A connect response, with what is agreed.
    Accept { options: Options, octets: Bytes },
    /// A connect confirm, with what is agreed.
    Confirm { options: Options, octets: Bytes },
    /// A normal unit is shown.
    Got(Bytes),
    /// An expedited unit is shown.
    Urgent(Bytes),
    /// The credit that is in force.
    Window(u16),
    /// The first number that the number rule alone holds back.
    Held(HeldKind, u64),
    /// A disconnect indication: the end is gone, with the octets of the DR.
    Gone(GoneCause, Bytes),
}
