//! Why calls are refused, and what else a line of the transcript names.

use tpdu::State;

/// Why a user's call is refused: the words after `no`.
#[derive(Clone, Copy)]
pub enum Refused {
    /// No end has that number.
    NoSuchEnd,
    /// The end's state has no such call.
    WrongState(State),
    /// The end is over, and its reference is free again.
    Ended,
    /// A unit with no octets.
    EmptyUnit,
    /// More octets than there may be.
    TooLong,
    /// No expedited data was agreed.
    NoExpedited,
    /// The sending queue is full.
    QueueFull,
    /// No reference is free.
    RefsSpent,
    /// The transport entity began again, and is silent.
    Silent,
    /// No hop for the destination.
    NoRoute,
    /// As many units are on their way as may be.
    Full,
    /// No data unit identifier is free.
    IdsSpent,
    /// The end is one of a relay.
    Relayed,
}

/// How a `settle` ends, with its deliveries.
#[derive(Clone, Copy)]
pub enum Settled {
    /// Nothing was left to deliver.
    Settled(u32),
    /// There were as many deliveries as there may be.
    Stopped(u32),
}

/// Why a UD cannot be read (X.234, treatment of invalid TPDUs), in the order in which it is looked for.
///
/// Param and Unknown are looked for together, parameter by parameter from left to right.
#[derive(Clone, Copy, Debug, PartialEq, Eq)]
pub enum UdCause {
    /// There are fewer than two octets.
    Short,
    /// The length indicator is 0, 255 or above what is left.
    Length,
    /// The code is not that of a UD.
    Code,
    /// A parameter does not fit, or has another length.
    Param,
    /// A parameter is not known.
    Unknown,
    /// A transport selector is not there.
    Missing,
    /// The checksum does not hold.
    Checksum,
}
