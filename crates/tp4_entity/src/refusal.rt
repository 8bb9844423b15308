//! Why an entity refuses what its users ask.

use tp4_conn::CallRefusal;

/// Why a selector was not registered.
#[derive(Clone, Copy, Debug)]
pub enum TsapRefusal {
    /// It is registered.
    TsapTaken,
    /// Memory ran out.
    NoMemory,
}

/// Why a connection was not begun, in this order.
#[derive(Clone, Copy, Debug)]
pub enum ConnectRefusal {
    /// The entity began again, and is silent.
    Silent,
    /// The connect request has more than 32 octets.
    TooLong,
    /// Each reference is used or frozen.
    RefsSpent,
    /// Memory ran out.
    NoMemory,
}

/// Why a call was refused, in this order.
#[derive(Clone, Copy, Debug)]
pub enum EntityRefusal {
    /// No end stands at the reference.
    NoSuchEnd,
    /// The end refuses it.
    Call(CallRefusal),
}
