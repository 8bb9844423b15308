//! Why a PDU of ES-IS is not taken (ISO 9542, PDU header analysis).

use thiserror::Error;

/// What is wrong with a PDU: the first fault in the order of these variants. It prints as its word in lower case.
#[derive(Clone, Copy, Debug, PartialEq, Eq, Error)]
pub enum EsisFault {
    /// Fewer octets than the least PDU has.
    #[error("short")]
    Short,
    /// A length indicator that is no length of a PDU, or above the octets given.
    #[error("length")]
    Length,
    /// Another protocol, or another version of it.
    #[error("version")]
    Version,
    /// A checksum with one octet 0, or one that does not hold.
    #[error("checksum")]
    Checksum,
    /// A type that is neither ESH, ISH nor RD.
    #[error("kind")]
    Kind,
    /// An address, an SNPA or a title that does not fit or has no allowed length.
    #[error("address")]
    Address,
    /// An option that does not fit.
    #[error("option")]
    Option,
}
