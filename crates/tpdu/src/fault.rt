//! Why octets are no TPDU (X.224, treatment of invalid TPDUs).

ghost use Rattle.std.specs.Prelude.{◌≡◌};

/// What is wrong with a TPDU, in the order in which it is looked for.
///
/// Param and Unknown are looked for together, parameter by parameter from left to right.
#[derive(Clone, Copy, Debug)]
pub enum TpduCause {
    /// There are fewer than two octets.
    Short,
    /// The length indicator is 0, 255 or above what is left.
    Length,
    /// The code is that of no kind.
    Code,
    /// The header ends within the fixed part.
    Fixed,
    /// The class is not 4.
    Class,
    /// A parameter does not fit, or has another length or size code.
    Param,
    /// A parameter is not known in this kind.
    Unknown,
    /// The checksum does not hold, or a CR has none.
    Checksum,
    /// The data has a length that the kind does not allow.
    Body,
}

/// The first fault of a TPDU, and the number of its octet from 1; 0 for none.
#[derive(Clone, Copy)]
pub struct TpduFault {
    pub cause: TpduCause,
    pub place: u32,
}

impl TpduFault {
    /// The fault of this cause at this place.
    pub(crate) fn at(cause: TpduCause, place: u32) -> TpduFault
        ensures { result ≡ record { cause = cause; place = place } }
    {
        TpduFault { cause, place }
    }
}
