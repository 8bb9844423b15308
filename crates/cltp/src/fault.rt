//! Why octets are no UD (X.234, treatment of invalid TPDUs).

ghost use Rattle.std.specs.Prelude.{◌≡◌};

use script_journal::UdCause;

/// The first fault of a UD, and the number of its octet from 1; 0 for none.
#[derive(Clone, Copy, Debug, PartialEq, Eq)]
pub struct UdFault {
    pub cause: UdCause,
    pub place: u32,
}

impl UdFault {
    /// The fault of this cause at this place.
    pub(crate) fn at(cause: UdCause, place: u32) -> UdFault
        ensures { result ≡ record { cause = cause; place = place } }
    {
        UdFault { cause, place }
    }
}
