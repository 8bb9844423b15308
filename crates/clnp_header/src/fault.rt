//! Faults in front of the addresses (X.233, reason for discard).

ghost use Rattle.std.specs.Prelude.{◌≡◌, false};

use clnp_options::{Fault, Reason};

/// A fault that no error report tells of, since the addresses of the PDU are not yet known.
pub fn early(reason: Reason, place: u8) -> Fault
    ensures { result ≡ record { reason = reason; place = place; reportable = false } }
{
    Fault {
        reason,
        place,
        reportable: false,
    }
}
