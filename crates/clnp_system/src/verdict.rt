//! What is to be done with a PDU (X.233, PDU header analysis, route PDU, discard PDU).

use clnp_options::Reason;
use nsap::Hop;

/// What a system does with a PDU that came.
#[derive(Clone, Copy)]
pub enum Verdict {
    /// It is discarded, for a reason and at a place.
    Discard { reason: Reason, place: u8 },
    /// It is an ER PDU for this system, which tells its reason.
    Tell,
    /// It is a whole unit for this end system.
    Take,
    /// It is a segment for this end system.
    Join,
    /// It goes onward to the hop.
    Onward(Hop),
}
