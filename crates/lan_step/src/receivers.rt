//! Which systems of a LAN a frame is for: those with its SNPA, and those of its group (IEEE 802.3; ISO 9542, subnetwork addresses).

ghost use Rattle.std.specs.Prelude.{◌≡◌};
ghost use Rattle.lan_step.specs.Receivers.{goes_to, is_named_by, is_one_of, group_of_kind};

use crate::row::PortRow;
use nsap::{ALL_END_SYSTEMS, ALL_INTERMEDIATE_SYSTEMS, Port, Snpa};

impl PortRow {
    /// Whether the port is one of a destination.
    pub fn is_one_of(&self, to: &Port) -> bool
        ensures { result ≡ is_one_of to.now self.now }
    {
        self.port.lan == to.lan && self.is_named_by(&to.snpa)
    }

    /// Whether the port has the SNPA, or is of the kind of the group.
    pub fn is_named_by(&self, snpa: &Snpa) -> bool
        ensures { result ≡ is_named_by self.now snpa.now }
    {
        self.port.snpa == *snpa || group_of(self.end) == *snpa
    }
}

/// The group of a kind of system.
pub fn group_of(end: bool) -> Snpa
    ensures { result ≡ group_of_kind end }
{
    Snpa::of(if end {
        ALL_END_SYSTEMS
    } else {
        ALL_INTERMEDIATE_SYSTEMS
    })
}

/// Whether a system is one of a destination, by these.
pub fn goes_to(rows: &[PortRow], system: u8, to: &Port) -> bool
    ensures { result ≡ goes_to rows.now to.now system }
{
    rows.iter()
        .any(|row| row.system == system && row.is_one_of(to))
}
