//! The systems that have users of datagrams (X.234).

ghost use Rattle.std.specs.Prelude.{◌≡◌, option_copied};
ghost use Rattle.cltp.specs.Systems.{has_selector, is_for, system_at};

use nsap::{Nsap, TRANSPORT};
use osi_base::{Bytes, Items};

/// A system with its users.
#[derive(Drop)]
pub struct ClSystem {
    /// The number of the system.
    pub system: u8,
    /// Its address for transport.
    pub own: Nsap,
    /// The transport selectors at which it takes datagrams.
    pub selectors: Items<Bytes>,
}

impl ClSystem {
    /// Whether a unit to an address is for its users.
    pub(crate) fn is_for(&self, to: &Nsap) -> bool
        ensures { result ≡ is_for self.now to.now }
    {
        to.selector() == TRANSPORT && self.own == *to
    }

    pub(crate) fn has_selector(&self, selector: &[u8]) -> bool
        ensures { result ≡ has_selector self.now selector.now }
    {
        self.selectors
            .as_slice()
            .iter()
            .any(|own| own.as_slice() == selector)
    }
}

/// The system of a number.
pub fn system_at(systems: &[ClSystem], system: u8) -> Option<&ClSystem>
    ensures { option_copied result ≡ system_at systems.now system }
{
    systems.iter().find(|one| one.system == system)
}
