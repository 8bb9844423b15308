//! The way of a unit: between two end systems on one LAN (X.233, Inactive Network Layer Protocol subset).

ghost use Rattle.std.specs.Prelude.{◌≡◌};
ghost use Rattle.inactive_step.specs.Way.{way_from};

use crate::rows::Rows;
use inactive_step::Way;
use nsap::Nsap;

impl Rows {
    /// The way from one address to another; None exactly where they are not those of two end systems on one LAN.
    pub fn way(&self, from: &Nsap, to: &Nsap) -> Option<Way>
        ensures { result ≡ way_from self.now from.now to.now }
    {
        let source = *self.with_address(from)?;
        let goal = *self.with_address(to)?;
        let apart = source.port.lan == goal.port.lan && source.address != goal.address;
        apart.then_some(Way { source, goal })
    }
}
