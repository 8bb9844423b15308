//! When a frame is late: no system takes it any more.

ghost use Rattle.std.specs.Prelude.{◌≡◌};
ghost use Rattle.lan_step.specs.Frames.{is_live};

use crate::frame::Sent;
use crate::setup::Setup;
use osi_base::Tick;

impl Sent {
    /// Whether it may still be taken.
    pub fn is_live(&self, clock: Tick, setup: &Setup) -> bool
        ensures { result ≡ is_live clock setup.now.lans self.now }
    {
        u64::from(clock) <= u64::from(self.tick()) + u64::from(setup.bound(self.to().lan))
    }
}
