//! Which frames a LAN takes, and why it drops the others (IEEE 802.3).

ghost use Rattle.std.specs.Prelude.{◌≡◌};
ghost use Rattle.lan_step.specs.Rows.{sender_of};
ghost use Rattle.lan_step.specs.Offers.{offered};

use crate::frame_store::FrameStore;
use crate::setup::Setup;
use nsap::Port;
use osi_base::{DropCause, Offered, Unit};

/// The answer to an offer of a unit of a system: the first cause that applies.
pub fn answer_to(
    setup: &Setup,
    frames: &FrameStore,
    sender: Option<u8>,
    unit: &Unit<Port>,
) -> Offered
    requires { sender ≡ sender_of setup.now.rows unit.now.from }
    ensures { result ≡ offered setup.now.lans setup.now.rows frames.now unit.now }
{
    if sender.is_none() || unit.from.lan != unit.to.lan {
        Offered::Dropped(DropCause::NoRoute)
    } else if unit.octets.as_slice().len() as u64 > u64::from(setup.room(unit.to.lan)) {
        Offered::Dropped(DropCause::TooLong)
    } else if frames.is_full() {
        Offered::Dropped(DropCause::Full)
    } else {
        Offered::Taken
    }
}
