//! Which answers choices of a frame get (IEEE 802.3).

ghost use Rattle.std.specs.Prelude.{◌≡◌};
ghost use Rattle.lan_step.specs.Frames.{picked, picked_of};

use crate::frame::Sent;
use crate::frame_store::FrameStore;
use crate::setup::Setup;
use osi_base::{Picked, Tick};

/// The answer to a choice: the first that applies.
pub fn judge(clock: Tick, setup: &Setup, frames: &FrameStore, pick: u32, system: u8) -> Picked
    ensures { result ≡ picked clock setup.now.lans setup.now.rows frames.now pick system }
{
    if pick == 0 || pick > frames.count() {
        return Picked::NoSuch;
    }
    match frames.get(pick) {
        Some(sent) if sent.is_live(clock, setup) => judge_system(setup, sent, system),
        _ => Picked::Late,
    }
}

/// The answer to a choice of a live frame.
fn judge_system(setup: &Setup, sent: &Sent, system: u8) -> Picked
    ensures { result ≡ picked_of setup.now.rows system sent.now }
{
    if !setup.has_port(system, sent.to().lan) {
        Picked::NotThere
    } else if setup.is_sender(system, &sent.from()) || !setup.is_receiver(system, &sent.to()) {
        Picked::NotOurs
    } else {
        Picked::Taken
    }
}
