//! Which delivery comes next: the first frame that a system may take and has not taken (IEEE 802.3).

ghost use Rattle.std.specs.Prelude.{◌≡◌, ◌≢◌, ◌≤◌, ◌+◌, length, IsSome, Some, option_copied, slice_get};
ghost use Rattle.lan_step.specs.Frames.{Frame, frame_of, kept};
ghost use Rattle.lan_bag.specs.steps.Openings.{is_free_to, IsClosedTo, IsFreshAt, IsLeastAt, IsLeastOpen, lesser_of};

use crate::frame::Sent;
use crate::frame_store::FrameStore;
use crate::setup::Setup;
use nsap::Port;
use osi_base::Tick;

/// The first frame that a system may take and has not taken. It is kept, since a run asks for it again and again: then nobody looks at
/// the frames before it once more.
#[derive(Clone, Copy)]
pub struct LeastPair {
    /// Its place, and where there is none how many frames were numbered.
    pub place: u32,
    /// Its number, and the least system that may take it and has not.
    pub pair: Option<(u32, u8)>,
}

/// The first frame, from that place on, that a system may take and has not taken.
fn first_fresh(clock: Tick, setup: &Setup, frames: &FrameStore, from: u32) -> LeastPair
    requires within { from ≤ length frames.now }
    requires closed { IsClosedTo clock setup.now.lans setup.now.rows frames.now from }
    ensures { IsFreshAt clock setup.now.lans setup.now.rows frames.now result.place result.pair }
{
    let mut place = from;
    while place < frames.count() {
        if let Some(system) = first_system_at(clock, setup, frames.at(place)) {
            let pair = Some((place + 1, system));
            return LeastPair { place, pair };
        }
        place += 1;
    }
    LeastPair { place, pair: None }
}

/// The same where it was known, and since then at most the frame of a number came or was taken.
pub fn fresh_after(
    clock: Tick,
    setup: &Setup,
    frames: &FrameStore,
    fresh: LeastPair,
    number: u32,
) -> LeastPair
    requires within { fresh.place ≤ length frames.now }
    requires closed { IsClosedTo clock setup.now.lans setup.now.rows frames.now fresh.place }
    requires others { fresh.place + 1 ≢ number → IsFreshAt clock setup.now.lans setup.now.rows frames.now fresh.place fresh.pair }
    ensures { IsFreshAt clock setup.now.lans setup.now.rows frames.now result.place result.pair }
{
    if u64::from(fresh.place) + 1 == u64::from(number) {
        first_fresh(clock, setup, frames, fresh.place)
    } else {
        fresh
    }
}

/// The same where it was known, and since then the frame of a number came, behind the others, for that destination: where it goes to no
/// port, no frame is looked at.
// Inlined: mostly one look at the destination or at the place tells.
#[inline(always)]
pub fn open_with(
    clock: Tick,
    setup: &Setup,
    frames: &FrameStore,
    fresh: LeastPair,
    number: u32,
    to: &Port,
) -> LeastPair
    requires within { fresh.place ≤ length frames.now }
    requires closed { IsClosedTo clock setup.now.lans setup.now.rows frames.now fresh.place }
    requires others { fresh.place + 1 ≢ number → IsFreshAt clock setup.now.lans setup.now.rows frames.now fresh.place fresh.pair }
    requires last { length frames.now ≡ number }
    requires to { (frame : Frame) → frame_of frames.now number ≡ Some frame → frame.unit.to ≡ to.now }
    ensures { IsFreshAt clock setup.now.lans setup.now.rows frames.now result.place result.pair }
{
    if u64::from(fresh.place) + 1 == u64::from(number) && !setup.may_reach(to) {
        return LeastPair {
            place: number,
            pair: None,
        };
    }
    fresh_after(clock, setup, frames, fresh, number)
}

/// The same where it was known, and since then the frames that are late were given up.
pub fn fresh_while_live(
    clock: Tick,
    setup: &Setup,
    frames: &FrameStore,
    fresh: LeastPair,
) -> LeastPair
    requires within { fresh.place ≤ length frames.now }
    requires closed { IsClosedTo clock setup.now.lans setup.now.rows frames.now fresh.place }
    requires stands { IsSome (kept (slice_get frames.now fresh.place)) → IsFreshAt clock setup.now.lans setup.now.rows frames.now fresh.place fresh.pair }
    ensures { IsFreshAt clock setup.now.lans setup.now.rows frames.now result.place result.pair }
{
    match frames.at(fresh.place) {
        Some(_) => fresh,
        None => first_fresh(clock, setup, frames, fresh.place),
    }
}

/// The least system that may take the frame that stands at a place, and has not.
fn first_system_at(clock: Tick, setup: &Setup, frame: Option<&Sent>) -> Option<u8>
    ensures { IsLeastAt clock setup.now.lans setup.now.rows (option_copied frame.entry) result }
{
    match frame {
        Some(sent) => first_system(clock, setup, sent),
        None => None,
    }
}

/// The least system that may take a frame, and has not; no port is looked at where it goes to none.
fn first_system(clock: Tick, setup: &Setup, sent: &Sent) -> Option<u8>
    ensures { IsLeastOpen clock setup.now.lans setup.now.rows sent.now result }
{
    if setup.may_reach(&sent.to()) {
        first_system_on(clock, setup, sent)
    } else {
        None
    }
}

/// The least system of the ports on its LAN that may take a frame, and has not.
fn first_system_on(clock: Tick, setup: &Setup, sent: &Sent) -> Option<u8>
    ensures { IsLeastOpen clock setup.now.lans setup.now.rows sent.now result }
{
    if !sent.is_live(clock, setup) {
        return None;
    }
    let to = sent.to();
    let mut least = None;
    for row in setup.rows_on(to.lan) {
        if row.is_one_of(&to) && is_free(setup, sent, row.system) {
            least = Some(lesser(least, row.system));
        }
    }
    least
}

/// Whether a system has not taken a frame, and did not send it.
fn is_free(setup: &Setup, sent: &Sent, system: u8) -> bool
    ensures { result ≡ is_free_to setup.now.rows sent.now system }
{
    !sent.was_taken(system) && !setup.is_sender(system, &sent.from())
}

/// The lesser of two systems, where there are two.
fn lesser(least: Option<u8>, system: u8) -> u8
    ensures { result ≡ lesser_of least system }
{
    match least {
        Some(found) if found < system => found,
        _ => system,
    }
}
