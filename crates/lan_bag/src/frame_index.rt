//! An index of the frames by what they carry (IEEE 802.3).

ghost use Rattle.std.specs.Prelude.{◌≡◌, ◌<◌, ◌≤◌, ◌+◌, ◌*◌, true, false, length, map, option_copied, slice_get, OnOk, OnErr};
ghost use Rattle.std.specs.BTreeSet.{IsUnchanged, Updates, contains, keys_between};
ghost use Rattle.std.specs.List.{list_any};
ghost use Rattle.std.specs.Ordering.{nat_cmp};
ghost use Rattle.std.specs.declared.ops.Bound.TheVariants.{Included};
ghost use Rattle.lan_step.specs.Frames.{kept, kept_at, carries_live};
ghost use Rattle.lan_bag.specs.steps.Index.{AreIndexed, AreIndexedTo, Joins, JoinsWhere, carries_at, code_of, key_of, sum_from};

use crate::frame::Sent;
use crate::frame_store::FrameStore;
use crate::setup::Setup;
use nsap::Port;
use osi_base::{NoMemory, Tick, Unit};
use std::alloc::Global;
use std::collections::BTreeSet;

/// How many places there are.
const PLACES: u64 = 4_294_967_296;

/// The frames by a sum over what each carries, before its place.
///
/// They are listed once that is wanted, that is from the first injection on: before that no arrival is looked up, and nothing is put
/// there.
#[derive(Drop)]
pub struct FrameIndex {
    wanted: bool,
    codes: BTreeSet<u64>,
}

impl FrameIndex {
    /// No frame is listed before `index_all`.
    pub fn new(alloc: Global) -> FrameIndex
        ensures { result.wanted ≡ false }
    {
        FrameIndex {
            wanted: false,
            codes: BTreeSet::new(alloc),
        }
    }

    /// From here on each frame is listed.
    pub fn index_all(&mut self, frames: &FrameStore) -> Result<(), NoMemory>
        ensures ok { OnOk result (self.new.wanted ≡ true) }
        ensures codes { (self.old.wanted ≡ true → AreIndexed (contains nat_cmp self.old.codes) frames.now)
            → self.new.wanted ≡ true → AreIndexed (contains nat_cmp self.new.codes) frames.now }
    {
        if self.wanted {
            return Ok(());
        }
        enlist_all(&mut self.codes, frames)?;
        self.wanted = true;
        Ok(())
    }

    /// Lists what stands at a place, where that is wanted. At NoMemory it is wanted no more: the next `index_all` lists each frame anew.
    // Inlined: mostly one look tells.
    #[inline(always)]
    pub fn enlist(&mut self, frames: &FrameStore, place: u32) -> Result<(), NoMemory>
        ensures ok { OnOk result ((self.new.wanted ≡ self.old.wanted)
            × JoinsWhere self.old.wanted (kept (slice_get frames.now place)) place self.old.codes self.new.codes) }
        ensures err { OnErr result ((self.old.wanted ≡ true) × (self.new.wanted ≡ false) × IsUnchanged self.old.codes self.new.codes) }
        ensures indexed { (self.old.wanted ≡ true → AreIndexedTo (contains nat_cmp self.old.codes) place frames.now)
            → self.new.wanted ≡ true → AreIndexedTo (contains nat_cmp self.new.codes) (place + 1) frames.now }
    {
        if !self.wanted {
            return Ok(());
        }
        self.enlist_wanted(frames, place)
    }

    /// Lists what stands at a place.
    // Not inlined: where nothing was injected, as mostly, there is no room for its values to clear.
    #[inline(never)]
    fn enlist_wanted(&mut self, frames: &FrameStore, place: u32) -> Result<(), NoMemory>
        ensures ok { OnOk result ((self.new.wanted ≡ true) × Joins (kept (slice_get frames.now place)) place self.old.codes self.new.codes) }
        ensures err { OnErr result ((self.new.wanted ≡ false) × IsUnchanged self.old.codes self.new.codes) }
        ensures indexed { AreIndexedTo (contains nat_cmp self.old.codes) place frames.now
            → self.new.wanted ≡ true → AreIndexedTo (contains nat_cmp self.new.codes) (place + 1) frames.now }
    {
        self.wanted = false;
        enlist_at(&mut self.codes, frames, place)?;
        self.wanted = true;
        Ok(())
    }

    /// The late frames at these places leave the index.
    pub fn delist(&mut self, clock: Tick, setup: &Setup, frames: &FrameStore, places: &[u32])
        ensures wanted { self.new.wanted ≡ self.old.wanted }
        ensures codes { self.old.wanted ≡ true → AreIndexed (contains nat_cmp self.old.codes) (map (kept_at clock setup.now.lans) frames.now)
            → AreIndexed (contains nat_cmp self.new.codes) (map (kept_at clock setup.now.lans) frames.now) }
    {
        if self.wanted {
            delist_all(&mut self.codes, clock, setup, frames, places);
        }
    }

    /// Whether a live frame carries that unit.
    pub fn carries(
        &self,
        clock: Tick,
        setup: &Setup,
        frames: &FrameStore,
        unit: &Unit<Port>,
    ) -> bool
        requires { AreIndexed (contains nat_cmp self.now.codes) frames.now }
        ensures { result ≡ list_any (carries_live clock setup.now.lans unit.now) frames.now }
    {
        any_at(&self.codes, clock, setup, frames, unit)
    }
}

/// The frame of a place is listed.
fn put(codes: &mut BTreeSet<u64>, sent: &Sent, place: u32) -> Result<(), NoMemory>
    ensures ok { OnOk result (Updates nat_cmp codes.old codes.new (code_of (key_of sent.now.unit) place) true) }
    ensures err { OnErr result (IsUnchanged codes.old codes.new) }
{
    codes.insert(code_for(sent, place))?;
    Ok(())
}

/// Each frame is listed.
fn enlist_all(codes: &mut BTreeSet<u64>, frames: &FrameStore) -> Result<(), NoMemory>
    ensures { OnOk result (AreIndexed (contains nat_cmp codes.new) frames.now) }
{
    for place in 0..frames.count() {
        enlist_at(codes, frames, place)?;
    }
    Ok(())
}

/// What stands at a place is listed, behind what stands before it.
fn enlist_at(codes: &mut BTreeSet<u64>, frames: &FrameStore, place: u32) -> Result<(), NoMemory>
    ensures ok { OnOk result (Joins (kept (slice_get frames.now place)) place codes.old codes.new) }
    ensures err { OnErr result (IsUnchanged codes.old codes.new) }
    ensures indexed { OnOk result (AreIndexedTo (contains nat_cmp codes.old) place frames.now → AreIndexedTo (contains nat_cmp codes.new) (place + 1) frames.now) }
{
    match frames.at(place) {
        Some(sent) => put(codes, sent, place),
        None => Ok(()),
    }
}

/// The late frames at these places leave the index.
fn delist_all(
    codes: &mut BTreeSet<u64>,
    clock: Tick,
    setup: &Setup,
    frames: &FrameStore,
    places: &[u32],
)
    ensures { AreIndexed (contains nat_cmp codes.old) (map (kept_at clock setup.now.lans) frames.now)
        → AreIndexed (contains nat_cmp codes.new) (map (kept_at clock setup.now.lans) frames.now) }
{
    for place in places {
        delist_at(codes, clock, setup, frames, *place);
    }
}

/// The frame at a place leaves the index, where it is late.
fn delist_at(codes: &mut BTreeSet<u64>, clock: Tick, setup: &Setup, frames: &FrameStore, place: u32)
    ensures { AreIndexed (contains nat_cmp codes.old) (map (kept_at clock setup.now.lans) frames.now)
        → AreIndexed (contains nat_cmp codes.new) (map (kept_at clock setup.now.lans) frames.now) }
{
    let Some(sent) = frames.at(place) else {
        return;
    };
    if sent.is_live(clock, setup) {
        return;
    }
    let code = code_for(sent, place);
    codes.remove(&code);
}

/// Whether one of the frames that are listed under the key of this unit is live and carries it.
fn any_at(
    codes: &BTreeSet<u64>,
    clock: Tick,
    setup: &Setup,
    frames: &FrameStore,
    unit: &Unit<Port>,
) -> bool
    ensures any { result ≡ list_any (carries_at clock setup.now.lans unit.now frames.now)
        (keys_between nat_cmp (Included (key_of unit.now * 4294967296)) (Included (key_of unit.now * 4294967296 + 4294967295)) codes.now) }
    ensures numbers { length frames.now ≤ 4294967295 }
{
    // Each place fits its part of a code.
    prove!(u64::from(frames.count()) < PLACES);
    let key = key_for(&unit.from, &unit.to, unit.octets.as_slice());
    let low = u64::from(key) * PLACES;
    let high = low + (PLACES - 1);
    codes
        .range(low..=high)
        .any(|code| is_at(clock, setup, frames, *code, unit))
}

/// Whether the frame of that code, where there is one, is live and carries this unit.
fn is_at(clock: Tick, setup: &Setup, frames: &FrameStore, code: u64, unit: &Unit<Port>) -> bool
    ensures { result ≡ carries_at clock setup.now.lans unit.now frames.now code }
{
    match frames.at((code % PLACES) as u32) {
        Some(sent) => sent.is_live(clock, setup) && sent.carries(unit),
        None => false,
    }
}

/// The code of a frame at that place.
fn code_for(sent: &Sent, place: u32) -> u64
    ensures { result ≡ code_of (key_of sent.now.unit) place }
{
    let key = key_for(&sent.from(), &sent.to(), sent.octets());
    u64::from(key) * PLACES + u64::from(place)
}

/// A sum of the octets of the SNPAs and of what is carried, in their order.
fn key_for(from: &Port, to: &Port, octets: &[u8]) -> u32
    ensures { result ≡ sum_from (sum_from (sum_from 0 from.now.snpa) to.now.snpa) octets.now }
{
    let sum = sum_after(0, from.snpa.octets());
    let sum = sum_after(sum, to.snpa.octets());
    sum_after(sum, octets)
}

/// A sum with the octets behind what was added up.
fn sum_after(start: u32, octets: &[u8]) -> u32
    ensures { result ≡ sum_from start octets.now }
{
    let mut sum = start;
    for octet in octets {
        sum = sum.wrapping_mul(31).wrapping_add(u32::from(*octet));
    }
    sum
}
