//! The frames by their numbers (IEEE 802.3).

ghost use Rattle.std.specs.Prelude.{◌≡◌, ◌<◌, ◌≤◌, ◌+◌, ◌++◌, ◌∷◌, [], Some, None, if◌then◌else◌, not, ◌&&◌, ◌||◌, nat_le, length, map, is_some, option_copied, replicate, slice_get, OnOk, OnErr};
ghost use Rattle.lan_step.specs.Frames.{kept, frame_of, kept_at, marked_at, marked_slot};
ghost use Rattle.lan_step.specs.Offers.{live_count};
ghost use Rattle.lan_bag.specs.steps.Store.{marked_in};
ghost use Rattle.lan_bag.specs.steps.Wheel.{AreLateAmong, given_up_at};

use crate::frame::Sent;
use crate::setup::Setup;
use osi_base::{NoMemory, Tick};
use std::alloc::Global;
use std::collections::VecDeque;
use std::marker::Model;

/// The most live frames.
const MOST_LIVE: u32 = 16_384;

/// The frames in the order of their numbers; those that are late are given up. The live ones are counted, so that an offer goes over none.
#[derive(Drop)]
pub struct FrameStore {
    /// How many places in front have no frame any more: they take no memory.
    gone: u32,
    slots: VecDeque<Option<Sent>>,
    /// How many places have a frame: an offer is dropped where they are as many as may be.
    live: u32,
}

// The late frames at the front are gone; the live ones are counted, and the numbers fit.
impl Model for FrameStore {
    ghost use Rattle.std.specs.Prelude.{◌++◌, List, Option, None, replicate};
    ghost use Rattle.lan_step.specs.Frames.{Frame};
    ghost use Rattle.lan_bag.specs.steps.Store.{IsStored};

    ghost Value = { List (Option Frame) };

    ghost view = { λ s. replicate s.gone None ++ s.slots.items };

    ghost invariant = { λ s. IsStored s.gone s.slots.items s.live };
}

impl FrameStore {
    /// No frame, and the next number is 1.
    pub fn new(alloc: Global) -> FrameStore
        ensures { result ≡ [] }
    {
        FrameStore {
            gone: 0,
            slots: VecDeque::new(alloc),
            live: 0,
        }
    }

    /// How many frames were numbered.
    pub fn count(&self) -> u32
        ensures { result ≡ length self.now }
    {
        self.gone + self.slots.len() as u32
    }

    /// Whether no frame can be added.
    pub fn is_full(&self) -> bool
        ensures { result ≡ (nat_le 16384 (live_count self.now) || nat_le 4294967295 (length self.now)) }
    {
        self.live >= MOST_LIVE || self.count() == u32::MAX
    }

    /// The frame at a place, which is its number less one; None where it is late or there is none.
    pub fn at(&self, place: u32) -> Option<&Sent>
        ensures frame { option_copied result ≡ kept (slice_get self.now place) }
        ensures numbers { length self.now ≤ 4294967295 }
    {
        let index = place.checked_sub(self.gone)?;
        self.slots.get(index as usize)?.as_ref()
    }

    /// The frame of a number; None where it is late or there is none.
    pub fn get(&self, number: u32) -> Option<&Sent>
        ensures { option_copied result ≡ frame_of self.now number }
    {
        self.at(number.checked_sub(1)?)
    }

    /// One frame more, with the next number.
    ///
    /// At NoMemory nothing has changed.
    // Inlined: the frame is moved once less.
    #[inline(always)]
    pub fn push(&mut self, sent: Sent) -> Result<(), NoMemory>
        requires live { live_count self.old < 16384 }
        requires numbered { length self.old < 4294967295 }
        ensures ok { OnOk result (self.new ≡ self.old ++ Some sent ∷ []) }
        ensures err { OnErr result (self.new ≡ self.old) }
    {
        self.slots.push_back(Some(sent))?;
        self.live += 1;
        Ok(())
    }

    /// A system took the frame of a number.
    ///
    /// At NoMemory nothing has changed.
    pub fn mark(&mut self, number: u32, system: u8) -> Result<(), NoMemory>
        ensures ok { OnOk result (self.new ≡ marked_at self.old number system) }
        ensures err { OnErr result (self.new ≡ self.old) }
    {
        if number <= self.gone {
            return Ok(());
        }
        let index = (number - 1 - self.gone) as usize;
        mark_slot(&mut self.slots, index, system)?;
        Ok(())
    }

    /// Gives up the frames that are late, which stand at some of these places.
    pub fn give_up(&mut self, clock: Tick, setup: &Setup, places: &[u32])
        requires { AreLateAmong clock setup.now.lans places.now self.old }
        ensures { self.new ≡ map (kept_at clock setup.now.lans) self.old }
    {
        for place in places {
            self.give_up_at(clock, setup, *place);
        }
        self.trim();
    }

    /// Gives up the frame at a place where it is late.
    fn give_up_at(&mut self, clock: Tick, setup: &Setup, place: u32)
        ensures { self.new ≡ given_up_at clock setup.now.lans self.old place }
    {
        if place < self.gone {
            return;
        }
        let index = (place - self.gone) as usize;
        if empty_late(&mut self.slots, index, clock, setup) {
            self.live -= 1;
        }
    }

    /// Gives up the empty slots at the front.
    fn trim(&mut self)
        ensures { self.new ≡ self.old }
    {
        while let Some(None) = self.slots.front() {
            let _ = self.slots.pop_front();
            self.gone += 1;
        }
    }
}

/// A system took the frame in a slot.
fn mark_slot(slots: &mut VecDeque<Option<Sent>>, index: usize, system: u8) -> Result<(), NoMemory>
    ensures ok { OnOk result (slots.new.items ≡ marked_slot slots.old.items index system) }
    ensures err { OnErr result (slots.new.items ≡ slots.old.items) }
{
    match slots.get_mut(index) {
        Some(slot) => mark_sent(slot, system),
        None => Ok(()),
    }
}

/// A system took the frame that there is.
fn mark_sent(slot: &mut Option<Sent>, system: u8) -> Result<(), NoMemory>
    ensures ok { OnOk result (slot.new ≡ marked_in slot.old system) }
    ensures err { OnErr result (slot.new ≡ slot.old) }
{
    match slot {
        Some(sent) => sent.mark(system),
        None => Ok(()),
    }
}

/// Empties a slot where its frame is late; the answer is whether it was.
fn empty_late(slots: &mut VecDeque<Option<Sent>>, index: usize, clock: Tick, setup: &Setup) -> bool
    ensures slots { slots.new.items ≡ given_up_at clock setup.now.lans slots.old.items index }
    ensures late { live_count slots.old.items ≡ live_count slots.new.items + (if result then 1 else 0) }
{
    match slots.get_mut(index) {
        Some(slot) => empty_if_late(slot, clock, setup),
        None => false,
    }
}

/// Empties a slot where its frame is late; the answer is whether it was.
fn empty_if_late(slot: &mut Option<Sent>, clock: Tick, setup: &Setup) -> bool
    ensures slot { slot.new ≡ kept_at clock setup.now.lans slot.old }
    ensures late { result ≡ (is_some slot.old && not (is_some slot.new)) }
{
    match slot {
        Some(sent) if !sent.is_live(clock, setup) => {
            *slot = None;
            true
        }
        _ => false,
    }
}
