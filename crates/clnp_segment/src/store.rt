//! Units of which some segments came (X.233, reassembly, reassembly lifetime).

ghost use Rattle.std.specs.Prelude.{◌≡◌, ◌<◌, ◌≤◌, ◌+◌, ◌↔◌, IsTrue, [], drop, length, slice_get, slice_index_or, take, IfOk, None, Some};
ghost use Rattle.std.specs.List.{position, remove};
ghost use Rattle.clnp_header.specs.declared.pdu.SegmentPart.{SegmentPart};
ghost use Rattle.clnp_segment.specs.Joining.{filled_places};
ghost use Rattle.clnp_segment.specs.Store.{Expires, FitsIn, IsAt, IsWithin, MayCome, Takes, TakesAt, coming_of, has_key, octets_held};
ghost use Rattle.clnp_segment.specs.steps.Incoming.{incoming_of};
ghost use Rattle.clnp_segment.specs.steps.Places.{with_segment};

use crate::held::Verdict;
use crate::unit::{HeldUnit, Incoming};
use clnp_header::PduRef;
use due_links::DueList;
use nsap::Nsap;
use osi_base::{Bytes, NoMemory, Tick};
use std::alloc::Global;
use std::collections::VecDeque;
use std::marker::Model;

/// What a segment comes to.
#[derive(Drop)]
pub enum Joined {
    /// It is held.
    Held,
    /// All octets of the unit are there.
    Whole(Bytes),
    /// There is no room for it.
    Full,
    /// It differs from what is held, which is dropped.
    Interference,
}

/// A unit that was given up.
#[derive(Drop)]
pub struct Expired {
    /// The source address.
    pub source: Nsap,
    /// What was said of the segment that came first.
    pub reportable: bool,
    /// The header of the segment that came first.
    pub header: Bytes,
}

/// The units of which some segments came, each until the lifetime of its segments has passed. The octets of all that is held are counted
/// in `used`, so that a segment goes over those of its own unit alone.
pub struct Store {
    alloc: Global,
    clock: Tick,
    units: u32,
    octets: usize,
    used: usize,
    // A ring, of which the shorter part moves where a unit goes: none where it is the first, which is mostly the one that is held longest.
    held: VecDeque<HeldUnit>,
    /// Until when each unit is held, in their order: a tick gives up those whose time has passed, and looks at none where none has; where a unit
    /// goes, no other deadline is written.
    due: DueList,
}

// By hand, so that it is proved here alone: what is derived is proved again in each crate that lets one go.
impl Drop for Store {
    fn drop(self) {
        let Store {
            alloc: _,
            clock: _,
            units: _,
            octets: _,
            used: _,
            held: _,
            due: _,
        } = self;
    }
}

// The octets used are those that are held, and what is due is exactly the deadline of each unit.
impl Model for Store {
    ghost use Rattle.std.specs.Prelude.{◌≡◌};
    ghost use Rattle.clnp_segment.specs.Store.{Holding, IsWithin, octets_held};
    ghost use Rattle.clnp_segment.specs.steps.Due.{AreDeadlines};

    ghost Value = { Holding };

    ghost view = { λ s. record { clock = s.clock; units = s.units; octets = s.octets; held = s.held.items } };

    ghost invariant = { λ s. IsWithin (record { clock = s.clock; units = s.units; octets = s.octets; held = s.held.items })
        × (s.used ≡ octets_held s.held.items) × AreDeadlines s.units s.held.items s.due };
}

impl Store {
    /// A store for so many units and so many octets of their data, with nothing in it. The memory for their list and their
    /// deadlines is taken here.
    pub fn new(alloc: Global, units: u32, octets: u32) -> Result<Store, NoMemory>
        ensures { IfOk result (λ store. store ≡ record { clock = 0; units = units; octets = octets; held = [] }) }
    {
        Ok(Store {
            alloc,
            clock: 0,
            units,
            octets: octets as usize,
            used: 0,
            held: VecDeque::with_capacity(alloc, units as usize)?,
            due: DueList::new(alloc, units)?,
        })
    }

    /// Takes a segment, of which so many ticks of its lifetime are left. `reportable` is kept for [`Expired`].
    ///
    /// The first that applies. Interference exactly where a held segment of its unit has another header or total length,
    /// or another octet at the same position; what was held of the unit is dropped. Whole exactly where all its octets are
    /// there; it is held no more. Full exactly where the unit is one too many or the octets pass the most; nothing changes.
    /// Else Held. At NoMemory the run ends.
    pub fn take(
        &mut self,
        now: Tick,
        pdu: &PduRef<'_>,
        left: u32,
        reportable: bool,
    ) -> Result<Joined, NoMemory>
        requires segment { MayCome pdu.now }
        requires left { left ≤ 255 }
        requires clock { self.old.clock ≤ now }
        requires end { now ≤ 4000000000 }
        ensures takes { IfOk result (λ answer. (part : SegmentPart) → pdu.now.segment ≡ Some part
            → Takes self.old now (coming_of pdu.now part left reportable) answer self.new) }
        ensures within { IsWithin self.new }
        ensures clock { IsAt self.old now self.new }
    {
        let part = pdu.segment.unwrap();
        let incoming = Incoming {
            pdu,
            part,
            left,
            reportable,
        };
        self.clock = now;
        match self.place_of(&incoming) {
            Some(place) => self.take_more(place, &incoming),
            None => self.take_first(&incoming),
        }
    }

    /// Gives up a unit of which the greatest arrival and lifetime have passed: of the least deadline, the one that came first.
    ///
    /// None exactly where there is none.
    pub fn expire(&mut self, now: Tick) -> Option<Expired>
        requires clock { self.old.clock ≤ now }
        requires end { now ≤ 4000000000 }
        ensures expires { Expires self.old now result self.new }
        ensures within { IsWithin self.new }
        ensures clock { IsAt self.old now self.new }
    {
        self.clock = now;
        let place = self.due.pop(now.checked_sub(1)?)?;
        let unit = take_out(&mut self.held, place);
        self.used -= unit.count();
        Some(unit.expired())
    }

    /// The place of the unit of the segment.
    fn place_of(&self, incoming: &Incoming<'_>) -> Option<usize>
        ensures { result ≡ position (has_key (incoming_of incoming.now).key) self.now.held }
    {
        self.held.iter().position(|unit| unit.is_of(incoming))
    }

    /// Takes a segment of a unit that is held.
    fn take_more(&mut self, place: usize, incoming: &Incoming<'_>) -> Result<Joined, NoMemory>
        requires place { place < length self.old.held }
        requires segment { FitsIn incoming.now.pdu.now incoming.now.part }
        requires left { incoming.now.left ≤ 255 }
        requires end { self.old.clock ≤ 4000000000 }
        ensures takes { IfOk result (λ answer. TakesAt self.old self.old.clock (incoming_of incoming.now)
            (take place self.old.held) (slice_get self.old.held place) (drop (place + 1) self.old.held) answer self.new) }
        ensures within { IsWithin self.new }
        ensures clock { IsAt self.old self.old.clock self.new }
    {
        let segment = incoming.segment();
        match self.held[place].judge(&segment) {
            Verdict::Clash => {
                drop(self.withdraw(place));
                Ok(Joined::Interference)
            }
            Verdict::Whole => {
                let unit = self.withdraw(place);
                Ok(Joined::Whole(unit.whole(&segment)?))
            }
            Verdict::Fresh(fresh) if self.octets - self.used < fresh => Ok(Joined::Full),
            Verdict::Fresh(fresh) => {
                let unit = &mut self.held[place];
                unit.add(&segment, self.clock + incoming.left)?;
                self.due.set(place, Some(unit.deadline()));
                self.used += fresh;
                Ok(Joined::Held)
            }
        }
    }

    /// Takes a segment of a unit of which nothing is held.
    fn take_first(&mut self, incoming: &Incoming<'_>) -> Result<Joined, NoMemory>
        requires none { position (has_key (incoming_of incoming.now).key) self.old.held ≡ None }
        requires segment { FitsIn incoming.now.pdu.now incoming.now.part }
        requires left { incoming.now.left ≤ 255 }
        requires end { self.old.clock ≤ 4000000000 }
        ensures takes { IfOk result (λ answer. TakesAt self.old self.old.clock (incoming_of incoming.now) self.old.held None [] answer self.new) }
        ensures within { IsWithin self.new }
        ensures clock { IsAt self.old self.old.clock self.new }
    {
        let segment = incoming.segment();
        if segment.is_unit() {
            let octets = Vec::from_slice(self.alloc, segment.octets)?;
            return Ok(Joined::Whole(Bytes::of(octets)));
        }
        self.hold_first(incoming)
    }

    /// Takes a segment of a unit of which nothing is held, by what is then held of it.
    fn hold_first(&mut self, incoming: &Incoming<'_>) -> Result<Joined, NoMemory>
        requires none { position (has_key (incoming_of incoming.now).key) self.old.held ≡ None }
        requires segment { FitsIn incoming.now.pdu.now incoming.now.part }
        requires left { incoming.now.left ≤ 255 }
        requires end { self.old.clock ≤ 4000000000 }
        ensures takes { IfOk result (λ answer. TakesAt self.old self.old.clock (incoming_of incoming.now) self.old.held None [] answer self.new) }
        ensures within { IsWithin self.new }
        ensures clock { IsAt self.old self.old.clock self.new }
    {
        let segment = incoming.segment();
        let deadline = self.clock + incoming.left;
        let mut unit = HeldUnit::new(self.alloc, deadline, incoming)?;
        match unit.judge(&segment) {
            Verdict::Clash => Ok(Joined::Interference),
            Verdict::Whole => Ok(Joined::Whole(unit.whole(&segment)?)),
            Verdict::Fresh(fresh) if !self.has_room(fresh) => Ok(Joined::Full),
            Verdict::Fresh(fresh) => {
                unit.add(&segment, deadline)?;
                let until = unit.deadline();
                self.held.push_back(unit)?;
                self.due.push(Some(until));
                self.used += fresh;
                Ok(Joined::Held)
            }
        }
    }

    /// Whether there is room for one unit more with so many octets.
    fn has_room(&self, fresh: usize) -> bool
        ensures { IsTrue result ↔ (length self.now.held < self.now.units) × (octets_held self.now.held + fresh ≤ self.now.octets) }
    {
        self.held.len() < self.units as usize && fresh <= self.octets - self.used
    }

    /// Takes the unit at the place out.
    fn withdraw(&mut self, place: usize) -> HeldUnit
        requires { place < length self.old.held }
        ensures unit { slice_get self.old.held place ≡ Some result }
        ensures rest { self.new ≡ record self.old { held = remove self.old.held place } }
        ensures within { IsWithin self.new }
    {
        let unit = take_out(&mut self.held, place);
        self.due.remove(place);
        self.used -= unit.count();
        unit
    }
}

/// Takes the unit at a place out.
fn take_out(held: &mut VecDeque<HeldUnit>, place: usize) -> HeldUnit
    requires { place < length held.old.items }
    ensures value { result ≡ slice_index_or held.old.items place result }
    ensures items { held.new.items ≡ remove held.old.items place }
{
    let Some(unit) = held.remove(place) else {
        unreachable!();
    };
    unit
}
