//! The LANs with their frames (IEEE 802.3; X.233, underlying subnetworks).

ghost use Rattle.std.specs.Prelude.{◌≡◌, ◌<◌, ◌≤◌, ◌+◌, ◌++◌, IfOk, OnOk, length, option_copied, if◌then◌else◌};
ghost use Rattle.std.specs.BTreeSet.{contains};
ghost use Rattle.std.specs.Ordering.{nat_cmp};
ghost use Rattle.osi_base.specs.declared.unit.Offered.TheVariants.{Taken as WasTaken};
ghost use Rattle.osi_base.specs.declared.unit.Picked.TheVariants.{Taken as WasPicked};
ghost use Rattle.lan_step.specs.Rows.{IsSetUp, sender_of};
ghost use Rattle.lan_step.specs.Bag.{frame_note};
ghost use Rattle.lan_step.specs.Frames.{live_frame, octets_of, frame_of, strays_of};
ghost use Rattle.lan_step.specs.Offers.{offered};
ghost use Rattle.lan_bag.specs.steps.Index.{AreIndexed};

use crate::delivery::judge;
use crate::frame::{Sent, up_of};
use crate::frame_index::FrameIndex;
use crate::frame_store::FrameStore;
use crate::next_delivery::{LeastPair, fresh_after, fresh_while_live, open_with};
use crate::offering::answer_to;
use crate::setup::Setup;
use crate::waiting::Waiting;
use crate::wheel::Wheel;
use lan_frame::HEADER;
use lan_step::{Lan, PortRow};
use nsap::Port;
use osi_base::{Carrier, Injected, NoMemory, Note, Offered, Picked, Tick, Unit, Up, Wish};
use std::alloc::Global;
use std::marker::Model;

/// LANs that deliver a frame unaltered, to the systems that it goes to, while it is not late.
pub struct LanBag {
    alloc: Global,
    clock: Tick,
    setup: Setup,
    frames: FrameStore,
    /// The places of the frames by the tick at which they are late, so that a tick gives up those alone and goes over no others.
    wheel: Wheel,
    /// The frames by what they carry, from the first injection on, so that an injection is compared with few of them.
    index: FrameIndex,
    /// The answer of `fresh`, kept so that a `settle` goes over each frame once and not once for each delivery.
    fresh: LeastPair,
    waiting: Waiting,
    honest: bool,
    strays: u32,
}

// By hand, so that it is proved here alone: what is derived is proved again in each crate that lets one go.
impl Drop for LanBag {
    fn drop(self) {
        let LanBag {
            alloc: _,
            clock: _,
            setup: _,
            frames: _,
            wheel: _,
            index: _,
            fresh: _,
            waiting: _,
            honest: _,
            strays: _,
        } = self;
    }
}

// The first frame that a system may take and has not taken is that of `fresh`, and the place of each frame is in the wheel, and in the
// index where that is wanted.
impl Model for LanBag {
    ghost use Rattle.std.specs.BTreeSet.{contains};
    ghost use Rattle.std.specs.Ordering.{nat_cmp};
    ghost use Rattle.lan_step.specs.Bag.{Bag};
    ghost use Rattle.lan_bag.specs.steps.Standing.{IsStanding};

    ghost Value = { Bag };

    ghost view = { λ a. record {
      clock = a.clock;
      lans = a.setup.lans;
      rows = a.setup.rows;
      frames = a.frames;
      waiting = a.waiting;
      honest = a.honest;
      strays = a.strays;
    } };

    ghost invariant = { λ a. IsStanding a.clock a.setup a.frames a.fresh.place a.fresh.pair a.wheel a.honest a.strays a.index.wanted (contains nat_cmp a.index.codes) };
}

impl LanBag {
    ghost use Rattle.osi_base.specs.Calls.{Offer, Choose, Inject, Tick as OneTick};
    ghost use Rattle.osi_base.specs.Link.{IsLeastFresh};
    ghost use Rattle.lan_step.specs.Bag.{new_bag, BagStep, after_offer, after_pick, link_of, picked_in};

    /// These LANs, numbered from 0, with no frame, at clock 0.
    pub fn new(alloc: Global, lans: &[Lan], ports: &[PortRow]) -> Result<LanBag, NoMemory>
        requires { IsSetUp lans.now ports.now }
        ensures { IfOk result (λ bag. bag ≡ new_bag lans.now ports.now) }
    {
        Ok(LanBag {
            alloc,
            clock: 0,
            setup: Setup::new(alloc, lans, ports)?,
            frames: FrameStore::new(alloc),
            wheel: Wheel::new(alloc)?,
            index: FrameIndex::new(alloc),
            fresh: LeastPair {
                place: 0,
                pair: None,
            },
            waiting: Waiting::new(alloc),
            honest: true,
            strays: 0,
        })
    }

    /// The whole 802.3 frame of a number; None exactly where no frame of that number is live.
    pub fn frame_octets(&self, number: u32) -> Option<&[u8]>
        ensures { option_copied result ≡ octets_of (live_frame self.now.clock self.now.lans self.now.frames number) }
    {
        let sent = self.frames.get(number)?;
        sent.is_live(self.clock, &self.setup)
            .then_some(sent.whole())
    }

    /// How many frames were numbered.
    pub fn count(&self) -> u32
        ensures { result ≡ length self.now.frames }
    {
        self.frames.count()
    }

    /// The frame of a number; None where it is late or there is none.
    pub fn frame(&self, number: u32) -> Option<&Sent>
        ensures { option_copied result ≡ frame_of self.now.frames number }
    {
        self.frames.get(number)
    }

    /// Offers the frame of a unit.
    // Inlined: a unit goes on to `keep` with no call between.
    #[inline(always)]
    fn offer_unit(&mut self, unit: Unit<Port>, wish: Wish) -> Result<Offered, NoMemory>
        ensures { IfOk result (λ answer. BagStep self.old (Offer unit wish answer) self.new) }
    {
        let _ = wish;
        let sender = self.setup.system_of(&unit.from);
        let answer = answer_to(&self.setup, &self.frames, sender, &unit);
        if answer == Offered::Taken {
            self.keep(sender, unit)?;
        }
        Ok(answer)
    }

    /// Keeps the frame of a unit of a system that is taken, and tells of it.
    fn keep(&mut self, sender: Option<u8>, unit: Unit<Port>) -> Result<(), NoMemory>
        requires sender { sender ≡ sender_of self.old.rows unit.from }
        requires taken { WasTaken ≡ offered self.old.lans self.old.rows self.old.frames unit }
        ensures { OnOk result (self.new ≡ after_offer self.old unit WasTaken) }
    {
        let place = self.frames.count();
        tell(sender, place + 1, &unit, &mut self.waiting)?;
        self.wheel.list(self.setup.bound(unit.to.lan), place)?;
        let to = unit.to;
        let sent = Sent::new(self.alloc, self.clock, unit)?;
        self.frames.push(sent)?;
        let listed = self.index.enlist(&self.frames, place);
        let fresh = self.fresh;
        self.fresh = open_with(self.clock, &self.setup, &self.frames, fresh, place + 1, &to);
        listed
    }

    /// Lets a frame arrive at a system.
    fn choose_pick(&mut self, pick: u32, system: u8) -> Result<Picked, NoMemory>
        ensures { IfOk result (λ answer. BagStep self.old (Choose pick system answer) self.new) }
    {
        let answer = self.answer_for(pick, system);
        if answer == Picked::Taken {
            self.arrive(pick, system)?;
        }
        Ok(answer)
    }

    /// The answer to a choice; the fresh pair may be taken.
    fn answer_for(&self, pick: u32, system: u8) -> Picked
        ensures { result ≡ picked_in self.now pick system }
    {
        match self.fresh.pair {
            Some((number, least)) if number == pick && least == system => Picked::Taken,
            _ => judge(self.clock, &self.setup, &self.frames, pick, system),
        }
    }

    /// A frame that may be taken arrives, and is marked.
    fn arrive(&mut self, pick: u32, system: u8) -> Result<(), NoMemory>
        requires taken { WasPicked ≡ picked_in self.old pick system }
        ensures { OnOk result (self.new ≡ after_pick self.old pick system (frame_of self.old.frames pick)) }
    {
        let Some(sent) = self.frames.get(pick) else {
            unreachable!();
        };
        let arrival = sent.arrival(self.alloc, system)?;
        self.waiting.push(Up::Unit(arrival))?;
        self.frames.mark(pick, system)?;
        let fresh = self.fresh;
        self.fresh = fresh_after(self.clock, &self.setup, &self.frames, fresh, pick);
        Ok(())
    }

    /// A system gets octets that no system sent.
    fn inject_octets(&mut self, lan: u8, system: u8, octets: &[u8]) -> Result<Injected, NoMemory>
        ensures { IfOk result (λ answer. BagStep self.old (Inject lan system octets.now answer) self.new) }
    {
        if !self.setup.has_port(system, lan) {
            return Ok(Injected::NotThere);
        }
        let up = up_of(self.alloc, lan, system, octets)?;
        self.index.index_all(&self.frames)?;
        let strays = strays_in(self.clock, &self.setup, &self.frames, &self.index, &up);
        self.waiting.push(up)?;
        self.honest = false;
        self.strays = self.strays.saturating_add(strays);
        Ok(Injected::Taken)
    }

    /// One tick passes; the frames that are late are given up.
    fn tick_once(&mut self)
        requires { self.old.clock < 4000000000 }
        ensures { BagStep self.old OneTick self.new }
    {
        let due = self.wheel.turn();
        self.clock += 1;
        self.index
            .delist(self.clock, &self.setup, &self.frames, &due);
        self.frames.give_up(self.clock, &self.setup, &due);
        self.wheel.keep_room(due);
        let fresh = self.fresh;
        self.fresh = fresh_while_live(self.clock, &self.setup, &self.frames, fresh);
    }

    /// The least pair that a choice would take and has not taken.
    fn fresh_pair(&self) -> Option<(u32, u8)>
        ensures { IsLeastFresh (link_of self.now) result }
    {
        self.fresh.pair
    }
}

/// Tells of a frame that a system sends.
fn tell(
    sender: Option<u8>,
    number: u32,
    unit: &Unit<Port>,
    waiting: &mut Waiting,
) -> Result<(), NoMemory>
    requires { length unit.now.octets ≤ 1497 }
    ensures { OnOk result (waiting.new ≡ waiting.old ++ frame_note number sender unit.now) }
{
    if let Some(system) = sender {
        let mut snpa = [0; 6];
        snpa.copy_from_slice(unit.to.snpa.octets());
        let note = Note::Frame {
            number,
            lan: unit.to.lan,
            system,
            snpa,
            length: (unit.octets.as_slice().len() + HEADER) as u32,
        };
        waiting.push(Up::Note(note))?;
    }
    Ok(())
}

/// How many arrivals there are in what came that equal no live frame.
fn strays_in(
    clock: Tick,
    setup: &Setup,
    frames: &FrameStore,
    index: &FrameIndex,
    up: &Up<Port>,
) -> u32
    requires { AreIndexed (contains nat_cmp index.now.codes) frames.now }
    ensures { result ≡ strays_of clock setup.now.lans frames.now up.now }
{
    match up {
        Up::Unit(arrival) => u32::from(!index.carries(clock, setup, frames, &arrival.unit)),
        Up::Note(_) => 0,
    }
}

impl Carrier for LanBag {
    ghost use Rattle.std.specs.Prelude.{IfOk};
    ghost use Rattle.osi_base.specs.Calls.{Offers, Injects, Offer, Inject};
    ghost use Rattle.lan_step.specs.Bag.{link_of, BagStep};

    type Addr = Port;

    ghost link = { link_of };

    ghost steps = { BagStep };

    // Inlined: a unit goes on to `keep` with no call between.
    #[inline(always)]
    fn offer(&mut self, unit: Unit<Port>, wish: Wish) -> Result<Offered, NoMemory>
        ensures link { IfOk result (λ answer. Offers (link_of self.old) unit answer (link_of self.new)) }
        ensures steps { IfOk result (λ answer. BagStep self.old (Offer unit wish answer) self.new) }
    {
        self.offer_unit(unit, wish)
    }

    fn choose(&mut self, pick: u32, system: u8) -> Result<Picked, NoMemory> {
        self.choose_pick(pick, system)
    }

    fn inject(&mut self, lan: u8, system: u8, octets: Vec<u8>) -> Result<Injected, NoMemory>
        ensures link { IfOk result (λ answer. Injects (link_of self.old) answer (link_of self.new)) }
        ensures steps { IfOk result (λ answer. BagStep self.old (Inject lan system octets.items answer) self.new) }
    {
        self.inject_octets(lan, system, &octets)
    }

    fn next_up(&mut self) -> Option<Up<Port>> {
        self.waiting.pop()
    }

    fn tick(&mut self) -> Result<(), NoMemory> {
        self.tick_once();
        Ok(())
    }

    fn fresh(&self) -> Option<(u32, u8)> {
        self.fresh_pair()
    }

    fn bound(&self, to: &Port) -> u32 {
        self.setup.bound(to.lan)
    }

    fn room(&self, to: &Port) -> u32 {
        self.setup.room(to.lan)
    }

    fn now(&self) -> Tick {
        self.clock
    }

    fn honest(&self) -> bool {
        self.honest
    }

    fn strays(&self) -> u32 {
        self.strays
    }

    ghost use Rattle.lan_step.proofs.Keeping.{bag_given, bag_keeps};

    ghost given = { bag_given };

    ghost keeps = { bag_keeps };
}
