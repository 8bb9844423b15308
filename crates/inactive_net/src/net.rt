//! The network by the inactive subset (X.233, Inactive Network Layer Protocol subset).

ghost use Rattle.std.specs.Prelude.{◌≡◌, ◌<◌, ◌≤◌, List, ℕ, [], ◌∷◌, Some, drop, false, slice_get, IfOk, OnOk};
ghost use Rattle.std.specs.List.{All};
ghost use Rattle.osi_base.specs.declared.unit.Up.{Up};
ghost use Rattle.inactive_step.specs.Step.{counted, floated, strays_in};

use crate::afloat::Afloat;
use crate::frames::{Ups, frame_of, is_too_long, read_all};
use crate::rows::Rows;
use inactive_step::InactiveRow;
use nsap::{Nsap, Port};
use osi_base::{
    Carrier, DropCause, Injected, NoMemory, Offered, Picked, Tick, Unit, Up, Wish, go_on,
};
use std::alloc::Global;
use std::collections::VecDeque;
use std::marker::Model;

/// A frame is offered as it is.
const PLAIN: Wish = Wish {
    cut: false,
    report: false,
    trace: false,
    path: 0,
};

/// End systems over a carrier of their frames; each unit is one frame.
///
/// Contracts see it as an `Inactive`: the carrier below, the end systems, the units that were taken and may still arrive, what waits
/// to be taken up, and how many arrivals equalled no unit afloat.
pub struct InactiveNet<C: Carrier<Addr = Port> + Drop> {
    alloc: Global,
    stopped: bool,
    link: C,
    rows: Rows,
    floating: Afloat,
    waiting: Ups,
    strays: u32,
}

// By hand, so that it is proved here alone: what is derived is proved again in each crate that lets one go.
impl<C: Carrier<Addr = Port> + Drop> Drop for InactiveNet<C> {
    fn drop(self) {
        let InactiveNet {
            alloc: _,
            stopped: _,
            link: _,
            rows: _,
            floating: _,
            waiting: _,
            strays: _,
        } = self;
    }
}

// It is sound, unless a call stopped for want of memory.
impl<C: Carrier<Addr = Port> + Drop> Model for InactiveNet<C> {
    ghost use Rattle.std.specs.Prelude.{◌≡◌, false};
    ghost use Rattle.inactive_step.specs.Network.{Inactive};
    ghost use Rattle.inactive_step.specs.Sound.{IsSound};

    ghost Value = { Inactive C };

    ghost view = { λ a. record { link = a.link; rows = a.rows; floating = a.floating; waiting = a.waiting.items; strays = a.strays } };

    ghost invariant = { λ a. a.stopped ≡ false
        → IsSound C.link (record { link = a.link; rows = a.rows; floating = a.floating; waiting = a.waiting.items; strays = a.strays }) };
}

impl<C: Carrier<Addr = Port> + Drop> InactiveNet<C> {
    ghost use Rattle.osi_base.specs.Calls.{Offer, Choose, Inject, Tick as OneTick};
    ghost use Rattle.inactive_step.specs.Network.{new_inactive};
    ghost use Rattle.inactive_step.specs.Rows.{AreServed};
    ghost use Rattle.inactive_step.specs.Step.{InactiveStep};

    /// These end systems over a carrier in which nothing floats or waits, at tick 0. Systems, addresses and ports are distinct; bounds
    /// and rooms are those of the carrier, which takes a frame for the port of a row to its system.
    pub fn new(alloc: Global, link: C, rows: Vec<InactiveRow>) -> Result<InactiveNet<C>, NoMemory>
        requires clock { (C.link link).clock ≡ 0 }
        requires floating { (C.link link).floating ≡ [] }
        requires waiting { (C.link link).waiting ≡ [] }
        requires served { AreServed (C.link link) rows.items }
        ensures { IfOk result (λ net. net ≡ new_inactive link rows.items) }
    {
        Ok(InactiveNet {
            alloc,
            stopped: false,
            link,
            rows: Rows::new(rows),
            floating: Afloat::new(alloc),
            waiting: VecDeque::new(alloc),
            strays: 0,
        })
    }

    /// The carrier below.
    pub fn link(&self) -> &C
        ensures { result.now ≡ self.now.link }
    {
        &self.link
    }

    /// A unit is offered: its frame is offered below, where there is a way for it and it is not too long.
    fn offer_unit(&mut self, unit: Unit<Nsap>, wish: Wish) -> Result<Offered, NoMemory>
        ensures { IfOk result (λ answer. InactiveStep C.link C.steps self.old (Offer unit wish answer) self.new) }
    {
        let _ = wish;
        go_on(self.stopped)?;
        let Some(way) = self.rows.way(&unit.from, &unit.to) else {
            return Ok(Offered::Dropped(DropCause::NoRoute));
        };
        if is_too_long(&way, &unit) {
            return Ok(Offered::Dropped(DropCause::TooLong));
        }
        let frame = frame_of(self.alloc, &way, &unit)?;
        let now = self.link.now();
        self.stopped = true;
        let answer = self.link.offer(frame, PLAIN)?;
        read_all(&mut self.link, &self.rows, &mut self.waiting)?;
        keep(&mut self.floating, now, unit, answer)?;
        self.stopped = false;
        Ok(answer)
    }

    /// A choice is made below, and what comes up is read.
    fn choose_pick(&mut self, pick: u32, system: u8) -> Result<Picked, NoMemory>
        ensures { IfOk result (λ answer. InactiveStep C.link C.steps self.old (Choose pick system answer) self.new) }
    {
        go_on(self.stopped)?;
        self.stopped = true;
        let now = self.link.now();
        let before = self.waiting.len();
        let answer = self.link.choose(pick, system)?;
        read_all(&mut self.link, &self.rows, &mut self.waiting)?;
        self.strays = strays_after(
            self.link.honest(),
            self.strays,
            &self.rows,
            now,
            &self.floating,
            &self.waiting,
            before,
        );
        self.stopped = false;
        Ok(answer)
    }

    /// Octets are injected below, and what comes up is read.
    fn inject_octets(&mut self, lan: u8, system: u8, octets: Vec<u8>) -> Result<Injected, NoMemory>
        ensures { IfOk result (λ answer. InactiveStep C.link C.steps self.old (Inject lan system octets.items answer) self.new) }
    {
        go_on(self.stopped)?;
        self.stopped = true;
        let now = self.link.now();
        let before = self.waiting.len();
        let answer = self.link.inject(lan, system, octets)?;
        read_all(&mut self.link, &self.rows, &mut self.waiting)?;
        self.strays = strays_after(
            self.link.honest(),
            self.strays,
            &self.rows,
            now,
            &self.floating,
            &self.waiting,
            before,
        );
        self.stopped = false;
        Ok(answer)
    }

    /// One tick passes below. Units older than the greatest bound are given up.
    fn tick_once(&mut self) -> Result<(), NoMemory>
        requires { (C.link self.old.link).clock < 4000000000 }
        ensures { OnOk result (InactiveStep C.link C.steps self.old OneTick self.new) }
    {
        go_on(self.stopped)?;
        self.stopped = true;
        self.link.tick()?;
        read_all(&mut self.link, &self.rows, &mut self.waiting)?;
        let now = self.link.now();
        self.floating.drop_older(now, self.rows.longest());
        self.stopped = false;
        Ok(())
    }
}

impl<C: Carrier<Addr = Port> + Drop> Carrier for InactiveNet<C> {
    ghost use Rattle.std.specs.Prelude.{IfOk};
    ghost use Rattle.osi_base.specs.Calls.{Offers, Injects, Offer, Inject};
    ghost use Rattle.inactive_step.specs.Network.{inactive_link};
    ghost use Rattle.inactive_step.specs.Step.{InactiveStep};
    ghost use Rattle.inactive_step.proofs.Kept.{inactive_given, inactive_keeps};

    type Addr = Nsap;

    ghost link = { inactive_link C.link };

    ghost steps = { InactiveStep C.link C.steps };

    fn offer(&mut self, unit: Unit<Nsap>, wish: Wish) -> Result<Offered, NoMemory>
        ensures link { IfOk result (λ answer. Offers (inactive_link C.link self.old) unit answer (inactive_link C.link self.new)) }
        ensures steps { IfOk result (λ answer. InactiveStep C.link C.steps self.old (Offer unit wish answer) self.new) }
    {
        self.offer_unit(unit, wish)
    }

    fn choose(&mut self, pick: u32, system: u8) -> Result<Picked, NoMemory> {
        self.choose_pick(pick, system)
    }

    fn inject(&mut self, lan: u8, system: u8, octets: Vec<u8>) -> Result<Injected, NoMemory>
        ensures link { IfOk result (λ answer. Injects (inactive_link C.link self.old) answer (inactive_link C.link self.new)) }
        ensures steps { IfOk result (λ answer. InactiveStep C.link C.steps self.old (Inject lan system octets.items answer) self.new) }
    {
        self.inject_octets(lan, system, octets)
    }

    fn next_up(&mut self) -> Option<Up<Nsap>> {
        self.waiting.pop_front()
    }

    fn tick(&mut self) -> Result<(), NoMemory> {
        self.tick_once()
    }

    fn fresh(&self) -> Option<(u32, u8)> {
        self.link.fresh()
    }

    fn bound(&self, to: &Nsap) -> u32 {
        self.rows.bound(to)
    }

    fn room(&self, to: &Nsap) -> u32 {
        self.rows.room(to)
    }

    fn now(&self) -> Tick {
        self.link.now()
    }

    fn honest(&self) -> bool {
        self.link.honest()
    }

    fn strays(&self) -> u32 {
        if self.link.honest() { 0 } else { self.strays }
    }

    ghost given = { inactive_given C.link C.given };

    ghost keeps = { inactive_keeps C.link C.steps C.keeps C.given };
}

/// A unit that was taken floats from now on.
fn keep(floating: &mut Afloat, now: Tick, unit: Unit<Nsap>, answer: Offered) -> Result<(), NoMemory>
    requires { All (λ entry. entry.0 ≤ now) floating.old }
    ensures { OnOk result (floating.new ≡ floated floating.old now unit answer) }
{
    match answer {
        Offered::Taken => floating.add(now, unit),
        Offered::Dropped(_) => Ok(()),
    }
}

/// How many strays there are, with those among what waits from that place on, once octets were injected.
fn strays_after(
    honest: bool,
    strays: u32,
    rows: &Rows,
    now: Tick,
    floating: &Afloat,
    waiting: &Ups,
    from: usize,
) -> u32
    ensures { result ≡ counted honest strays (strays_in rows.now now floating.now (drop from waiting.now.items)) }
{
    if honest {
        return strays;
    }
    let mut count = strays;
    for place in from..waiting.len() {
        count = count.saturating_add(stray_at(rows, now, floating, waiting, place));
    }
    count
}

/// 1 for an arrival at that place of what waits that equals no unit afloat, else 0.
fn stray_at(rows: &Rows, now: Tick, floating: &Afloat, waiting: &Ups, place: usize) -> u32
    ensures { (up : Up (List ℕ)) → slice_get waiting.now.items place ≡ Some up → result ≡ strays_in rows.now now floating.now (up ∷ []) }
{
    match waiting.get(place) {
        Some(up) => stray_in(rows, now, floating, up),
        None => 0,
    }
}

/// 1 for an arrival that equals no unit afloat, else 0.
fn stray_in(rows: &Rows, now: Tick, floating: &Afloat, up: &Up<Nsap>) -> u32
    ensures { result ≡ strays_in rows.now now floating.now (up.now ∷ []) }
{
    match up {
        Up::Unit(arrival) => {
            let bound = rows.bound(&arrival.unit.to);
            u32::from(!floating.has(now, bound, &arrival.unit))
        }
        Up::Note(_) => 0,
    }
}
