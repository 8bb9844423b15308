//! The network (X.233, connectionless-mode network service).

ghost use Rattle.std.specs.Prelude.{◌≡◌, ◌<◌, ◌≤◌, ℕ, List, [], ◌∷◌, Some, drop, false, slice_get, IfOk, OnOk};
ghost use Rattle.osi_base.specs.declared.unit.Up.{Up};
ghost use Rattle.osi_base.specs.declared.unit.Up.TheVariants.{Unit as Came};
ghost use Rattle.clnp_system.specs.Node.{reaction_in, reaction_of};
ghost use Rattle.clnp_system.specs.Tables.{rows_tables};
ghost use Rattle.law_clnp_step.specs.Handling.{Handles, TicksAll};
ghost use Rattle.law_clnp_step.specs.Step.{counted, strays_in};
ghost use Rattle.clnp_net.specs.steps.Telling.{AreBehind, HandlesWaiting, HandsOut, Reacts, Tells};

use crate::afloat::Afloat;
use crate::frames::{Ups, offer_any, offer_sent, pass_notes};
use crate::systems::Systems;
use clnp_entity::{Handled, NetEntity, NetSent, Outcome};
use nsap::{Nsap, Port};
use osi_base::{
    Arrival, Carrier, DropCause, Injected, NoMemory, Offered, Picked, Tick, Unit, Up, Wish, gather,
    go_on,
};
use std::alloc::Global;
use std::collections::VecDeque;
use std::marker::Model;

/// The most units afloat.
const MOST_UNITS: u32 = 40_000;

/// The most octets of a unit.
const MOST_OCTETS: u32 = 16_384;

/// The systems of a network over a carrier of their frames.
///
/// Contracts see it as a `Network`: the carrier below, the systems, the units that were taken and may still arrive, what waits to
/// be taken up, and how many arrivals equalled no unit afloat.
#[derive(Drop)]
pub struct ClnpNet<C: Carrier<Addr = Port> + Drop> {
    alloc: Global,
    stopped: bool,
    link: C,
    systems: Systems,
    floating: Afloat,
    waiting: Ups,
    strays: u32,
    life: u8,
}

// It is sound, unless a call stopped for want of memory.
impl<C: Carrier<Addr = Port> + Drop> Model for ClnpNet<C> {
    ghost use Rattle.std.specs.Prelude.{◌≡◌, false};
    ghost use Rattle.esis_tables.specs.Rows.{Rows};
    ghost use Rattle.law_clnp_step.specs.Network.{Network};
    ghost use Rattle.law_clnp_step.specs.Sound.{IsSound};

    ghost Value = { Network C Rows };

    ghost view = { λ a. record { link = a.link; nodes = a.systems; floating = a.floating; waiting = a.waiting.items; strays = a.strays; life = a.life } };

    ghost invariant = { λ a. a.stopped ≡ false
        → IsSound C.link (record { link = a.link; nodes = a.systems; floating = a.floating; waiting = a.waiting.items; strays = a.strays; life = a.life }) };
}

impl<C: Carrier<Addr = Port> + Drop> ClnpNet<C> {
    ghost use Rattle.std.specs.List.{AllByRecursion};
    ghost use Rattle.osi_base.specs.Calls.{Offer, Choose, Inject, NextUp, Tick as OneTick};
    ghost use Rattle.law_clnp_step.specs.Sound.{IsNew, IsPeopled, settings_of};
    ghost use Rattle.law_clnp_step.specs.Step.{Begins, NetStep};

    /// These systems over a carrier in which nothing floats or waits, at tick 0. Their first hellos are sent, and the notes wait.
    pub fn new(
        alloc: Global,
        link: C,
        systems: Vec<NetEntity>,
        life: u8,
    ) -> Result<ClnpNet<C>, NoMemory>
        requires clock { (C.link link).clock ≡ 0 }
        requires floating { (C.link link).floating ≡ [] }
        requires waiting { (C.link link).waiting ≡ [] }
        requires peopled { IsPeopled (C.link link).bound life (settings_of systems.items) }
        requires made { AllByRecursion IsNew systems.items }
        ensures { IfOk result (λ net. Begins C.link C.steps rows_tables link systems.items life net) }
    {
        let mut net = ClnpNet {
            alloc,
            stopped: true,
            link,
            systems: Systems::new(alloc, systems),
            floating: Afloat::new(alloc, MOST_UNITS),
            waiting: VecDeque::new(alloc),
            strays: 0,
            life,
        };
        tick_all(&mut net.link, &mut net.systems, 0, &mut net.waiting)?;
        net.stopped = false;
        Ok(net)
    }

    /// The carrier below.
    pub fn link(&self) -> &C
        ensures { result.now ≡ self.now.link }
    {
        &self.link
    }

    /// A unit is offered.
    fn offer_unit(&mut self, unit: Unit<Nsap>, wish: Wish) -> Result<Offered, NoMemory>
        ensures { IfOk result (λ answer. NetStep C.link C.steps rows_tables self.old (Offer unit wish answer) self.new) }
    {
        go_on(self.stopped)?;
        if self.floating.is_full() {
            return Ok(Offered::Dropped(DropCause::Full));
        }
        let now = self.link.now();
        self.stopped = true;
        let answer = hand_out(
            &mut self.link,
            &mut self.systems,
            now,
            &unit,
            wish,
            &mut self.waiting,
        )?;
        match answer {
            Offered::Taken => {
                self.floating.add(now, unit)?;
                self.stopped = false;
                Ok(Offered::Taken)
            }
            Offered::Dropped(cause) => {
                self.stopped = false;
                Ok(Offered::Dropped(cause))
            }
        }
    }

    /// A choice is made below, and what comes of it is handled.
    fn choose_pick(&mut self, pick: u32, system: u8) -> Result<Picked, NoMemory>
        ensures { IfOk result (λ answer. NetStep C.link C.steps rows_tables self.old (Choose pick system answer) self.new) }
    {
        go_on(self.stopped)?;
        self.stopped = true;
        let now = self.link.now();
        let before = self.waiting.len();
        let answer = self.link.choose(pick, system)?;
        handle_waiting(
            self.alloc,
            &mut self.link,
            &mut self.systems,
            now,
            &mut self.waiting,
        )?;
        self.strays = strays_after(
            self.link.honest(),
            self.strays,
            &self.floating,
            &self.waiting,
            before,
        );
        self.stopped = false;
        Ok(answer)
    }

    /// Octets are injected below, and what comes of it is handled.
    fn inject_octets(&mut self, lan: u8, system: u8, octets: Vec<u8>) -> Result<Injected, NoMemory>
        ensures { IfOk result (λ answer. NetStep C.link C.steps rows_tables self.old (Inject lan system octets.items answer) self.new) }
    {
        go_on(self.stopped)?;
        self.stopped = true;
        let now = self.link.now();
        let before = self.waiting.len();
        self.floating.index_all()?;
        let answer = self.link.inject(lan, system, octets)?;
        handle_waiting(
            self.alloc,
            &mut self.link,
            &mut self.systems,
            now,
            &mut self.waiting,
        )?;
        self.strays = strays_after(
            self.link.honest(),
            self.strays,
            &self.floating,
            &self.waiting,
            before,
        );
        self.stopped = false;
        Ok(answer)
    }

    /// One tick passes: first below, then each system in order. Units older than the lifetime are given up.
    fn tick_once(&mut self) -> Result<(), NoMemory>
        requires { (C.link self.old.link).clock < 4000000000 }
        ensures { OnOk result (NetStep C.link C.steps rows_tables self.old OneTick self.new) }
    {
        go_on(self.stopped)?;
        self.stopped = true;
        self.link.tick()?;
        let now = self.link.now();
        pass_notes(&mut self.link, &mut self.waiting)?;
        tick_all(&mut self.link, &mut self.systems, now, &mut self.waiting)?;
        self.floating.drop_older(now, u32::from(self.life));
        self.stopped = false;
        Ok(())
    }
}

impl<C: Carrier<Addr = Port> + Drop> Carrier for ClnpNet<C> {
    ghost use Rattle.std.specs.Prelude.{IfOk};
    ghost use Rattle.osi_base.specs.Calls.{Offers, Injects, Offer, Inject};
    ghost use Rattle.clnp_system.specs.Tables.{rows_tables};
    ghost use Rattle.law_clnp_step.specs.Network.{net_link};
    ghost use Rattle.law_clnp_step.specs.Step.{NetStep};
    ghost use Rattle.law_clnp_step.proofs.Kept.{net_given, net_keeps};

    type Addr = Nsap;

    ghost link = { net_link C.link };

    ghost steps = { NetStep C.link C.steps rows_tables };

    fn offer(&mut self, unit: Unit<Nsap>, wish: Wish) -> Result<Offered, NoMemory>
        ensures link { IfOk result (λ answer. Offers (net_link C.link self.old) unit answer (net_link C.link self.new)) }
        ensures steps { IfOk result (λ answer. NetStep C.link C.steps rows_tables self.old (Offer unit wish answer) self.new) }
    {
        self.offer_unit(unit, wish)
    }

    fn choose(&mut self, pick: u32, system: u8) -> Result<Picked, NoMemory> {
        self.choose_pick(pick, system)
    }

    fn inject(&mut self, lan: u8, system: u8, octets: Vec<u8>) -> Result<Injected, NoMemory>
        ensures link { IfOk result (λ answer. Injects (net_link C.link self.old) answer (net_link C.link self.new)) }
        ensures steps { IfOk result (λ answer. NetStep C.link C.steps rows_tables self.old (Inject lan system octets.items answer) self.new) }
    {
        self.inject_octets(lan, system, octets)
    }

    fn next_up(&mut self) -> Option<Up<Nsap>> {
        self.waiting.pop_front()
    }

    fn tick(&mut self) -> Result<(), NoMemory> {
        self.tick_once()
    }

    fn fresh(&self) -> Option<(u32, u8)> {
        self.link.fresh()
    }

    fn bound(&self, to: &Nsap) -> u32 {
        let _ = to;
        u32::from(self.life)
    }

    fn room(&self, to: &Nsap) -> u32 {
        let _ = to;
        MOST_OCTETS
    }

    fn now(&self) -> Tick {
        self.link.now()
    }

    fn honest(&self) -> bool {
        self.link.honest()
    }

    fn strays(&self) -> u32 {
        if self.link.honest() { 0 } else { self.strays }
    }

    ghost given = { net_given C.link C.given };

    ghost keeps = { net_keeps C.link C.steps C.keeps C.given rows_tables };
}

/// A unit is handed to the system that has its source, and the frames that it sends are offered.
fn hand_out<C: Carrier<Addr = Port>>(
    link: &mut C,
    systems: &mut Systems,
    now: Tick,
    unit: &Unit<Nsap>,
    wish: Wish,
    waiting: &mut Ups,
) -> Result<Offered, NoMemory>
    requires behind { AreBehind now systems.old }
    requires low { now ≤ 4000000000 }
    ensures { IfOk result (λ answer. HandsOut C.link C.steps now unit.now wish link.old systems.old waiting.old.items answer link.new systems.new waiting.new.items) }
{
    let Some((system, sent)) = systems.send(now, unit, wish)? else {
        return Ok(Offered::Dropped(DropCause::NoRoute));
    };
    match sent {
        NetSent::Frames(frames) => {
            offer_sent(link, system, frames, waiting)?;
            Ok(Offered::Taken)
        }
        NetSent::Dropped(cause) => Ok(Offered::Dropped(cause)),
    }
}

/// What waits below is taken up, all of it, and then handled. Mostly one waits alone: no memory is taken for a list then.
fn handle_waiting<C: Carrier<Addr = Port>>(
    alloc: Global,
    link: &mut C,
    systems: &mut Systems,
    now: Tick,
    waiting: &mut Ups,
) -> Result<(), NoMemory>
    requires behind { AreBehind now systems.old }
    requires low { now ≤ 4000000000 }
    ensures { OnOk result (HandlesWaiting C.link C.steps now link.old systems.old waiting.old.items link.new systems.new waiting.new.items) }
{
    let Some(up) = link.next_up() else {
        return Ok(());
    };
    let others = gather(alloc, link)?;
    handle_up(link, systems, now, up, waiting)?;
    handle_any(link, systems, now, others, waiting)?;
    Ok(())
}

/// What came up below beside the first is handled, one after another: mostly there is none.
// Inlined: where none is there, nothing is called.
#[inline(always)]
fn handle_any<C: Carrier<Addr = Port>>(
    link: &mut C,
    systems: &mut Systems,
    now: Tick,
    ups: VecDeque<Up<Port>>,
    waiting: &mut Ups,
) -> Result<(), NoMemory>
    requires behind { AreBehind now systems.old }
    requires low { now ≤ 4000000000 }
    ensures { OnOk result (Tells waiting.old.items waiting.new.items
        (λ told. Handles C.link C.steps rows_tables now link.old systems.old ups.items link.new systems.new told)) }
{
    if ups.is_empty() {
        return Ok(());
    }
    handle(link, systems, now, ups, waiting)
}

/// What came up below is handled, one after another.
// Not inlined: where one waits alone, no room for the list and its members is cleared.
#[inline(never)]
fn handle<C: Carrier<Addr = Port>>(
    link: &mut C,
    systems: &mut Systems,
    now: Tick,
    mut ups: VecDeque<Up<Port>>,
    waiting: &mut Ups,
) -> Result<(), NoMemory>
    requires behind { AreBehind now systems.old }
    requires low { now ≤ 4000000000 }
    ensures { OnOk result (Tells waiting.old.items waiting.new.items
        (λ told. Handles C.link C.steps rows_tables now link.old systems.old ups.items link.new systems.new told)) }
{
    while let Some(up) = ups.pop_front() {
        handle_up(link, systems, now, up, waiting)?;
    }
    Ok(())
}

/// A note is told, and a frame is handed to its system.
// Inlined: what came up is a large value, which is moved once less.
#[inline(always)]
fn handle_up<C: Carrier<Addr = Port>>(
    link: &mut C,
    systems: &mut Systems,
    now: Tick,
    up: Up<Port>,
    waiting: &mut Ups,
) -> Result<(), NoMemory>
    requires behind { AreBehind now systems.old }
    requires low { now ≤ 4000000000 }
    ensures handled { OnOk result (Tells waiting.old.items waiting.new.items
        (λ told. Handles C.link C.steps rows_tables now link.old systems.old (up ∷ []) link.new systems.new told)) }
    ensures behind { OnOk result (AreBehind now systems.new) }
{
    match up {
        Up::Note(note) => {
            waiting.push_back(Up::Note(note))?;
            Ok(())
        }
        Up::Unit(arrival) => {
            meet(link, systems, now, &arrival, waiting)?;
            Ok(())
        }
    }
}

/// A system takes a frame: what it tells and hands up waits, and its frames are offered.
// Inlined: what the system answers is moved once less.
#[inline(always)]
fn meet<C: Carrier<Addr = Port>>(
    link: &mut C,
    systems: &mut Systems,
    now: Tick,
    arrival: &Arrival<Port>,
    waiting: &mut Ups,
) -> Result<(), NoMemory>
    requires behind { AreBehind now systems.old }
    requires low { now ≤ 4000000000 }
    ensures handled { OnOk result (Tells waiting.old.items waiting.new.items
        (λ told. Handles C.link C.steps rows_tables now link.old systems.old (Came arrival.now ∷ []) link.new systems.new told)) }
    ensures behind { OnOk result (AreBehind now systems.new) }
{
    let received = systems.receive(now, arrival)?;
    react_to(link, arrival.system, received, waiting)?;
    Ok(())
}

/// What comes of a frame waits or is offered: mostly a unit comes up.
// Inlined: the unit is moved once less.
#[inline(always)]
fn react_to<C: Carrier<Addr = Port>>(
    link: &mut C,
    system: u8,
    received: Outcome,
    waiting: &mut Ups,
) -> Result<(), NoMemory>
    ensures { OnOk result (Tells waiting.old.items waiting.new.items
        (λ told. Reacts C.link C.steps link.old system (reaction_in received) link.new told)) }
{
    match received {
        Outcome::Unit(arrival) => {
            waiting.push_back(Up::Unit(arrival))?;
            Ok(())
        }
        Outcome::Handled(handled) => react(link, system, handled, waiting),
    }
}

/// What a system tells and hands up waits, and its frames are offered.
fn react<C: Carrier<Addr = Port>>(
    link: &mut C,
    system: u8,
    handled: Handled,
    waiting: &mut Ups,
) -> Result<(), NoMemory>
    ensures { OnOk result (Tells waiting.old.items waiting.new.items
        (λ told. Reacts C.link C.steps link.old system (reaction_of handled) link.new told)) }
{
    for up in handled.ups {
        waiting.push_back(up)?;
    }
    offer_any(link, system, handled.frames, waiting)
}

/// The same, where mostly there is nothing.
// Inlined: that there is nothing is seen by one look.
#[inline(always)]
fn react_if_any<C: Carrier<Addr = Port>>(
    link: &mut C,
    system: u8,
    handled: Handled,
    waiting: &mut Ups,
) -> Result<(), NoMemory>
    ensures { OnOk result (Tells waiting.old.items waiting.new.items
        (λ told. Reacts C.link C.steps link.old system (reaction_of handled) link.new told)) }
{
    if handled.ups.is_empty() && handled.frames.is_empty() {
        return Ok(());
    }
    react(link, system, handled, waiting)
}

/// Each system ticks, in order.
fn tick_all<C: Carrier<Addr = Port>>(
    link: &mut C,
    systems: &mut Systems,
    now: Tick,
    waiting: &mut Ups,
) -> Result<(), NoMemory>
    requires behind { AreBehind now systems.old }
    requires low { now ≤ 4000000000 }
    ensures { OnOk result (Tells waiting.old.items waiting.new.items
        (λ told. TicksAll C.link C.steps rows_tables now link.old systems.old link.new systems.new told)) }
{
    for place in 0..systems.count() {
        let (system, handled) = systems.tick(place, now)?;
        react_if_any(link, system, handled, waiting)?;
    }
    Ok(())
}

/// How many strays there are, with those among what waits from that place on, once octets were injected.
// Inlined: until then one look tells.
#[inline(always)]
fn strays_after(honest: bool, strays: u32, floating: &Afloat, waiting: &Ups, from: usize) -> u32
    ensures { result ≡ counted honest strays (strays_in floating.now.entries (drop from waiting.now.items)) }
{
    if honest {
        return strays;
    }
    strays_with(strays, floating, waiting, from)
}

/// How many strays there are, with those among what waits from that place on.
fn strays_with(strays: u32, floating: &Afloat, waiting: &Ups, from: usize) -> u32
    ensures { result ≡ counted false strays (strays_in floating.now.entries (drop from waiting.now.items)) }
{
    let mut count = strays;
    for place in from..waiting.len() {
        count = count.saturating_add(stray_at(floating, waiting, place));
    }
    count
}

/// 1 for an arrival at that place of what waits that equals no unit afloat, else 0.
fn stray_at(floating: &Afloat, waiting: &Ups, place: usize) -> u32
    ensures { (up : Up (List ℕ)) → slice_get waiting.now.items place ≡ Some up → result ≡ strays_in floating.now.entries (up ∷ []) }
{
    match waiting.get(place) {
        Some(up) => stray_in(floating, up),
        None => 0,
    }
}

/// 1 for an arrival that equals no unit afloat, else 0.
fn stray_in(floating: &Afloat, up: &Up<Nsap>) -> u32
    ensures { result ≡ strays_in floating.now.entries (up.now ∷ []) }
{
    match up {
        Up::Unit(arrival) => u32::from(!floating.has(&arrival.unit)),
        Up::Note(_) => 0,
    }
}
