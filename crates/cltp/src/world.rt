//! The network that a script of datagrams runs.

ghost use Rattle.std.specs.Prelude.{◌≡◌, ◌<◌, IsSome, IsTrue, IfOk, OnOk};
ghost use Rattle.osi_base.specs.declared.unit.Picked.TheVariants.{Taken};
ghost use Rattle.cltp.specs.Run.{Delivers, Sends, Settles, Starts, TakesUp, Tells, Ticks};
ghost use Rattle.cltp.specs.Systems.{system_at};
ghost use Rattle.cltp.specs.Ud.{IsSelector};

use crate::hearing::take_up;
use crate::sending::{ClAnswer, MOST_OCTETS, Request, WISH, answer_of, octets_of, send_event};
use crate::system::{ClSystem, system_at};
use net_world::picked_event;
use nsap::Nsap;
use osi_base::{Carrier, NoMemory, Picked, Unit};
use script_journal::{Event, Refused, Settled};
use std::alloc::Global;
use std::marker::Model;

/// A network over which the users of its systems send one another datagrams: each call adds its own event, then those of all that the
/// network tells, and then one for each unit that came to a user's address.
///
/// Contracts see it as its carrier and its systems, which never change.
#[derive(Drop)]
pub struct ClWorld<C: Carrier<Addr = Nsap> + Drop> {
    alloc: Global,
    pub(crate) carrier: C,
    systems: Vec<ClSystem>,
    /// Holds nothing between calls, but has room.
    heard: Vec<Event>,
}

impl<C: Carrier<Addr = Nsap> + Drop> Model for ClWorld<C> {
    ghost use Rattle.cltp.specs.Systems.{World};

    ghost Value = { World C };

    ghost view = { λ w. record { carrier = w.carrier; systems = w.systems.items } };
}

impl<C: Carrier<Addr = Nsap> + Drop> ClWorld<C> {
    /// The network starts: tick 0, and what waits is told.
    ///
    /// At NoMemory the run ends.
    pub fn start(
        alloc: Global,
        carrier: C,
        systems: Vec<ClSystem>,
        events: &mut Vec<Event>,
    ) -> Result<ClWorld<C>, NoMemory>
        ensures { IfOk result (λ world. Tells events.old.items events.new.items (λ made. Starts C.link C.steps carrier systems.items made world)) }
    {
        let mut world = ClWorld {
            alloc,
            carrier,
            systems,
            heard: Vec::new(alloc),
        };
        events.push(Event::Tick { now: 0 })?;
        world.take_up(events)?;
        Ok(world)
    }

    /// The carrier.
    pub fn carrier(&self) -> &C
        ensures { result.now ≡ self.now.carrier }
    {
        &self.carrier
    }

    /// A user of a system sends a datagram. TooLong exactly above 16,000 octets, before all else.
    ///
    /// At NoMemory the run ends.
    pub fn send(
        &mut self,
        system: u8,
        request: Request,
        events: &mut Vec<Event>,
    ) -> Result<ClAnswer, NoMemory>
        requires listed { IsSome (system_at self.old.systems system) }
        requires from { IsSelector request.from_selector }
        requires to { IsSelector request.to_selector }
        ensures { IfOk result (λ answer. Tells events.old.items events.new.items (λ made. Sends C.link C.steps self.old system request answer made self.new)) }
    {
        if MOST_OCTETS < request.octets.as_slice().len() {
            events.push(Event::No {
                cause: Refused::TooLong,
            })?;
            return Ok(ClAnswer::TooLong);
        }
        let Some(own) = system_at(&self.systems, system) else {
            unreachable!();
        };
        let unit = Unit {
            from: own.own,
            to: request.to,
            octets: octets_of(self.alloc, &request)?,
        };
        let answer = self.carrier.offer(unit, WISH)?;
        let event = send_event(self.alloc, system, request, answer)?;
        events.push(event)?;
        self.take_up(events)?;
        Ok(answer_of(answer))
    }

    /// A delivery: what arrives is chosen, and what comes of it is told.
    ///
    /// At NoMemory the run ends.
    pub fn deliver(
        &mut self,
        number: u32,
        system: u8,
        events: &mut Vec<Event>,
    ) -> Result<Picked, NoMemory>
        ensures delivers { IfOk result (λ answer. Tells events.old.items events.new.items (λ made. Delivers C.link C.steps self.old number system answer made self.new)) }
        ensures taken { IfOk result (λ answer. IsTrue ((C.link self.old.carrier).takes number system) → answer ≡ Taken) }
    {
        let answer = self.carrier.choose(number, system)?;
        events.push(picked_event(number, system, answer))?;
        self.take_up(events)?;
        Ok(answer)
    }

    /// One tick passes, and what it brings up is told.
    ///
    /// At NoMemory the run ends.
    pub fn tick(&mut self, events: &mut Vec<Event>) -> Result<(), NoMemory>
        requires low { (C.link self.old.carrier).clock < 4000000000 }
        ensures { OnOk result (Tells events.old.items events.new.items (λ made. Ticks C.link C.steps self.old made self.new)) }
    {
        self.carrier.tick()?;
        events.push(Event::Tick {
            now: self.carrier.now(),
        })?;
        self.take_up(events)
    }

    /// Delivers the least pair that was not taken, again and again, until none is left or there were as many as there may be.
    ///
    /// At NoMemory the run ends.
    pub fn settle(&mut self, events: &mut Vec<Event>) -> Result<Settled, NoMemory>
        ensures { IfOk result (λ answer. Tells events.old.items events.new.items (λ made. Settles C.link C.steps 0 self.old answer made self.new)) }
    {
        let answer = self.deliver_all(events)?;
        events.push(Event::Settle { answer })?;
        Ok(answer)
    }

    /// Takes up all that waits and tells it, and then what the units among it give.
    fn take_up(&mut self, events: &mut Vec<Event>) -> Result<(), NoMemory>
        ensures takes_up { OnOk result (Tells events.old.items events.new.items (λ made. TakesUp C.link C.steps self.old.systems self.old.carrier made self.new.carrier)) }
        ensures same { OnOk result (self.new.systems ≡ self.old.systems) }
    {
        take_up(
            self.alloc,
            &mut self.carrier,
            &self.systems,
            &mut self.heard,
            events,
        )
    }
}
