//! The network that a script runs, with its transport entities.

ghost use Rattle.std.specs.Prelude.{◌≡◌, ◌<◌, ◌≤◌, [], length, false, IsSome, IfOk, OnOk};
ghost use Rattle.osi_base.specs.declared.unit.Injected.{Injected as Answer};
ghost use Rattle.osi_base.specs.declared.unit.Picked.{Picked as Choice};
ghost use Rattle.tp4_conn.specs.Calls.{IsCall};
ghost use Rattle.tp4_conn.specs.End.{IsSized};
ghost use Rattle.tp4_number.specs.Number.{wire};
ghost use Rattle.tp4_world.specs.Run.{Calls, Connects, Delivers, Injects, Restarts, SendsRaw, Settles, Starts, Ticks};
ghost use Rattle.tp4_world.specs.World.{entity_at};
ghost use Rattle.tp4_world.specs.steps.Parts.{AreBehind, AreLaterAll, world_of};

use crate::Placed;
use crate::arrivals::hear_waiting;
use crate::ends::Ends;
use crate::events::inject_event;
use crate::settling::{deliver, settle};
use crate::ticking::tick_all;
use crate::transport::Transport;
use crate::user_calls::{ask, begin, restart};
use net_world::{send_unit, take_up};
use nsap::Nsap;
use osi_base::{Bytes, Carrier, NoMemory, Tick, Wish, go_on};
use script_journal::Event;
use std::alloc::Global;
use std::collections::VecDeque;
use std::marker::Model;
use tp4_conn::{ConnectRequest, UserCall};
use tp4_flow::Step;

/// A network with transport entities that a script runs: each call adds its own event, and then those of all that comes of it.
///
/// Contracts see it as its carrier, the entities and the ends that were made. After want of memory each further call wants it too.
#[derive(Drop)]
pub struct TpWorld<C: Carrier<Addr = Nsap> + Drop> {
    carrier: C,
    transport: Transport,
    stopped: bool,
}

// The clock of no entity is ahead of the carrier's, no end is due up to it, and each end that was made is of a system that has an
// entity, unless a call stopped for want of memory.
impl<C: Carrier<Addr = Nsap> + Drop> Model for TpWorld<C> {
    ghost use Rattle.std.specs.Prelude.{◌≡◌, false};
    ghost use Rattle.tp4_world.specs.World.{World};
    ghost use Rattle.tp4_world.specs.steps.Parts.{IsSound, world_of};

    ghost Value = { World C };

    ghost view = { λ w. world_of w.carrier w.transport.entities.items w.transport.ends };

    ghost invariant = { λ w. w.stopped ≡ false → IsSound C.link (world_of w.carrier w.transport.entities.items w.transport.ends) };
}

// A function clears the stack slots of all its values as it begins, those of calls that are inlined into it too. So the calls
// but `call` and `deliver`, the lines that come most, are never inlined: `inline(never)` took 2 % of the instructions of a script away.
impl<C: Carrier<Addr = Nsap> + Drop> TpWorld<C> {
    /// The network starts: tick 0, and what waits is told.
    ///
    /// At NoMemory the run ends.
    pub fn start(
        alloc: Global,
        carrier: C,
        systems: Vec<Placed>,
        events: &mut Vec<Event>,
    ) -> Result<TpWorld<C>, NoMemory>
        requires low { (C.link carrier).clock ≤ 4000000000 }
        requires behind { AreBehind (C.link carrier).clock systems.items }
        requires later { AreLaterAll (C.link carrier).clock systems.items }
        requires none { events.old.items ≡ [] }
        ensures { IfOk result (λ world. Starts C.link C.steps carrier systems.items events.new.items world) }
    {
        let mut world = TpWorld {
            carrier,
            transport: Transport {
                alloc,
                entities: systems,
                ends: Ends::new(alloc),
                out: Step::new(alloc),
                units: VecDeque::new(alloc),
            },
            stopped: true,
        };
        events.push(Event::Tick { now: 0 })?;
        take_up(&mut world.carrier, events)?;
        world.stopped = false;
        Ok(world)
    }

    /// The carrier.
    pub fn carrier(&self) -> &C
        ensures { result.now ≡ self.now.carrier }
    {
        &self.carrier
    }

    /// How many ends were made.
    pub fn ends(&self) -> u32
        ensures { result ≡ length self.now.ends }
    {
        self.transport.ends.count()
    }

    /// A user of a system asks for a connection.
    ///
    /// At NoMemory the run ends.
    // Not inlined: it is none of the lines that come most (above).
    #[inline(never)]
    pub fn connect(
        &mut self,
        system: u8,
        request: ConnectRequest,
        events: &mut Vec<Event>,
    ) -> Result<(), NoMemory>
        requires listed { IsSome (entity_at self.old.entities system) }
        requires size { IsSized request.options }
        requires none { events.old.items ≡ [] }
        ensures { OnOk result (Connects C.link C.steps self.old system request events.new.items self.new) }
    {
        go_on(self.stopped)?;
        self.stopped = true;
        let now = self.carrier.now();
        begin(
            &mut self.carrier,
            &mut self.transport,
            now,
            system,
            request,
            events,
        )?;
        self.stopped = false;
        Ok(())
    }

    /// A user calls the end of a number.
    ///
    /// At NoMemory the run ends.
    pub fn call(
        &mut self,
        end: u32,
        call: UserCall,
        events: &mut Vec<Event>,
    ) -> Result<(), NoMemory>
        requires call { IsCall call }
        requires none { events.old.items ≡ [] }
        ensures { OnOk result (Calls C.link C.steps wire self.old end call events.new.items self.new) }
    {
        go_on(self.stopped)?;
        self.stopped = true;
        let now = self.carrier.now();
        ask(
            &mut self.carrier,
            &mut self.transport,
            now,
            end,
            call,
            events,
        )?;
        self.stopped = false;
        Ok(())
    }

    /// A raw unit of a system, from its address for raw units, is sent to another's; without octets it is
    /// refused before all else. The titles are those of the two systems.
    ///
    /// At NoMemory the run ends.
    // Not inlined: it is none of the lines that come most (above).
    #[inline(never)]
    pub fn unit(
        &mut self,
        system: u8,
        sender: &Nsap,
        receiver: &Nsap,
        wish: Wish,
        octets: Bytes,
        events: &mut Vec<Event>,
    ) -> Result<(), NoMemory>
        requires none { events.old.items ≡ [] }
        ensures { OnOk result (SendsRaw C.link C.steps self.old system sender.now receiver.now wish octets events.new.items self.new) }
    {
        go_on(self.stopped)?;
        self.stopped = true;
        send_unit(
            self.transport.alloc,
            &mut self.carrier,
            system,
            sender,
            receiver,
            wish,
            octets,
            events,
        )?;
        self.stopped = false;
        Ok(())
    }

    /// A delivery: what arrives is chosen, and what comes of it is told.
    ///
    /// At NoMemory the run ends.
    pub fn deliver(
        &mut self,
        number: u32,
        system: u8,
        events: &mut Vec<Event>,
    ) -> Result<(), NoMemory>
        requires none { events.old.items ≡ [] }
        ensures { OnOk result ((answer : Choice) × Delivers C.link C.steps wire self.old number system answer events.new.items self.new) }
    {
        go_on(self.stopped)?;
        self.stopped = true;
        let now = self.carrier.now();
        deliver(
            &mut self.carrier,
            &mut self.transport,
            now,
            number,
            system,
            events,
        )?;
        self.stopped = false;
        Ok(())
    }

    /// A system of a LAN gets octets that no system sent, and what comes of it is told.
    ///
    /// At NoMemory the run ends.
    // Not inlined: it is none of the lines that come most (above).
    #[inline(never)]
    pub fn inject(
        &mut self,
        lan: u8,
        system: u8,
        octets: Vec<u8>,
        events: &mut Vec<Event>,
    ) -> Result<(), NoMemory>
        requires none { events.old.items ≡ [] }
        ensures { OnOk result ((answer : Answer) × Injects C.link C.steps wire self.old lan system octets.items answer events.new.items self.new) }
    {
        go_on(self.stopped)?;
        self.stopped = true;
        let now = self.carrier.now();
        let answer = self.carrier.inject(lan, system, octets)?;
        events.push(inject_event(system, answer))?;
        hear_waiting(&mut self.carrier, &mut self.transport, now, events)?;
        self.stopped = false;
        Ok(())
    }

    /// The transport entity of a system begins again: its ends are gone, and nothing is told of them. It is silent for F ticks.
    ///
    /// At NoMemory the run ends.
    // Not inlined: it is none of the lines that come most (above).
    #[inline(never)]
    pub fn restart(&mut self, system: u8, events: &mut Vec<Event>) -> Result<(), NoMemory>
        requires listed { IsSome (entity_at self.old.entities system) }
        requires none { events.old.items ≡ [] }
        ensures { OnOk result (Restarts C.link C.steps self.old system events.new.items self.new) }
    {
        go_on(self.stopped)?;
        self.stopped = true;
        let now = self.carrier.now();
        restart(&mut self.transport, now, system, events)?;
        self.stopped = false;
        Ok(())
    }

    /// One tick passes; what it brings up is told, and then each due end ticks.
    ///
    /// At NoMemory the run ends.
    // Not inlined: it is none of the lines that come most (above).
    #[inline(never)]
    pub fn tick(&mut self, events: &mut Vec<Event>) -> Result<(), NoMemory>
        requires low { (C.link self.old.carrier).clock < 4000000000 }
        requires none { events.old.items ≡ [] }
        ensures { OnOk result (Ticks C.link C.steps wire self.old events.new.items self.new) }
    {
        go_on(self.stopped)?;
        self.stopped = true;
        self.carrier.tick()?;
        let now = self.carrier.now();
        events.push(Event::Tick { now })?;
        take_up(&mut self.carrier, events)?;
        tick_all(&mut self.carrier, &mut self.transport, now, events)?;
        self.stopped = false;
        Ok(())
    }

    /// Delivers the least pair that was not taken, again and again, until none is left or there were as many as there may be.
    ///
    /// At NoMemory the run ends.
    // Not inlined: it is none of the lines that come most (above).
    #[inline(never)]
    pub fn settle(&mut self, events: &mut Vec<Event>) -> Result<(), NoMemory>
        requires none { events.old.items ≡ [] }
        ensures { OnOk result (Settles C.link C.steps wire 0 self.old events.new.items self.new) }
    {
        go_on(self.stopped)?;
        self.stopped = true;
        let now = self.carrier.now();
        let answer = settle(&mut self.carrier, &mut self.transport, now, events)?;
        events.push(Event::Settle { answer })?;
        self.stopped = false;
        Ok(())
    }
}
