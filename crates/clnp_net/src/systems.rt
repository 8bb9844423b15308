//! The systems of a network, each one once.

ghost use Rattle.std.specs.Prelude.{◌≡◌, ◌<◌, ◌≤◌, IfOk, length};
ghost use Rattle.std.specs.List.{position};
ghost use Rattle.clnp_system.specs.Node.{reaction_in, reaction_of, sent_of};
ghost use Rattle.clnp_system.specs.Tables.{rows_tables};
ghost use Rattle.law_clnp_step.specs.Handling.{IsReceived, is_system};
ghost use Rattle.law_clnp_step.specs.Step.{is_source};
ghost use Rattle.clnp_net.specs.steps.Telling.{AreBehind, IsSentBy, IsSourceAt, ReceivesAt, SendsAt, TicksAt};

use clnp_entity::{Handled, NetEntity, NetSent, Outcome};
use nsap::{Nsap, Port};
use osi_base::{Arrival, NoMemory, Tick, Unit, Wish};
use std::alloc::Global;
use std::marker::Model;

/// The systems, in their order.
#[derive(Drop)]
pub struct Systems {
    alloc: Global,
    list: Vec<NetEntity>,
}

impl Model for Systems {
    ghost use Rattle.std.specs.Prelude.{List};
    ghost use Rattle.esis_tables.specs.Rows.{Rows};
    ghost use Rattle.clnp_system.specs.Node.{Node};

    ghost Value = { List (Node Rows) };

    ghost view = { λ a. a.list.items };
}

impl Systems {
    /// These systems.
    pub fn new(alloc: Global, list: Vec<NetEntity>) -> Systems
        ensures { result ≡ list.items }
    {
        Systems { alloc, list }
    }

    /// How many there are.
    pub fn count(&self) -> usize
        ensures { result ≡ length self.now }
    {
        self.list.len()
    }

    /// A frame that arrived is handed to its system. Nothing comes of it where there is no such system.
    pub fn receive(&mut self, now: Tick, arrival: &Arrival<Port>) -> Result<Outcome, NoMemory>
        requires behind { AreBehind now self.old }
        requires low { now ≤ 4000000000 }
        ensures received { IfOk result (λ received. IsReceived rows_tables now self.old arrival.now (reaction_in received) self.new) }
        ensures behind { IfOk result (λ received. AreBehind now self.new) }
    {
        let Some(place) = self.place_of(arrival.system) else {
            return Ok(Outcome::Handled(Handled {
                ups: Vec::new(self.alloc),
                frames: Vec::new(self.alloc),
            }));
        };
        let received = self.receive_at(place, now, arrival)?;
        Ok(received)
    }

    /// The system at a place takes a frame.
    fn receive_at(
        &mut self,
        place: usize,
        now: Tick,
        arrival: &Arrival<Port>,
    ) -> Result<Outcome, NoMemory>
        requires within { place < length self.old }
        requires behind { AreBehind now self.old }
        requires low { now ≤ 4000000000 }
        ensures { IfOk result (λ received. ReceivesAt now place self.old arrival.now (reaction_in received) self.new) }
    {
        let Some(system) = self.list.get_mut(place) else {
            unreachable!();
        };
        let unit = &arrival.unit;
        let received = system.on_frame(now, unit.from, unit.to, unit.octets.as_slice())?;
        Ok(received)
    }

    /// The end system that has the source of a unit sends it; the answer is its number, and what becomes of the unit. None exactly
    /// where no end system has the source.
    pub fn send(
        &mut self,
        now: Tick,
        unit: &Unit<Nsap>,
        wish: Wish,
    ) -> Result<Option<(u8, NetSent)>, NoMemory>
        requires behind { AreBehind now self.old }
        requires low { now ≤ 4000000000 }
        ensures { IfOk result (λ sent. IsSentBy now unit.now wish self.old sent self.new) }
    {
        let Some(place) = self.place_from(&unit.from) else {
            return Ok(None);
        };
        let sent = self.send_at(place, now, unit, wish)?;
        Ok(Some(sent))
    }

    /// The system at a place sends a unit.
    fn send_at(
        &mut self,
        place: usize,
        now: Tick,
        unit: &Unit<Nsap>,
        wish: Wish,
    ) -> Result<(u8, NetSent), NoMemory>
        requires within { place < length self.old }
        requires source { IsSourceAt unit.now.from place self.old }
        requires behind { AreBehind now self.old }
        requires low { now ≤ 4000000000 }
        ensures { IfOk result (λ sent. SendsAt now unit.now wish place sent.0 self.old (sent_of sent.1) self.new) }
    {
        let Some(system) = self.list.get_mut(place) else {
            unreachable!();
        };
        let number = system.system();
        let sent = system.send(now, unit, wish)?;
        Ok((number, sent))
    }

    /// The system at a place ticks. The answer is its number, and what came of it.
    pub fn tick(&mut self, place: usize, now: Tick) -> Result<(u8, Handled), NoMemory>
        requires within { place < length self.old }
        requires behind { AreBehind now self.old }
        requires low { now ≤ 4000000000 }
        ensures ticked { IfOk result (λ ticked. TicksAt now place ticked.0 self.old (reaction_of ticked.1) self.new) }
        ensures behind { IfOk result (λ ticked. AreBehind now self.new) }
    {
        let Some(system) = self.list.get_mut(place) else {
            unreachable!();
        };
        let number = system.system();
        let handled = system.tick(now)?;
        Ok((number, handled))
    }

    /// The place of the system of that number.
    fn place_of(&self, number: u8) -> Option<usize>
        ensures { result ≡ position (is_system number) self.now }
    {
        self.list
            .iter()
            .position(|system| system.system() == number)
    }

    /// The place of the end system that has the address.
    fn place_from(&self, address: &Nsap) -> Option<usize>
        ensures { result ≡ position (is_source address.now) self.now }
    {
        self.list.iter().position(|system| system.is_end() && address.same_system(&system.title()))
    }
}
