//! What the network hands up: it is told, and then each unit for transport is handed to the entity of its system (X.214, model of the
//! transport service).

ghost use Rattle.std.specs.Prelude.{◌≡◌, ◌≤◌, ◌++◌, ◌==◌, ◌&&◌, [], nat_eq, OnOk};
ghost use Rattle.std.specs.Cmp.Lexicographic.{pointwise};
ghost use Rattle.nsap.specs.Address.{selector_of};
ghost use Rattle.net_world.specs.Told.{up_events};
ghost use Rattle.tp4_number.specs.Number.{wire};
ghost use Rattle.tp4_world.specs.Run.{Hears};
ghost use Rattle.tp4_world.specs.steps.Parts.{AreBehind, AreLaterAll, HearsEach, HearsWaiting, TakesUnits, Tells, then_for_transport, world_of};

use crate::sending::follow;
use crate::transport::{Transport, entity_of};
use net_world::tell;
use nsap::{Nsap, TRANSPORT};
use osi_base::{Arrival, Carrier, NoMemory, Tick, Up};
use script_journal::Event;
use std::collections::VecDeque;
use tp4_conn::Uncounted;

/// Tells what waits in the carrier, and then hands each unit for transport to its entity.
pub fn hear_waiting<C: Carrier<Addr = Nsap>>(
    carrier: &mut C,
    transport: &mut Transport,
    now: Tick,
    events: &mut Vec<Event>,
) -> Result<(), NoMemory>
    requires low { now ≤ 4000000000 }
    requires clock { (C.link carrier.old).clock ≡ now }
    requires behind { AreBehind now transport.old.entities.items }
    requires later { AreLaterAll now transport.old.entities.items }
    ensures hears { OnOk result (Tells events.old.items events.new.items (λ made. HearsWaiting C.link C.steps wire
        (world_of carrier.old transport.old.entities.items transport.old.ends) made (world_of carrier.new transport.new.entities.items transport.new.ends))) }
    ensures clock { OnOk result ((C.link carrier.new).clock ≡ now) }
    ensures behind { OnOk result (AreBehind now transport.new.entities.items) }
    ensures later { OnOk result (AreLaterAll now transport.new.entities.items) }
{
    transport.units.clear();
    take_units(carrier, &mut transport.units, events)?;
    hear_all(carrier, transport, now, events)?;
    Ok(())
}

/// Takes up all that waits and tells it, in order; the units for transport are kept.
fn take_units<C: Carrier<Addr = Nsap>>(
    carrier: &mut C,
    units: &mut VecDeque<Arrival<Nsap>>,
    events: &mut Vec<Event>,
) -> Result<(), NoMemory>
    requires none { units.old.items ≡ [] }
    ensures { OnOk result (TakesUnits C.link C.steps carrier.old events.old.items carrier.new units.new.items events.new.items) }
{
    while let Some(up) = carrier.next_up() {
        sort(up, events, units)?;
    }
    Ok(())
}

/// Tells what came up, or puts it with the units for transport.
// Inlined: what came up is a large value, which is moved once less.
#[inline(always)]
fn sort(
    up: Up<Nsap>,
    events: &mut Vec<Event>,
    units: &mut VecDeque<Arrival<Nsap>>,
) -> Result<(), NoMemory>
    ensures units { OnOk result (units.new.items ≡ then_for_transport units.old.items up) }
    ensures told { OnOk result (events.new.items ≡ events.old.items ++ up_events up) }
{
    match up {
        Up::Unit(arrival) if arrival.unit.to.selector() == TRANSPORT => {
            units.push_back(arrival)?;
            Ok(())
        }
        other => tell(other, events),
    }
}

/// The units that were taken up are handled, one after another.
fn hear_all<C: Carrier<Addr = Nsap>>(
    carrier: &mut C,
    transport: &mut Transport,
    now: Tick,
    events: &mut Vec<Event>,
) -> Result<(), NoMemory>
    requires low { now ≤ 4000000000 }
    requires clock { (C.link carrier.old).clock ≡ now }
    requires behind { AreBehind now transport.old.entities.items }
    requires later { AreLaterAll now transport.old.entities.items }
    ensures hears { OnOk result (Tells events.old.items events.new.items (λ made. HearsEach C.link C.steps wire
        (world_of carrier.old transport.old.entities.items transport.old.ends) transport.old.units.items made (world_of carrier.new transport.new.entities.items transport.new.ends))) }
    ensures clock { OnOk result ((C.link carrier.new).clock ≡ now) }
    ensures behind { OnOk result (AreBehind now transport.new.entities.items) }
    ensures later { OnOk result (AreLaterAll now transport.new.entities.items) }
{
    while let Some(arrival) = transport.units.pop_front() {
        hear(carrier, transport, now, &arrival, events)?;
    }
    Ok(())
}

/// A unit is handed to the entity of its system, where it is for the entity's address; else nothing comes of it. Those that wait
/// behind it are not touched.
fn hear<C: Carrier<Addr = Nsap>>(
    carrier: &mut C,
    transport: &mut Transport,
    now: Tick,
    arrival: &Arrival<Nsap>,
    events: &mut Vec<Event>,
) -> Result<(), NoMemory>
    requires low { now ≤ 4000000000 }
    requires clock { (C.link carrier.old).clock ≡ now }
    requires behind { AreBehind now transport.old.entities.items }
    requires later { AreLaterAll now transport.old.entities.items }
    ensures hears { OnOk result (Tells events.old.items events.new.items (λ made. Hears C.link C.steps wire
        (world_of carrier.old transport.old.entities.items transport.old.ends) arrival.now made (world_of carrier.new transport.new.entities.items transport.new.ends))) }
    ensures clock { OnOk result ((C.link carrier.new).clock ≡ now) }
    ensures others { OnOk result (transport.new.units.items ≡ transport.old.units.items) }
    ensures behind { OnOk result (AreBehind now transport.new.entities.items) }
    ensures later { OnOk result (AreLaterAll now transport.new.entities.items) }
{
    let Some(one) = entity_of(&mut transport.entities, arrival.system) else {
        return Ok(());
    };
    let own = one.entity.own();
    if !is_for(&own, &arrival.unit.to) {
        return Ok(());
    }
    transport.out.clear();
    one.entity.on_unit(
        now,
        arrival.unit.from,
        arrival.unit.octets.as_slice(),
        &mut transport.out,
        &mut Uncounted,
    )?;
    follow(carrier, transport, arrival.system, &own, events)?;
    Ok(())
}

/// Whether a unit to an address is for the users of an entity.
// Inlined: at each unit that comes up it is a look at a few octets.
#[inline(always)]
fn is_for(own: &Nsap, to: &Nsap) -> bool
    ensures { result ≡ (selector_of to.now == 1 && pointwise nat_eq own.now to.now) }
{
    to.selector() == TRANSPORT && own == to
}
