//! The ends that are due at a tick, system by system (X.224, class 4 procedures).

ghost use Rattle.std.specs.Prelude.{◌≡◌, ◌<◌, ◌≤◌, ◌+◌, ℕ, Some, length, slice_get, true, false, IfOk, IsSome, OnOk};
ghost use Rattle.std.specs.List.{position};
ghost use Rattle.tp4_number.specs.Number.{wire};
ghost use Rattle.tp4_world.specs.Run.{TicksAll, TicksEntity};
ghost use Rattle.tp4_world.specs.World.{entity_at, is_of};
ghost use Rattle.tp4_world.specs.steps.Parts.{AreBehind, AreFromAll, AreLaterAll, AreLaterAt, Tells, TicksOnce, dues_at, systems_of, world_of};

use crate::sending::follow;
use crate::transport::{Transport, place_of};
use nsap::Nsap;
use osi_base::{Carrier, NoMemory, Tick};
use script_journal::Event;
use tp4_conn::Uncounted;

/// The due ends of each entity tick, in the order of the entities.
pub fn tick_all<C: Carrier<Addr = Nsap>>(
    carrier: &mut C,
    transport: &mut Transport,
    now: Tick,
    events: &mut Vec<Event>,
) -> Result<(), NoMemory>
    requires low { now ≤ 4000000000 }
    requires clock { (C.link carrier.old).clock ≡ now }
    requires behind { AreBehind now transport.old.entities.items }
    requires from { AreFromAll now transport.old.entities.items }
    ensures ticks { OnOk result (Tells events.old.items events.new.items (λ made. TicksAll C.link C.steps wire
        (world_of carrier.old transport.old.entities.items transport.old.ends) transport.old.entities.items made (world_of carrier.new transport.new.entities.items transport.new.ends))) }
    ensures clock { OnOk result ((C.link carrier.new).clock ≡ now) }
    ensures behind { OnOk result (AreBehind now transport.new.entities.items) }
    ensures later { OnOk result (AreLaterAll now transport.new.entities.items) }
{
    for place in 0..transport.entities.len() {
        let system = system_at(transport, place);
        tick_system(carrier, transport, now, system, events)?;
    }
    Ok(())
}

/// The system of the entity at a place.
fn system_at(transport: &Transport, place: usize) -> u8
    requires { place < length transport.now.entities.items }
    ensures { slice_get (systems_of transport.now.entities.items) place ≡ Some result }
{
    let Some(one) = transport.entities.get(place) else {
        unreachable!();
    };
    one.system
}

/// The due ends of an entity tick, by rising reference, until none is due.
///
/// An end that ticked is due no more at that tick, so one fewer is due after it.
fn tick_system<C: Carrier<Addr = Nsap>>(
    carrier: &mut C,
    transport: &mut Transport,
    now: Tick,
    system: u8,
    events: &mut Vec<Event>,
) -> Result<(), NoMemory>
    requires low { now ≤ 4000000000 }
    requires clock { (C.link carrier.old).clock ≡ now }
    requires behind { AreBehind now transport.old.entities.items }
    requires from { AreFromAll now transport.old.entities.items }
    requires listed { IsSome (entity_at transport.old.entities.items system) }
    ensures ticks { OnOk result (Tells events.old.items events.new.items (λ made. TicksEntity C.link C.steps wire system
        (world_of carrier.old transport.old.entities.items transport.old.ends) made (world_of carrier.new transport.new.entities.items transport.new.ends))) }
    ensures clock { OnOk result ((C.link carrier.new).clock ≡ now) }
    ensures behind { OnOk result (AreBehind now transport.new.entities.items) }
    ensures from { OnOk result (AreFromAll now transport.new.entities.items) }
    ensures kept { OnOk result ((other : ℕ) → AreLaterAt now transport.old.entities.items other → AreLaterAt now transport.new.entities.items other) }
    ensures rest { OnOk result (AreLaterAt now transport.new.entities.items system) }
    ensures systems { OnOk result (systems_of transport.new.entities.items ≡ systems_of transport.old.entities.items) }
{
    let Some(place) = place_of(&transport.entities, system) else {
        unreachable!();
    };
    while tick_one(carrier, transport, place, now, system, events)? {}
    Ok(())
}

/// The due end of least reference of the entity at a place ticks; false exactly where none is due.
fn tick_one<C: Carrier<Addr = Nsap>>(
    carrier: &mut C,
    transport: &mut Transport,
    place: usize,
    now: Tick,
    system: u8,
    events: &mut Vec<Event>,
) -> Result<bool, NoMemory>
    requires low { now ≤ 4000000000 }
    requires clock { (C.link carrier.old).clock ≡ now }
    requires behind { AreBehind now transport.old.entities.items }
    requires from { AreFromAll now transport.old.entities.items }
    requires place { position (is_of system) transport.old.entities.items ≡ Some place }
    ensures ticks { IfOk result (λ was_due. Tells events.old.items events.new.items (λ made. TicksOnce C.link C.steps wire system
        (world_of carrier.old transport.old.entities.items transport.old.ends) was_due made (world_of carrier.new transport.new.entities.items transport.new.ends))) }
    ensures fewer { IfOk result (λ was_due. was_due ≡ true → dues_at now transport.new.entities.items system + 1 ≡ dues_at now transport.old.entities.items system) }
    ensures clock { OnOk result ((C.link carrier.new).clock ≡ now) }
    ensures behind { OnOk result (AreBehind now transport.new.entities.items) }
    ensures from { OnOk result (AreFromAll now transport.new.entities.items) }
    ensures kept { OnOk result ((other : ℕ) → AreLaterAt now transport.old.entities.items other → AreLaterAt now transport.new.entities.items other) }
    ensures rest { IfOk result (λ was_due. was_due ≡ false → AreLaterAt now transport.new.entities.items system) }
    ensures systems { OnOk result (systems_of transport.new.entities.items ≡ systems_of transport.old.entities.items) }
{
    let Some(one) = transport.entities.get_mut(place) else {
        unreachable!();
    };
    let own = one.entity.own();
    transport.out.clear();
    let was_due = one
        .entity
        .tick_next(now, &mut transport.out, &mut Uncounted)?;
    if !was_due {
        return Ok(false);
    }
    follow(carrier, transport, system, &own, events)?;
    Ok(true)
}
