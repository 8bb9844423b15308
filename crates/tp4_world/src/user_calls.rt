//! What users ask of the transport entities (X.214, service primitives).

ghost use Rattle.std.specs.Prelude.{◌≡◌, ◌≤◌, ◌∷◌, [], Some, IsSome, OnOk};
ghost use Rattle.tp4_number.specs.Number.{wire};
ghost use Rattle.tp4_conn.specs.Calls.{IsCall};
ghost use Rattle.tp4_conn.specs.End.{IsSized};
ghost use Rattle.script_journal.specs.declared.event.Event.TheVariants.{No, Restart};
ghost use Rattle.script_journal.specs.declared.cause.Refused.{Refused as Cause};
ghost use Rattle.tp4_entity.specs.Entity.{Entity};
ghost use Rattle.tp4_entity.specs.Step.{restarted};
ghost use Rattle.tp4_world.specs.Run.{Calls, Connects};
ghost use Rattle.tp4_world.specs.World.{entity_at, with_entity};
ghost use Rattle.tp4_world.specs.steps.Parts.{AreBehind, AreHoused, AreLaterAll, world_of};

use crate::EndAt;
use crate::ends::has_ended;
use crate::events::{call_event, connect_line, tell_some};
use crate::refusals::{told_connect, told_refusal};
use crate::sending::follow;
use crate::transport::{Transport, entity_of};
use nsap::Nsap;
use osi_base::{Carrier, NoMemory, Tick};
use script_journal::{Boxed, Event, Refused, Request};
use tp4_conn::{ConnectRequest, Uncounted, UserCall};

/// A user of a system asks for a connection.
pub fn begin<C: Carrier<Addr = Nsap>>(
    carrier: &mut C,
    transport: &mut Transport,
    now: Tick,
    system: u8,
    request: ConnectRequest,
    events: &mut Vec<Event>,
) -> Result<(), NoMemory>
    requires low { now ≤ 4000000000 }
    requires clock { (C.link carrier.old).clock ≡ now }
    requires listed { IsSome (entity_at transport.old.entities.items system) }
    requires behind { AreBehind now transport.old.entities.items }
    requires later { AreLaterAll now transport.old.entities.items }
    requires size { IsSized request.options }
    requires none { events.old.items ≡ [] }
    ensures connects { OnOk result (Connects C.link C.steps
        (world_of carrier.old transport.old.entities.items transport.old.ends) system request events.new.items (world_of carrier.new transport.new.entities.items transport.new.ends)) }
    ensures clock { OnOk result ((C.link carrier.new).clock ≡ now) }
    ensures behind { OnOk result (AreBehind now transport.new.entities.items) }
    ensures later { OnOk result (AreLaterAll now transport.new.entities.items) }
{
    let alloc = transport.alloc;
    let Some(one) = entity_of(&mut transport.entities, system) else {
        unreachable!();
    };
    let own = one.entity.own();
    let line = connect_line(alloc, system, &own, &request)?;
    transport.out.clear();
    match one
        .entity
        .connect(now, request, &mut transport.out, &mut Uncounted)
    {
        Ok(reference) => {
            let end = transport.ends.add(EndAt { system, reference })?;
            let line = Request {
                end,
                reference,
                ..line
            };
            events.push(Event::Connect(Boxed::new(alloc, line)?))?;
            follow(carrier, transport, system, &own, events)?;
            Ok(())
        }
        Err(why) => {
            refuse(told_connect(why), events)?;
            Ok(())
        }
    }
}

/// The transport entity of a system begins again, without its ends.
pub fn restart(
    transport: &mut Transport,
    now: Tick,
    system: u8,
    events: &mut Vec<Event>,
) -> Result<(), NoMemory>
    requires listed { IsSome (entity_at transport.old.entities.items system) }
    requires behind { AreBehind now transport.old.entities.items }
    requires later { AreLaterAll now transport.old.entities.items }
    requires none { events.old.items ≡ [] }
    ensures restarts { OnOk result ((entity : Entity) × (entity_at transport.old.entities.items system ≡ Some entity) × (events.new.items ≡ Restart system ∷ [])
        × (transport.new.entities.items ≡ with_entity transport.old.entities.items system (restarted now entity))) }
    ensures ends { OnOk result (transport.new.ends ≡ transport.old.ends) }
    ensures behind { OnOk result (AreBehind now transport.new.entities.items) }
    ensures later { OnOk result (AreLaterAll now transport.new.entities.items) }
{
    let Some(one) = entity_of(&mut transport.entities, system) else {
        unreachable!();
    };
    events.push(Event::Restart { system })?;
    one.entity.restart(now);
    Ok(())
}

/// A user calls the end of a number.
pub fn ask<C: Carrier<Addr = Nsap>>(
    carrier: &mut C,
    transport: &mut Transport,
    now: Tick,
    number: u32,
    call: UserCall,
    events: &mut Vec<Event>,
) -> Result<(), NoMemory>
    requires low { now ≤ 4000000000 }
    requires clock { (C.link carrier.old).clock ≡ now }
    requires behind { AreBehind now transport.old.entities.items }
    requires later { AreLaterAll now transport.old.entities.items }
    requires housed { AreHoused transport.old.entities.items transport.old.ends }
    requires call { IsCall call }
    requires none { events.old.items ≡ [] }
    ensures calls { OnOk result (Calls C.link C.steps wire
        (world_of carrier.old transport.old.entities.items transport.old.ends) number call events.new.items (world_of carrier.new transport.new.entities.items transport.new.ends)) }
    ensures clock { OnOk result ((C.link carrier.new).clock ≡ now) }
    ensures behind { OnOk result (AreBehind now transport.new.entities.items) }
    ensures later { OnOk result (AreLaterAll now transport.new.entities.items) }
{
    let Some(end) = transport.ends.numbered(number) else {
        refuse(Some(Refused::NoSuchEnd), events)?;
        return Ok(());
    };
    let Some(one) = entity_of(&mut transport.entities, end.system) else {
        unreachable!();
    };
    if has_ended(&transport.ends, now, number, end, &one.entity) {
        refuse(Some(Refused::Ended), events)?;
        return Ok(());
    }
    let alloc = transport.alloc;
    let own = one.entity.own();
    let event = call_event(alloc, number, &call)?;
    transport.out.clear();
    match one.entity.user(now, end.reference, call, &mut transport.out, &mut Uncounted) {
        Ok(()) => {
            tell_some(event, events)?;
            follow(carrier, transport, end.system, &own, events)?;
            Ok(())
        }
        Err(why) => {
            refuse(told_refusal(why), events)?;
            Ok(())
        }
    }
}

/// Tells a refusal; want of memory is none.
fn refuse(why: Option<Refused>, events: &mut Vec<Event>) -> Result<(), NoMemory>
    requires none { events.old.items ≡ [] }
    ensures { OnOk result ((cause : Cause) × (why ≡ Some cause) × (events.new.items ≡ No cause ∷ [])) }
{
    let Some(cause) = why else {
        return Err(NoMemory);
    };
    events.push(Event::No { cause })?;
    Ok(())
}
