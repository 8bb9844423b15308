//! How a delivery and a `settle` end: the least pair that was not taken, again and again.

ghost use Rattle.std.specs.Prelude.{◌≡◌, ◌≤◌, IsTrue, IfOk, OnOk};
ghost use Rattle.osi_base.specs.declared.unit.Picked.TheVariants.{Taken};
ghost use Rattle.tp4_number.specs.Number.{wire};
ghost use Rattle.tp4_world.specs.Run.{Delivers};
ghost use Rattle.tp4_world.specs.steps.Parts.{AreBehind, AreLaterAll, SettlesSo, Tells, world_of};

use crate::arrivals::hear_waiting;
use crate::transport::Transport;
use net_world::picked_event;
use nsap::Nsap;
use osi_base::{Carrier, NoMemory, Picked, Tick};
use script_journal::{Event, Settled};

/// The most deliveries of one `settle`.
const MOST_DELIVERIES: u32 = 65_536;

/// A delivery, with the carrier's answer.
pub fn deliver<C: Carrier<Addr = Nsap>>(
    carrier: &mut C,
    transport: &mut Transport,
    now: Tick,
    number: u32,
    system: u8,
    events: &mut Vec<Event>,
) -> Result<Picked, NoMemory>
    requires low { now ≤ 4000000000 }
    requires clock { (C.link carrier.old).clock ≡ now }
    requires behind { AreBehind now transport.old.entities.items }
    requires later { AreLaterAll now transport.old.entities.items }
    ensures delivers { IfOk result (λ answer. Tells events.old.items events.new.items (λ made. Delivers C.link C.steps wire
        (world_of carrier.old transport.old.entities.items transport.old.ends) number system answer made (world_of carrier.new transport.new.entities.items transport.new.ends))) }
    ensures taken { IfOk result (λ answer. IsTrue ((C.link carrier.old).takes number system) → answer ≡ Taken) }
    ensures clock { OnOk result ((C.link carrier.new).clock ≡ now) }
    ensures behind { OnOk result (AreBehind now transport.new.entities.items) }
    ensures later { OnOk result (AreLaterAll now transport.new.entities.items) }
{
    let answer = carrier.choose(number, system)?;
    events.push(picked_event(number, system, answer))?;
    hear_waiting(carrier, transport, now, events)?;
    Ok(answer)
}

/// Delivers the least pair that was not taken, again and again; how that ends.
pub fn settle<C: Carrier<Addr = Nsap>>(
    carrier: &mut C,
    transport: &mut Transport,
    now: Tick,
    events: &mut Vec<Event>,
) -> Result<Settled, NoMemory>
    requires low { now ≤ 4000000000 }
    requires clock { (C.link carrier.old).clock ≡ now }
    requires behind { AreBehind now transport.old.entities.items }
    requires later { AreLaterAll now transport.old.entities.items }
    ensures settles { IfOk result (λ answer. Tells events.old.items events.new.items (λ made. SettlesSo C.link C.steps wire
        (world_of carrier.old transport.old.entities.items transport.old.ends) made answer (world_of carrier.new transport.new.entities.items transport.new.ends))) }
    ensures clock { OnOk result ((C.link carrier.new).clock ≡ now) }
    ensures behind { OnOk result (AreBehind now transport.new.entities.items) }
    ensures later { OnOk result (AreLaterAll now transport.new.entities.items) }
{
    for count in 0..MOST_DELIVERIES {
        let Some((number, system)) = carrier.fresh() else {
            return Ok(Settled::Settled(count));
        };
        deliver(carrier, transport, now, number, system, events)?;
    }
    match carrier.fresh() {
        Some(_) => Ok(Settled::Stopped(MOST_DELIVERIES)),
        None => Ok(Settled::Settled(MOST_DELIVERIES)),
    }
}
