//! Calls of a network, and the events of what comes of them.

ghost use Rattle.std.specs.Prelude.{◌≡◌, [], OnOk};
ghost use Rattle.net_world.specs.Run.{SendsUnit};
ghost use Rattle.net_world.specs.steps.TakingUp.{TakesUpAll};

use crate::telling::{sent_event, tell};
use nsap::{Nsap, RAW};
use osi_base::{Bytes, Carrier, NoMemory, Unit, Wish};
use script_journal::{Event, Refused};
use std::alloc::Global;

/// A raw unit is offered to a carrier, from the one title's address for raw units to the other's; without octets it is refused
/// before all else. What comes of it is told.
///
/// At NoMemory the run ends.
pub fn send_unit<C: Carrier<Addr = Nsap>>(
    alloc: Global,
    carrier: &mut C,
    system: u8,
    sender: &Nsap,
    receiver: &Nsap,
    wish: Wish,
    octets: Bytes,
    events: &mut Vec<Event>,
) -> Result<(), NoMemory>
    requires none { events.old.items ≡ [] }
    ensures { OnOk result (SendsUnit C.link C.steps carrier.old system sender.now receiver.now wish octets events.new.items carrier.new) }
{
    if octets.as_slice().is_empty() {
        events.push(Event::No {
            cause: Refused::EmptyUnit,
        })?;
        return Ok(());
    }
    let to = receiver.with_selector(RAW);
    let shown = Vec::from_slice(alloc, octets.as_slice())?;
    let unit = Unit {
        from: sender.with_selector(RAW),
        to,
        octets,
    };
    let answer = carrier.offer(unit, wish)?;
    events.push(sent_event(system, &to, shown, answer))?;
    take_up(carrier, events)
}

/// Takes up all that waits, and tells it.
///
/// At NoMemory the run ends.
pub fn take_up<C: Carrier<Addr = Nsap>>(
    carrier: &mut C,
    events: &mut Vec<Event>,
) -> Result<(), NoMemory>
    ensures { OnOk result (TakesUpAll C.link C.steps carrier.old events.old.items events.new.items carrier.new) }
{
    while let Some(up) = carrier.next_up() {
        tell(up, events)?;
    }
    Ok(())
}
