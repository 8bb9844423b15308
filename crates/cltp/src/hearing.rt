//! What the network hands up: it is told, and behind all of it what the units among it give (X.234, unit data transfer).

ghost use Rattle.std.specs.Prelude.{OnOk, ◌≡◌, IfOk};
ghost use Rattle.cltp.specs.Hearing.{Hears, TellsOf};
ghost use Rattle.cltp.specs.Run.{TakesUp, Tells};
ghost use Rattle.cltp.specs.steps.TakingUp.{HearsUp};
ghost use Rattle.script_journal.specs.declared.event.Event.TheVariants.{Datagram};
ghost use Rattle.cltp.specs.Ud.{ud_of};

use crate::reading::read_ud;
use crate::system::{ClSystem, system_at};
use crate::ud::UdRef;
use net_world::{address, tell};
use nsap::Nsap;
use osi_base::{Arrival, Bytes, Carrier, NoMemory, Unit, Up};
use script_journal::{Boxed, Event};
use std::alloc::Global;

/// Takes up all that waits and tells it, and then what the units among it give, which `heard` keeps meanwhile.
pub fn take_up<C: Carrier<Addr = Nsap>>(
    alloc: Global,
    carrier: &mut C,
    systems: &[ClSystem],
    heard: &mut Vec<Event>,
    events: &mut Vec<Event>,
) -> Result<(), NoMemory>
    ensures { OnOk result (Tells events.old.items events.new.items (λ made. TakesUp C.link C.steps systems.now carrier.old made carrier.new)) }
{
    heard.clear();
    while let Some(up) = carrier.next_up() {
        hear_up(alloc, systems, &up, heard)?;
        tell(up, events)?;
    }
    events.append(heard)?;
    Ok(())
}

/// Adds what a unit that came up gives.
fn hear_up(
    alloc: Global,
    systems: &[ClSystem],
    up: &Up<Nsap>,
    heard: &mut Vec<Event>,
) -> Result<(), NoMemory>
    ensures { OnOk result (Tells heard.old.items heard.new.items (λ made. HearsUp systems.now up.now made)) }
{
    match up {
        Up::Unit(arrival) => hear(alloc, systems, arrival, heard),
        Up::Note(_) => Ok(()),
    }
}

/// Adds what a unit gives: nothing, where it is not for the users of its system.
fn hear(
    alloc: Global,
    systems: &[ClSystem],
    arrival: &Arrival<Nsap>,
    heard: &mut Vec<Event>,
) -> Result<(), NoMemory>
    ensures { OnOk result (Tells heard.old.items heard.new.items (λ made. Hears systems.now arrival.now made)) }
{
    let Some(own) = system_at(systems, arrival.system) else {
        return Ok(());
    };
    if !own.is_for(&arrival.unit.to) {
        return Ok(());
    }
    let event = own.hear(alloc, &arrival.unit)?;
    heard.push(event)?;
    Ok(())
}

impl ClSystem {
    /// What a unit for its users gives.
    pub(crate) fn hear(&self, alloc: Global, unit: &Unit<Nsap>) -> Result<Event, NoMemory>
        ensures { IfOk result (λ event. TellsOf self.now unit.now event) }
    {
        let ud = match read_ud(unit.octets.as_slice()) {
            Ok(ud) => ud,
            Err(fault) => {
                return Ok(Event::BadUd {
                    system: self.system,
                    cause: fault.cause,
                    place: fault.place,
                });
            }
        };
        if !self.has_selector(ud.to_selector) {
            return Ok(Event::NoUser {
                system: self.system,
            });
        }
        datagram(alloc, self.system, &unit.from, &ud)
    }
}

/// The event of a UD from an address that is shown to a user.
fn datagram(alloc: Global, system: u8, from: &Nsap, ud: &UdRef<'_>) -> Result<Event, NoMemory>
    ensures { IfOk result (λ event. event ≡ Datagram system from.now (ud_of ud.now).from (ud_of ud.now).to (ud_of ud.now).octets) }
{
    Ok(Event::Datagram {
        system,
        from: address(from),
        calling: copied(alloc, ud.from_selector)?,
        called: copied(alloc, ud.to_selector)?,
        octets: copied(alloc, ud.octets)?,
    })
}

/// Octets that are copied to stand apart.
fn copied(alloc: Global, octets: &[u8]) -> Result<Boxed<Bytes>, NoMemory>
    ensures { IfOk result (λ copy. copy ≡ octets.now) }
{
    let copy = Bytes::copy(alloc, octets)?;
    Boxed::new(alloc, copy)
}
