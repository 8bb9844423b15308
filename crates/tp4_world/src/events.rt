//! What a transcript tells of ends, of their users' calls and of injected octets (X.214, service primitives).

ghost use Rattle.std.specs.Prelude.{◌≡◌, ◌++◌, ◌∷◌, [], ℕ, IfOk, OnOk};
ghost use Rattle.tp4_world.specs.Telling.{call_events, connect_event, drop_events, ends_after, ends_with, event_for, events_after, inject_event};
ghost use Rattle.script_journal.specs.declared.event.Event.TheVariants.{Connect};
ghost use Rattle.tp4_world.specs.World.{latest};
ghost use Rattle.tp4_world.specs.steps.Parts.{listed};

use crate::EndAt;
use crate::ends::Ends;
use net_world::address;
use nsap::Nsap;
use osi_base::{Bytes, Injected, NoMemory, Offered};
use script_journal::{Boxed, Event, Indication, Request};
use std::alloc::Global;
use tp4_conn::{ConnectRequest, UserCall};
use tp4_flow::{EndEvent, What};

/// Tells what ends of a system told, in order. An indication makes an end.
// Inlined: at most steps nothing was told, which is seen by one look.
#[inline(always)]
pub fn tell_all(
    alloc: Global,
    ends: &mut Ends,
    system: u8,
    own: &Nsap,
    told: Vec<EndEvent>,
    events: &mut Vec<Event>,
) -> Result<(), NoMemory>
    ensures ends { OnOk result (ends.new ≡ ends_after ends.old system told.items) }
    ensures events { OnOk result (events.new.items ≡ events.old.items ++ events_after ends.old system own.now told.items) }
{
    for one in told {
        tell(alloc, ends, system, own, one, events)?;
    }
    Ok(())
}

/// Tells what one end told.
// Not inlined: where nothing was told, there is no room for its values to clear.
#[inline(never)]
fn tell(
    alloc: Global,
    ends: &mut Ends,
    system: u8,
    own: &Nsap,
    told: EndEvent,
    events: &mut Vec<Event>,
) -> Result<(), NoMemory>
    ensures ends { OnOk result (ends.new ≡ ends_with ends.old system told told.what) }
    ensures events { OnOk result (events.new.items ≡ events.old.items
        ++ event_for system own.now (latest (ends_with ends.old system told told.what) system told.reference) told.reference told.what ∷ []) }
{
    note_end(ends, system, &told)?;
    let EndEvent { reference, what } = told;
    let number = ends.latest(system, reference);
    let event = event_for(alloc, system, own, number, reference, what)?;
    events.push(event)?;
    Ok(())
}

/// An indication makes an end.
fn note_end(ends: &mut Ends, system: u8, told: &EndEvent) -> Result<(), NoMemory>
    ensures { OnOk result (ends.new ≡ ends_with ends.old system told.now told.now.what) }
{
    match told.what {
        What::Incoming { .. } => {
            ends.add(EndAt {
                system,
                reference: told.reference,
            })?;
            Ok(())
        }
        What::End(_) | What::BadTpdu(..) | What::Unknown(_) | What::Silent => Ok(()),
    }
}

/// The line of what the end of a number and a reference told, at that system and address.
fn event_for(
    alloc: Global,
    system: u8,
    own: &Nsap,
    number: u32,
    reference: u16,
    what: What,
) -> Result<Event, NoMemory>
    ensures { IfOk result (λ event. event ≡ event_for system own.now number reference what) }
{
    match what {
        What::Incoming {
            from,
            partner,
            calling,
            called,
            options,
            octets,
        } => {
            let indication = Indication {
                end: number,
                system,
                reference,
                calling: address(&from),
                partner,
                calling_selector: calling,
                called: address(own),
                called_selector: called,
                options,
                octets,
            };
            Ok(Event::Incoming(Boxed::new(alloc, indication)?))
        }
        What::End(what) => Ok(Event::End { number, what }),
        What::BadTpdu(cause, place) => Ok(Event::BadTpdu {
            system,
            cause,
            place,
        }),
        What::Unknown(kind) => Ok(Event::Unknown { system, kind }),
        What::Silent => Ok(Event::Silent { system }),
    }
}

/// What the line of a connect request says, but for the end that it makes.
pub fn connect_line(
    alloc: Global,
    system: u8,
    own: &Nsap,
    request: &ConnectRequest,
) -> Result<Request, NoMemory>
    ensures { IfOk result (λ line. (number reference : ℕ) → Connect (record line { end = number; reference = reference }) ≡ connect_event number system reference own.now request.now) }
{
    Ok(Request {
        end: 0,
        system,
        reference: 0,
        calling: address(own),
        calling_selector: Bytes::copy(alloc, request.from_selector.as_slice())?,
        called: address(&request.to),
        called_selector: Bytes::copy(alloc, request.to_selector.as_slice())?,
        octets: Bytes::copy(alloc, request.octets.as_slice())?,
    })
}

/// The line of a user's call on the end of a number; an accept and a window have the line of what the end tells of them.
pub fn call_event(alloc: Global, end: u32, call: &UserCall) -> Result<Option<Event>, NoMemory>
    ensures { IfOk result (λ event. listed event ≡ call_events end call.now) }
{
    match call {
        UserCall::Accept(..) | UserCall::Window(_) => Ok(None),
        UserCall::Refuse(octets) => Ok(Some(Event::Refuse {
            end,
            octets: Bytes::copy(alloc, octets.as_slice())?,
        })),
        UserCall::Normal(octets) => Ok(Some(Event::Data {
            end,
            octets: Bytes::copy(alloc, octets.as_slice())?,
        })),
        UserCall::Urgent(octets) => Ok(Some(Event::Expedite {
            end,
            octets: Bytes::copy(alloc, octets.as_slice())?,
        })),
        UserCall::Disconnect(octets) => Ok(Some(Event::Disconnect {
            end,
            octets: Bytes::copy(alloc, octets.as_slice())?,
        })),
    }
}

/// Tells an event, where there is one.
pub fn tell_some(event: Option<Event>, events: &mut Vec<Event>) -> Result<(), NoMemory>
    ensures { OnOk result (events.new.items ≡ events.old.items ++ listed event) }
{
    match event {
        Some(event) => {
            events.push(event)?;
            Ok(())
        }
        None => Ok(()),
    }
}

/// Tells that the network did not take a transport unit of a system, where it did not.
pub fn tell_drop(system: u8, answer: Offered, events: &mut Vec<Event>) -> Result<(), NoMemory>
    ensures { OnOk result (events.new.items ≡ events.old.items ++ drop_events system answer) }
{
    match answer {
        Offered::Taken => Ok(()),
        Offered::Dropped(cause) => {
            events.push(Event::Dropped { system, cause })?;
            Ok(())
        }
    }
}

/// The line of injected octets.
pub fn inject_event(system: u8, answer: Injected) -> Event
    ensures { result ≡ inject_event system answer }
{
    match answer {
        Injected::Taken => Event::Inject { system },
        Injected::NotThere => Event::InjectNotThere { system },
    }
}
