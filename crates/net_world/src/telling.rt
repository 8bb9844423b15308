//! What a transcript tells of what a network hands up (X.213, connectionless-mode network service).

ghost use Rattle.std.specs.Prelude.{◌≡◌, ◌++◌, ◌∷◌, [], OnOk};
ghost use Rattle.net_world.specs.Told.{picked_event, refusal, sent_event, shown_at, up_events};

use nsap::{Nsap, RAW};
use osi_base::{Address, Arrival, Bytes, DropCause, NoMemory, Offered, Picked, Up};
use script_journal::{Event, Refused};

/// Tells what came up: a note, or a raw unit. Units for other selectors are not shown.
// Inlined: most notes are frames, and the event of one is then written in its place in the list.
#[inline(always)]
pub fn tell(up: Up<Nsap>, events: &mut Vec<Event>) -> Result<(), NoMemory>
    ensures { OnOk result (events.new.items ≡ events.old.items ++ up_events up) }
{
    match up {
        Up::Unit(arrival) => show(arrival, events),
        Up::Note(note) => {
            events.push(Event::Net(note))?;
            Ok(())
        }
    }
}

/// Shows a raw unit that came to a system.
fn show(arrival: Arrival<Nsap>, events: &mut Vec<Event>) -> Result<(), NoMemory>
    ensures { OnOk result (events.new.items ≡ events.old.items ++ shown_at arrival.system arrival.unit) }
{
    let unit = arrival.unit;
    if unit.to.selector() != RAW {
        return Ok(());
    }
    events.push(Event::Unit {
        system: arrival.system,
        from: address(&unit.from),
        octets: unit.octets,
    })?;
    Ok(())
}

/// The line of a raw unit that a system sent to an address, by the network's answer.
pub(crate) fn sent_event(system: u8, to: &Nsap, octets: Vec<u8>, answer: Offered) -> Event
    ensures { result ≡ sent_event system to.now octets.items answer }
{
    match answer {
        Offered::Taken => Event::Sent {
            system,
            to: address(to),
            octets: Bytes::of(octets),
        },
        Offered::Dropped(cause) => Event::No {
            cause: refusal(cause),
        },
    }
}

/// Why a unit is refused that the network does not take.
pub fn refusal(cause: DropCause) -> Refused
    ensures { result ≡ refusal cause }
{
    match cause {
        DropCause::TooLong => Refused::TooLong,
        DropCause::NoRoute => Refused::NoRoute,
        DropCause::Full => Refused::Full,
        DropCause::IdsSpent => Refused::IdsSpent,
    }
}

/// The line of a delivery.
pub fn picked_event(number: u32, system: u8, answer: Picked) -> Event
    ensures { result ≡ picked_event number system answer }
{
    match answer {
        Picked::Taken => Event::Deliver { number, system },
        Picked::NoSuch => Event::NoSuch { number, system },
        Picked::Late => Event::Late { number, system },
        Picked::NotThere => Event::NotThere { number, system },
        Picked::NotOurs => Event::NotOurs { number, system },
    }
}

/// An address, as events have it.
pub fn address(nsap: &Nsap) -> Address
    ensures { result ≡ nsap.now }
{
    Address::of(nsap.octets())
}
