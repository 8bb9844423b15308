//! A unit as one frame, an octet 0 before it, and what frames that come are (X.233, Inactive Network Layer Protocol subset, Inactive
//! Network Layer Protocol identifier).

ghost use Rattle.std.specs.Prelude.{◌≡◌, ◌+◌, length, nat_lt, IfOk, OnOk};
ghost use Rattle.osi_base.specs.declared.note.Note.TheVariants.{Alien};
ghost use Rattle.osi_base.specs.declared.unit.Up.TheVariants.{Note as Noted};
ghost use Rattle.inactive_step.specs.Frames.{frame_on, read_up, unit_in};
ghost use Rattle.inactive_net.specs.steps.Reading.{ReadsAll};

use crate::rows::Rows;
use inactive_step::Way;
use lan_frame::HEADER;
use nsap::{Nsap, Port};
use osi_base::{Arrival, Bytes, Carrier, NoMemory, Note, Unit, Up};
use std::alloc::Global;
use std::collections::VecDeque;

/// What waits to be taken up.
pub type Ups = VecDeque<Up<Nsap>>;

/// The octet before a unit (ISO/IEC TR 9577, network layer protocol identification): the inactive subset.
const INACTIVE: u8 = 0x00;

/// The frame of a unit. Its octets have room for the header of a LAN.
pub fn frame_of(alloc: Global, way: &Way, unit: &Unit<Nsap>) -> Result<Unit<Port>, NoMemory>
    ensures { IfOk result (λ frame. frame ≡ frame_on way.now unit.now.octets) }
{
    let body = unit.octets.as_slice();
    let mut octets = Vec::with_capacity(alloc, body.len() + 1 + HEADER)?;
    octets.push(INACTIVE)?;
    octets.extend_from_slice(body)?;
    Ok(Unit {
        from: way.source.port,
        to: way.goal.port,
        octets: Bytes::of(octets),
    })
}

/// Whether a unit, with the octet before it, is above the room of its frame.
pub fn is_too_long(way: &Way, unit: &Unit<Nsap>) -> bool
    ensures { result ≡ nat_lt way.now.goal.room (length unit.now.octets + 1) }
{
    unit.octets.as_slice().len() as u64 >= u64::from(way.goal.room)
}

/// Takes up all that waits below, in order, as what it is.
pub fn read_all<C: Carrier<Addr = Port>>(
    link: &mut C,
    rows: &Rows,
    waiting: &mut Ups,
) -> Result<(), NoMemory>
    ensures { OnOk result (ReadsAll C.link C.steps rows.now link.old waiting.old.items link.new waiting.new.items) }
{
    while let Some(up) = link.next_up() {
        waiting.push_back(read(rows, up))?;
    }
    Ok(())
}

/// What comes up from below: a frame is a unit or alien, and a note is told as it is.
fn read(rows: &Rows, up: Up<Port>) -> Up<Nsap>
    ensures { result ≡ read_up rows.now up }
{
    match up {
        Up::Note(note) => Up::Note(note),
        Up::Unit(arrival) => read_frame(rows, arrival),
    }
}

/// A frame is a unit between the addresses of its two ports where its first octet is 0 and both are those of end systems, else alien.
fn read_frame(rows: &Rows, arrival: Arrival<Port>) -> Up<Nsap>
    ensures { result ≡ unit_in rows.now arrival.system arrival.unit.from arrival.unit.to arrival.unit.octets }
{
    let system = arrival.system;
    let frame = arrival.unit;
    let mut octets = frame.octets.into_vec();
    if octets.first() != Some(&INACTIVE) {
        return alien(system);
    }
    let Some(source) = rows.with_port(&frame.from) else {
        return alien(system);
    };
    let Some(goal) = rows.with_port(&frame.to) else {
        return alien(system);
    };
    octets.remove(0);
    let unit = Unit {
        from: source.address,
        to: goal.address,
        octets: Bytes::of(octets),
    };
    Up::Unit(Arrival { system, unit })
}

/// A system got a frame that holds no unit.
fn alien(system: u8) -> Up<Nsap>
    ensures { result ≡ Noted (Alien system) }
{
    Up::Note(Note::Alien { system })
}
