//! A frame on a LAN (IEEE 802.3, MAC frame structure; ISO/IEC 8802-2, LLC PDU).

ghost use Rattle.std.specs.Prelude.{◌≡◌, ◌≤◌, [], length, IfOk, OnErr, OnOk};
ghost use Rattle.lan_frame.specs.Frame.{whole_frame};
ghost use Rattle.lan_step.specs.Frames.{has_taken, marked, is_of};
ghost use Rattle.lan_step.specs.Reading.{ups_of};

use crate::takers::Takers;
use lan_frame::{HEADER, read_frame, write_frame};
use nsap::Port;
use osi_base::{Arrival, Bytes, NoMemory, Note, Tick, Unit, Up};
use std::alloc::Global;
use std::marker::Model;

/// A frame that was sent, and the systems that took it.
#[derive(Drop, Debug)]
pub struct Sent {
    tick: Tick,
    from: Port,
    to: Port,
    whole: Vec<u8>,
    taken: Takers,
}

// The octets are those of the whole frame.
impl Model for Sent {
    ghost use Rattle.std.specs.Prelude.{drop};
    ghost use Rattle.lan_step.specs.Frames.{Frame};
    ghost use Rattle.lan_bag.specs.steps.Store.{IsWhole};

    ghost Value = { Frame };

    ghost view = { λ s. record { tick = s.tick; unit = record { from = s.from; to = s.to; octets = drop 17 s.whole.items }; taken = s.taken } };

    ghost invariant = { λ s. IsWhole s.to.snpa s.from.snpa s.whole.items };
}

impl Sent {
    /// The frame of a unit, sent at that tick, which no system took yet.
    // Inlined: a frame is moved once less.
    #[inline(always)]
    pub fn new(alloc: Global, tick: Tick, unit: Unit<Port>) -> Result<Sent, NoMemory>
        requires { length unit.octets ≤ 1497 }
        ensures { IfOk result (λ sent. sent ≡ record { tick = tick; unit = unit; taken = [] }) }
    {
        let pdu = unit.octets.into_vec();
        Ok(Sent {
            tick,
            from: unit.from,
            to: unit.to,
            whole: write_frame(&unit.to.snpa, &unit.from.snpa, pdu)?,
            taken: Takers::new(alloc),
        })
    }

    /// The tick at which it was sent.
    pub fn tick(&self) -> Tick
        ensures { result ≡ self.now.tick }
    {
        self.tick
    }

    /// The port that sent it.
    pub fn from(&self) -> Port
        ensures { result ≡ self.now.unit.from }
    {
        self.from
    }

    /// The port to which it goes.
    pub fn to(&self) -> Port
        ensures { result ≡ self.now.unit.to }
    {
        self.to
    }

    /// Whether a system took it.
    pub fn was_taken(&self, system: u8) -> bool
        ensures { result ≡ has_taken self.now system }
    {
        self.taken.has(system)
    }

    /// The whole 802.3 frame.
    pub fn whole(&self) -> &[u8]
        ensures whole { result.now ≡ whole_frame self.now.unit.to.snpa self.now.unit.from.snpa self.now.unit.octets }
        ensures most { length result.now ≤ 1514 }
    {
        &self.whole
    }

    /// What it carries.
    pub fn octets(&self) -> &[u8]
        ensures { result.now ≡ self.now.unit.octets }
    {
        &self.whole[HEADER..]
    }

    /// Whether it carries that unit.
    pub fn carries(&self, unit: &Unit<Port>) -> bool
        ensures { result ≡ is_of unit.now self.now }
    {
        self.from == unit.from
            && self.to == unit.to
            && &self.whole[HEADER..] == unit.octets.as_slice()
    }

    /// It comes to a system, unaltered.
    pub fn arrival(&self, alloc: Global, system: u8) -> Result<Arrival<Port>, NoMemory>
        ensures { IfOk result (λ arrival. arrival ≡ record { system = system; unit = self.now.unit }) }
    {
        let unit = Unit {
            from: self.from,
            to: self.to,
            octets: Bytes::of(self.whole[HEADER..].to_vec(alloc)?),
        };
        Ok(Arrival { system, unit })
    }

    /// A system took it.
    ///
    /// At NoMemory nothing has changed.
    pub fn mark(&mut self, system: u8) -> Result<(), NoMemory>
        ensures ok { OnOk result (self.new ≡ marked self.old system) }
        ensures err { OnErr result (self.new ≡ self.old) }
    {
        if !self.was_taken(system) {
            self.taken.push(system)?;
        }
        Ok(())
    }
}

/// What a system gets of octets on a LAN: an arrival, or the note that they are no frame of the
/// network.
pub fn up_of(alloc: Global, lan: u8, system: u8, octets: &[u8]) -> Result<Up<Port>, NoMemory>
    ensures { IfOk result (λ up. up ≡ ups_of lan system octets.now) }
{
    let Some(frame) = read_frame(octets) else {
        return Ok(Up::Note(Note::Alien { system }));
    };
    let (to, from) = (frame.to, frame.from);
    let unit = Unit {
        from: Port { lan, snpa: from },
        to: Port { lan, snpa: to },
        octets: Bytes::of(frame.pdu.to_vec(alloc)?),
    };
    Ok(Up::Unit(Arrival { system, unit }))
}
