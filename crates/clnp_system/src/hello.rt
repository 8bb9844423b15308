//! The hellos that a system sends (ISO 9542, report configuration).

ghost use Rattle.std.specs.Prelude.{◌≡◌, ◌≤◌, IfOk, IsSome, length, option_to_list};
ghost use Rattle.esis_pdu.specs.Hellos.{size_of};
ghost use Rattle.clnp_system.specs.Hellos.{AnswersGroup, AreHellos, HellosIf, hearers, is_due, own_esh, own_hello, own_ish};
ghost use Rattle.clnp_system.specs.Setting.{own_address, port_on};

use crate::framing::{hello_octets, sender};
use crate::setup::SystemSetup;
use esis_pdu::Hello;
use lan_frame::HEADER;
use nsap::{ALL_END_SYSTEMS, ALL_INTERMEDIATE_SYSTEMS, Nsap, Port, RAW, Snpa, TRANSPORT};
use osi_base::{Items, NoMemory, Tick, Unit};
use std::alloc::Global;

impl SystemSetup {
    /// The hellos of a tick, one on each port; none where they are off or not due.
    pub fn hellos(&self, alloc: Global, now: Tick) -> Result<Vec<Unit<Port>>, NoMemory>
        ensures { IfOk result (λ frames. HellosIf (is_due self.now now) self.now frames.items) }
    {
        if !self.is_due(now) {
            return Ok(Vec::new(alloc));
        }
        let hello = self.own_hello(alloc)?;
        self.hellos_on(alloc, &self.ports, &hello)
    }

    /// Whether hellos are on, and due at that tick.
    fn is_due(&self, now: Tick) -> bool
        ensures { result ≡ is_due self.now now }
    {
        0 < self.hello && now % self.hello == 0
    }

    /// The hello on each of the own ports.
    fn hellos_on(
        &self,
        alloc: Global,
        ports: &[Port],
        hello: &Hello,
    ) -> Result<Vec<Unit<Port>>, NoMemory>
        requires ports { ports.now ≡ self.now.ports }
        requires hello { hello.now ≡ own_hello self.now self.now.end }
        requires short { size_of hello.now ≤ 254 }
        ensures { IfOk result (λ frames. AreHellos self.now ports.now frames.items) }
    {
        let hearers = self.hearers();
        let octets = hello_octets(alloc, hello)?;
        let mut frames = Vec::with_capacity(alloc, ports.len())?;
        for port in ports {
            let to = Port {
                lan: port.lan,
                snpa: hearers,
            };
            frames.push(self.unit(to, copy_of(alloc, &octets)?))?;
        }
        Ok(frames)
    }

    /// Who hears the hellos: all intermediate systems those of an end system, all end systems those of an intermediate system.
    fn hearers(&self) -> Snpa
        ensures { result ≡ hearers self.now.end }
    {
        if self.end {
            Snpa::of(ALL_INTERMEDIATE_SYSTEMS)
        } else {
            Snpa::of(ALL_END_SYSTEMS)
        }
    }

    /// What the system tells of itself.
    fn own_hello(&self, alloc: Global) -> Result<Hello, NoMemory>
        ensures value { IfOk result (λ hello. hello ≡ own_hello self.now self.now.end) }
        ensures short { IfOk result (λ hello. size_of hello ≤ 254) }
    {
        if self.end {
            self.own_esh(alloc)
        } else {
            Ok(self.own_ish())
        }
    }

    /// The ESH of an end system: its addresses for transport and for raw units.
    fn own_esh(&self, alloc: Global) -> Result<Hello, NoMemory>
        ensures value { IfOk result (λ hello. hello ≡ own_esh self.now) }
        ensures short { IfOk result (λ hello. size_of hello ≤ 254) }
    {
        let mut addresses = Vec::new(alloc);
        addresses.push(self.own_address(TRANSPORT))?;
        addresses.push(self.own_address(RAW))?;
        Ok(Hello::Esh {
            hold: self.hold,
            addresses: Items::of(addresses),
        })
    }

    /// The ISH of an intermediate system.
    fn own_ish(&self) -> Hello
        ensures value { result ≡ own_ish self.now }
        ensures short { size_of result ≤ 254 }
    {
        // A read for its clause alone: a title that is read has at most 20 octets.
        let _octets = self.title.octets();
        Hello::Ish {
            hold: self.hold,
            title: self.title,
        }
    }

    /// The own address of a selector.
    fn own_address(&self, selector: u8) -> Nsap
        ensures value { result ≡ own_address self.now selector }
        ensures most { length result ≤ 20 }
    {
        let address = self.title.with_selector(selector);
        // A read for its clause alone: an address that is read has at most 20 octets.
        let _octets = address.octets();
        address
    }

    /// The ESH to the sender of a frame, in answer to a DT PDU that came in a group frame. None exactly where the frame was
    /// for this system alone.
    pub fn answer_group(
        &self,
        alloc: Global,
        from: &Port,
        at: &Port,
    ) -> Result<Option<Unit<Port>>, NoMemory>
        requires { IsSome (port_on self.now at.now.lan) }
        ensures { IfOk result (λ frame. AnswersGroup self.now from.now at.now (option_to_list frame)) }
    {
        if !at.snpa.is_group() {
            return Ok(None);
        }
        let hello = self.own_esh(alloc)?;
        let frame = self.hello_frame(alloc, sender(from, at), &hello)?;
        Ok(Some(frame))
    }
}

/// The octets of a hello once more, with room for the header of a frame, which then goes before them in place. A hello is written once for
/// all ports, since a copy takes fewer instructions than its checksum.
fn copy_of(alloc: Global, octets: &[u8]) -> Result<Vec<u8>, NoMemory>
    ensures { IfOk result (λ copy. copy.items ≡ octets.now) }
{
    let mut copy = Vec::with_capacity(alloc, octets.len() + HEADER)?;
    copy.extend_from_slice(octets)?;
    Ok(copy)
}
