//! The redirect that an intermediate system sends (ISO 9542, request redirect).

ghost use Rattle.std.specs.Prelude.{◌≡◌, ◌≤◌, IfOk, IsSome, length, option_to_list};
ghost use Rattle.esis_pdu.specs.Hellos.{size_of, title_field};
ghost use Rattle.esis_pdu.specs.declared.hello.Hello.TheVariants.{Rd};
ghost use Rattle.clnp_system.specs.Redirect.{RedirectsTo, is_detour};
ghost use Rattle.clnp_system.specs.Setting.{port_on};

use crate::framing::sender;
use crate::setup::SystemSetup;
use esis_pdu::Hello;
use nsap::{Hop, Nsap, Port};
use osi_base::{NoMemory, Unit};
use std::alloc::Global;

impl SystemSetup {
    /// The redirect to the sender of a frame, about a PDU for that destination that goes to the hop. None exactly where the
    /// hop is on another LAN, or is the sender.
    pub(crate) fn redirect(
        &self,
        alloc: Global,
        from: Port,
        at: Port,
        destination: Nsap,
        hop: &Hop,
    ) -> Result<Option<Unit<Port>>, NoMemory>
        requires { IsSome (port_on self.now at.lan) }
        ensures { IfOk result (λ frame. RedirectsTo self.now from at destination hop.now (option_to_list frame)) }
    {
        if !is_detour(&from, &at, hop) {
            return Ok(None);
        }
        let hello = self.rd(destination, hop);
        let frame = self.hello_frame(alloc, sender(&from, &at), &hello)?;
        Ok(Some(frame))
    }

    /// A redirect to the hop.
    fn rd(&self, destination: Nsap, hop: &Hop) -> Hello
        ensures value { result ≡ Rd self.now.hold destination hop.now.port.snpa hop.now.title }
        ensures short { size_of result ≤ 254 }
    {
        // Reads for their clauses alone: how long what is read is at most.
        let _octets = destination.octets().len()
            + hop.port.snpa.octets().len()
            + title_octets(&hop.title);
        Hello::Rd {
            hold: self.hold,
            address: destination,
            snpa: hop.port.snpa,
            title: hop.title,
        }
    }
}

/// Whether the hop is on the LAN on which a frame came, and is not its sender.
fn is_detour(from: &Port, at: &Port, hop: &Hop) -> bool
    ensures { result ≡ is_detour from.now at.now hop.now }
{
    hop.port.lan == at.lan && hop.port.snpa != from.snpa
}

/// The octets of a title and its length.
fn title_octets(title: &Option<Nsap>) -> usize
    ensures count { result ≡ length (title_field title.now) }
    ensures most { result ≤ 21 }
{
    match title {
        Some(title) => 1 + title.octets().len(),
        None => 1,
    }
}
