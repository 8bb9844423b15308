//! A frame that came (X.233, PDU header analysis function, reassembly function; ISO 9542, PDU header analysis function).

ghost use Rattle.std.specs.Prelude.{◌≡◌, ◌≢◌, ◌≤◌, IfOk, IsSome, is_some, slice_index};
ghost use Rattle.clnp_header.specs.Faults.{IsPduFault};
ghost use Rattle.clnp_header.specs.Values.{value_of};
ghost use Rattle.clnp_system.specs.declared.verdict.Verdict.TheVariants.{Join};
ghost use Rattle.clnp_system.specs.Node.{at_tick, reaction_in, reaction_of};
ghost use Rattle.clnp_system.specs.Receiving.{Does, Receives};
ghost use Rattle.clnp_system.specs.Reporting.{Discards, discarded_octets};
ghost use Rattle.clnp_system.specs.Setting.{bound_of, port_on};
ghost use Rattle.clnp_system.specs.Tables.{rows_tables};
ghost use Rattle.clnp_entity.specs.steps.Came.{CarriesOut, Lends, frame_of};
ghost use Rattle.clnp_entity.specs.steps.Judged.{MayDo};
ghost use Rattle.clnp_entity.specs.Kept.{IsKept};

use crate::entity::NetEntity;
use crate::received_frame::{ReceivedFrame, octet_at};
use clnp_header::{CLNP, Fault, PduRef, read_pdu};
use clnp_system::{Handled, Outcome, Verdict};
use esis_pdu::ESIS;
use nsap::Port;
use osi_base::{NoMemory, Note, Tick};

impl NetEntity {
    /// What comes of a frame that a port sent to a port.
    ///
    /// A frame on a LAN on which the system has no port gives nothing. A PDU or a hello that cannot be read gives a note of its first
    /// fault. All else is by the functions of the protocol, in their order.
    pub fn on_frame(
        &mut self,
        now: Tick,
        from: Port,
        at: Port,
        octets: &[u8],
    ) -> Result<Outcome, NoMemory>
        requires clock { self.old.clock ≤ now }
        requires end { now ≤ 4000000000 }
        ensures receives { IfOk result (λ received. Receives rows_tables self.old now
            (record { from = from; to = at; octets = octets.now }) (reaction_in received) self.new) }
        ensures kept { IsKept self.new }
        ensures clock { self.new.clock ≤ now }
    {
        if !self.has_port(at.lan) {
            self.set_clock(now);
            return Ok(Outcome::Handled(self.nothing()));
        }
        self.receive(&ReceivedFrame {
            tick: now,
            from,
            at,
            octets,
        })
    }

    /// Whether there is a port on the LAN.
    fn has_port(&self, lan: u8) -> bool
        ensures { result ≡ is_some (port_on self.now.setup lan) }
    {
        self.setup.port_on(lan).is_some()
    }

    /// What comes of a frame on the LAN of a port, by its first octet.
    fn receive(&mut self, came: &ReceivedFrame<'_>) -> Result<Outcome, NoMemory>
        requires clock { self.old.clock ≤ came.now.tick }
        requires end { came.now.tick ≤ 4000000000 }
        requires port { IsSome (port_on self.old.setup came.now.at.lan) }
        ensures receives { IfOk result (λ received. Receives rows_tables self.old came.now.tick (frame_of came.now) (reaction_in received) self.new) }
        ensures kept { IsKept self.new }
        ensures clock { self.new.clock ≤ came.now.tick }
    {
        let first = octet_at(came.octets, 0);
        if first == CLNP {
            return self.read(came);
        }
        if first == ESIS {
            let heard = self.hear(came)?;
            return Ok(Outcome::Handled(heard));
        }
        let system = self.system();
        let noted = self.note(came.tick, Note::Alien { system })?;
        Ok(Outcome::Handled(noted))
    }

    /// Reads a PDU, and does what is to be done with it.
    fn read(&mut self, came: &ReceivedFrame<'_>) -> Result<Outcome, NoMemory>
        requires clock { self.old.clock ≤ came.now.tick }
        requires end { came.now.tick ≤ 4000000000 }
        requires port { IsSome (port_on self.old.setup came.now.at.lan) }
        requires first { slice_index came.now.octets.now 0 ≡ 0x81 }
        ensures receives { IfOk result (λ received. Receives rows_tables self.old came.now.tick (frame_of came.now) (reaction_in received) self.new) }
        ensures kept { IsKept self.new }
        ensures clock { self.new.clock ≤ came.now.tick }
    {
        match read_pdu(came.octets) {
            Ok(pdu) => self.carry_out(came, &pdu),
            Err(fault) => {
                let answer = self.refuse(came, fault);
                self.set_clock(came.tick);
                let refused = answer?;
                Ok(Outcome::Handled(refused))
            }
        }
    }

    /// What comes of a PDU with a fault.
    fn refuse(&self, came: &ReceivedFrame<'_>, fault: Fault) -> Result<Handled, NoMemory>
        requires clock { self.now.clock ≤ came.now.tick }
        requires fault { IsPduFault came.now.octets.now fault }
        ensures { IfOk result (λ handled. Discards rows_tables self.now came.now.tick (discarded_octets (frame_of came.now) fault) (reaction_of handled)) }
    {
        match came.faulty(fault) {
            Some(lost) => self.discard(came.tick, &lost),
            None => self.tell(Note::Discard {
                system: self.setup.system,
                reason: fault.reason.code(),
                place: fault.place,
            }),
        }
    }

    /// Does what is to be done with a PDU.
    fn carry_out(&mut self, came: &ReceivedFrame<'_>, pdu: &PduRef<'_>) -> Result<Outcome, NoMemory>
        requires clock { self.old.clock ≤ came.now.tick }
        requires end { came.now.tick ≤ 4000000000 }
        requires port { IsSome (port_on self.old.setup came.now.at.lan) }
        requires lends { Lends came.now.octets.now pdu.now }
        ensures does { IfOk result (λ received. CarriesOut self.old came.now (value_of pdu.now) (reaction_in received) self.new) }
        ensures kept { IsKept self.new }
        ensures clock { self.new.clock ≤ came.now.tick }
    {
        let verdict = self.judge(came.tick, came.at.lan, pdu);
        if let Verdict::Join = verdict {
            return self.join(came, pdu);
        }
        let received = self.react(came, pdu, &verdict);
        self.set_clock(came.tick);
        received
    }

    /// Does what is to be done with a PDU that is not taken into the store.
    fn react(
        &self,
        came: &ReceivedFrame<'_>,
        pdu: &PduRef<'_>,
        verdict: &Verdict,
    ) -> Result<Outcome, NoMemory>
        requires clock { self.now.clock ≤ came.now.tick }
        requires port { IsSome (port_on self.now.setup came.now.at.lan) }
        requires lends { Lends came.now.octets.now pdu.now }
        requires may { MayDo self.now.setup (bound_of self.now.setup came.now.at.lan) (value_of pdu.now) verdict.now }
        requires other { verdict.now ≢ Join }
        ensures { IfOk result (λ received. Does rows_tables self.now came.now.tick (frame_of came.now) (value_of pdu.now) verdict.now (reaction_in received)
            (at_tick came.now.tick self.now)) }
    {
        match verdict {
            Verdict::Discard { reason, place } => {
                let discarded = self.discard_pdu(came, pdu, *reason, *place)?;
                Ok(Outcome::Handled(discarded))
            }
            Verdict::Tell => {
                let shown = self.show(pdu)?;
                Ok(Outcome::Handled(shown))
            }
            Verdict::Take => self.take(came, pdu),
            Verdict::Onward(hop) => {
                let passed = self.pass(came, pdu, hop)?;
                Ok(Outcome::Handled(passed))
            }
            Verdict::Join => unreachable!(),
        }
    }
}
