//! What a system does with a PDU that it could read (X.233, discard PDU function, reassembly function, route PDU function).

ghost use Rattle.std.specs.Prelude.{◌≡◌, ◌≤◌, ◌<◌, ◌∷◌, [], IfOk, IsSome, Some, option_map};
ghost use Rattle.osi_base.specs.declared.unit.Up.TheVariants.{Note as Noted, Unit as CameUp};
ghost use Rattle.clnp_options.specs.Options.{value_of as option_of};
ghost use Rattle.clnp_options.specs.declared.reason.Reason.TheVariants.{SegmentationNeeded};
ghost use Rattle.clnp_header.specs.Values.{parameters, value_of};
ghost use Rattle.clnp_system.specs.Forwarding.{GoesOnward};
ghost use Rattle.clnp_system.specs.Hearing.{only_note};
ghost use Rattle.clnp_system.specs.Hellos.{AnswersGroup};
ghost use Rattle.clnp_system.specs.Node.{reaction_in, reaction_of};
ghost use Rattle.clnp_system.specs.Receiving.{JoinGives, Joins, came as arrived, told_reason};
ghost use Rattle.clnp_system.specs.Reporting.{Discards, discarded_pdu};
ghost use Rattle.clnp_system.specs.Setting.{bound_of, port_on};
ghost use Rattle.clnp_system.specs.Tables.{rows_tables};
ghost use Rattle.clnp_entity.specs.steps.Came.{Lends, Puts, frame_of};
ghost use Rattle.clnp_entity.specs.Kept.{IsKept, IsNear};

use crate::entity::NetEntity;
use crate::received_frame::{ReceivedFrame, octet_at};
use clnp_header::{PduRef, Reason};
use clnp_options::{REASON, get};
use clnp_segment::{Joined, read_may_come};
use clnp_system::{Handled, Outcome};
use nsap::{Hop, Nsap, Port};
use osi_base::{Arrival, Bytes, NoMemory, Note, Unit, Up};

impl NetEntity {
    /// A PDU is discarded.
    pub(crate) fn discard_pdu(
        &self,
        came: &ReceivedFrame<'_>,
        pdu: &PduRef<'_>,
        reason: Reason,
        place: u8,
    ) -> Result<Handled, NoMemory>
        requires clock { self.now.clock ≤ came.now.tick }
        requires lends { Lends came.now.octets.now pdu.now }
        ensures { IfOk result (λ handled. Discards rows_tables self.now came.now.tick
            (discarded_pdu (frame_of came.now) (value_of pdu.now) reason place) (reaction_of handled)) }
    {
        self.discard(came.tick, &came.lost(pdu, reason, place))
    }

    /// An error report for this system is shown.
    pub(crate) fn show(&self, pdu: &PduRef<'_>) -> Result<Handled, NoMemory>
        ensures { IfOk result (λ handled. reaction_of handled
            ≡ only_note (told_reason self.now.setup.system (option_of 0xc1 (parameters (value_of pdu.now).options)))) }
    {
        let value = get(&pdu.options, REASON);
        self.tell(report_note(self.system(), value))
    }

    /// A whole unit comes up.
    pub(crate) fn take(
        &self,
        came: &ReceivedFrame<'_>,
        pdu: &PduRef<'_>,
    ) -> Result<Outcome, NoMemory>
        requires port { IsSome (port_on self.now.setup came.now.at.lan) }
        ensures { IfOk result (λ received. ((reaction_in received).ups ≡ arrived self.now (value_of pdu.now) pdu.now.body.now)
            × AnswersGroup self.now.setup came.now.from came.now.at (reaction_in received).frames) }
    {
        let octets = Vec::from_slice(self.alloc, pdu.body)?;
        self.arrive(came, pdu, Bytes::of(octets))
    }

    /// A segment is taken into the store, and what then comes of it.
    pub(crate) fn join(
        &mut self,
        came: &ReceivedFrame<'_>,
        pdu: &PduRef<'_>,
    ) -> Result<Outcome, NoMemory>
        requires clock { self.old.clock ≤ came.now.tick }
        requires end { came.now.tick ≤ 4000000000 }
        requires port { IsSome (port_on self.old.setup came.now.at.lan) }
        requires lends { Lends came.now.octets.now pdu.now }
        requires segment { IsSome pdu.now.segment }
        ensures joins { IfOk result (λ received. Joins rows_tables self.old came.now.tick (frame_of came.now) (value_of pdu.now)
            (reaction_in received) self.new) }
        ensures kept { IsKept self.new }
        ensures clock { self.new.clock ≤ came.now.tick }
    {
        let joined = self.put(came, pdu)?;
        self.joined(came, pdu, joined)
    }

    /// A segment is taken into the store.
    fn put(&mut self, came: &ReceivedFrame<'_>, pdu: &PduRef<'_>) -> Result<Joined, NoMemory>
        requires clock { self.old.clock ≤ came.now.tick }
        requires end { came.now.tick ≤ 4000000000 }
        requires lends { Lends came.now.octets.now pdu.now }
        requires segment { IsSome pdu.now.segment }
        ensures puts { IfOk result (λ answer. Puts self.old came.now (value_of pdu.now) answer self.new) }
        ensures kept { IsKept self.new }
        ensures clock { self.new.clock ≤ came.now.tick }
    {
        read_may_come();
        self.clock = came.tick;
        let bound = self.setup.bound(came.at.lan);
        let left = u32::from(pdu.lifetime).saturating_sub(bound);
        self.store
            .take(came.tick, pdu, left, came.wants_report(pdu))
    }

    /// What comes of a segment that the store took.
    fn joined(
        &self,
        came: &ReceivedFrame<'_>,
        pdu: &PduRef<'_>,
        answer: Joined,
    ) -> Result<Outcome, NoMemory>
        requires clock { self.now.clock ≤ came.now.tick }
        requires port { IsSome (port_on self.now.setup came.now.at.lan) }
        requires lends { Lends came.now.octets.now pdu.now }
        ensures { IfOk result (λ received. JoinGives rows_tables self.now came.now.tick (frame_of came.now) (value_of pdu.now) answer (reaction_in received)) }
    {
        match answer {
            Joined::Held => {
                let handled = self.answer(came)?;
                Ok(Outcome::Handled(handled))
            }
            Joined::Whole(octets) => self.arrive(came, pdu, octets),
            Joined::Full => {
                let handled = self.discard_pdu(came, pdu, Reason::Congestion, 0)?;
                Ok(Outcome::Handled(handled))
            }
            Joined::Interference => {
                let handled = self.discard_pdu(came, pdu, Reason::ReassemblyInterference, 0)?;
                Ok(Outcome::Handled(handled))
            }
        }
    }

    /// A unit with these octets comes up.
    fn arrive(
        &self,
        came: &ReceivedFrame<'_>,
        pdu: &PduRef<'_>,
        octets: Bytes,
    ) -> Result<Outcome, NoMemory>
        requires port { IsSome (port_on self.now.setup came.now.at.lan) }
        ensures { IfOk result (λ received. ((reaction_in received).ups ≡ arrived self.now (value_of pdu.now) octets)
            × AnswersGroup self.now.setup came.now.from came.now.at (reaction_in received).frames) }
    {
        let unit = Unit {
            from: pdu.source,
            to: pdu.destination,
            octets,
        };
        let arrival = Arrival {
            system: self.setup.system,
            unit,
        };
        match self.setup.answer_group(self.alloc, &came.from, &came.at)? {
            None => Ok(Outcome::Unit(arrival)),
            Some(frame) => self.arrive_and_answer(arrival, frame),
        }
    }

    /// A unit comes up, and this frame goes out.
    // Not inlined: where no frame goes out, no room for the lists is cleared.
    #[inline(never)]
    fn arrive_and_answer(
        &self,
        arrival: Arrival<Nsap>,
        frame: Unit<Port>,
    ) -> Result<Outcome, NoMemory>
        ensures { IfOk result (λ received. reaction_in received ≡ record { ups = CameUp arrival ∷ []; frames = frame ∷ [] }) }
    {
        let mut ups = Vec::with_capacity(self.alloc, 1)?;
        ups.push(Up::Unit(arrival))?;
        let mut frames = Vec::with_capacity(self.alloc, 1)?;
        frames.push(frame)?;
        Ok(Outcome::Handled(Handled { ups, frames }))
    }

    /// Nothing comes up, and the sender of a group frame is answered.
    fn answer(&self, came: &ReceivedFrame<'_>) -> Result<Handled, NoMemory>
        requires port { IsSome (port_on self.now.setup came.now.at.lan) }
        ensures { IfOk result (λ handled. (handled.ups.items ≡ []) × AnswersGroup self.now.setup came.now.from came.now.at handled.frames.items) }
    {
        let answer = self.setup.answer_group(self.alloc, &came.from, &came.at)?;
        let frames = self.listed(answer)?;
        Ok(Handled {
            ups: Vec::new(self.alloc),
            frames,
        })
    }

    /// A PDU goes onward to the hop, or is discarded since it may not be cut.
    pub(crate) fn pass(
        &self,
        came: &ReceivedFrame<'_>,
        pdu: &PduRef<'_>,
        hop: &Hop,
    ) -> Result<Handled, NoMemory>
        requires clock { self.now.clock ≤ came.now.tick }
        requires port { IsSome (port_on self.now.setup came.now.at.lan) }
        requires lends { Lends came.now.octets.now pdu.now }
        requires near { IsNear self.now.setup hop.now }
        requires lasts { bound_of self.now.setup came.now.at.lan < pdu.now.lifetime }
        ensures { IfOk result (λ handled. GoesOnward rows_tables self.now came.now.tick (frame_of came.now) (value_of pdu.now) hop.now
            (discarded_pdu (frame_of came.now) (value_of pdu.now) SegmentationNeeded 0) (reaction_of handled)) }
    {
        let sent = self
            .setup
            .forward(self.alloc, came.from, came.at, pdu, hop)?;
        match sent {
            Some(frames) => Ok(Handled {
                ups: Vec::new(self.alloc),
                frames,
            }),
            None => self.discard_pdu(came, pdu, Reason::SegmentationNeeded, 0),
        }
    }
}

/// The note of a report that gives these two octets as its reason.
fn report_note(system: u8, value: Option<&[u8]>) -> Note
    ensures { Noted result ≡ told_reason system (option_map (λ octets. octets.now) value.entry) }
{
    match value {
        Some(octets) => Note::Report {
            system,
            reason: octet_at(octets, 0),
            place: octet_at(octets, 1),
        },
        None => Note::Report {
            system,
            reason: 0,
            place: 0,
        },
    }
}
