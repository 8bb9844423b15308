//! Discarding a PDU, and the error report (X.233, discard PDU function, error reporting function).

ghost use Rattle.std.specs.Prelude.{◌≡◌, ◌≤◌, ◌∷◌, [], IfOk, IfSome, option_to_list, ◌+◌, false, drop, slice_index, IsSome, MatchOption};
ghost use Rattle.osi_base.specs.declared.unit.Up.TheVariants.{Note as Noted};
ghost use Rattle.clnp_system.specs.Hearing.{only_note};
ghost use Rattle.clnp_system.specs.Node.{at_tick, reaction_of};
ghost use Rattle.clnp_system.specs.Reporting.{Discards, GoesBy, Reports, report_pdu, discarded_octets, discarded_pdu, faulty_header, source_in, wants_report};
ghost use Rattle.clnp_system.specs.Tables.{rows_tables};
ghost use Rattle.clnp_entity.specs.Kept.{IsKept, IsNear};
ghost use Rattle.clnp_entity.specs.steps.Lost.{lost_pdu};
ghost use Rattle.pdu_parts.specs.Field.{address_at};
ghost use Rattle.clnp_header.specs.Faults.{IsPduFault};
ghost use Rattle.clnp_header.specs.Values.{value_of};
ghost use Rattle.clnp_entity.specs.steps.Came.{Lends, frame_of};

use crate::entity::NetEntity;
use crate::received_frame::{ReceivedFrame, octet_at};
use clnp_header::{Fault, PduKind, PduRef, Reason};
use clnp_system::{Handled, Reported};
use nsap::{Hop, Nsap, Port};
use osi_base::{NoMemory, Note, Tick, Unit, Up};
use pdu_parts::address_at;

/// The position of the length of the destination address.
const DESTINATION_LENGTH: usize = 9;

/// The position of the length of the source address behind a destination of no octets.
const SOURCE_AT: usize = 10;

/// A PDU that is discarded.
#[derive(Clone, Copy)]
pub struct DiscardedPdu<'a> {
    /// Whether its source gets a report.
    pub wanted: bool,
    /// Its source address.
    pub source: Nsap,
    /// Its header as it came.
    pub header: &'a [u8],
    /// Why it is discarded.
    pub reason: Reason,
    /// The octet at fault, from 1, or 0 for none.
    pub place: u8,
}

impl NetEntity {
    /// What comes of a PDU that is discarded: a note, and a report where one is wanted.
    pub(crate) fn discard(&self, now: Tick, lost: &DiscardedPdu<'_>) -> Result<Handled, NoMemory>
        requires clock { self.now.clock ≤ now }
        ensures { IfOk result (λ handled. Discards rows_tables self.now now (lost_pdu lost.now) (reaction_of handled)) }
    {
        let frames = self.report(now, lost)?;
        let note = Note::Discard {
            system: self.setup.system,
            reason: lost.reason.code(),
            place: lost.place,
        };
        self.tell_with(note, frames)
    }

    /// The frames of the report about a PDU that is discarded.
    pub(crate) fn report(
        &self,
        now: Tick,
        lost: &DiscardedPdu<'_>,
    ) -> Result<Vec<Unit<Port>>, NoMemory>
        requires clock { self.now.clock ≤ now }
        ensures { IfOk result (λ frames. Reports rows_tables self.now now (lost_pdu lost.now) frames.items) }
    {
        if !lost.wanted {
            return Ok(Vec::new(self.alloc));
        }
        let hop = self.hop_of(now, &lost.source);
        self.report_by(&hop, lost)
    }

    /// The frames of the report by the hop to the source.
    fn report_by(
        &self,
        hop: &Option<Hop>,
        lost: &DiscardedPdu<'_>,
    ) -> Result<Vec<Unit<Port>>, NoMemory>
        requires near { IfSome hop.now (IsNear self.now.setup) }
        ensures { IfOk result (λ frames. GoesBy self.now.setup hop.now (report_pdu self.now.setup (lost_pdu lost.now)) frames.items) }
    {
        let reported = Reported {
            source: lost.source,
            header: lost.header,
            reason: lost.reason,
            place: lost.place,
        };
        let frame = self.setup.report(self.alloc, hop, &reported)?;
        self.listed(frame)
    }

    /// The frame, or none, as a list.
    pub(crate) fn listed(&self, frame: Option<Unit<Port>>) -> Result<Vec<Unit<Port>>, NoMemory>
        ensures { IfOk result (λ frames. frames.items ≡ option_to_list frame) }
    {
        let mut frames = Vec::new(self.alloc);
        if let Some(frame) = frame {
            frames.push(frame)?;
        }
        Ok(frames)
    }

    /// Only a note comes up, and the clock is at that tick.
    pub(crate) fn note(&mut self, now: Tick, note: Note) -> Result<Handled, NoMemory>
        requires clock { self.old.clock ≤ now }
        ensures told { IfOk result (λ handled. reaction_of handled ≡ only_note (Noted note)) }
        ensures after { self.new ≡ at_tick now self.old }
        ensures kept { IsKept self.new }
    {
        self.set_clock(now);
        self.tell(note)
    }

    /// Nothing comes up, and no frame goes out.
    pub(crate) fn nothing(&self) -> Handled
        ensures { reaction_of result ≡ record { ups = []; frames = [] } }
    {
        Handled {
            ups: Vec::new(self.alloc),
            frames: Vec::new(self.alloc),
        }
    }

    /// Only a note comes up.
    pub(crate) fn tell(&self, note: Note) -> Result<Handled, NoMemory>
        ensures { IfOk result (λ handled. reaction_of handled ≡ only_note (Noted note)) }
    {
        self.tell_with(note, Vec::new(self.alloc))
    }

    /// A note comes up, and frames go out.
    pub(crate) fn tell_with(&self, note: Note, frames: Vec<Unit<Port>>) -> Result<Handled, NoMemory>
        ensures { IfOk result (λ handled. reaction_of handled ≡ record { ups = Noted note ∷ []; frames = frames.items }) }
    {
        let mut ups = Vec::new(self.alloc);
        ups.push(Up::Note(note))?;
        Ok(Handled { ups, frames })
    }
}

impl<'a> ReceivedFrame<'a> {
    /// Whether a PDU wants a report, where it is discarded: a DT PDU that asks for one, not in a group frame.
    pub fn wants_report(&self, pdu: &PduRef<'_>) -> bool
        ensures { result ≡ wants_report (frame_of self.now) (value_of pdu.now) }
    {
        let is_data = match pdu.kind {
            PduKind::Dt => true,
            PduKind::Er => false,
        };
        is_data && pdu.report && !self.at.snpa.is_group()
    }

    /// A PDU that is discarded.
    pub fn lost<'b>(&self, pdu: &PduRef<'b>, reason: Reason, place: u8) -> DiscardedPdu<'b>
        requires { Lends self.now.octets.now pdu.now }
        ensures { lost_pdu result ≡ discarded_pdu (frame_of self.now) (value_of pdu.now) reason place }
    {
        DiscardedPdu {
            wanted: self.wants_report(pdu),
            source: pdu.source,
            header: pdu.header,
            reason,
            place,
        }
    }

    /// A PDU with a fault, where a report is wanted: its header is as long as its second octet says.
    pub fn faulty(&self, fault: Fault) -> Option<DiscardedPdu<'a>>
        requires { IsPduFault self.now.octets.now fault }
        ensures { MatchOption result ((discarded_octets (frame_of self.now) fault).report ≡ false)
            (λ lost. lost_pdu lost ≡ discarded_octets (frame_of self.now) fault) }
    {
        if !fault.reportable || self.at.snpa.is_group() {
            return None;
        }
        let header = header_of(self.octets);
        Some(DiscardedPdu {
            wanted: true,
            source: source_in(header),
            header,
            reason: fault.reason,
            place: fault.place,
        })
    }
}

/// The header of octets that begin with one, as long as the second of them says.
fn header_of(octets: &[u8]) -> &[u8]
    ensures { result.now ≡ faulty_header octets.now }
{
    let length = usize::from(octet_at(octets, 1)).min(octets.len());
    &octets[..length]
}

/// The source address of a header in which it fits.
fn source_in(header: &[u8]) -> Nsap
    requires { IsSome (address_at (drop (10 + slice_index header.now 9) header.now)) }
    ensures { result ≡ source_in header.now }
{
    let at = SOURCE_AT + usize::from(octet_at(header, DESTINATION_LENGTH));
    let at = at.min(header.len());
    match address_at(&header[at..]) {
        Some(found) => found.0,
        None => unreachable!(),
    }
}
