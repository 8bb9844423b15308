//! A unit of which some segments came (X.233, reassembly).

ghost use Rattle.std.specs.Prelude.{◌≡◌, ◌≤◌, ◌+◌, length, max, IfOk, None, OnErr, OnOk};
ghost use Rattle.clnp_segment.specs.Joining.{Filled, IsUnit, filled_places, nothing_of};
ghost use Rattle.clnp_segment.specs.Store.{FitsIn, HasPlaces, has_key, partial_with};
ghost use Rattle.clnp_segment.specs.steps.Incoming.{incoming_of};
ghost use Rattle.clnp_segment.specs.steps.Places.{Judges, segment_of, with_segment};

use crate::held::{Joint, SegmentRef, Verdict};
use crate::store::Expired;
use clnp_header::{PduRef, SegmentPart};
use nsap::Nsap;
use osi_base::{Bytes, NoMemory, Tick};
use std::alloc::Global;
use std::marker::Model;

/// A segment that came, with the ticks that its lifetime leaves and whether a report is wanted.
#[derive(Clone, Copy)]
pub struct Incoming<'a> {
    pub pdu: &'a PduRef<'a>,
    pub part: SegmentPart,
    pub left: u32,
    pub reportable: bool,
}

impl<'a> Incoming<'a> {
    /// The segment.
    pub fn segment(&self) -> SegmentRef<'a>
        requires { FitsIn self.now.pdu.now self.now.part }
        ensures { segment_of result ≡ (incoming_of self.now).segment }
    {
        SegmentRef {
            offset: self.part.offset,
            octets: self.pdu.body,
            header: self.pdu.header.len(),
            total: self.part.total,
        }
    }
}

/// A unit with its key, what is held of it, until when, and what the segment that came first says.
#[derive(Drop)]
pub struct HeldUnit {
    source: Nsap,
    destination: Nsap,
    id: u16,
    joint: Joint,
    deadline: Tick,
    reportable: bool,
    first: Bytes,
}

impl Model for HeldUnit {
    ghost use Rattle.clnp_segment.specs.Store.{Partial};

    ghost Value = { Partial };

    ghost view = { λ u. record {
      source = u.source;
      destination = u.destination;
      id = u.id;
      held = u.joint;
      deadline = u.deadline;
      reportable = u.reportable;
      first = u.first;
    } };
}

impl HeldUnit {
    /// A unit of which nothing is held, with the key of the segment that comes first.
    pub fn new(alloc: Global, deadline: Tick, incoming: &Incoming<'_>) -> Result<HeldUnit, NoMemory>
        requires { FitsIn incoming.now.pdu.now incoming.now.part }
        ensures { IfOk result (λ unit. unit ≡ partial_with None (incoming_of incoming.now) (nothing_of (incoming_of incoming.now).segment) deadline) }
    {
        let pdu = incoming.pdu;
        Ok(HeldUnit {
            source: pdu.source,
            destination: pdu.destination,
            id: incoming.part.id,
            joint: Joint::new(alloc, &incoming.segment()),
            deadline,
            reportable: incoming.reportable,
            first: Bytes::of(Vec::from_slice(alloc, pdu.header)?),
        })
    }

    /// Whether the unit has the key of this segment.
    pub fn is_of(&self, incoming: &Incoming<'_>) -> bool
        ensures { result ≡ has_key (incoming_of incoming.now).key self.now }
    {
        // The identifiers first: the units of two systems differ in them alone. On `pieces-of-8` of benches/loads the search took 66 of 571 million
        // instructions with the addresses first.
        let pdu = incoming.pdu;
        self.id == incoming.part.id
            && self.source == pdu.source
            && self.destination == pdu.destination
    }

    /// Until when it is held.
    pub fn deadline(&self) -> Tick
        ensures { result ≡ self.now.deadline }
    {
        self.deadline
    }

    /// How many octets are held.
    pub fn count(&self) -> usize
        ensures { result ≡ filled_places self.now.held }
    {
        self.joint.count()
    }

    /// What the segment does.
    pub fn judge(&self, segment: &SegmentRef<'_>) -> Verdict
        requires places { HasPlaces self.now }
        requires within { segment.now.offset + (segment.now.header + length segment.now.octets.now) ≤ segment.now.total }
        ensures { Judges self.now.held (segment_of segment.now) result }
    {
        self.joint.judge(segment)
    }

    /// Holds the octets of the segment too, until the later deadline. At NoMemory the unit is unchanged.
    pub fn add(&mut self, segment: &SegmentRef<'_>, deadline: Tick) -> Result<(), NoMemory>
        requires { segment.now.offset + length segment.now.octets.now ≤ length self.old.held.slots }
        ensures ok { OnOk result (self.new ≡ record self.old { held = with_segment self.old.held (segment_of segment.now); deadline = max self.old.deadline deadline }) }
        ensures err { OnErr result (self.new ≡ self.old) }
    {
        self.joint.write(segment)?;
        self.deadline = self.deadline.max(deadline);
        Ok(())
    }

    /// The octets of the unit, which the segment fills.
    pub fn whole(self, segment: &SegmentRef<'_>) -> Result<Bytes, NoMemory>
        requires within { segment.now.offset + length segment.now.octets.now ≤ length self.held.slots }
        requires filled { Filled (with_segment self.held (segment_of segment.now)) }
        ensures { IfOk result (λ octets. IsUnit (with_segment self.held (segment_of segment.now)) octets) }
    {
        let mut joint = self.joint;
        joint.write(segment)?;
        Ok(Bytes::of(joint.unit()))
    }

    /// What is told of it where it expires.
    pub fn expired(self) -> Expired
        ensures { result ≡ record { source = self.source; reportable = self.reportable; header = self.first } }
    {
        Expired {
            source: self.source,
            reportable: self.reportable,
            header: self.first,
        }
    }
}
