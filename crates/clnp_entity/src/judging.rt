//! What is to be done with a PDU (X.233, PDU header analysis function, lifetime control, source routing function, route PDU function).

ghost use Rattle.std.specs.Prelude.{◌≡◌, ◌≤◌, ◌==◌, ◌||◌, Option};
ghost use Rattle.clnp_options.specs.SourceRoute.{SourceRoute};
ghost use Rattle.clnp_header.specs.Values.{value_of};
ghost use Rattle.clnp_system.specs.declared.verdict.Verdict.TheVariants.{Discard};
ghost use Rattle.clnp_system.specs.Setting.{bound_of};
ghost use Rattle.clnp_system.specs.Tables.{rows_tables};
ghost use Rattle.clnp_system.specs.Verdicts.{by_aim, for_this, is_titled, to_destination, to_entry, verdict, whole_or_part};
ghost use Rattle.clnp_system.specs.SourceRouting.{IsRouteOf, aim_of};
ghost use Rattle.clnp_system.specs.Written.{WasRead};
ghost use Rattle.clnp_entity.specs.steps.Judged.{MayDo, MayGo, MayStay};

use crate::entity::NetEntity;
use crate::lifetime::{has_ended_here, has_ended_onward, too_old};
use clnp_header::{PduKind, PduRef, Reason, SegmentPart};
use clnp_system::{Aim, Verdict};
use nsap::{Hop, Nsap, RAW, TRANSPORT};
use osi_base::Tick;

impl NetEntity {
    /// What is to be done with a PDU that came on a LAN.
    pub(crate) fn judge(&self, now: Tick, lan: u8, pdu: &PduRef<'_>) -> Verdict
        requires clock { self.now.clock ≤ now }
        requires read { WasRead pdu.now }
        ensures value { (route : Option SourceRoute) → IsRouteOf (value_of pdu.now) route
            → result ≡ verdict rows_tables self.now now (bound_of self.now.setup lan) (value_of pdu.now) route }
        ensures may { MayDo self.now.setup (bound_of self.now.setup lan) (value_of pdu.now) result }
    {
        let bound = self.setup.bound(lan);
        let lifetime = u32::from(pdu.lifetime);
        if self.is_own_system(&pdu.destination) {
            if has_ended_here(lifetime, bound) {
                return too_old();
            }
            return self.judge_own(pdu);
        }
        if self.setup.end {
            return discard(Reason::DestinationUnreachable);
        }
        if has_ended_onward(lifetime, bound) {
            return too_old();
        }
        self.judge_onward(now, pdu)
    }

    /// What is to be done with a PDU for this system.
    fn judge_own(&self, pdu: &PduRef<'_>) -> Verdict
        ensures value { result ≡ for_this self.now.setup (value_of pdu.now) pdu.now.kind }
        ensures may { MayStay (value_of pdu.now) result }
    {
        match pdu.kind {
            PduKind::Er => Verdict::Tell,
            PduKind::Dt if self.setup.end && is_known(pdu.destination.selector()) => {
                whole_or_part(&pdu.segment)
            }
            PduKind::Dt => discard(Reason::DestinationUnknown),
        }
    }

    /// What is to be done with a PDU that goes onward, if it can.
    fn judge_onward(&self, now: Tick, pdu: &PduRef<'_>) -> Verdict
        requires clock { self.now.clock ≤ now }
        requires read { WasRead pdu.now }
        ensures value { (route : Option SourceRoute) → IsRouteOf (value_of pdu.now) route
            → result ≡ by_aim rows_tables self.now now (value_of pdu.now).destination (aim_of self.now.setup route) }
        ensures near { MayGo self.now.setup result }
    {
        match self.setup.aim(pdu) {
            Aim::Free => to_destination(self.hop_of(now, &pdu.destination)),
            Aim::Entry { title, complete } => {
                to_entry(complete, &title, self.hop_to(now, &title))
            }
            Aim::Forbidden => discard(Reason::PathNotAcceptable),
        }
    }
}

/// A PDU that is discarded for a reason that has no place.
fn discard(reason: Reason) -> Verdict
    ensures { result ≡ Discard reason 0 }
{
    Verdict::Discard { reason, place: 0 }
}

/// Whether the selector is that of transport or that of units as they are.
fn is_known(selector: u8) -> bool
    ensures { result ≡ (selector == 1 || selector == 2) }
{
    selector == TRANSPORT || selector == RAW
}

/// What is to be done with a DT PDU for this end system.
fn whole_or_part(segment: &Option<SegmentPart>) -> Verdict
    ensures { result ≡ whole_or_part segment.now }
{
    match segment {
        None => Verdict::Take,
        Some(_) => Verdict::Join,
    }
}

/// A PDU whose target is its destination, with the hop there.
fn to_destination(hop: Option<Hop>) -> Verdict
    ensures { result ≡ to_destination hop }
{
    match hop {
        None => discard(Reason::DestinationUnreachable),
        Some(hop) => Verdict::Onward(hop),
    }
}

/// A PDU whose target is an entry of its source route, with the hop there.
fn to_entry(complete: bool, title: &Nsap, hop: Option<Hop>) -> Verdict
    ensures { result ≡ to_entry complete title.now hop }
{
    match hop {
        None => discard(Reason::SourceRoutingUnknownAddress),
        Some(hop) if complete && !is_titled(&hop.title, title) => discard(
            Reason::PathNotAcceptable,
        ),
        Some(hop) => Verdict::Onward(hop),
    }
}

/// Whether a hop has that title.
fn is_titled(found: &Option<Nsap>, title: &Nsap) -> bool
    ensures { result ≡ is_titled found.now title.now }
{
    match found {
        None => false,
        Some(found) => found == title,
    }
}
