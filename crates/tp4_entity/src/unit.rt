//! A unit that came: its TPDUs one after another (X.224, concatenation and separation).

ghost use Rattle.std.specs.Prelude.{◌≡◌, ◌≤◌, ◌<◌, [], ◌∷◌, length, IfErr, IfOk, OnOk};
ghost use Rattle.tpdu.specs.Faults.{IsTpduFault};
ghost use Rattle.tpdu.specs.Grammar.{BeginsWithTpdu};
ghost use Rattle.tpdu.specs.Values.{destination_of, format_for, seen, tpdu_of};
ghost use Rattle.tpdu.specs.Writing.{IsAllowed};
ghost use Rattle.tp4_number.specs.Number.{wire};
ghost use Rattle.tp4_entity.specs.Dues.{AreFrom, AreLater};
ghost use Rattle.tp4_entity.specs.Entity.{Acted, at, end_at};
ghost use Rattle.tp4_entity.specs.Step.{DoesSo};
ghost use Rattle.tp4_entity.specs.Unit.{HearsUnit, TakesUnit, extended_of, listed_if};
ghost use Rattle.tp4_entity.specs.steps.Places.{destination_in, extended_front, format_of, is_extended};
ghost use Rattle.tp4_flow.specs.Told.{Grows};
ghost use Rattle.tp4_flow.specs.declared.step.What.TheVariants.{BadTpdu, Silent};

use crate::TpEntity;
use nsap::Nsap;
use osi_base::{NoMemory, Tick};
use tp4_conn::Looks;
use tp4_flow::{EndEvent, Step, What};
use tpdu::{Format, TpduFault, TpduRef, read_first};

impl<K: Looks> TpEntity<K> {
    /// A unit that came from an address.
    ///
    /// At an octet that is no TPDU's the reading stops, and the fault is told. A silent entity tells `Silent` alone.
    pub fn on_unit(
        &mut self,
        now: Tick,
        from: Nsap,
        octets: &[u8],
        out: &mut Step,
        looks: &mut K,
    ) -> Result<(), NoMemory>
        requires clock { self.old.clock ≤ now }
        requires now { now ≤ 4000000000 }
        requires due { AreFrom now self.old.ends }
        ensures takes { OnOk result ((acted : Acted) × TakesUnit wire now self.old from octets.now acted × DoesSo acted self.new out.old out.new) }
        ensures from { OnOk result (AreFrom now self.new.ends) }
        ensures later { OnOk result (AreLater now self.old.ends → AreLater now self.new.ends) }
        ensures clock { self.new.clock ≤ now }
    {
        if self.is_silent(now) {
            self.set_clock(now);
            return ignore(out);
        }
        self.hear_unit(now, from, octets, out, looks)
    }

    /// A unit that is heard: its TPDUs one after another.
    fn hear_unit(
        &mut self,
        now: Tick,
        from: Nsap,
        octets: &[u8],
        out: &mut Step,
        looks: &mut K,
    ) -> Result<(), NoMemory>
        requires clock { self.old.clock ≤ now }
        requires now { now ≤ 4000000000 }
        requires due { AreFrom now self.old.ends }
        ensures heard { OnOk result ((acted : Acted) × HearsUnit wire now self.old from octets.now acted × DoesSo acted self.new out.old out.new) }
        ensures from { OnOk result (AreFrom now self.new.ends) }
        ensures later { OnOk result (AreLater now self.old.ends → AreLater now self.new.ends) }
        ensures clock { self.new.clock ≤ now }
    {
        self.set_clock(now);
        let mut rest = octets;
        while !rest.is_empty() {
            let (tpdu, behind) = match self.read(rest, looks) {
                Ok(found) => found,
                Err(fault) => return tell(fault, out),
            };
            self.on_tpdu(&from, &tpdu, out, looks)?;
            rest = behind;
        }
        Ok(())
    }

    /// The first TPDU of the octets, in the formats that the ends agreed on.
    fn read<'a>(
        &self,
        octets: &'a [u8],
        looks: &mut K,
    ) -> Result<(TpduRef<'a>, &'a [u8]), TpduFault>
        ensures ok { IfOk result (λ found. BeginsWithTpdu (extended_of self.now) octets.now (seen found.0) found.1.now) }
        ensures fault { IfErr result (IsTpduFault (extended_of self.now) octets.now) }
    {
        match self.extended_front(octets, looks) {
            Some(reference) => read_first(octets, &[reference]),
            None => read_first(octets, &[]),
        }
    }

    /// Where a destination reference stands in a TPDU that has one: that reference, where its end agreed on extended formats.
    fn extended_front(&self, octets: &[u8], looks: &mut K) -> Option<u16>
        ensures { result ≡ extended_front self.now (destination_in octets.now) }
    {
        let reference = destination_in(octets)?;
        if self.is_extended(reference, looks) {
            Some(reference)
        } else {
            None
        }
    }

    /// Whether the end at a reference agreed on extended formats.
    fn is_extended(&self, reference: u16, looks: &mut K) -> bool
        ensures { result ≡ is_extended (format_of (end_at self.now reference)) }
    {
        match self.end_at(reference) {
            Some(end) => match end.format(looks) {
                Format::Normal => false,
                Format::Extended => true,
            },
            None => false,
        }
    }
}

/// Where a destination reference stands in a TPDU that has one.
fn destination_in(octets: &[u8]) -> Option<u16>
    ensures { result ≡ destination_in octets.now }
{
    match octets {
        [_, _, high, low, ..] => Some(u16::from(*high) * 256 + u16::from(*low)),
        _ => None,
    }
}

/// That a unit came to a silent entity is told.
fn ignore(out: &mut Step) -> Result<(), NoMemory>
    ensures { OnOk result (Grows out.old (record { reference = 0; what = Silent } ∷ []) [] out.new) }
{
    out.event(EndEvent {
        reference: 0,
        what: What::Silent,
    })
}

/// What is no TPDU is told.
fn tell(fault: TpduFault, out: &mut Step) -> Result<(), NoMemory>
    ensures { OnOk result (Grows out.old (record { reference = 0; what = BadTpdu fault.cause fault.place } ∷ []) [] out.new) }
{
    out.event(EndEvent {
        reference: 0,
        what: What::BadTpdu(fault.cause, fault.place),
    })
}
