//! What an entity does with a TPDU: the end that it belongs to, or a stateless answer (X.224, class 4: association of TPDUs with
//! connections; connection establishment).

ghost use Rattle.std.specs.Prelude.{◌≡◌, ◌≤◌, ◌<◌, ◌∷◌, [], ℕ, length, slice_set, OnOk, Some, None, true, false};
ghost use Rattle.std.specs.List.{list_any};
ghost use Rattle.tpdu.specs.Values.{destination_of, format_for, seen, tpdu_of};
ghost use Rattle.tpdu.specs.Writing.{IsAllowed, kind_for};
ghost use Rattle.tpdu.specs.declared.kind.Kind.TheVariants.{Cr};
ghost use Rattle.tpdu.specs.declared.tpdu.Format.TheVariants.{Normal};
ghost use Rattle.tpdu.specs.declared.tpdu.Tpdu.TheVariants.{Dc};
ghost use Rattle.tp4_flow.specs.Told.{Grows};
ghost use Rattle.tp4_flow.specs.declared.step.What.TheVariants.{Unknown};
ghost use Rattle.tp4_number.specs.Number.{wire};
ghost use Rattle.tp4_conn.specs.declared.timers.Timers.{Timers};
ghost use Rattle.tp4_entity.specs.Association.{answer, is_called, is_frozen, met, met_at, new_end, refusal, requested, stateless, unmatched};
ghost use Rattle.tp4_conn.specs.Dues.{IsBefore};
ghost use Rattle.tp4_conn.specs.Living.{IsInTime};
ghost use Rattle.tp4_entity.specs.Dues.{AreFrom, due_at};
ghost use Rattle.tp4_entity.specs.Entity.{end_at};
ghost use Rattle.tp4_entity.specs.References.{least_free};
ghost use Rattle.tp4_entity.specs.Step.{DoesSo};
ghost use Rattle.tp4_entity.specs.Unit.{extended_of};
ghost use Rattle.tp4_entity.specs.steps.Places.{IsBehind, IsPlace, Lasts, Places, format_of, takes_at};

use crate::TpEntity;
use crate::references::{due_at, free_place, keep};
use due_links::Due;
use nsap::Nsap;
use osi_base::{Bytes, NoMemory, Tick};
use std::alloc::Global;
use tp4_conn::{Connection, Looks};
use tp4_flow::{EndEvent, Sent, Step, What};
use tpdu::{Format, State, Tpdu, TpduRef};

/// A CR came again for an end that is frozen.
const AGAIN: u8 = 131;

/// No user waits at the called selector.
const NO_SELECTOR: u8 = 3;

/// No reference is free.
const NO_REFERENCE: u8 = 129;

/// A CC belongs to no end.
const NO_END: u8 = 132;

impl<K: Looks> TpEntity<K> {
    /// What a TPDU does that came from an address.
    pub(crate) fn on_tpdu(
        &mut self,
        from: &Nsap,
        tpdu: &TpduRef<'_>,
        out: &mut Step,
        looks: &mut K,
    ) -> Result<(), NoMemory>
        requires now { self.old.clock ≤ 4000000000 }
        requires due { AreFrom self.old.clock self.old.ends }
        requires allowed { IsAllowed (format_for (extended_of self.old) (destination_of (tpdu_of tpdu.now))) (tpdu_of tpdu.now) }
        ensures step { OnOk result (DoesSo (met wire self.old.clock self.old from.now (seen tpdu.now)) self.new out.old out.new) }
        ensures lasts { OnOk result (Lasts self.old.clock self.old.ends self.new.ends) }
        ensures clock { self.new.clock ≡ self.old.clock }
    {
        match destination_of(tpdu) {
            Some(destination) => self.pass_to_end(destination, from, tpdu, out, looks),
            None => self.on_cr(from, tpdu, out, looks),
        }
    }

    /// A CR: the first of the five rules that applies.
    fn on_cr(
        &mut self,
        from: &Nsap,
        cr: &TpduRef<'_>,
        out: &mut Step,
        looks: &mut K,
    ) -> Result<(), NoMemory>
        requires now { self.old.clock ≤ 4000000000 }
        requires due { AreFrom self.old.clock self.old.ends }
        requires cr { kind_for (tpdu_of cr.now) ≡ Cr }
        requires allowed { IsAllowed Normal (tpdu_of cr.now) }
        ensures step { OnOk result (DoesSo (met wire self.old.clock self.old from.now (seen cr.now)) self.new out.old out.new) }
        ensures lasts { OnOk result (Lasts self.old.clock self.old.ends self.new.ends) }
        ensures clock { self.new.clock ≡ self.old.clock }
    {
        let TpduRef::Cr { source, called, .. } = *cr else {
            unreachable!();
        };
        self.answer_cr(from, source, called, cr, out, looks)
    }

    /// A CR of that source reference, to that selector.
    fn answer_cr(
        &mut self,
        from: &Nsap,
        source: u16,
        called: &[u8],
        cr: &TpduRef<'_>,
        out: &mut Step,
        looks: &mut K,
    ) -> Result<(), NoMemory>
        requires now { self.old.clock ≤ 4000000000 }
        requires due { AreFrom self.old.clock self.old.ends }
        requires cr { kind_for (tpdu_of cr.now) ≡ Cr }
        requires allowed { IsAllowed Normal (tpdu_of cr.now) }
        ensures step { OnOk result (DoesSo (requested self.old.clock self.old from.now source called.now (tpdu_of cr.now)) self.new out.old out.new) }
        ensures lasts { OnOk result (Lasts self.old.clock self.old.ends self.new.ends) }
        ensures clock { self.new.clock ≡ self.old.clock }
    {
        if is_any_called(&self.ends, false, from, source, looks) {
            return Ok(());
        }
        if is_any_called(&self.ends, true, from, source, looks) {
            return out.send(refusal_dr(self.alloc, from, source, AGAIN));
        }
        if !self.is_registered(called) {
            return out.send(refusal_dr(self.alloc, from, source, NO_SELECTOR));
        }
        self.make_called_end(from, source, cr, out, looks)
    }

    /// A CR makes a new end, where a reference is free.
    fn make_called_end(
        &mut self,
        from: &Nsap,
        source: u16,
        cr: &TpduRef<'_>,
        out: &mut Step,
        looks: &mut K,
    ) -> Result<(), NoMemory>
        requires now { self.old.clock ≤ 4000000000 }
        requires due { AreFrom self.old.clock self.old.ends }
        requires cr { kind_for (tpdu_of cr.now) ≡ Cr }
        requires allowed { IsAllowed Normal (tpdu_of cr.now) }
        ensures step { OnOk result (DoesSo (new_end self.old.clock self.old from.now source (tpdu_of cr.now) (least_free self.old.clock self.old)) self.new out.old out.new) }
        ensures lasts { OnOk result (Lasts self.old.clock self.old.ends self.new.ends) }
        ensures clock { self.new.clock ≡ self.old.clock }
    {
        let Some(place) = free_place(&self.ends, self.clock, looks) else {
            return out.send(refusal_dr(self.alloc, from, source, NO_REFERENCE));
        };
        let own = place as u16 + 1;
        let end = Connection::incoming(self.alloc, self.clock, own, *from, cr, self.timers, out)?;
        self.put(place, end, looks);
        Ok(())
    }

    /// The end at the destination takes a TPDU that matches it; else the TPDU belongs to no end.
    fn pass_to_end(
        &mut self,
        destination: u16,
        from: &Nsap,
        tpdu: &TpduRef<'_>,
        out: &mut Step,
        looks: &mut K,
    ) -> Result<(), NoMemory>
        requires now { self.old.clock ≤ 4000000000 }
        requires due { AreFrom self.old.clock self.old.ends }
        requires allowed { IsAllowed (format_of (end_at self.old destination)) (tpdu_of tpdu.now) }
        ensures step { OnOk result (DoesSo (met_at wire self.old.clock self.old from.now (seen tpdu.now) (Some destination)) self.new out.old out.new) }
        ensures lasts { OnOk result (Lasts self.old.clock self.old.ends self.new.ends) }
        ensures clock { self.new.clock ≡ self.old.clock }
    {
        if destination == 0 {
            return unmatched(self.alloc, from, tpdu, out);
        }
        let Some(place) = self.ends.get_mut(usize::from(destination) - 1) else {
            return unmatched(self.alloc, from, tpdu, out);
        };
        take_place(
            self.alloc,
            place,
            &mut self.due,
            u32::from(destination) - 1,
            self.clock,
            from,
            tpdu,
            out,
            looks,
        )
    }
}

/// The end there takes a TPDU that matches it; else the TPDU belongs to no end.
fn take_place<K: Looks>(
    alloc: Global,
    place: &mut Option<Connection<K>>,
    due: &mut Due,
    id: u32,
    now: Tick,
    from: &Nsap,
    tpdu: &TpduRef<'_>,
    out: &mut Step,
    looks: &mut K,
) -> Result<(), NoMemory>
    requires behind { IsBehind now place.old }
    requires now { now ≤ 4000000000 }
    requires from { IsInTime (due_at place.old) now }
    requires id { id < length due.old }
    requires allowed { IsAllowed (format_of place.old) (tpdu_of tpdu.now) }
    ensures step { OnOk result (Places (takes_at wire now from.now (seen tpdu.now) place.old) place.new out.old out.new) }
    ensures kept { (timers : Timers) (reference : ℕ) → IsPlace timers now reference place.old → IsPlace timers now reference place.new }
    ensures from { OnOk result (IsInTime (due_at place.new) now) }
    ensures later { OnOk result (IsBefore (due_at place.old) now → IsBefore (due_at place.new) now) }
    ensures due { due.new ≡ slice_set due.old id (due_at place.new) }
{
    let outcome = take_there(alloc, place, now, from, tpdu, out, looks);
    keep(due, id, due_at(place, looks));
    outcome
}

/// The end there takes a TPDU that matches it; else the TPDU belongs to no end.
fn take_there<K: Looks>(
    alloc: Global,
    place: &mut Option<Connection<K>>,
    now: Tick,
    from: &Nsap,
    tpdu: &TpduRef<'_>,
    out: &mut Step,
    looks: &mut K,
) -> Result<(), NoMemory>
    requires behind { IsBehind now place.old }
    requires now { now ≤ 4000000000 }
    requires from { IsInTime (due_at place.old) now }
    requires allowed { IsAllowed (format_of place.old) (tpdu_of tpdu.now) }
    ensures step { OnOk result (Places (takes_at wire now from.now (seen tpdu.now) place.old) place.new out.old out.new) }
    ensures kept { (timers : Timers) (reference : ℕ) → IsPlace timers now reference place.old → IsPlace timers now reference place.new }
    ensures from { OnOk result (IsInTime (due_at place.new) now) }
    ensures later { OnOk result (IsBefore (due_at place.old) now → IsBefore (due_at place.new) now) }
{
    match place {
        Some(end) if end.matches(from, tpdu, looks) => end.on_tpdu(now, tpdu, out, looks),
        _ => unmatched(alloc, from, tpdu, out),
    }
}

/// A TPDU that belongs to no end is told, and a CC and a DR with a source are answered.
fn unmatched(alloc: Global, from: &Nsap, tpdu: &TpduRef<'_>, out: &mut Step) -> Result<(), NoMemory>
    ensures { OnOk result (Grows out.old (record { reference = 0; what = Unknown (kind_for (tpdu_of tpdu.now)) } ∷ []) (stateless from.now (tpdu_of tpdu.now)) out.new) }
{
    out.event(EndEvent {
        reference: 0,
        what: What::Unknown(tpdu.kind()),
    })?;
    match *tpdu {
        TpduRef::Cc { source, .. } => out.send(refusal_dr(alloc, from, source, NO_END)),
        TpduRef::Dr {
            destination,
            source,
            ..
        } if source != 0 => out.send(confirmation(from, source, destination)),
        TpduRef::Cr { .. }
        | TpduRef::Dr { .. }
        | TpduRef::Dc { .. }
        | TpduRef::Dt { .. }
        | TpduRef::Ed { .. }
        | TpduRef::Ak { .. }
        | TpduRef::Ea { .. }
        | TpduRef::Er { .. } => Ok(()),
    }
}

/// The destination reference; a CR has none.
fn destination_of(tpdu: &TpduRef<'_>) -> Option<u16>
    ensures value { result ≡ destination_of (tpdu_of tpdu.now) }
    ensures cr { result ≡ None → kind_for (tpdu_of tpdu.now) ≡ Cr }
{
    match *tpdu {
        TpduRef::Cr { .. } => None,
        TpduRef::Cc { destination, .. }
        | TpduRef::Dr { destination, .. }
        | TpduRef::Dc { destination, .. }
        | TpduRef::Dt { destination, .. }
        | TpduRef::Ed { destination, .. }
        | TpduRef::Ak { destination, .. }
        | TpduRef::Ea { destination, .. }
        | TpduRef::Er { destination, .. } => Some(destination),
    }
}

/// A DR whose source reference is 0.
fn refusal_dr(alloc: Global, to: &Nsap, reference: u16, reason: u8) -> Sent
    ensures { result ≡ refusal to.now reference reason }
{
    Sent {
        to: *to,
        tpdu: Tpdu::Dr {
            destination: reference,
            source: 0,
            reason,
            info: None,
            octets: Bytes::of(Vec::new(alloc)),
        },
        format: Format::Normal,
        sum: true,
    }
}

/// A DC.
fn confirmation(to: &Nsap, destination: u16, source: u16) -> Sent
    ensures { result ≡ answer to.now (Dc destination source) }
{
    Sent {
        to: *to,
        tpdu: Tpdu::Dc {
            destination,
            source,
        },
        format: Format::Normal,
        sum: true,
    }
}

/// Whether a called end of that calling address and reference stands that is frozen, or one that is not.
fn is_any_called<K: Looks>(
    places: &[Option<Connection<K>>],
    frozen: bool,
    from: &Nsap,
    reference: u16,
    looks: &mut K,
) -> bool
    ensures { result ≡ list_any (is_called frozen from.now reference) places.now }
{
    for place in places {
        if is_called(place, frozen, from, reference, looks) {
            return true;
        }
    }
    false
}

/// Whether the end there is a called one of that calling address and reference that is frozen, or one that is not.
fn is_called<K: Looks>(
    place: &Option<Connection<K>>,
    frozen: bool,
    from: &Nsap,
    reference: u16,
    looks: &mut K,
) -> bool
    ensures { result ≡ is_called frozen from.now reference place.now }
{
    match place {
        Some(end) => { end.is_called_by(from, reference, looks) && is_frozen(end, looks) == frozen }
        None => false,
    }
}

/// Whether an end is frozen.
fn is_frozen<K: Looks>(end: &Connection<K>, looks: &mut K) -> bool
    ensures { result ≡ is_frozen end.now.stage }
{
    end.state(looks) == State::Frozen
}
