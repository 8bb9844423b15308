//! The ends of a system by their references, and what its users ask (X.224, class 4: connection establishment; frozen references).

ghost use Rattle.std.specs.Prelude.{◌≡◌, ◌≢◌, ◌≤◌, ◌+◌, ◌*◌, [], ◌∷◌, ◌++◌, Some, None, Err, true, false, is_some, if◌then◌else◌, IfErr, IfOk, OnErr, OnOk};
ghost use Rattle.tp4_number.specs.Number.{wire};
ghost use Rattle.tp4_conn.specs.Calls.{IsCall};
ghost use Rattle.tp4_conn.specs.End.{IsSized, IsTimed};
ghost use Rattle.tp4_conn.specs.declared.call.CallRefusal.TheVariants.{NoMemory as EndOutOfMemory};
ghost use Rattle.tp4_entity.specs.Association.{is_registered};
ghost use Rattle.std.specs.List.{list_any};
ghost use Rattle.tp4_entity.specs.Dues.{AreFrom, AreLater};
ghost use Rattle.tp4_entity.specs.References.{is_free, least_free};
ghost use Rattle.tp4_entity.specs.Step.{DoesSo, calling, connect_refusal, connecting, dues, first_due, is_due, new_entity, restarted, state_at, ticking, user_refusal};
ghost use Rattle.tp4_entity.specs.declared.refusal.ConnectRefusal.{ConnectRefusal};
ghost use Rattle.tp4_entity.specs.declared.refusal.ConnectRefusal.TheVariants.{NoMemory as ConnectOutOfMemory};
ghost use Rattle.tp4_entity.specs.declared.refusal.EntityRefusal.{EntityRefusal};
ghost use Rattle.tp4_entity.specs.declared.refusal.EntityRefusal.TheVariants.{Call};
ghost use Rattle.tp4_entity.specs.declared.refusal.TsapRefusal.TheVariants.{TsapTaken};

use crate::references::{call_place, clock_after, free_place, is_over, no_ends, tick_place};
use crate::{ConnectRefusal, EntityRefusal, TsapRefusal};
use due_links::Due;
use nsap::Nsap;
use osi_base::{Bytes, NoMemory, Tick};
use std::alloc::Global;
use std::marker::Model;
use tp4_conn::{ConnectRequest, Connection, Looks, Timers, UserCall};
use tp4_flow::Step;
use tpdu::State;

/// The most octets of a connect request.
const MOST_OCTETS: usize = 32;

/// The ends of a system, and the type of the count of the looks at them.
pub struct TpEntity<K> {
    pub(crate) alloc: Global,
    pub(crate) own: Nsap,
    pub(crate) timers: Timers,
    pub(crate) clock: Tick,
    pub(crate) selectors: Vec<Bytes>,
    pub(crate) ends: Vec<Option<Connection<K>>>,
    /// When each place is due, so that a tick goes over the due ends and over no others.
    pub(crate) due: Due,
    pub(crate) restarted: Option<Tick>,
}

// By hand, so that it is proved here alone: what is derived is proved again in each crate that lets one go.
impl<K> Drop for TpEntity<K> {
    fn drop(self) {
        let TpEntity {
            alloc: _,
            own: _,
            timers: _,
            clock: _,
            selectors: _,
            ends: _,
            due: _,
            restarted: _,
        } = self;
    }
}

// The timers are in their ranges, there are 1 to 64 references, and each end has its reference, these timers and no later clock;
// each place is due when its end is.
impl<K> Model for TpEntity<K> {
    ghost use Rattle.tp4_entity.specs.Entity.{Entity};
    ghost use Rattle.std.specs.Prelude.{◌≡◌};
    ghost use Rattle.tp4_entity.specs.Dues.{dues_of};
    ghost use Rattle.tp4_entity.specs.steps.Places.{IsEntity};

    ghost Value = { Entity };

    ghost view = { λ a. record { own = a.own; timers = a.timers; clock = a.clock; selectors = a.selectors.items; ends = a.ends.items; restarted = a.restarted } };

    ghost invariant = { λ a. IsEntity (record { own = a.own; timers = a.timers; clock = a.clock; selectors = a.selectors.items; ends = a.ends.items; restarted = a.restarted })
        × (a.due ≡ dues_of a.ends.items) };
}

impl<K: Looks> TpEntity<K> {
    /// An entity of that address, with so many references, and no end.
    pub fn new(
        alloc: Global,
        own: Nsap,
        references: u16,
        rules: Timers,
    ) -> Result<TpEntity<K>, NoMemory>
        requires least { 1 ≤ references }
        requires most { references ≤ 64 }
        requires timers { IsTimed rules }
        ensures { IfOk result (λ entity. entity ≡ new_entity own references rules) }
    {
        let ends = no_ends(alloc, usize::from(references))?;
        let due = Due::new(alloc, u32::from(references))?;
        Ok(TpEntity {
            alloc,
            own,
            timers: rules,
            clock: 0,
            selectors: Vec::new(alloc),
            ends,
            due,
            restarted: None,
        })
    }

    /// The address that it was made with.
    pub fn own(&self) -> Nsap
        ensures { result ≡ self.now.own }
    {
        self.own
    }

    /// The state of the end at a reference; none exactly where no end stands there.
    pub fn state_of(&self, reference: u16, looks: &mut K) -> Option<State>
        ensures { result ≡ state_at self.now reference }
    {
        match self.end_at(reference) {
            Some(end) => Some(end.state(looks)),
            None => None,
        }
    }

    /// Whether the reference is one of the entity's, and free: no end stands there, or one that entered Frozen more than F ticks ago. None is
    /// while the entity is silent.
    pub fn is_free(&self, now: Tick, reference: u16, looks: &mut K) -> bool
        requires clock { self.now.clock ≤ now }
        ensures { result ≡ is_free now self.now reference }
    {
        if self.is_silent(now) || reference == 0 || self.ends.len() < usize::from(reference) {
            return false;
        }
        match self.end_at(reference) {
            Some(end) => is_over(end, now, looks),
            None => true,
        }
    }

    /// Connections are taken at that selector.
    ///
    /// `TsapTaken` exactly where they are already. Unchanged at each refusal.
    pub fn register(&mut self, selector: &[u8]) -> Result<(), TsapRefusal>
        ensures ok { OnOk result (self.new ≡ record self.old { selectors = self.old.selectors ++ selector.now ∷ [] }) }
        ensures free { OnOk result (is_registered self.old.selectors selector.now ≡ false) }
        ensures taken { is_registered self.old.selectors selector.now ≡ true → result ≡ Err TsapTaken }
        ensures why { result ≡ Err TsapTaken → is_registered self.old.selectors selector.now ≡ true }
        ensures err { OnErr result (self.new ≡ self.old) }
    {
        if self.is_registered(selector) {
            return Err(TsapRefusal::TsapTaken);
        }
        match self.add_selector(selector) {
            Ok(()) => Ok(()),
            Err(NoMemory) => Err(TsapRefusal::NoMemory),
        }
    }

    /// A new end calls, at the least free reference, with the address and the timers of the entity.
    ///
    /// `Silent` exactly while the entity is silent, `TooLong` exactly above 32 octets, `RefsSpent` exactly where no reference is free, in
    /// this order; nothing is changed then.
    pub fn connect(
        &mut self,
        now: Tick,
        request: ConnectRequest,
        out: &mut Step,
        looks: &mut K,
    ) -> Result<u16, ConnectRefusal>
        requires clock { self.old.clock ≤ now }
        requires now { now ≤ 4000000000 }
        requires due { AreFrom now self.old.ends }
        requires size { IsSized request.options }
        ensures allowed { OnOk result (connect_refusal now self.old request.octets ≡ None) }
        ensures least { IfOk result (λ reference. least_free now self.old ≡ Some reference) }
        ensures step { IfOk result (λ reference. DoesSo (connecting now self.old reference request) self.new out.old out.new) }
        ensures from { OnOk result (AreFrom now self.new.ends) }
        ensures later { OnOk result (AreLater now self.old.ends → AreLater now self.new.ends) }
        ensures refused { (why : ConnectRefusal) → connect_refusal now self.old request.octets ≡ Some why → result ≡ Err why }
        ensures why { IfErr result (λ why. why ≢ ConnectOutOfMemory → connect_refusal now self.old request.octets ≡ Some why) }
        ensures err { IfErr result (λ why. why ≢ ConnectOutOfMemory → (self.new ≡ self.old) × (out.new ≡ out.old)) }
        ensures clock { self.new.clock ≤ now }
    {
        if self.is_silent(now) {
            return Err(ConnectRefusal::Silent);
        }
        if MOST_OCTETS < request.octets.as_slice().len() {
            return Err(ConnectRefusal::TooLong);
        }
        let Some(place) = free_place(&self.ends, now, looks) else {
            return Err(ConnectRefusal::RefsSpent);
        };
        match self.call_from(place, now, request, out, looks) {
            Ok(reference) => Ok(reference),
            Err(NoMemory) => Err(ConnectRefusal::NoMemory),
        }
    }

    /// A call of the user of an end.
    ///
    /// `NoSuchEnd` exactly where no end stands there; a frozen one stands. A refused call changes nothing, but where memory ran out.
    pub fn user(
        &mut self,
        now: Tick,
        reference: u16,
        call: UserCall,
        out: &mut Step,
        looks: &mut K,
    ) -> Result<(), EntityRefusal>
        requires clock { self.old.clock ≤ now }
        requires now { now ≤ 4000000000 }
        requires due { AreFrom now self.old.ends }
        requires call { IsCall call }
        ensures allowed { OnOk result (user_refusal self.old reference call ≡ None) }
        ensures step { OnOk result (DoesSo (calling wire now self.old reference call) self.new out.old out.new) }
        ensures from { OnOk result (AreFrom now self.new.ends) }
        ensures later { OnOk result (AreLater now self.old.ends → AreLater now self.new.ends) }
        ensures refused { (why : EntityRefusal) → user_refusal self.old reference call ≡ Some why → result ≡ Err why }
        ensures why { IfErr result (λ why. why ≢ Call EndOutOfMemory → user_refusal self.old reference call ≡ Some why) }
        ensures err { IfErr result (λ why. why ≢ Call EndOutOfMemory → (self.new ≡ self.old) × (out.new ≡ out.old)) }
        ensures clock { self.new.clock ≤ now }
    {
        if reference == 0 {
            return Err(EntityRefusal::NoSuchEnd);
        }
        let Some(place) = self.ends.get_mut(usize::from(reference) - 1) else {
            return Err(EntityRefusal::NoSuchEnd);
        };
        match call_place(
            place,
            &mut self.due,
            u32::from(reference) - 1,
            now,
            call,
            out,
            looks,
        ) {
            Ok(()) => {
                self.clock = now;
                Ok(())
            }
            Err(why) => {
                self.clock = clock_after(why, self.clock, now);
                Err(why)
            }
        }
    }

    /// The due end of least reference ticks, and is taken out where it is due no more; one end fewer is due then. False exactly where
    /// none is due. An end is looked at twice, and none where none is due.
    pub fn tick_next(&mut self, now: Tick, out: &mut Step, looks: &mut K) -> Result<bool, NoMemory>
        requires clock { self.old.clock ≤ now }
        requires now { now ≤ 4000000000 }
        requires due { AreFrom now self.old.ends }
        ensures due { IfOk result (λ was_due. was_due ≡ is_some (first_due now self.old)) }
        ensures step { OnOk result (DoesSo (ticking wire now self.old) self.new out.old out.new) }
        ensures fewer { IfOk result (λ was_due. was_due ≡ true → dues now self.new + 1 ≡ dues now self.old) }
        ensures from { OnOk result (AreFrom now self.new.ends) }
        ensures later { OnOk result (AreLater now self.old.ends → AreLater now self.new.ends) }
        ensures rest { IfOk result (λ was_due. was_due ≡ false → AreLater now self.new.ends) }
        ensures clock { self.new.clock ≤ now }
        ensures looks { IfOk result (λ was_due. K.made looks.new ≤ K.made looks.old + (if was_due then 2 else 0) * K.each) }
    {
        self.set_clock(now);
        let Some(place) = self.due.pop(now) else {
            return Ok(false);
        };
        tick_place(
            &mut self.ends[place as usize],
            &mut self.due,
            place,
            now,
            out,
            looks,
        )?;
        Ok(true)
    }

    /// Whether some end has a due tick of at most now.
    pub fn due_by(&self, now: Tick) -> bool
        ensures { result ≡ list_any (is_due now) self.now.ends }
    {
        match self.due.first() {
            Some(tick) => tick <= now,
            None => false,
        }
    }
}
