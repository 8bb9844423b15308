//! One end of a connection (X.224, class 4 procedures and state tables).

ghost use Rattle.std.specs.Prelude.{◌≡◌, ◌≢◌, ◌≤◌, ◌+◌, ℕ, Some, None, Err, IfOk, IfErr, OnOk};
ghost use Rattle.tpdu.specs.declared.tpdu.Format.TheVariants.{Normal};
ghost use Rattle.tpdu.specs.Values.{tpdu_of, sum_of};
ghost use Rattle.tpdu.specs.declared.kind.Kind.TheVariants.{Cr};
ghost use Rattle.tpdu.specs.Writing.{IsAllowed, kind_for};
ghost use Rattle.tp4_number.specs.Number.{wire};
ghost use Rattle.tp4_sending.specs.Pieces.{sooner};
ghost use Rattle.tp4_conn.specs.declared.call.CallRefusal.{CallRefusal};
ghost use Rattle.tp4_conn.specs.declared.call.CallRefusal.TheVariants.{NoMemory as OutOfMemory};
ghost use Rattle.tp4_conn.specs.Calls.{IsCall, call_refusal, state_of};
ghost use Rattle.tp4_conn.specs.Dues.{IsBefore, IsDue};
ghost use Rattle.tp4_conn.specs.End.{Does, IsSame, IsSized, IsTimed, Moved, agreed_format};
ghost use Rattle.tp4_conn.specs.Making.{connected, on_cr};
ghost use Rattle.tp4_conn.specs.Living.{IsInTime};
ghost use Rattle.tp4_conn.specs.Matching.{is_called_by, is_match};
ghost use Rattle.tp4_conn.specs.Table.{Called, Took, Ticked, at, stepped, due};

use crate::end_record::{EndRecord, copied};
use crate::matching::{fits, has_sum, wants_sum};
use crate::proposed::{proposed_by, proposed_in};
use crate::refusal::refusal;
use crate::{CallRefusal, ConnectCall, InCrWait, Looks, StateData, Timers, UserCall, state_table};
use nsap::Nsap;
use osi_base::{NoMemory, Tick};
use std::alloc::Global;
use std::marker::{Model, PhantomData};
use std::mem;
use tp4_flow::{EndEvent, Step, What};
use tp4_sending::{Tries, sooner};
use tpdu::{Format, State, TpduCause, TpduRef};

/// One end of a connection, and the type of the count of the looks at it.
pub struct Connection<K> {
    alloc: Global,
    base: EndRecord,
    stage: StateData,
    looks: PhantomData<K>,
}

// By hand, so that it is proved here alone: what is derived is proved again in each crate that lets one go.
impl<K> Drop for Connection<K> {
    fn drop(self) {
        let Connection {
            alloc: _,
            base: _,
            stage: _,
            looks: _,
        } = self;
    }
}

// The timers are in their ranges, and no tick is ahead of the clock; where a CC was sent and not answered, its sendings are at most T1 apart.
impl<K> Model for Connection<K> {
    ghost use Rattle.tp4_conn.specs.End.{End};
    ghost use Rattle.tp4_conn.specs.steps.Kept.{IsEnd, IsWaiting};

    ghost Value = { End };

    ghost view = { λ a. record { base = a.base; stage = a.stage } };

    ghost invariant = { λ a. IsEnd a.base a.stage × IsWaiting a.base.timers a.stage };
}

impl<K: Looks> Connection<K> {
    /// An end that calls: its CR is sent for the first time.
    #[tactic(auto, using(crate::proofs::Sizes::proposal_by))]
    pub fn connect(
        alloc: Global,
        now: Tick,
        call: ConnectCall,
        out: &mut Step,
    ) -> Result<Connection<K>, NoMemory>
        requires now { now ≤ 4000000000 }
        requires timers { IsTimed call.rules }
        requires size { IsSized call.request.options }
        ensures later { IfOk result (λ made. IsBefore (due made.base made.stage) now) }
        ensures step { IfOk result (λ made. Does (connected now call) made.base made.stage out.old out.new) }
    {
        let request = call.request;
        let base = EndRecord {
            own: call.own,
            to: request.to,
            is_called: false,
            calling: request.from_selector,
            called: request.to_selector,
            proposed: proposed_by(request.options),
            timers: call.rules,
            partner: 0,
            credit: 0,
            agreed: None,
            clock: now,
        };
        base.send_request(alloc, request.octets.as_slice(), out)?;
        let stage = StateData::CrWait(InCrWait {
            octets: request.octets,
            tries: Tries::once(now),
        });
        Ok(Connection {
            alloc,
            base,
            stage,
            looks: PhantomData,
        })
    }

    /// An end that a CR calls: the connect indication.
    #[tactic(auto, using(crate::proofs::Sizes::read_proposal))]
    pub fn incoming(
        alloc: Global,
        now: Tick,
        own: u16,
        from: Nsap,
        cr: &TpduRef<'_>,
        rules: Timers,
        out: &mut Step,
    ) -> Result<Connection<K>, NoMemory>
        requires now { now ≤ 4000000000 }
        requires timers { IsTimed rules }
        requires cr { kind_for (tpdu_of cr.now) ≡ Cr }
        requires allowed { IsAllowed Normal (tpdu_of cr.now) }
        ensures later { IfOk result (λ made. IsBefore (due made.base made.stage) now) }
        ensures step { IfOk result (λ made. (m : Moved) → on_cr now own from rules (tpdu_of cr.now) ≡ Some m → Does m made.base made.stage out.old out.new) }
    {
        let TpduRef::Cr {
            credit,
            source,
            format,
            calling,
            called,
            size,
            preferred,
            extra,
            octets,
            ..
        } = *cr
        else {
            unreachable!();
        };
        let base = EndRecord {
            own,
            to: from,
            is_called: true,
            calling: copied(alloc, calling)?,
            called: copied(alloc, called)?,
            proposed: proposed_in(format, size, preferred, extra),
            timers: rules,
            partner: source,
            credit: u16::from(credit),
            agreed: None,
            clock: now,
        };
        base.indicate(alloc, octets, out)?;
        let stage = StateData::UserWait { since: now };
        Ok(Connection {
            alloc,
            base,
            stage,
            looks: PhantomData,
        })
    }

    /// Its state.
    pub fn state(&self, looks: &mut K) -> State
        ensures value { result ≡ state_of self.now.stage }
        ensures looks { K.made looks.new ≡ K.made looks.old + K.each }
    {
        looks.add();
        self.stage.state()
    }

    /// The agreed format, which stays in Closing and Frozen; normal where nothing was agreed.
    pub fn format(&self, looks: &mut K) -> Format
        ensures value { result ≡ agreed_format self.now.base.agreed }
        ensures looks { K.made looks.new ≡ K.made looks.old + K.each }
    {
        looks.add();
        self.base.format()
    }

    /// Whether a TPDU that is no CR, with this end's reference as destination, matches it.
    pub fn matches(&self, from: &Nsap, tpdu: &TpduRef<'_>, looks: &mut K) -> bool
        ensures value { result ≡ is_match self.now.base self.now.stage from.now (tpdu_of tpdu.now) }
        ensures looks { K.made looks.new ≡ K.made looks.old + K.each }
    {
        looks.add();
        self.base.to == *from && fits(&self.base, &self.stage, tpdu)
    }

    /// Whether it is a called end of that calling address and reference.
    pub fn is_called_by(&self, from: &Nsap, reference: u16, looks: &mut K) -> bool
        ensures value { result ≡ is_called_by self.now.base from.now reference }
        ensures looks { K.made looks.new ≡ K.made looks.old + K.each }
    {
        looks.add();
        self.base.is_called && self.base.to == *from && self.base.partner == reference
    }

    /// The least tick at which `tick` changes more than the clock, or sends something.
    pub fn next_due(&self, looks: &mut K) -> Option<Tick>
        ensures value { result ≡ due self.now.base self.now.stage }
        ensures least { (now : ℕ) → IsDue (at now self.now.base) self.now.stage }
        ensures looks { K.made looks.new ≡ K.made looks.old + K.each }
    {
        looks.add();
        let timers = self.base.timers;
        match &self.stage {
            StateData::CrWait(wait) => Some(wait.tries.last + timers.t1),
            StateData::WaitBeforeClose(wait) => Some(wait.request.tries.last + timers.t1),
            StateData::UserWait { since } => Some(*since + timers.inactive),
            StateData::AkWait(wait) => Some(wait.tries.last + timers.t1),
            StateData::Opened(flow) => sooner(
                sooner(
                    Some(flow.took + timers.inactive),
                    Some(flow.acked + timers.window),
                ),
                flow.halves.get().sending.next_due(),
            ),
            StateData::Closing(close) => sooner(
                Some(close.from + timers.span()),
                Some(close.last + timers.t1),
            ),
            StateData::Frozen { at } => {
                let last = *at + timers.frozen();
                if last < self.base.clock {
                    None
                } else {
                    Some(last + 1)
                }
            }
        }
    }

    /// A call of the user.
    ///
    /// A refused call changes nothing, but where memory ran out: the end is then Frozen.
    #[tactic(auto, using(crate::proofs::Takings::refused_later))]
    pub fn user(
        &mut self,
        now: Tick,
        call: UserCall,
        out: &mut Step,
        looks: &mut K,
    ) -> Result<(), CallRefusal>
        requires clock { self.old.base.clock ≤ now }
        requires now { now ≤ 4000000000 }
        requires due { IsInTime (due self.old.base self.old.stage) now }
        requires call { IsCall call }
        ensures allowed { OnOk result (call_refusal self.old.base self.old.stage call ≡ None) }
        ensures step { OnOk result (Does (stepped wire now self.old (Called call)) self.new.base self.new.stage out.old out.new) }
        ensures refused { (why : CallRefusal) → call_refusal self.old.base self.old.stage call ≡ Some why → result ≡ Err why }
        ensures why { IfErr result (λ why. why ≢ OutOfMemory → call_refusal self.old.base self.old.stage call ≡ Some why) }
        ensures err { IfErr result (λ why. why ≢ OutOfMemory → (self.new ≡ self.old) × (out.new ≡ out.old)) }
        ensures from { OnOk result (IsInTime (due self.new.base self.new.stage) now) }
        ensures later { OnOk result (IsBefore (due self.old.base self.old.stage) now → IsBefore (due self.new.base self.new.stage) now) }
        ensures kept { IsSame self.old.base self.new.base }
        ensures clock { self.new.base.clock ≤ now }
        ensures looks { K.made looks.new ≡ K.made looks.old + K.each }
    {
        looks.add();
        if let Some(why) = refusal(&self.base, &self.stage, &call) {
            return Err(why);
        }
        self.base.clock = now;
        let stage = mem::replace(&mut self.stage, StateData::Frozen { at: now });
        match state_table::on_call(self.alloc, &mut self.base, stage, call, out) {
            Ok(stage) => {
                self.stage = stage;
                Ok(())
            }
            Err(_) => Err(CallRefusal::NoMemory),
        }
    }

    /// A matching TPDU came.
    ///
    /// One that lacks an agreed checksum is told, and changes nothing.
    pub fn on_tpdu(
        &mut self,
        now: Tick,
        tpdu: &TpduRef<'_>,
        out: &mut Step,
        looks: &mut K,
    ) -> Result<(), NoMemory>
        requires clock { self.old.base.clock ≤ now }
        requires now { now ≤ 4000000000 }
        requires due { IsInTime (due self.old.base self.old.stage) now }
        requires allowed { IsAllowed (agreed_format self.old.base.agreed) (tpdu_of tpdu.now) }
        ensures step { OnOk result (Does (stepped wire now self.old (Took (tpdu_of tpdu.now) (sum_of tpdu.now))) self.new.base self.new.stage out.old out.new) }
        ensures from { OnOk result (IsInTime (due self.new.base self.new.stage) now) }
        ensures later { OnOk result (IsBefore (due self.old.base self.old.stage) now → IsBefore (due self.new.base self.new.stage) now) }
        ensures kept { IsSame self.old.base self.new.base }
        ensures clock { self.new.base.clock ≤ now }
        ensures looks { K.made looks.new ≡ K.made looks.old + K.each }
    {
        looks.add();
        if wants_sum(&self.base, &self.stage, tpdu) && !has_sum(tpdu) {
            return out.event(EndEvent {
                reference: 0,
                what: What::BadTpdu(TpduCause::Checksum, 0),
            });
        }
        self.base.clock = now;
        let stage = mem::replace(&mut self.stage, StateData::Frozen { at: now });
        self.stage = state_table::on_tpdu(self.alloc, &mut self.base, stage, tpdu, out)?;
        Ok(())
    }

    /// A tick of the clock. The end is due at a later tick then, or no more.
    pub fn tick(&mut self, now: Tick, out: &mut Step, looks: &mut K) -> Result<(), NoMemory>
        requires clock { self.old.base.clock ≤ now }
        requires now { now ≤ 4000000000 }
        requires due { IsInTime (due self.old.base self.old.stage) now }
        ensures step { OnOk result (Does (stepped wire now self.old Ticked) self.new.base self.new.stage out.old out.new) }
        ensures later { OnOk result (IsBefore (due self.new.base self.new.stage) now) }
        ensures kept { IsSame self.old.base self.new.base }
        ensures clock { self.new.base.clock ≤ now }
        ensures looks { K.made looks.new ≡ K.made looks.old + K.each }
    {
        looks.add();
        self.base.clock = now;
        let stage = mem::replace(&mut self.stage, StateData::Frozen { at: now });
        self.stage = state_table::on_tick(self.alloc, &self.base, stage, out)?;
        Ok(())
    }
}
