//! The two halves of the flow of an end that has agreed (X.224, class 4: flow control, expedited data).

ghost use Rattle.std.specs.Prelude.{◌≡◌, ◌≤◌, IfOk, None, OnOk, length};
ghost use Rattle.std.specs.Borrow.{Lends, sem};
ghost use Rattle.tp4_conn.specs.contracts.halves.BoxedHalves.{the_row};
ghost use Rattle.tp4_conn.specs.contracts.halves.Halves.{the_row as halves_row};
ghost use Rattle.tp4_sending.specs.SendingHalf.{Keeps, Sends, at, refusal, submitted, urged, urgent_refusal};
ghost use Rattle.tp4_conn.specs.Agreeing.{flow_rules, halves_of};
ghost use Rattle.tp4_conn.specs.End.{IsTimed, IsSized};

use crate::EndRecord;
use osi_base::{Bytes, NoMemory, Tick};
use std::alloc::Global;
use std::marker::Model;
use tp4_flow::{FlowRules, Receiving, Step};
use tp4_sending::Sending;
use tpdu::{Format, Options};

/// What an end sends, and what it receives.
#[derive(Drop)]
pub struct Halves {
    pub sending: Sending,
    pub receiving: Receiving,
}

/// The halves, which stay where they are while their end is moved. Contracts see it as the halves themselves.
#[derive(Drop)]
pub struct BoxedHalves {
    inner: Box<Halves>,
}

impl Model for BoxedHalves {
    ghost use Rattle.tp4_conn.specs.declared.halves.Halves.{Halves};

    ghost Value = { Halves };

    ghost view = { λ b. b.inner.value };
}

impl BoxedHalves {
    /// These halves.
    pub fn new(alloc: Global, halves: Halves) -> Result<BoxedHalves, NoMemory>
        ensures { IfOk result (λ boxed. boxed ≡ halves) }
    {
        let inner = Box::new(alloc, halves)?;
        Ok(BoxedHalves { inner })
    }

    /// The halves, lent.
    pub fn get(&self) -> &Halves
        ensures { result.now ≡ self.now }
    {
        &self.inner
    }

    /// The halves, lent to be changed.
    pub fn get_mut(&mut self) -> &mut Halves
        ensures* writes_back { sem 𝓛 (Lends the_row halves_row self.entry result (λ halves. halves)) }
        ensures value { result.now ≡ self.old }
    {
        self.inner.as_mut()
    }
}

impl EndRecord {
    /// The halves of an end that has agreed.
    #[tactic(auto, using(crate::proofs::Credits::granted_low, crate::proofs::Sizes::sized_least, crate::proofs::Sizes::sized_most))]
    pub(crate) fn halves(&self, alloc: Global, options: Options) -> Result<BoxedHalves, NoMemory>
        requires timers { IsTimed self.now.timers }
        requires size { IsSized options }
        requires credit { self.now.credit ≤ 15 }
        ensures { IfOk result (λ halves. halves ≡ halves_of self.now options) }
    {
        let rules = self.rules(options);
        let halves = Halves {
            sending: Sending::new(alloc, rules, self.credit)?,
            receiving: Receiving::new(alloc, rules, self.timers.credit)?,
        };
        BoxedHalves::new(alloc, halves)
    }

    /// How the halves work.
    #[tactic(auto, using(crate::proofs::Sizes::sized_least, crate::proofs::Sizes::sized_most))]
    fn rules(&self, options: Options) -> FlowRules
        requires timers { IsTimed self.now.timers }
        requires size { IsSized options }
        ensures { result ≡ flow_rules self.now options }
    {
        let header = match options.format {
            Format::Normal => 5,
            Format::Extended => 8,
        };
        FlowRules {
            own: self.own,
            partner: self.partner,
            to: self.to,
            format: options.format,
            sum: options.sum,
            piece: options.size - (header + if options.sum { 4 } else { 0 }),
            t1: self.timers.t1,
            sendings: self.timers.sendings,
            limit: self.timers.in_use(),
        }
    }
}

impl Halves {
    /// A normal unit of the user, which is not refused, is queued, and goes where it may.
    pub(crate) fn submit(&mut self, now: Tick, unit: Bytes, out: &mut Step) -> Result<(), NoMemory>
        requires clock { self.old.sending.clock ≤ now }
        requires low { now ≤ 4000000000 }
        requires taken { refusal self.old.sending (length unit) ≡ None }
        ensures step { OnOk result (Sends (submitted (at now self.old.sending) unit) self.new.sending out.old out.new) }
        ensures kept { OnOk result (Keeps self.old.sending self.new.sending now) }
        ensures receiving { self.new.receiving ≡ self.old.receiving }
    {
        self.sending.submit(now, unit, out)
    }

    /// An expedited unit of the user, which is not refused, is queued, and goes where it may.
    pub(crate) fn expedite(
        &mut self,
        now: Tick,
        unit: Bytes,
        out: &mut Step,
    ) -> Result<(), NoMemory>
        requires clock { self.old.sending.clock ≤ now }
        requires low { now ≤ 4000000000 }
        requires taken { urgent_refusal self.old.sending (length unit) ≡ None }
        ensures step { OnOk result (Sends (urged (at now self.old.sending) unit) self.new.sending out.old out.new) }
        ensures kept { OnOk result (Keeps self.old.sending self.new.sending now) }
        ensures receiving { self.new.receiving ≡ self.old.receiving }
    {
        self.sending.submit_expedited(now, unit, out)
    }
}
