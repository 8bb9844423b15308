//! The sending half of an end: its calls (X.224, class 4: flow control, retention until acknowledgement,
//! retransmission on time-out, expedited data).

ghost use Rattle.std.specs.Prelude.{◌≡◌, ◌↔◌, ◌<◌, ◌≤◌, ◌*◌, [], ◌∷◌, ◌++◌, ℕ, true, false, None, IfOk, OnOk, length};
ghost use Rattle.tp4_number.specs.Formats.{block_of};
ghost use Rattle.tp4_number.specs.Number.{near};
ghost use Rattle.tp4_number.specs.Sender.{may_send};
ghost use Rattle.tp4_sending.specs.SendingHalf.{fresh, at, opened, submitted, urged, is_taken, acknowledged, is_outstanding, urgent_done, life_of, ticked, due_of, refusal, urgent_refusal, Sends, Keeps};
ghost use Rattle.tp4_sending.specs.Kept.{IsRules, most_granted};
ghost use Rattle.tp4_sending.specs.Settled.{Acts, IsDue};

use crate::cutting::count_in;
use crate::due::sooner;
use crate::expedited::UrgentSending;
use crate::tries::Tries;
use circular_buffer::HeapCircularBuffer;
use osi_base::{Bytes, NoMemory, Tick};
use std::alloc::Global;
use std::collections::VecDeque;
use std::marker::Model;
use tp4_flow::{FlowRules, Life, Step, SubmitRefusal};
use tp4_number::Blocks;

/// The sending half of an end: its numbers, what was sent and is not acknowledged, and the units.
#[derive(Drop)]
pub struct Sending {
    pub(crate) alloc: Global,
    pub(crate) rules: FlowRules,
    pub(crate) clock: Tick,
    pub(crate) is_open: bool,
    pub(crate) base: u64,
    pub(crate) credit: u16,
    pub(crate) subsequence: u16,
    pub(crate) next: u64,
    pub(crate) blocks: Blocks,
    pub(crate) window: HeapCircularBuffer<Tries>,
    /// The first tick at which a DT of the window is to be sent again, where it is known.
    pub(crate) due: Option<Option<Tick>>,
    pub(crate) units: VecDeque<Bytes>,
    pub(crate) first: u64,
    /// The number behind the last piece of the units. Counted as they come, so that no call goes over the queue.
    pub(crate) end: u64,
    /// The octets of the units. Counted as they come and go, so that a submission is refused by one look.
    pub(crate) waiting: u64,
    pub(crate) noted: Option<u64>,
    pub(crate) urgent: UrgentSending,
}

// Numbers stand in order and grow no faster than ticks, the window has those from base on up to next, and the pieces and the octets
// of the units are counted. Each number that was sent has its piece, and an ED that is outstanding its unit. What is known of the
// window is so.
impl Model for Sending {
    ghost use Rattle.tp4_sending.specs.SendingHalf.{FlowSender};
    ghost use Rattle.tp4_sending.specs.Kept.{IsSending};
    ghost use Rattle.tp4_sending.specs.steps.Known.{IsKnown};
    ghost use Rattle.tp4_sending.specs.steps.There.{IsThere};
    ghost use Rattle.tp4_sending.specs.steps.Total.{IsTotal};

    ghost Value = { FlowSender };

    ghost view = { λ a. record {
      rules = a.rules;
      clock = a.clock;
      is_open = a.is_open;
      numbers = record { base = a.base; credit = a.credit; subsequence = a.subsequence; next = a.next; blocks = a.blocks };
      window = a.window.items;
      queue = record { units = a.units.items; first = a.first };
      noted = a.noted;
      urgent = record { next = a.urgent.next; blocks = a.urgent.blocks; units = a.urgent.units.items; out = a.urgent.out; noted = a.urgent.noted };
    } };

    ghost invariant = { λ a. IsSending (record {
      rules = a.rules;
      clock = a.clock;
      is_open = a.is_open;
      numbers = record { base = a.base; credit = a.credit; subsequence = a.subsequence; next = a.next; blocks = a.blocks };
      window = a.window.items;
      queue = record { units = a.units.items; first = a.first };
      noted = a.noted;
      urgent = record { next = a.urgent.next; blocks = a.urgent.blocks; units = a.urgent.units.items; out = a.urgent.out; noted = a.urgent.noted };
    }) × IsTotal a.rules.piece a.end a.waiting (record { units = a.units.items; first = a.first })
        × IsThere a.end a.blocks.high a.urgent.out a.urgent.units.items × IsKnown a.rules.t1 a.window.items a.due };
}

/// The most units that wait, normal or expedited.
const MOST_UNITS: usize = 64;

/// The most octets of a unit.
const MOST_OCTETS: usize = 16_384;

/// The most octets of an expedited unit (X.224, structure of the ED TPDU).
const MOST_URGENT_OCTETS: usize = 16;

/// The most octets of the units that wait.
const MOST_WAITING: u64 = 131_072;

/// For how many DTs that are outstanding the window has room at first.
const FIRST_WINDOW: usize = 16;

impl Sending {
    /// Nothing is submitted yet.
    pub fn new(alloc: Global, rules: FlowRules, credit: u16) -> Result<Sending, NoMemory>
        requires rules { IsRules rules }
        requires credit { credit ≤ most_granted rules.format }
        ensures { IfOk result (λ half. half ≡ fresh rules credit) }
    {
        Ok(Sending {
            alloc,
            rules,
            clock: 0,
            is_open: false,
            base: 0,
            credit,
            subsequence: 0,
            next: 0,
            blocks: Blocks::none(),
            window: HeapCircularBuffer::with_capacity(alloc, FIRST_WINDOW)?,
            due: Some(None),
            units: VecDeque::new(alloc),
            first: 0,
            end: 0,
            waiting: 0,
            noted: None,
            urgent: UrgentSending::none(alloc),
        })
    }

    /// Whether the number rule lets the next new DT go.
    pub fn may_send(&self, now: Tick) -> bool
        ensures { result ≡ may_send (block_of self.now.rules.format) self.now.rules.limit self.now.numbers.blocks self.now.numbers.next now }
    {
        self.blocks
            .may_send(self.rules.format, self.rules.limit, self.next, now)
    }

    /// The connection is open: what may go now goes.
    pub fn open(&mut self, now: Tick, out: &mut Step) -> Result<(), NoMemory>
        requires closed { self.old.is_open ≡ false }
        requires clock { self.old.clock ≤ now }
        requires low { now ≤ 4000000000 }
        ensures step { OnOk result (Sends (opened (at now self.old)) self.new out.old out.new) }
        ensures rules { self.new.rules ≡ self.old.rules }
        ensures is_open { self.new.is_open ≡ true }
        ensures clock { self.new.clock ≡ now }
    {
        self.set_clock(now);
        self.set_open();
        self.new_sends(out)
    }

    /// A unit of the user that `refusal` takes joins its queue, and what may go goes.
    pub fn submit(&mut self, now: Tick, unit: Bytes, out: &mut Step) -> Result<(), NoMemory>
        requires clock { self.old.clock ≤ now }
        requires low { now ≤ 4000000000 }
        requires taken { refusal self.old (length unit) ≡ None }
        ensures step { OnOk result (Sends (submitted (at now self.old) unit) self.new out.old out.new) }
        ensures kept { Keeps self.old self.new now }
    {
        self.set_clock(now);
        self.queue(unit)?;
        self.new_sends(out)
    }

    /// An expedited unit of the user that `urgent_refusal` takes joins its queue, and what may go goes.
    pub fn submit_expedited(
        &mut self,
        now: Tick,
        unit: Bytes,
        out: &mut Step,
    ) -> Result<(), NoMemory>
        requires clock { self.old.clock ≤ now }
        requires low { now ≤ 4000000000 }
        requires taken { urgent_refusal self.old (length unit) ≡ None }
        ensures step { OnOk result (Sends (urged (at now self.old) unit) self.new out.old out.new) }
        ensures kept { Keeps self.old self.new now }
    {
        self.set_clock(now);
        self.queue_urgent(unit)?;
        self.new_sends(out)
    }

    /// An AK with this wire number came. True exactly where it is newer than the one that was taken last;
    /// else nothing changes but the clock.
    pub fn on_ak(
        &mut self,
        now: Tick,
        wire: u32,
        credit: u16,
        subsequence: u16,
        out: &mut Step,
    ) -> Result<bool, NoMemory>
        requires clock { self.old.clock ≤ now }
        requires low { now ≤ 4000000000 }
        requires open { self.old.is_open ≡ true }
        requires wire { wire < 4 * block_of self.old.rules.format }
        requires credit { credit ≤ most_granted self.old.rules.format }
        ensures newer { IfOk result (λ newer. newer ≡ is_taken self.old (near (block_of self.old.rules.format) self.old.numbers.base wire) credit subsequence) }
        ensures step { OnOk result (Sends (acknowledged (at now self.old) wire credit subsequence) self.new out.old out.new) }
        ensures kept { Keeps self.old self.new now }
    {
        self.set_clock(now);
        let n = self.near(wire);
        if !self.is_newer(n, credit, subsequence) {
            return Ok(false);
        }
        self.advance(n, credit, subsequence);
        self.new_sends(out)?;
        self.know_due();
        Ok(true)
    }

    /// An EA with this wire number came. True exactly where its ED is outstanding; else nothing changes but
    /// the clock.
    pub fn on_ea(&mut self, now: Tick, wire: u32, out: &mut Step) -> Result<bool, NoMemory>
        requires clock { self.old.clock ≤ now }
        requires low { now ≤ 4000000000 }
        requires open { self.old.is_open ≡ true }
        requires wire { wire < 4 * block_of self.old.rules.format }
        ensures outstanding { IfOk result (λ is. is ≡ is_outstanding self.old wire) }
        ensures step { OnOk result (Sends (urgent_done (at now self.old) wire) self.new out.old out.new) }
        ensures kept { Keeps self.old self.new now }
    {
        self.set_clock(now);
        if !self.is_outstanding(wire) {
            return Ok(false);
        }
        let _ = self.urgent.units.pop_front();
        self.urgent.out = None;
        self.new_sends(out)?;
        Ok(true)
    }

    /// A tick of the clock: where no TPDU was sent as often as it may be in vain, those whose time has passed
    /// are sent again, and then what may go goes.
    pub fn tick(&mut self, now: Tick, out: &mut Step) -> Result<Life, NoMemory>
        requires clock { self.old.clock ≤ now }
        requires low { now ≤ 4000000000 }
        requires open { self.old.is_open ≡ true }
        ensures life { IfOk result (λ life. life ≡ life_of (at now self.old)) }
        ensures step { OnOk result (Sends (ticked (at now self.old)) self.new out.old out.new) }
        ensures kept { Keeps self.old self.new now }
    {
        self.set_clock(now);
        if self.is_exhausted() {
            return Ok(Life::Exhausted);
        }
        self.resend(out)?;
        self.resend_urgent(out)?;
        self.new_sends(out)?;
        self.know_due();
        Ok(Life::Goes)
    }

    /// The least tick at which `tick` changes more than the clock, sends something or answers Exhausted.
    pub fn next_due(&self) -> Option<Tick>
        ensures value { result ≡ due_of self.now }
        ensures least { (now : ℕ) → self.now.is_open ≡ true → Acts (at now self.now) ↔ IsDue (due_of self.now) now }
    {
        if !self.is_open {
            return None;
        }
        let opens = sooner(self.urgent_opens(), self.normal_opens());
        sooner(self.window_due(), sooner(self.urgent_due(), opens))
    }

    /// The tick is now.
    fn set_clock(&mut self, now: Tick)
        requires clock { self.old.clock ≤ now }
        requires low { now ≤ 4000000000 }
        ensures { self.new ≡ at now self.old }
    {
        self.clock = now;
    }

    /// The connection is open.
    fn set_open(&mut self)
        ensures { self.new ≡ record self.old { is_open = true } }
    {
        self.is_open = true;
    }

    /// A unit joins its queue.
    #[tactic(auto, using(crate::proofs::Queues::queued, crate::proofs::Totals::queued_total, crate::proofs::Totals::counts_low))]
    fn queue(&mut self, unit: Bytes) -> Result<(), NoMemory>
        requires { refusal self.old (length unit) ≡ None }
        ensures ok { OnOk result (self.new ≡ record self.old { queue = record self.old.queue { units = self.old.queue.units ++ unit ∷ [] } }) }
        ensures kept { Keeps self.old self.new self.old.clock }
    {
        let octets = unit.as_slice().len() as u64;
        let pieces = count_in(unit.as_slice(), self.rules.piece);
        self.units.push_back(unit)?;
        self.end += pieces;
        self.waiting += octets;
        Ok(())
    }

    /// An expedited unit joins its queue.
    #[tactic(auto, using(crate::proofs::Queues::queued_urgent))]
    fn queue_urgent(&mut self, unit: Bytes) -> Result<(), NoMemory>
        requires { urgent_refusal self.old (length unit) ≡ None }
        ensures ok { OnOk result (self.new ≡ record self.old { urgent = record self.old.urgent { units = self.old.urgent.units ++ unit ∷ [] } }) }
        ensures kept { Keeps self.old self.new self.old.clock }
    {
        self.urgent.units.push_back(unit)?;
        Ok(())
    }

    /// Why a unit of so many octets is not taken. None where it is: neither empty nor above 16,384 octets, fewer than 64 units wait, and
    /// their octets do not pass 131,072 with it.
    pub fn refusal(&self, octets: usize) -> Option<SubmitRefusal>
        ensures { result ≡ refusal self.now octets }
    {
        if octets == 0 {
            return Some(SubmitRefusal::EmptyUnit);
        }
        if MOST_OCTETS < octets {
            return Some(SubmitRefusal::TooLong);
        }
        if MOST_UNITS <= self.units.len() || MOST_WAITING < self.waiting + octets as u64 {
            return Some(SubmitRefusal::QueueFull);
        }
        None
    }

    /// Why an expedited unit of so many octets is not taken. None where it is: neither empty nor above 16 octets, and fewer than 64 wait.
    pub fn urgent_refusal(&self, octets: usize) -> Option<SubmitRefusal>
        ensures { result ≡ urgent_refusal self.now octets }
    {
        if octets == 0 {
            return Some(SubmitRefusal::EmptyUnit);
        }
        if MOST_URGENT_OCTETS < octets {
            return Some(SubmitRefusal::TooLong);
        }
        if MOST_UNITS <= self.urgent.units.len() {
            return Some(SubmitRefusal::QueueFull);
        }
        None
    }
}
