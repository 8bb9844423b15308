//! What a sending half sends for the first time: an ED, then DTs (X.224, class 4: flow control, expedited
//! data).

ghost use Rattle.std.specs.Prelude.{◌≡◌, ◌<◌, ◌≤◌, ◌-◌, ◌++◌, true, OnOk, Some, length, option_map};
ghost use Rattle.tp4_sending.specs.SendingHalf.{Sends, Keeps, new_sends, normals_where, all_normals, one_normal, held_normal, rule_allows, holds, has_next, dts_of};
ghost use Rattle.tp4_sending.specs.Pieces.{cut_at, end_of, sooner};
ghost use Rattle.tp4_sending.specs.steps.Lent.{piece_of};

use crate::cutting::{PieceRef, piece_at};
use crate::due::sooner;
use crate::sending::Sending;
use crate::tpdus::dt_of;
use crate::tries::Tries;
use circular_buffer::HeapCircularBuffer;
use osi_base::{NoMemory, Tick};
use tp4_flow::{EndEvent, Step, What};
use tpdu::{EndTold, HeldKind};

impl Sending {
    /// All that may go now goes: an ED, then DTs.
    #[tactic(auto, using(crate::proofs::Thens::then_done))]
    pub(crate) fn new_sends(&mut self, out: &mut Step) -> Result<(), NoMemory>
        ensures step { OnOk result (Sends (new_sends self.old) self.new out.old out.new) }
        ensures kept { Keeps self.old self.new self.old.clock }
    {
        if self.is_open {
            self.send_urgent(out)?;
            self.send_normals(out)?;
        }
        Ok(())
    }

    /// The next DTs go, as many as may, where no ED is queued or outstanding.
    fn send_normals(&mut self, out: &mut Step) -> Result<(), NoMemory>
        ensures step { OnOk result (Sends (normals_where self.old) self.new out.old out.new) }
        ensures kept { Keeps self.old self.new self.old.clock }
    {
        if self.urgent.units.is_empty() {
            self.send_pieces(out)?;
        }
        Ok(())
    }

    /// The next DTs go, as many as may.
    fn send_pieces(&mut self, out: &mut Step) -> Result<(), NoMemory>
        ensures step { OnOk result (Sends (all_normals self.old) self.new out.old out.new) }
        ensures kept { Keeps self.old self.new self.old.clock }
    {
        while self.has_next() {
            if !self.may_send(self.clock) {
                return self.hold_normal(out);
            }
            self.send_next(out)?;
        }
        Ok(())
    }

    /// Whether there is a next piece, within the credit.
    pub(crate) fn has_next(&self) -> bool
        ensures { result ≡ has_next self.now }
    {
        self.next < self.base + u64::from(self.credit) && self.next < self.end
    }

    /// The piece of a number.
    fn piece_of(&self, n: u64) -> PieceRef<'_>
        requires from { self.now.queue.first ≤ n }
        requires to { n < end_of self.now.rules.piece self.now.queue }
        ensures { piece_of (Some result) ≡ cut_at self.now.rules.piece self.now.queue.units (n - self.now.queue.first) }
    {
        piece_at(&self.units, self.rules.piece, n - self.first)
    }

    /// The DT of a number goes.
    pub(crate) fn send_dt(&self, n: u64, out: &mut Step) -> Result<(), NoMemory>
        requires from { self.now.queue.first ≤ n }
        requires to { n < end_of self.now.rules.piece self.now.queue }
        ensures { OnOk result (out.new ≡ record out.old { tpdus = out.old.tpdus ++ dts_of self.now n }) }
    {
        let piece = self.piece_of(n);
        out.send(dt_of(self.alloc, &self.rules, n, piece.last, piece.octets)?)
    }

    /// The next number goes, for the first time.
    fn send_next(&mut self, out: &mut Step) -> Result<(), NoMemory>
        requires more { has_next self.old ≡ true }
        requires rule { rule_allows self.old self.old.numbers.blocks self.old.numbers.next ≡ true }
        ensures step { OnOk result (Sends (one_normal self.old) self.new out.old out.new) }
        ensures kept { Keeps self.old self.new self.old.clock }
    {
        make_room(&mut self.window)?;
        self.send_dt(self.next, out)?;
        let _ = self.window.push_back(Tries::once(self.clock));
        self.due = with_sent(self.due, self.clock + self.rules.t1);
        self.blocks.mark(self.rules.format, self.next, self.clock);
        self.next += 1;
        Ok(())
    }

    /// The number of the next DT is told as held, once.
    fn hold_normal(&mut self, out: &mut Step) -> Result<(), NoMemory>
        ensures step { OnOk result (Sends (held_normal self.old) self.new out.old out.new) }
        ensures kept { Keeps self.old self.new self.old.clock }
    {
        let n = self.next;
        if self.noted != Some(n) {
            out.event(self.held(HeldKind::Dt, n))?;
            self.noted = Some(n);
        }
        Ok(())
    }

    /// The event of a number that is held.
    pub(crate) fn held(&self, kind: HeldKind, n: u64) -> EndEvent
        ensures { result ≡ holds self.now kind n }
    {
        EndEvent {
            reference: self.rules.own,
            what: What::End(EndTold::Held(kind, n)),
        }
    }
}

/// The first tick at which one is to be sent again, where it is known, with one more that is at that tick.
fn with_sent(due: Option<Option<Tick>>, tick: Tick) -> Option<Option<Tick>>
    ensures { result ≡ option_map (λ first. sooner first (Some tick)) due }
{
    Some(sooner(due?, Some(tick)))
}

/// Makes room for one more in a ring: where it is full, its room is doubled.
fn make_room(window: &mut HeapCircularBuffer<Tries>) -> Result<(), NoMemory>
    requires { length window.old.items ≤ 65535 }
    ensures items { window.new.items ≡ window.old.items }
    ensures room { OnOk result (length window.new.items < window.new.capacity) }
{
    let capacity = window.capacity();
    if window.len() == capacity {
        window.resize(2 * capacity + 16)?;
    }
    Ok(())
}
