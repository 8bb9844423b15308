//! The expedited units of a sending half, of which one is outstanding at most (X.224, expedited data).

ghost use Rattle.std.specs.Prelude.{◌≡◌, [], None, ◌<◌, ◌++◌, OnOk, length};
ghost use Rattle.tp4_number.specs.Sender.{no_blocks};
ghost use Rattle.tp4_sending.specs.SendingHalf.{Sends, Keeps, one_urgent, held_urgent, eds};

use crate::sending::Sending;
use crate::tpdus::ed_of;
use crate::tries::Tries;
use osi_base::{Bytes, NoMemory};
use std::alloc::Global;
use std::collections::VecDeque;
use tp4_flow::Step;
use tp4_number::Blocks;
use tpdu::HeldKind;

/// The next ED, what was sent of EDs, and the units; the first is outstanding where `out` is there.
#[derive(Drop)]
pub(crate) struct UrgentSending {
    pub(crate) next: u64,
    pub(crate) blocks: Blocks,
    pub(crate) units: VecDeque<Bytes>,
    pub(crate) out: Option<Tries>,
    /// The last number that was told as held.
    pub(crate) noted: Option<u64>,
}

impl UrgentSending {
    /// Nothing was submitted.
    pub(crate) fn none(alloc: Global) -> UrgentSending
        ensures next { result.next ≡ 0 }
        ensures blocks { result.blocks ≡ no_blocks }
        ensures units { result.units.items ≡ [] }
        ensures out { result.out ≡ None }
        ensures noted { result.noted ≡ None }
    {
        UrgentSending {
            next: 0,
            blocks: Blocks::none(),
            units: VecDeque::new(alloc),
            out: None,
            noted: None,
        }
    }
}

impl Sending {
    /// The next ED goes, where none is outstanding and the number rule allows it.
    #[tactic(auto, using(crate::proofs::Counts::sent_first_urgent))]
    pub(crate) fn send_urgent(&mut self, out: &mut Step) -> Result<(), NoMemory>
        ensures step { OnOk result (Sends (one_urgent self.old) self.new out.old out.new) }
        ensures kept { Keeps self.old self.new self.old.clock }
    {
        if self.urgent.out.is_some() || self.urgent.units.is_empty() {
            return Ok(());
        }
        let (format, limit) = (self.rules.format, self.rules.limit);
        let n = self.urgent.next;
        if !self.urgent.blocks.may_send(format, limit, n, self.clock) {
            return self.hold_urgent(out);
        }
        self.send_ed(n, out)?;
        self.urgent.blocks.mark(format, n, self.clock);
        self.urgent.next = n + 1;
        self.urgent.out = Some(Tries::once(self.clock));
        Ok(())
    }

    /// The ED of a number goes, with the first unit that waits.
    pub(crate) fn send_ed(&self, n: u64, out: &mut Step) -> Result<(), NoMemory>
        requires { 0 < length self.now.urgent.units }
        ensures { OnOk result (out.new ≡ record out.old { tpdus = out.old.tpdus ++ eds self.now n self.now.urgent.units }) }
    {
        let Some(unit) = self.urgent.units.front() else {
            unreachable!();
        };
        out.send(ed_of(self.alloc, &self.rules, n, unit.as_slice())?)
    }

    /// The number of the next ED is told as held, once.
    fn hold_urgent(&mut self, out: &mut Step) -> Result<(), NoMemory>
        ensures step { OnOk result (Sends (held_urgent self.old) self.new out.old out.new) }
        ensures kept { Keeps self.old self.new self.old.clock }
    {
        let n = self.urgent.next;
        if self.urgent.noted != Some(n) {
            out.event(self.held(HeldKind::Ed, n))?;
            self.urgent.noted = Some(n);
        }
        Ok(())
    }
}
