//! What AKs and EAs take from a sending half (X.224, class 4: flow control; retention until acknowledgement;
//! expedited data).

ghost use Rattle.std.specs.Prelude.{◌≡◌, ◌<◌, ◌≤◌, ◌*◌, true};
ghost use Rattle.tp4_number.specs.Formats.{block_of};
ghost use Rattle.tp4_number.specs.Number.{near};
ghost use Rattle.tp4_sending.specs.SendingHalf.{acknowledged_to, is_taken, is_outstanding};
ghost use Rattle.tp4_sending.specs.Kept.{most_granted};

use crate::cutting::free;
use crate::sending::Sending;
use tp4_number::{block, distance};

impl Sending {
    /// The number of an AK: the least one from base on with this wire number.
    #[tactic(auto, unfolding(tp4_number::specs::Number::wire))]
    pub(crate) fn near(&self, wire: u32) -> u64
        requires { wire < 4 * block_of self.now.rules.format }
        ensures { result ≡ near (block_of self.now.rules.format) self.now.numbers.base wire }
    {
        let turn = 4 * u64::from(block(self.rules.format));
        let base = (self.base % turn) as u32;
        self.base + u64::from(distance(self.rules.format, base, wire))
    }

    /// Whether an AK of that number takes the place of the one that was taken last.
    pub(crate) fn is_newer(&self, n: u64, credit: u16, subsequence: u16) -> bool
        ensures { result ≡ is_taken self.now n credit subsequence }
    {
        let is_greater = self.subsequence < subsequence
            || self.subsequence == subsequence && self.credit < credit;
        n <= self.blocks.high && (self.base < n || n == self.base && is_greater)
    }

    /// The window begins at that number, with that credit.
    pub(crate) fn advance(&mut self, n: u64, credit: u16, subsequence: u16)
        requires taken { is_taken self.old n credit subsequence ≡ true }
        requires credit { credit ≤ most_granted self.old.rules.format }
        ensures { self.new ≡ acknowledged_to self.old n credit subsequence }
    {
        let next = self.next.min(n + u64::from(credit)).max(n);
        let kept = (self.next - self.base).saturating_sub(n - self.base);
        self.window.truncate_front(kept as usize);
        self.window.truncate_back((next - n) as usize);
        self.due = None;
        self.base = n;
        self.credit = credit;
        self.subsequence = subsequence;
        self.next = next;
        free(
            &mut self.units,
            &mut self.first,
            &mut self.waiting,
            self.rules.piece,
            n,
        );
    }

    /// Whether the ED of that wire number is outstanding.
    #[tactic(auto, unfolding(tp4_number::specs::Number::wire))]
    pub(crate) fn is_outstanding(&self, wire: u32) -> bool
        ensures { result ≡ is_outstanding self.now wire }
    {
        let turn = 4 * u64::from(block(self.rules.format));
        self.urgent.out.is_some() && (self.urgent.next - 1) % turn == u64::from(wire)
    }
}
