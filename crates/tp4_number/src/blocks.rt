//! When the blocks of numbers were last sent (X.224, class 4: sequencing).

ghost use Rattle.std.specs.Prelude.{◌≡◌, ◌<◌, ◌≤◌, ◌+◌, ◌*◌, ◌^◌, true};
ghost use Rattle.tp4_number.specs.Formats.{block_of};
ghost use Rattle.tp4_number.specs.Sender.{no_blocks, may_send, marked, opens_at};

use crate::number::block;
use osi_base::Tick;
use tpdu::Format;

/// What was sent of some numbers, for the first time or again.
#[derive(Clone, Copy)]
pub struct Blocks {
    /// One past the greatest number that was sent.
    pub high: u64,
    /// The first number of the newest block.
    pub first: u64,
    /// The last sending in that block.
    pub newest: Tick,
    /// The last sending in the block before it.
    pub second: Tick,
    /// The last sending in the block before that.
    pub third: Tick,
}

impl Blocks {
    /// Nothing was sent.
    pub fn none() -> Blocks
        ensures { result ≡ no_blocks }
    {
        Blocks {
            high: 0,
            first: 0,
            newest: 0,
            second: 0,
            third: 0,
        }
    }

    /// Whether the number rule lets a number go, where a number is in use for `limit` ticks.
    pub fn may_send(self, format: Format, limit: u32, n: u64, now: Tick) -> bool
        requires limit { limit ≤ 4335 }
        requires low { self.first < 2 ^ 63 }
        ensures { result ≡ may_send (block_of format) limit self n now }
    {
        n < self.first + u64::from(block(format))
            || self.first <= u64::from(block(format))
            || u64::from(self.third) + u64::from(limit) < u64::from(now)
    }

    /// The first tick at which the number rule lets a number go, or None where it does at any tick.
    pub fn opens_at(self, format: Format, limit: u32, n: u64) -> Option<Tick>
        requires limit { limit ≤ 4335 }
        requires low { self.first < 2 ^ 63 }
        requires past { self.third ≤ 4000000000 }
        ensures { result ≡ opens_at (block_of format) limit self n }
    {
        let size = u64::from(block(format));
        if n < self.first + size || self.first <= size {
            None
        } else {
            Some(self.third + limit + 1)
        }
    }

    /// A number is sent.
    pub fn mark(&mut self, format: Format, n: u64, now: Tick)
        requires low { n < 2 ^ 63 }
        requires first { self.old.first < 2 ^ 63 }
        ensures { self.new ≡ marked (block_of format) self.old n now }
    {
        self.high = self.high.max(n + 1);
        if n < self.first {
            self.second = now;
        } else if n < self.first + u64::from(block(format)) {
            self.newest = now;
        } else {
            self.first += u64::from(block(format));
            self.third = self.second;
            self.second = self.newest;
            self.newest = now;
        }
    }
}
