//! The sendings of a TPDU that is sent again (X.224, retransmission on time-out).

ghost use Rattle.std.specs.Prelude.{◌≡◌, ◌<◌, length, slice_set};
ghost use Rattle.std.specs.List.{list_any};
ghost use Rattle.circular_buffer.specs.Buffer.{buffer};
ghost use Rattle.tp4_sending.specs.Pieces.{again, is_due, is_spent, once};

use crate::due::is_past;
use circular_buffer::HeapCircularBuffer;
use osi_base::Tick;

/// When the last sending was, and how many there were.
#[derive(Clone, Copy, Debug)]
pub struct Tries {
    pub last: Tick,
    pub count: u32,
}

impl Tries {
    /// Sent for the first time.
    pub fn once(now: Tick) -> Tries
        ensures { result ≡ once now }
    {
        Tries {
            last: now,
            count: 1,
        }
    }

    /// Sent once more.
    pub fn again(self, now: Tick) -> Tries
        requires { self.count < 4294967295 }
        ensures { result ≡ again now self }
    {
        Tries {
            last: now,
            count: self.count + 1,
        }
    }

    /// Whether it is time to send it again.
    pub fn is_due(self, t1: u32, now: Tick) -> bool
        ensures { result ≡ is_due t1 now self }
    {
        is_past(self.last, t1, now)
    }

    /// Whether it was sent as often as it may be, and was not acknowledged in time.
    pub fn is_spent(self, t1: u32, most: u32, now: Tick) -> bool
        ensures { result ≡ is_spent t1 most now self }
    {
        self.is_due(t1, now) && most <= self.count
    }
}

/// Whether one of them was sent as often as it may be, and was not acknowledged in time.
pub(crate) fn is_any_spent(
    window: &HeapCircularBuffer<Tries>,
    t1: u32,
    most: u32,
    now: Tick,
) -> bool
    ensures { result ≡ list_any (is_spent t1 most now) window.now.items }
{
    window.iter().any(|tries| tries.is_spent(t1, most, now))
}

/// Writes to a place of a window.
pub(crate) fn put(window: &mut HeapCircularBuffer<Tries>, at: usize, tries: Tries)
    requires { at < length window.old.items }
    ensures { window.new ≡ buffer (slice_set window.old.items at tries) window.old.capacity }
{
    let Some(place) = window.get_mut(at) else {
        unreachable!();
    };
    *place = tries;
}
