//! When the next data unit identifier may be given (X.233, data unit identifier).

ghost use Rattle.std.specs.Prelude.{◌≡◌};
ghost use Rattle.clnp_system.specs.Identifiers.{begins_half, is_recent, is_spent, last_of};
ghost use Rattle.clnp_system.specs.Sending.{numbered_if};
ghost use Rattle.clnp_entity.specs.Kept.{IsKept};

use crate::entity::NetEntity;
use osi_base::Tick;

/// The first data unit identifier of the upper half.
const UPPER_HALF: u16 = 32_768;

impl NetEntity {
    /// Whether the next identifier may not be given yet: it begins a half of which one was given within the lifetime.
    pub(crate) fn is_spent(&self, now: Tick) -> bool
        ensures { result ≡ is_spent self.now now }
    {
        begins_half(self.next_id) && is_recent(self.last(), now, self.setup.life)
    }

    /// When an identifier of the half of the next one was given last.
    fn last(&self) -> Option<Tick>
        ensures { result ≡ last_of self.now }
    {
        if self.next_id < UPPER_HALF {
            self.low
        } else {
            self.high
        }
    }

    /// The next identifier is given to a unit that may be cut.
    pub(crate) fn number_if(&mut self, cut: bool, now: Tick)
        ensures after { self.new ≡ numbered_if cut self.old now }
        ensures kept { IsKept self.new }
    {
        let lower = self.next_id < UPPER_HALF;
        if !cut {
            return;
        }
        if lower {
            self.low = Some(now);
        } else {
            self.high = Some(now);
        }
        self.next_id = self.next_id.wrapping_add(1);
    }
}

/// Whether the identifier is the first of a half.
fn begins_half(id: u16) -> bool
    ensures { result ≡ begins_half id }
{
    id == 0 || id == UPPER_HALF
}

/// Whether that was at most so many ticks ago.
fn is_recent(last: Option<Tick>, now: Tick, life: u8) -> bool
    ensures { result ≡ is_recent last now life }
{
    match last {
        Some(tick) => u64::from(now) <= u64::from(tick) + u64::from(life),
        None => false,
    }
}
