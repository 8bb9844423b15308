//! When a sending half is to act again (X.224, retransmission on time-out; sequence numbering).

ghost use Rattle.std.specs.Prelude.{◌≡◌, ◌+◌, nat_le};
ghost use Rattle.std.specs.List.{All};
ghost use Rattle.tp4_sending.specs.Kept.{IsTried};
ghost use Rattle.tp4_sending.specs.SendingHalf.{urgent_opens, normal_opens, urgent_last, tried_at};
ghost use Rattle.tp4_sending.specs.Pieces.{sooner, least_due};

use crate::sending::Sending;
use crate::tries::Tries;
use osi_base::Tick;

impl Sending {
    /// The first tick at which a DT of the window is to be sent again.
    pub(crate) fn window_due(&self) -> Option<Tick>
        ensures { result ≡ least_due self.now.rules.t1 self.now.window }
    {
        match self.due {
            Some(due) => due,
            None => self.least_due(),
        }
    }

    /// That tick is known from here on, until a DT is acknowledged or sent again.
    pub(crate) fn know_due(&mut self)
        ensures { self.new ≡ self.old }
    {
        self.due = Some(self.window_due());
    }

    /// That tick, by a look at each DT.
    #[tactic(auto, using(crate::proofs::Leasts::least_parts, crate::proofs::Leasts::tried_front))]
    fn least_due(&self) -> Option<Tick>
        ensures { result ≡ least_due self.now.rules.t1 self.now.window }
    {
        let (front, back) = self.window.as_slices();
        sooner(self.first_due(front), self.first_due(back))
    }

    /// The first tick at which one of these DTs is to be sent again.
    #[tactic(auto, using(crate::proofs::Leasts::least_on, crate::proofs::Leasts::least_all))]
    fn first_due(&self, window: &[Tries]) -> Option<Tick>
        requires { All (IsTried self.now.clock) window.now }
        ensures { result ≡ least_due self.now.rules.t1 window.now }
    {
        let (first, others) = window.split_first()?;
        let mut least = first.last;
        for tries in others {
            least = least.min(tries.last);
        }
        Some(least + self.rules.t1)
    }

    /// The tick at which the ED is to be sent again.
    pub(crate) fn urgent_due(&self) -> Option<Tick>
        ensures { result ≡ urgent_last self.now self.now.urgent.out }
    {
        let tries = self.urgent.out?;
        Some(tries.last + self.rules.t1)
    }

    /// The tick at which the next ED goes or is told as held, where nothing else is in the way.
    pub(crate) fn urgent_opens(&self) -> Option<Tick>
        ensures { result ≡ urgent_opens self.now }
    {
        if self.urgent.out.is_some() || self.urgent.units.is_empty() {
            return None;
        }
        let n = self.urgent.next;
        let opens = self
            .urgent
            .blocks
            .opens_at(self.rules.format, self.rules.limit, n);
        Some(tried_at(self.urgent.noted == Some(n), opens))
    }

    /// The tick at which the next DT goes or is told as held, where nothing else is in the way.
    pub(crate) fn normal_opens(&self) -> Option<Tick>
        ensures { result ≡ normal_opens self.now }
    {
        if !self.urgent.units.is_empty() || !self.has_next() {
            return None;
        }
        let n = self.next;
        let opens = self.blocks.opens_at(self.rules.format, self.rules.limit, n);
        Some(tried_at(self.noted == Some(n), opens))
    }
}

/// When a number that is next goes or is told as held: at once; once it was told, when the number rule lets it go.
fn tried_at(told: bool, opens: Option<Tick>) -> Tick
    ensures { result ≡ tried_at told opens }
{
    if told { opens.unwrap_or(0) } else { 0 }
}

/// The earlier of two ticks that may be there.
pub fn sooner(one: Option<Tick>, other: Option<Tick>) -> Option<Tick>
    ensures { result ≡ sooner one other }
{
    match (one, other) {
        (Some(one), Some(other)) => Some(one.min(other)),
        (Some(one), None) => Some(one),
        (None, other) => other,
    }
}

/// Whether so many ticks passed since then.
pub fn is_past(since: Tick, ticks: u32, now: Tick) -> bool
    ensures { result ≡ nat_le (since + ticks) now }
{
    u64::from(since) + u64::from(ticks) <= u64::from(now)
}
