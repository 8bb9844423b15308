//! What a sending half sends again, and when it gives up (X.224, retransmission on time-out).

ghost use Rattle.std.specs.Prelude.{◌≡◌, ◌<◌, ◌||◌, false, Some, OnOk, length, get_or};
ghost use Rattle.tp4_sending.specs.SendingHalf.{Sends, Keeps, resends, resends_urgent, retried_urgent, is_window_spent, is_urgent_spent};
ghost use Rattle.tp4_sending.specs.steps.Again.{resend_at, retried};
ghost use Rattle.tp4_sending.specs.Kept.{IsTried};
ghost use Rattle.tp4_sending.specs.Pieces.{is_spent, once};

use crate::sending::Sending;
use crate::tries::{Tries, is_any_spent, put};
use osi_base::NoMemory;
use tp4_flow::Step;

impl Sending {
    /// Each DT whose time has passed is sent again, by number.
    pub(crate) fn resend(&mut self, out: &mut Step) -> Result<(), NoMemory>
        requires { is_window_spent self.old ≡ false }
        ensures step { OnOk result (Sends (resends self.old) self.new out.old out.new) }
        ensures kept { Keeps self.old self.new self.old.clock }
    {
        for at in 0..self.window.len() {
            self.resend_at(at, out)?;
        }
        Ok(())
    }

    /// The sendings of the DT at that place of the window.
    pub(crate) fn tries_at(&self, at: usize) -> Tries
        requires { at < length self.now.window }
        ensures value { result ≡ get_or self.now.window at (once 0) }
        ensures tried { IsTried self.now.clock result }
    {
        let Some(tries) = self.window.get(at) else {
            unreachable!();
        };
        *tries
    }

    /// The DT at that place of the window is sent again, where its time has passed.
    #[tactic(auto, using(crate::proofs::Resendings::few_left))]
    fn resend_at(&mut self, at: usize, out: &mut Step) -> Result<(), NoMemory>
        requires within { at < length self.old.window }
        requires more { is_spent self.old.rules.t1 self.old.rules.sendings self.old.clock (get_or self.old.window at (once 0)) ≡ false }
        ensures step { OnOk result (Sends (resend_at self.old at) self.new out.old out.new) }
        ensures kept { Keeps self.old self.new self.old.clock }
    {
        let tries = self.tries_at(at);
        if tries.is_due(self.rules.t1, self.clock) {
            self.send_dt(self.base + at as u64, out)?;
            self.retry(at, tries);
        }
        Ok(())
    }

    /// The DT at that place of the window was sent once more.
    #[tactic(auto, using(crate::proofs::Counts::retried))]
    fn retry(&mut self, at: usize, tries: Tries)
        requires within { at < length self.old.window }
        requires few { tries.count < 16 }
        ensures { self.new ≡ retried self.old at tries }
    {
        put(&mut self.window, at, tries.again(self.clock));
        self.due = None;
        let n = self.base + at as u64;
        self.blocks.mark(self.rules.format, n, self.clock);
    }

    /// Then the ED that is outstanding.
    #[tactic(auto, using(crate::proofs::Resendings::few_left))]
    pub(crate) fn resend_urgent(&mut self, out: &mut Step) -> Result<(), NoMemory>
        requires { is_urgent_spent self.old self.old.urgent.out ≡ false }
        ensures step { OnOk result (Sends (resends_urgent self.old) self.new out.old out.new) }
        ensures kept { Keeps self.old self.new self.old.clock }
    {
        let Some(tries) = self.urgent.out else {
            return Ok(());
        };
        if tries.is_due(self.rules.t1, self.clock) {
            self.send_ed(self.urgent.next - 1, out)?;
            self.retry_urgent(tries);
        }
        Ok(())
    }

    /// The ED that is outstanding was sent once more.
    #[tactic(auto, using(crate::proofs::Counts::retried_urgent))]
    fn retry_urgent(&mut self, tries: Tries)
        requires out { self.old.urgent.out ≡ Some tries }
        requires few { tries.count < 16 }
        ensures { self.new ≡ retried_urgent self.old tries }
    {
        self.urgent
            .blocks
            .mark(self.rules.format, self.urgent.next - 1, self.clock);
        self.urgent.out = Some(tries.again(self.clock));
    }

    /// Whether some TPDU was sent as often as it may be, and was not acknowledged in time.
    pub(crate) fn is_exhausted(&self) -> bool
        ensures { result ≡ (is_window_spent self.now || is_urgent_spent self.now self.now.urgent.out) }
    {
        let most = self.rules.sendings;
        is_any_spent(&self.window, self.rules.t1, most, self.clock)
            || match self.urgent.out {
                Some(tries) => tries.is_spent(self.rules.t1, most, self.clock),
                None => false,
            }
    }
}
