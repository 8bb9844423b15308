//! The silence of an entity that began again, until its old references are free (X.224, class 4: frozen references).

ghost use Rattle.std.specs.Prelude.{◌≡◌, ◌≤◌};
ghost use Rattle.tp4_entity.specs.Dues.{AreLater};
ghost use Rattle.tp4_entity.specs.Silence.{is_silent};
ghost use Rattle.tp4_entity.specs.Step.{restarted};

use crate::entity::TpEntity;
use crate::references::{clear_dues, clear_places};
use osi_base::Tick;
use tp4_conn::Looks;

impl<K: Looks> TpEntity<K> {
    /// Whether the entity began again at most F ticks ago: it takes no TPDU then, and begins no connection.
    pub fn is_silent(&self, now: Tick) -> bool
        ensures { result ≡ is_silent now self.now }
    {
        match self.restarted {
            Some(when) => { u64::from(now) <= u64::from(when) + u64::from(self.timers.frozen()) }
            None => false,
        }
    }

    /// The entity begins again: its ends are gone, and nothing is told or sent. Its selectors stay. It is silent for F ticks.
    pub fn restart(&mut self, now: Tick)
        requires clock { self.old.clock ≤ now }
        ensures value { self.new ≡ restarted now self.old }
        ensures later { AreLater now self.new.ends }
    {
        let count = self.ends.len() as u32;
        clear_places(&mut self.ends);
        clear_dues(&mut self.due, count);
        self.clock = now;
        self.restarted = Some(now);
    }
}
