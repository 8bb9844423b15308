//! How a `settle` ends: the least pair that was not taken is delivered, again and again.

ghost use Rattle.std.specs.Prelude.{IfOk};
ghost use Rattle.cltp.specs.Run.{Tells};
ghost use Rattle.cltp.specs.steps.TakingUp.{SettlesSo};

use crate::world::ClWorld;
use nsap::Nsap;
use osi_base::{Carrier, NoMemory};
use script_journal::{Event, Settled};

/// The most deliveries of one `settle`.
const MOST_DELIVERIES: u32 = 65_536;

impl<C: Carrier<Addr = Nsap> + Drop> ClWorld<C> {
    /// The deliveries of a `settle`, and how they end.
    pub(crate) fn deliver_all(&mut self, events: &mut Vec<Event>) -> Result<Settled, NoMemory>
        ensures { IfOk result (λ answer. Tells events.old.items events.new.items (λ made. SettlesSo C.link C.steps self.old made answer self.new)) }
    {
        for count in 0..MOST_DELIVERIES {
            let Some((number, system)) = self.carrier.fresh() else {
                return Ok(Settled::Settled(count));
            };
            self.deliver(number, system, events)?;
        }
        let Some(_) = self.carrier.fresh() else {
            return Ok(Settled::Settled(MOST_DELIVERIES));
        };
        Ok(Settled::Stopped(MOST_DELIVERIES))
    }
}
