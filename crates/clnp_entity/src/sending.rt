//! A unit that is sent (X.233, PDU composition function, route PDU function, data unit identifier).

ghost use Rattle.std.specs.Prelude.{◌≡◌, ◌≤◌, true, Ok, IfOk, IfSome, OnOk, length};
ghost use Rattle.nsap.specs.Address.{is_same_system};
ghost use Rattle.clnp_system.specs.Node.{sent_of};
ghost use Rattle.clnp_system.specs.Sending.{Sends, first_hop, way};
ghost use Rattle.clnp_system.specs.Tables.{rows_tables};
ghost use Rattle.clnp_entity.specs.Kept.{IsKept, IsNear};
ghost use Rattle.clnp_entity.specs.steps.Starting.{starting};

use crate::entity::NetEntity;
use clnp_system::NetSent;
use nsap::{Hop, Nsap};
use osi_base::{DropCause, NoMemory, Tick, Unit, Wish};

/// The most octets of a unit.
const MOST_OCTETS: usize = 16_384;

impl NetEntity {
    /// Sends a unit of this end system.
    ///
    /// The first that applies: TooLong exactly above 16,384 octets; NoRoute exactly where no hop leads to its destination, or to the
    /// first title of its source route; TooLong exactly where it may not be cut and does not fit the LAN of the hop; IdsSpent exactly
    /// where it may be cut, and the next data unit identifier is the first of a half of which one was given within the lifetime.
    pub fn send(&mut self, now: Tick, unit: &Unit<Nsap>, wish: Wish) -> Result<NetSent, NoMemory>
        requires clock { self.old.clock ≤ now }
        requires end { now ≤ 4000000000 }
        requires system { self.old.setup.end ≡ true }
        requires source { is_same_system unit.now.from self.old.setup.title ≡ true }
        ensures sends { IfOk result (λ sent. Sends rows_tables self.old now unit.now wish (sent_of sent) self.new) }
        ensures kept { IsKept self.new }
        ensures clock { self.new.clock ≤ now }
    {
        match self.start(now, unit, wish) {
            Ok(hop) => self.send_by(now, unit, wish, &hop),
            Err(cause) => {
                self.set_clock(now);
                Ok(NetSent::Dropped(cause))
            }
        }
    }

    /// Sends a unit by the hop, where it fits its LAN or may be cut.
    fn send_by(
        &mut self,
        now: Tick,
        unit: &Unit<Nsap>,
        wish: Wish,
        hop: &Hop,
    ) -> Result<NetSent, NoMemory>
        requires clock { self.old.clock ≤ now }
        requires starts { starting rows_tables self.old now unit.now wish ≡ Ok hop.now }
        requires short { length unit.now.octets ≤ 16384 }
        requires near { IsNear self.old.setup hop.now }
        ensures sends { IfOk result (λ sent. Sends rows_tables self.old now unit.now wish (sent_of sent) self.new) }
        ensures kept { IsKept self.new }
        ensures clock { self.new.clock ≤ now }
    {
        let sent = self.setup.send(self.alloc, unit, wish, self.next_id, hop)?;
        self.set_clock(now);
        match sent {
            Some(frames) => {
                self.number_if(wish.cut, now);
                Ok(NetSent::Frames(frames))
            }
            None => Ok(NetSent::Dropped(DropCause::TooLong)),
        }
    }

    /// The hop by which a unit is sent, if it fits its LAN or may be cut, or the first cause against it.
    fn start(&self, now: Tick, unit: &Unit<Nsap>, wish: Wish) -> Result<Hop, DropCause>
        requires clock { self.now.clock ≤ now }
        ensures value { result ≡ starting rows_tables self.now now unit.now wish }
        ensures near { IfOk result (IsNear self.now.setup) }
        ensures short { OnOk result (length unit.now.octets ≤ 16384) }
    {
        if unit.octets.as_slice().len() > MOST_OCTETS {
            return Err(DropCause::TooLong);
        }
        match self.way(now, &unit.to, wish.path) {
            None => Err(DropCause::NoRoute),
            Some(_) if wish.cut && self.is_spent(now) => Err(DropCause::IdsSpent),
            Some(hop) => Ok(hop),
        }
    }

    /// The hop to an address, or by a source route to its first title.
    fn way(&self, now: Tick, address: &Nsap, path: u8) -> Option<Hop>
        requires clock { self.now.clock ≤ now }
        ensures value { result ≡ way rows_tables self.now now address.now path }
        ensures near { IfSome result (IsNear self.now.setup) }
    {
        if self.is_own_system(address) {
            return None;
        }
        match self.setup.path(path) {
            None => self.hop_of(now, address),
            Some(path) => self.first_hop(now, path.titles.as_slice()),
        }
    }

    /// The hop to the first of the titles.
    fn first_hop(&self, now: Tick, titles: &[Nsap]) -> Option<Hop>
        requires clock { self.now.clock ≤ now }
        ensures value { result ≡ first_hop rows_tables self.now now titles.now }
        ensures near { IfSome result (IsNear self.now.setup) }
    {
        let title = titles.first()?;
        self.hop_to(now, title)
    }
}
