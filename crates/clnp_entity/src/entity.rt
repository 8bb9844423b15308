//! The state of a system, and what it tells of itself.

ghost use Rattle.std.specs.Prelude.{◌≡◌, ◌≤◌, IfOk};
ghost use Rattle.esis_tables.specs.Rows.{no_rows};
ghost use Rattle.clnp_system.specs.Node.{at_tick, fresh_node};
ghost use Rattle.clnp_system.specs.Setting.{IsSetting};

use clnp_segment::Store;
use clnp_system::SystemSetup;
use esis_tables::{Neighbours, Redirects};
use nsap::Nsap;
use osi_base::{NoMemory, Tick};
use std::alloc::Global;
use std::marker::Model;

/// The most units of which a system holds segments.
const MOST_UNITS: u32 = 32;

/// The most octets of their data.
const MOST_OCTETS: u32 = 262_144;

/// One system of the network.
///
/// Contracts see it as a `Node`: its setup, its clock, the data unit identifiers that it gave, the units that it holds, and the
/// rows of what it knows of others.
pub struct NetEntity {
    pub(crate) alloc: Global,
    pub(crate) setup: SystemSetup,
    pub(crate) clock: Tick,
    pub(crate) next_id: u16,
    pub(crate) low: Option<Tick>,
    pub(crate) high: Option<Tick>,
    pub(crate) store: Store,
    pub(crate) neighbours: Neighbours,
    pub(crate) redirects: Redirects,
}

// By hand, so that it is proved here alone: what is derived is proved again in each crate that lets one go.
impl Drop for NetEntity {
    fn drop(self) {
        let NetEntity {
            alloc: _,
            setup: _,
            clock: _,
            next_id: _,
            low: _,
            high: _,
            store: _,
            neighbours: _,
            redirects: _,
        } = self;
    }
}

// Each hop that was heard is on the LAN of a port, and no part was called later than the whole.
impl Model for NetEntity {
    ghost use Rattle.esis_tables.specs.Rows.{Rows};
    ghost use Rattle.clnp_system.specs.Node.{Node};
    ghost use Rattle.clnp_entity.specs.Kept.{IsKept};

    ghost Value = { Node Rows };

    ghost view = { λ e. record {
      setup = e.setup;
      clock = e.clock;
      next_id = e.next_id;
      low = e.low;
      high = e.high;
      store = e.store;
      neighbours = e.neighbours;
      redirects = e.redirects;
    } };

    ghost invariant = { λ e. IsKept (record {
      setup = e.setup;
      clock = e.clock;
      next_id = e.next_id;
      low = e.low;
      high = e.high;
      store = e.store;
      neighbours = e.neighbours;
      redirects = e.redirects;
    }) };
}

impl NetEntity {
    ghost use Rattle.clnp_entity.specs.Kept.{IsKept};

    /// A system with that setup, which did nothing yet.
    pub fn new(alloc: Global, setup: SystemSetup) -> Result<NetEntity, NoMemory>
        requires { IsSetting setup }
        ensures { IfOk result (λ entity. entity ≡ fresh_node setup no_rows) }
    {
        Ok(NetEntity {
            alloc,
            setup,
            clock: 0,
            next_id: 0,
            low: None,
            high: None,
            store: Store::new(alloc, MOST_UNITS, MOST_OCTETS)?,
            neighbours: Neighbours::new(alloc),
            redirects: Redirects::new(alloc),
        })
    }

    /// The number of the system.
    pub fn system(&self) -> u8
        ensures { result ≡ self.now.setup.system }
    {
        self.setup.system
    }

    /// Its entity title.
    pub fn title(&self) -> Nsap
        ensures { result ≡ self.now.setup.title }
    {
        self.setup.title
    }

    /// Whether it is an end system.
    pub fn is_end(&self) -> bool
        ensures { result ≡ self.now.setup.end }
    {
        self.setup.end
    }

    /// The clock rises to that tick.
    pub(crate) fn set_clock(&mut self, now: Tick)
        requires { self.old.clock ≤ now }
        ensures after { self.new ≡ at_tick now self.old }
        ensures kept { IsKept self.new }
    {
        self.clock = now;
    }
}
