//! A system of a script, with its routes and the selectors of its transport users.

ghost use Rattle.std.specs.Prelude.{◌≡◌, ◌<◌, ◌≤◌, ◌++◌, ◌∷◌, [], false, length, IfOk, OnErr, OnOk};
ghost use Rattle.clnp_route.specs.Routes.{has_prefix};
ghost use Rattle.tp4_conn.specs.End.{IsTimed};
ghost use Rattle.tp4_entity.specs.Association.{is_registered};
ghost use Rattle.script_setup.specs.Fitting.{AreSelectorsApart};
ghost use Rattle.script_setup.specs.SetUp.{entity_with};

use clnp_route::{AddRefusal, Table};
use nsap::{Hop, Nsap, Prefix, TRANSPORT};
use osi_base::{Bytes, NoMemory};
use std::alloc::Global;
use std::marker::Model;
use tp4_conn::{Timers, Uncounted};
use tp4_entity::{TpEntity, TsapRefusal};

/// A system with its routes and transport selectors.
#[derive(Drop)]
pub struct System {
    pub end: bool,
    pub title: Nsap,
    pub rows: Table,
    selectors: Vec<Bytes>,
}

impl Model for System {
    ghost use Rattle.script_setup.specs.SetUp.{System as SystemState};

    ghost Value = { SystemState };

    ghost view = { λ s. record { end = s.end; title = s.title; rows = s.rows; selectors = s.selectors.items } };
}

impl System {
    /// A system without routes and selectors.
    pub fn new(alloc: Global, end: bool, title: Nsap) -> System
        ensures { result ≡ record { end = end; title = title; rows = []; selectors = [] } }
    {
        System {
            end,
            title,
            rows: Table::new(alloc),
            selectors: Vec::new(alloc),
        }
    }

    /// Adds a route that the table has room for.
    pub fn add_route(&mut self, prefix: Prefix, hop: Hop) -> Result<(), NoMemory>
        requires fresh { has_prefix self.old.rows prefix ≡ false }
        requires room { length self.old.rows < 256 }
        ensures ok { OnOk result (self.new ≡ record self.old { rows = self.old.rows ++ record { prefix = prefix; hop = hop } ∷ [] }) }
        ensures err { OnErr result (self.new ≡ self.old) }
    {
        match self.rows.add(prefix, hop) {
            Ok(()) => Ok(()),
            Err(AddRefusal::NoMemory) => Err(NoMemory),
            Err(AddRefusal::Duplicate | AddRefusal::Full) => unreachable!(),
        }
    }

    /// The selectors of its transport users, in the order of their lines.
    pub fn selectors(&self) -> &[Bytes]
        ensures { result.now ≡ self.now.selectors }
    {
        &self.selectors
    }

    /// Adds a selector at which the system takes connections.
    pub fn add_selector(&mut self, selector: Bytes) -> Result<(), NoMemory>
        ensures ok { OnOk result (self.new ≡ record self.old { selectors = self.old.selectors ++ selector ∷ [] }) }
        ensures err { OnErr result (self.new ≡ self.old) }
    {
        self.selectors.push(selector)?;
        Ok(())
    }

    /// The transport entity of the system, which did nothing yet.
    pub fn entity(
        &self,
        alloc: Global,
        references: u16,
        timers: Timers,
    ) -> Result<TpEntity<Uncounted>, NoMemory>
        requires least { 1 ≤ references }
        requires most { references ≤ 64 }
        requires timed { IsTimed timers }
        requires apart { AreSelectorsApart [] self.now.selectors }
        ensures { IfOk result (λ entity. entity ≡ entity_with references timers self.now) }
    {
        let own = self.title.with_selector(TRANSPORT);
        let mut entity = TpEntity::new(alloc, own, references, timers)?;
        for selector in &self.selectors {
            register(&mut entity, selector.as_slice())?;
        }
        Ok(entity)
    }
}

/// The entity takes connections at a selector at which it took none.
fn register(entity: &mut TpEntity<Uncounted>, selector: &[u8]) -> Result<(), NoMemory>
    requires { is_registered entity.old.selectors selector.now ≡ false }
    ensures { OnOk result (entity.new ≡ record entity.old { selectors = entity.old.selectors ++ selector.now ∷ [] }) }
{
    match entity.register(selector) {
        Ok(()) => Ok(()),
        Err(TsapRefusal::NoMemory) => Err(NoMemory),
        Err(TsapRefusal::TsapTaken) => unreachable!(),
    }
}
