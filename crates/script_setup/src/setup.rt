//! What the set-up lines of a script say, and the network and the transport entities that they make (X.233, network entity title,
//! route PDU; ISO 9542, configuration information; X.224, class 4).

ghost use Rattle.std.specs.Prelude.{◌≡◌, ◌<◌, ◌≤◌, ◌++◌, ◌∷◌, [], length, map, IfOk, OnOk};
ghost use Rattle.std.specs.List.{AllByRecursion};
ghost use Rattle.clnp_system.specs.Setting.{IsSetting};
ghost use Rattle.lan_step.specs.Bag.{new_bag};
ghost use Rattle.lan_step.specs.Rows.{IsLan};
ghost use Rattle.script_setup.specs.Fitting.{AreLimits, AreSelectorsApart, IsWell};
ghost use Rattle.script_setup.specs.SetUp.{System as SystemSaid, is_complete, nodes_from};
ghost use Rattle.script_setup.specs.declared.relay.RelayLine.{RelayLine as Said};

use crate::inactive::inactive_rows;
use crate::relay::RelayLine;
use crate::shared::{Shared, port_on};
use crate::system::System;
use crate::transport::Limits;
use clnp_entity::{NetEntity, Path};
use clnp_net::ClnpNet;
use inactive_net::InactiveNet;
use lan_bag::{Lan, LanBag, PortRow};
use nsap::{Hop, Nsap, Port, Prefix, Snpa};
use osi_base::{Bytes, Items, NoMemory};
use script_lines::{Key, Line, PathKind};
use std::alloc::Global;
use std::collections::VecDeque;
use std::marker::Model;
use tp4_conn::Timers;

/// What the set-up lines so far say.
pub struct SetUp {
    alloc: Global,
    systems: Vec<System>,
    shared: Shared,
}

// What was said fits together.
impl Model for SetUp {
    ghost use Rattle.script_setup.specs.SetUp.{SetUp as SetUpState};
    ghost use Rattle.script_setup.specs.Fitting.{IsWell};

    ghost Value = { SetUpState };

    ghost view = { λ s. record s.shared { systems = s.systems.items } };

    ghost invariant = { λ s. IsWell (record s.shared { systems = s.systems.items }) };
}

// By hand, so that it is proved here alone: what is derived is proved again in each crate that lets a set-up go.
impl Drop for SetUp {
    fn drop(self) {
        let SetUp {
            alloc: _,
            systems: _,
            shared: _,
        } = self;
    }
}

impl SetUp {
    ghost use Rattle.esis_tables.specs.Rows.{no_rows};
    ghost use Rattle.lan_step.specs.Bag.{BagStep, link_of};
    ghost use Rattle.law_clnp_step.specs.Step.{Begins};
    ghost use Rattle.inactive_step.specs.Network.{new_inactive};
    ghost use Rattle.script_setup.specs.Inactive.{inactive_rows};
    ghost use Rattle.clnp_system.specs.Tables.{rows_tables};
    ghost use Rattle.script_setup.specs.SetUp.{end_at, hop_to, nodes_of, nothing_said, set_up, timers_of, title_at, titles_of, with_route, with_selector, with_time};
    ghost use Rattle.script_setup.specs.Fitting.{Fits, IsNewPath, IsNewPort, IsNewRelay, IsNewRoute, IsNewSelector, IsNewTitle};
    ghost use Rattle.script_lines.specs.Settings.{least_of, most_of};

    /// Nothing is said yet.
    pub fn new(alloc: Global) -> SetUp
        ensures { result ≡ nothing_said }
    {
        SetUp {
            alloc,
            systems: Vec::new(alloc),
            shared: Shared::new(alloc),
        }
    }

    /// Takes what a line says.
    pub fn add(&mut self, line: Line) -> Result<(), NoMemory>
        requires { Fits self.old line }
        ensures { OnOk result (self.new ≡ set_up self.old line) }
    {
        match line {
            Line::Nothing | Line::Version(_) | Line::Start => Ok(()),
            Line::Set { key, value } => {
                self.set(key, value);
                Ok(())
            }
            Line::Lan { bound, room, .. } => self.add_lan(Lan { bound, room }),
            Line::Es { title, .. } => self.add_system(true, title),
            Line::Is { title, .. } => self.add_system(false, title),
            Line::Port { system, lan, snpa } => self.add_port(system, lan, snpa),
            Line::Route {
                system,
                prefix,
                next,
                lan,
            } => self.add_route(system, prefix, next, lan),
            Line::Path { kind, systems, .. } => self.add_path(kind, systems.as_slice()),
            Line::Tsap { system, selector } => self.add_selector(system, selector),
            Line::Relay {
                system,
                selector,
                to,
                called,
            } => self.add_relay(RelayLine {
                system,
                selector,
                to,
                called,
            }),
            // These lines are of no set-up.
            Line::Connect { .. }
            | Line::Accept { .. }
            | Line::Refuse { .. }
            | Line::Disconnect { .. }
            | Line::Data { .. }
            | Line::Expedite { .. }
            | Line::Window { .. }
            | Line::Unit { .. }
            | Line::Tick
            | Line::Settle
            | Line::Deliver { .. }
            | Line::Inject { .. }
            | Line::Restart { .. }
            | Line::Send { .. } => unreachable!(),
        }
    }

    /// The network that was set up, after the first hellos of its systems.
    pub fn start(self) -> Result<ClnpNet<LanBag>, NoMemory>
        ensures { IfOk result (λ net. Begins link_of BagStep rows_tables (new_bag self.lans self.ports) (nodes_of self) self.life net) }
    {
        let SetUp {
            alloc,
            systems,
            shared,
        } = self;
        let bag = shared.bag(alloc)?;
        let nodes = nodes(alloc, &shared, systems)?;
        ClnpNet::new(alloc, bag, nodes, shared.life())
    }

    /// The network by the inactive subset that was set up. An end system without a port is not in it.
    pub fn start_inactive(self) -> Result<InactiveNet<LanBag>, NoMemory>
        ensures { IfOk result (λ net. net ≡ new_inactive (new_bag self.lans self.ports) (inactive_rows self)) }
    {
        let SetUp {
            alloc,
            systems,
            shared,
        } = self;
        let bag = shared.bag(alloc)?;
        let rows = inactive_rows(alloc, &bag, &shared.ports, &systems)?;
        InactiveNet::new(alloc, bag, rows)
    }

    /// The lifetime of a PDU in ticks.
    pub fn life(&self) -> u8
        ensures { result ≡ self.now.life }
    {
        self.shared.life()
    }

    /// The systems, by number.
    pub fn systems(&self) -> &[System]
        ensures systems { result.now ≡ self.now.systems }
        ensures few { length result.now ≤ 16 }
        ensures apart { AllByRecursion (λ (system : SystemSaid). AreSelectorsApart [] system.selectors) result.now }
    {
        &self.systems
    }

    /// The titles of the systems.
    pub fn titles(&self) -> Result<Items<Nsap>, NoMemory>
        ensures { IfOk result (λ titles. titles ≡ titles_of self.now) }
    {
        let mut titles = Vec::new(self.alloc);
        for system in &self.systems {
            titles.push(system.title)?;
        }
        Ok(Items::of(titles))
    }

    /// The limits of transport.
    pub fn limits(&self) -> Limits
        ensures limits { result ≡ self.now.limits }
        ensures fit { AreLimits result }
    {
        self.shared.limits()
    }

    /// The times of the transport entities.
    pub fn timers(&self) -> Timers
        ensures { result ≡ timers_of self.now.life self.now.limits }
    {
        self.shared.limits().timers(self.shared.life())
    }

    /// The relays, in the order of their lines.
    pub fn relays(&self) -> &[RelayLine]
        ensures relays { result.now ≡ self.now.relays }
        ensures known { AllByRecursion (λ (relay : Said). (relay.system < length self.now.systems) × (relay.to < length self.now.systems)) result.now }
    {
        self.shared.relays()
    }

    fn add_lan(&mut self, lan: Lan) -> Result<(), NoMemory>
        requires { IsLan lan }
        ensures { OnOk result (self.new ≡ record self.old { lans = self.old.lans ++ lan ∷ [] }) }
    {
        self.shared.add_lan(lan)
    }

    fn add_system(&mut self, end: bool, title: Nsap) -> Result<(), NoMemory>
        requires { IsNewTitle self.old title }
        ensures { OnOk result (self.new ≡ record self.old { systems = self.old.systems ++ record { end = end; title = title; rows = []; selectors = [] } ∷ [] }) }
    {
        let system = System::new(self.alloc, end, title);
        self.systems.push(system)?;
        Ok(())
    }

    fn add_port(&mut self, system: u8, lan: u8, snpa: Snpa) -> Result<(), NoMemory>
        requires { IsNewPort self.old system lan snpa }
        ensures { OnOk result (self.new ≡ record self.old {
          ports = self.old.ports ++ record { system = system; end = end_at self.old.systems system; port = record { lan = lan; snpa = snpa } } ∷ [];
        }) }
    {
        let row = PortRow {
            system,
            end: self.is_end(system),
            port: Port { lan, snpa },
        };
        self.shared.add_port(row)
    }

    /// Whether the system is an end system.
    fn is_end(&self, system: u8) -> bool
        requires { system < length self.now.systems }
        ensures { result ≡ end_at self.now.systems system }
    {
        self.systems[usize::from(system)].end
    }

    fn add_route(&mut self, system: u8, prefix: Prefix, next: u8, lan: u8) -> Result<(), NoMemory>
        requires { IsNewRoute self.old system prefix next lan }
        ensures { OnOk result (self.new ≡ record self.old { systems = with_route self.old.systems system prefix (hop_to self.old next lan) }) }
    {
        let Some(hop) = self.hop_to(next, lan) else {
            unreachable!();
        };
        let system = &mut self.systems[usize::from(system)];
        system.add_route(prefix, hop)
    }

    /// The way to a system over a LAN.
    fn hop_to(&self, system: u8, lan: u8) -> Option<Hop>
        requires { system < length self.now.systems }
        ensures { result ≡ hop_to self.now system lan }
    {
        let port = port_on(&self.shared.ports, system, lan)?;
        let next = &self.systems[usize::from(system)];
        let title = if next.end { None } else { Some(next.title) };
        Some(Hop { port, title })
    }

    fn add_path(&mut self, kind: PathKind, systems: &[u8]) -> Result<(), NoMemory>
        requires { IsNewPath self.old systems.now }
        ensures { OnOk result (self.new ≡ record self.old {
          paths = self.old.paths ++ record { complete = is_complete kind; titles = map (title_at self.old.systems) systems.now } ∷ [];
        }) }
    {
        let titles = self.titles_of(systems)?;
        let complete = is_complete(kind);
        self.shared.add_path(Path { complete, titles })
    }

    /// The titles of these systems.
    fn titles_of(&self, systems: &[u8]) -> Result<Items<Nsap>, NoMemory>
        requires { AllByRecursion (λ system. system < length self.now.systems) systems.now }
        ensures { IfOk result (λ titles. titles ≡ map (title_at self.now.systems) systems.now) }
    {
        let mut titles = Vec::new(self.alloc);
        for system in systems {
            titles.push(self.title(*system))?;
        }
        Ok(Items::of(titles))
    }

    /// The title of a system.
    fn title(&self, system: u8) -> Nsap
        requires { system < length self.now.systems }
        ensures { result ≡ title_at self.now.systems system }
    {
        self.systems[usize::from(system)].title
    }

    fn add_selector(&mut self, system: u8, selector: Bytes) -> Result<(), NoMemory>
        requires { IsNewSelector self.old system selector }
        ensures { OnOk result (self.new ≡ record self.old { systems = with_selector self.old.systems system selector }) }
    {
        let system = &mut self.systems[usize::from(system)];
        system.add_selector(selector)
    }

    /// A relay takes connections at its selector, as a transport user does.
    fn add_relay(&mut self, relay: RelayLine) -> Result<(), NoMemory>
        requires { IsNewRelay self.old relay }
        ensures { OnOk result (self.new ≡ record self.old { systems = with_selector self.old.systems relay.system relay.selector; relays = self.old.relays ++ relay ∷ [] }) }
    {
        let selector = Bytes::copy(self.alloc, relay.selector.as_slice())?;
        self.add_selector(relay.system, selector)?;
        self.shared.add_relay(relay)
    }

    /// Sets a time or a limit.
    fn set(&mut self, key: Key, value: u32)
        requires least { least_of key ≤ value }
        requires most { value ≤ most_of key }
        ensures { self.new ≡ with_time self.old key value }
    {
        self.shared.set(key, value);
    }
}

/// Whether a source route names each system that it passes.
fn is_complete(kind: PathKind) -> bool
    ensures { result ≡ is_complete kind }
{
    match kind {
        PathKind::Partial => false,
        PathKind::Complete => true,
    }
}

/// The systems as they are made, by number.
fn nodes(alloc: Global, shared: &Shared, systems: Vec<System>) -> Result<Vec<NetEntity>, NoMemory>
    requires { IsWell (record shared.now { systems = systems.items }) }
    ensures { IfOk result (λ nodes. nodes.items ≡ nodes_from shared.now 0 systems.items) }
{
    let mut left = VecDeque::from_vec(systems);
    let mut nodes = Vec::new(alloc);
    while let Some(system) = left.pop_front() {
        let number = nodes.as_slice().len() as u8;
        let setup = shared.setup(alloc, number, system)?;
        nodes.push(NetEntity::new(alloc, setup)?)?;
    }
    Ok(nodes)
}
