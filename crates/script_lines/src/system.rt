//! A LAN that was declared, and a system with its ports, routes and selectors.

ghost use Rattle.std.specs.Prelude.{◌≡◌, ◌==◌, ◌++◌, ◌∷◌, [], length, nat_eq, OnOk, OnErr};
ghost use Rattle.std.specs.List.{list_any};
ghost use Rattle.std.specs.Cmp.Lexicographic.{pointwise};

use nsap::{Nsap, Port, Prefix, Snpa};
use osi_base::{Bytes, NoMemory};
use std::alloc::Global;
use std::collections::BTreeSet;
use std::marker::Model;

/// A LAN that was declared.
#[derive(Drop)]
pub struct LanRow {
    /// Its name.
    pub name: Bytes,
    /// Its bound in ticks.
    pub bound: u32,
}

/// A system that was declared.
#[derive(Drop)]
pub struct SystemRow {
    name: Bytes,
    is_end: bool,
    title: Nsap,
    ports: Vec<Port>,
    routes: Vec<Prefix>,
    /// By their octets, so that one of many is found by few comparisons.
    selectors: BTreeSet<Vec<u8>>,
}

impl Model for SystemRow {
    ghost use Rattle.script_lines.specs.Known.{KnownSystem};
    ghost use Rattle.std.specs.Prelude.{map};

    ghost Value = { KnownSystem };

    ghost view = { λ s. record {
      name = s.name;
      is_end = s.is_end;
      title = s.title;
      ports = s.ports.items;
      routes = s.routes.items;
      selectors = map (λ key. key.items) s.selectors.keys;
    } };
}

impl SystemRow {
    ghost use Rattle.script_lines.specs.Known.{has_snpa, is_among, with};

    /// A system with no port yet.
    pub fn new(alloc: Global, name: Bytes, is_end: bool, title: Nsap) -> SystemRow
        ensures { result ≡ record { name = name; is_end = is_end; title = title; ports = []; routes = []; selectors = [] } }
    {
        SystemRow {
            name,
            is_end,
            title,
            ports: Vec::new(alloc),
            routes: Vec::new(alloc),
            selectors: BTreeSet::new(alloc),
        }
    }

    /// Its name.
    pub fn name(&self) -> &[u8]
        ensures { result.now ≡ self.now.name }
    {
        self.name.as_slice()
    }

    /// Whether it is an end system.
    pub fn is_end(&self) -> bool
        ensures { result ≡ self.now.is_end }
    {
        self.is_end
    }

    /// Whether its title is this one.
    pub fn has_title(&self, title: &Nsap) -> bool
        ensures { result ≡ pointwise nat_eq self.now.title title.now }
    {
        self.title == *title
    }

    /// Whether it has a port on the LAN.
    pub fn has_port(&self, lan: u8) -> bool
        ensures { result ≡ list_any (λ port. port.lan == lan) self.now.ports }
    {
        self.ports.iter().any(|port| port.lan == lan)
    }

    /// Whether it has a port with the SNPA.
    pub fn has_snpa(&self, snpa: &Snpa) -> bool
        ensures { result ≡ has_snpa self.now snpa.now }
    {
        self.ports.iter().any(|port| port.snpa == *snpa)
    }

    /// Whether it has a route with the prefix.
    pub fn has_route(&self, prefix: &Prefix) -> bool
        ensures { result ≡ is_among self.now.routes prefix.now }
    {
        self.routes.iter().any(|other| *prefix == *other)
    }

    /// Whether it has the selector.
    pub fn has_selector(&self, selector: &[u8]) -> bool
        ensures { result ≡ is_among self.now.selectors selector.now }
    {
        self.selectors.contains(selector)
    }

    /// How many ports it has.
    pub fn ports_count(&self) -> usize
        ensures { result ≡ length self.now.ports }
    {
        self.ports.len()
    }

    /// How many routes it has.
    pub fn routes_count(&self) -> usize
        ensures { result ≡ length self.now.routes }
    {
        self.routes.len()
    }

    /// Adds a port.
    pub fn add_port(&mut self, port: Port) -> Result<(), NoMemory>
        ensures ok { OnOk result (self.new ≡ record self.old { ports = self.old.ports ++ port ∷ [] }) }
        ensures err { OnErr result (self.new ≡ self.old) }
    {
        self.ports.push(port)?;
        Ok(())
    }

    /// Adds a route.
    pub fn add_route(&mut self, prefix: Prefix) -> Result<(), NoMemory>
        ensures ok { OnOk result (self.new ≡ record self.old { routes = self.old.routes ++ prefix ∷ [] }) }
        ensures err { OnErr result (self.new ≡ self.old) }
    {
        self.routes.push(prefix)?;
        Ok(())
    }

    /// Adds a selector.
    pub fn add_selector(&mut self, selector: Vec<u8>) -> Result<(), NoMemory>
        ensures ok { OnOk result (self.new ≡ record self.old { selectors = with self.old.selectors selector.items }) }
        ensures err { OnErr result (self.new ≡ self.old) }
    {
        self.selectors.insert(selector)?;
        Ok(())
    }
}
