//! What the lines of a script have declared so far.

ghost use Rattle.std.specs.Prelude.{◌≡◌, ◌<◌, map, length, nat_eq, slice_get, IfSome, OnOk, OnErr};
ghost use Rattle.std.specs.Option.{option_copied};
ghost use Rattle.std.specs.List.{list_any};
ghost use Rattle.script_lines.specs.Known.{system_at, lan_at, path_at, has_snpa, is_second};
ghost use Rattle.script_lines.specs.Tags.{name_at, tags_of};
ghost use Rattle.std.specs.Cmp.Lexicographic.{pointwise};

use crate::settings::Settings;
use crate::system::{LanRow, SystemRow};
use crate::words::Dialect;
use nsap::{Nsap, Prefix, Snpa};
use osi_base::Bytes;
use std::alloc::Global;
use std::marker::Model;

/// The command that reads the script; the settings, LANs, systems and source routes that were declared; the version; and whether the set-up has ended.
pub struct Names {
    pub(crate) alloc: Global,
    pub(crate) dialect: Dialect,
    pub(crate) settings: Settings,
    pub(crate) lans: Vec<LanRow>,
    pub(crate) systems: Vec<SystemRow>,
    pub(crate) paths: Vec<Bytes>,
    pub(crate) started: bool,
    /// Whether the lines are those of version 2.
    pub(crate) second: bool,
    /// Whether a line named the version.
    pub(crate) versioned: bool,
}

// By hand, so that it is proved here alone: what is derived is proved again in each crate that lets one go.
impl Drop for Names {
    fn drop(self) {
        let Names {
            alloc: _,
            dialect: _,
            settings: _,
            lans: _,
            systems: _,
            paths: _,
            started: _,
            second: _,
            versioned: _,
        } = self;
    }
}

// There are at most sixteen LANs, systems and source routes.
impl Model for Names {
    ghost use Rattle.std.specs.Prelude.{◌≤◌, length};
    ghost use Rattle.script_lines.specs.Known.{Declared};

    ghost Value = { Declared };

    ghost view = { λ n. record {
      dialect = n.dialect;
      settings = n.settings;
      lans = n.lans.items;
      systems = n.systems.items;
      paths = n.paths.items;
      started = n.started;
      second = n.second;
      versioned = n.versioned;
    } };

    ghost invariant = { λ n. (length n.lans.items ≤ 16) × (length n.systems.items ≤ 16) × (length n.paths.items ≤ 16) };
}

impl Names {
    ghost use Rattle.script_lines.specs.Known.{nothing_declared, is_among, is_end, has_port, has_station, routes_of, selectors_of};
    ghost use Rattle.script_lines.specs.declared.words.Dialect.TheVariants as dialects;

    /// Nothing is declared yet in a script of `run`, which `frames` reads too.
    pub fn new(alloc: Global) -> Names
        ensures { result ≡ nothing_declared dialects.Run }
    {
        Names::of(alloc, Dialect::Run)
    }

    /// Nothing is declared yet in a script of `datagrams`.
    pub fn datagrams(alloc: Global) -> Names
        ensures { result ≡ nothing_declared dialects.Datagrams }
    {
        Names::of(alloc, Dialect::Datagrams)
    }

    /// Nothing is declared yet in a script of `inactive`.
    pub fn inactive(alloc: Global) -> Names
        ensures { result ≡ nothing_declared dialects.Inactive }
    {
        Names::of(alloc, Dialect::Inactive)
    }

    /// Nothing is declared yet in a script of `relay`.
    pub fn relay(alloc: Global) -> Names
        ensures { result ≡ nothing_declared dialects.Relay }
    {
        Names::of(alloc, Dialect::Relay)
    }

    /// Nothing is declared yet.
    fn of(alloc: Global, dialect: Dialect) -> Names
        ensures { result ≡ nothing_declared dialect }
    {
        Names {
            alloc,
            dialect,
            settings: Settings::new(),
            lans: Vec::new(alloc),
            systems: Vec::new(alloc),
            paths: Vec::new(alloc),
            started: false,
            second: is_second(dialect),
            versioned: false,
        }
    }

    /// The number of the system with this name.
    // Inlined: most lines of long scripts name a system.
    #[inline(always)]
    pub fn system_at(&self, name: &str) -> Option<u8>
        ensures number { result ≡ system_at self.now.systems name.now }
        ensures there { IfSome result (λ number. number < length self.now.systems) }
    {
        match place_of_system(&self.systems, name.as_bytes()) {
            Some(place) => Some(place as u8),
            None => None,
        }
    }

    /// The number of the LAN with this name.
    pub fn lan_at(&self, name: &str) -> Option<u8>
        ensures number { result ≡ lan_at self.now.lans name.now }
    {
        match place_of_lan(&self.lans, name.as_bytes()) {
            Some(place) => Some(place as u8),
            None => None,
        }
    }

    /// The place of the source route with this name.
    pub fn path_at(&self, name: &str) -> Option<u8>
        ensures number { result ≡ path_at self.now.paths name.now }
        ensures there { IfSome result (λ place. place < 16) }
    {
        match place_of_path(&self.paths, name.as_bytes()) {
            Some(place) => Some(place as u8),
            None => None,
        }
    }

    /// The name of the system with this number, or nothing where none has it.
    pub fn system_name(&self, number: u8) -> &[u8]
        ensures { result.now ≡ name_at (tags_of self.now).systems number }
    {
        name_of_system(&self.systems, usize::from(number))
    }

    /// The name of the LAN with this number, or nothing where none has it.
    pub fn lan_name(&self, number: u8) -> &[u8]
        ensures { result.now ≡ name_at (tags_of self.now).lans number }
    {
        name_of_lan(&self.lans, usize::from(number))
    }

    /// The system of this number.
    pub fn system(&self, number: u8) -> Option<&SystemRow>
        ensures { option_copied result ≡ slice_get self.now.systems number }
    {
        self.systems.get(usize::from(number))
    }

    /// Whether the system of this number is an end system.
    pub fn is_end(&self, number: u8) -> bool
        ensures { result ≡ is_end self.now number }
    {
        match self.system(number) {
            Some(system) => system.is_end(),
            None => false,
        }
    }

    /// Whether the system has a port on the LAN.
    pub fn has_port(&self, number: u8, lan: u8) -> bool
        ensures { result ≡ has_port self.now number lan }
    {
        match self.system(number) {
            Some(system) => system.has_port(lan),
            None => false,
        }
    }

    /// Whether the system has a route with the prefix.
    pub fn has_route(&self, number: u8, prefix: &Prefix) -> bool
        ensures { result ≡ is_among (routes_of (slice_get self.now.systems number)) prefix.now }
    {
        match self.system(number) {
            Some(system) => system.has_route(prefix),
            None => false,
        }
    }

    /// Whether the system has the selector.
    pub fn has_selector(&self, number: u8, selector: &[u8]) -> bool
        ensures { result ≡ is_among (selectors_of (slice_get self.now.systems number)) selector.now }
    {
        match self.system(number) {
            Some(system) => system.has_selector(selector),
            None => false,
        }
    }

    /// Whether a port of any system has the SNPA.
    pub fn has_station(&self, snpa: &Snpa) -> bool
        ensures { result ≡ has_station self.now snpa.now }
    {
        any_station(&self.systems, snpa)
    }

    /// Whether a system has the title.
    pub fn has_title(&self, title: &Nsap) -> bool
        ensures { result ≡ list_any (λ system. pointwise nat_eq system.title title.now) self.now.systems }
    {
        any_title(&self.systems, title)
    }
}

/// Whether the lines are those of version 2 from the first on.
fn is_second(dialect: Dialect) -> bool
    ensures { result ≡ is_second dialect }
{
    match dialect {
        Dialect::Run | Dialect::Datagrams => false,
        Dialect::Inactive | Dialect::Relay => true,
    }
}

fn place_of_system(systems: &[SystemRow], name: &[u8]) -> Option<usize>
    ensures place { result ≡ system_at systems.now name.now }
    ensures there { IfSome result (λ place. place < length systems.now) }
{
    systems.iter().position(|system| system.name() == name)
}

fn place_of_lan(lans: &[LanRow], name: &[u8]) -> Option<usize>
    ensures place { result ≡ lan_at lans.now name.now }
    ensures there { IfSome result (λ place. place < length lans.now) }
{
    lans.iter().position(|lan| lan.name.as_slice() == name)
}

fn place_of_path(paths: &[Bytes], name: &[u8]) -> Option<usize>
    ensures place { result ≡ path_at paths.now name.now }
    ensures there { IfSome result (λ place. place < length paths.now) }
{
    paths.iter().position(|path| path.as_slice() == name)
}

fn any_station(systems: &[SystemRow], snpa: &Snpa) -> bool
    ensures { result ≡ list_any (λ system. has_snpa system snpa.now) systems.now }
{
    systems.iter().any(|system| system.has_snpa(snpa))
}

fn any_title(systems: &[SystemRow], title: &Nsap) -> bool
    ensures { result ≡ list_any (λ system. pointwise nat_eq system.title title.now) systems.now }
{
    systems.iter().any(|system| system.has_title(title))
}

#[tactic(auto, using(crate::proofs::Named::name_there, crate::proofs::Named::name_nowhere))]
fn name_of_system(systems: &[SystemRow], number: usize) -> &[u8]
    ensures { result.now ≡ name_at (map (λ system. system.name) systems.now) number }
{
    match systems.get(number) {
        Some(system) => system.name(),
        None => &[],
    }
}

#[tactic(auto, using(crate::proofs::Named::name_there, crate::proofs::Named::name_nowhere))]
fn name_of_lan(lans: &[LanRow], number: usize) -> &[u8]
    ensures { result.now ≡ name_at (map (λ lan. lan.name) lans.now) number }
{
    match lans.get(number) {
        Some(lan) => lan.name.as_slice(),
        None => &[],
    }
}
