//! What all systems of a script share (X.233, network entity title, route PDU; ISO 9542, configuration information).

ghost use Rattle.std.specs.Prelude.{◌≡◌, ◌≤◌, ◌++◌, ◌∷◌, [], map, IfOk, OnErr, OnOk};
ghost use Rattle.lan_step.specs.Bag.{new_bag};
ghost use Rattle.lan_step.specs.Rows.{IsSetUp};
ghost use Rattle.script_setup.specs.SetUp.{port_on, ports_at};

use crate::relay::RelayLine;
use crate::system::System;
use crate::transport::Limits;
use clnp_entity::{Path, SystemSetup};
use lan_bag::{Lan, LanBag, PortRow};
use nsap::Port;
use osi_base::{Items, NoMemory};
use script_lines::{Key, default_of};
use std::alloc::Global;
use std::marker::Model;

/// What all systems share: the LANs, the ports, the source routes, the relays, the times and the limits of transport.
///
/// Contracts see it as a set-up without systems.
#[derive(Drop)]
pub struct Shared {
    lans: Vec<Lan>,
    pub ports: Vec<PortRow>,
    paths: Vec<Path>,
    relays: Vec<RelayLine>,
    life: u8,
    hello: u8,
    hold: u8,
    limits: Limits,
}

impl Model for Shared {
    ghost use Rattle.script_setup.specs.SetUp.{SetUp as SetUpState};
    ghost use Rattle.std.specs.Prelude.{[]};

    ghost Value = { SetUpState };

    ghost view = { λ s. record {
      lans = s.lans.items;
      systems = [];
      ports = s.ports.items;
      paths = s.paths.items;
      relays = s.relays.items;
      life = s.life;
      hello = s.hello;
      hold = s.hold;
      limits = s.limits;
    } };
}

impl Shared {
    ghost use Rattle.script_setup.specs.SetUp.{nothing_said, setting_of, with_time};
    ghost use Rattle.script_lines.specs.Settings.{least_of, most_of};

    /// Nothing is said yet.
    pub fn new(alloc: Global) -> Shared
        ensures { result ≡ nothing_said }
    {
        Shared {
            lans: Vec::new(alloc),
            ports: Vec::new(alloc),
            paths: Vec::new(alloc),
            relays: Vec::new(alloc),
            life: default_of(Key::Life) as u8,
            hello: default_of(Key::Ct) as u8,
            hold: default_of(Key::Hold) as u8,
            limits: Limits::new(),
        }
    }

    /// Sets a time or a limit.
    pub fn set(&mut self, key: Key, value: u32)
        requires least { least_of key ≤ value }
        requires most { value ≤ most_of key }
        ensures { self.new ≡ with_time self.old key value }
    {
        match key {
            Key::Life => self.life = value as u8,
            Key::Ct => self.hello = value as u8,
            Key::Hold => self.hold = value as u8,
            Key::T1 => self.limits.t1 = value as u8,
            Key::W => self.limits.window = value as u8,
            Key::I => self.limits.inactive = value as u8,
            Key::N => self.limits.sendings = value as u8,
            Key::Refs => self.limits.references = value as u8,
            Key::Credit => self.limits.credit = value as u8,
        }
    }

    /// The limits of transport.
    pub fn limits(&self) -> Limits
        ensures { result ≡ self.now.limits }
    {
        self.limits
    }

    /// The LANs, with no frame.
    pub fn bag(&self, alloc: Global) -> Result<LanBag, NoMemory>
        requires { IsSetUp self.now.lans self.now.ports }
        ensures { IfOk result (λ bag. bag ≡ new_bag self.now.lans self.now.ports) }
    {
        LanBag::new(alloc, &self.lans, &self.ports)
    }

    /// The lifetime of a PDU.
    pub fn life(&self) -> u8
        ensures { result ≡ self.now.life }
    {
        self.life
    }

    /// One LAN more.
    pub fn add_lan(&mut self, lan: Lan) -> Result<(), NoMemory>
        ensures ok { OnOk result (self.new ≡ record self.old { lans = self.old.lans ++ lan ∷ [] }) }
        ensures err { OnErr result (self.new ≡ self.old) }
    {
        self.lans.push(lan)?;
        Ok(())
    }

    /// One port more.
    pub fn add_port(&mut self, row: PortRow) -> Result<(), NoMemory>
        ensures ok { OnOk result (self.new ≡ record self.old { ports = self.old.ports ++ row ∷ [] }) }
        ensures err { OnErr result (self.new ≡ self.old) }
    {
        self.ports.push(row)?;
        Ok(())
    }

    /// One source route more.
    pub fn add_path(&mut self, path: Path) -> Result<(), NoMemory>
        ensures ok { OnOk result (self.new ≡ record self.old { paths = self.old.paths ++ path ∷ [] }) }
        ensures err { OnErr result (self.new ≡ self.old) }
    {
        self.paths.push(path)?;
        Ok(())
    }

    /// One relay more.
    pub fn add_relay(&mut self, relay: RelayLine) -> Result<(), NoMemory>
        ensures ok { OnOk result (self.new ≡ record self.old { relays = self.old.relays ++ relay ∷ [] }) }
        ensures err { OnErr result (self.new ≡ self.old) }
    {
        self.relays.push(relay)?;
        Ok(())
    }

    /// The relays, in the order of their lines.
    pub fn relays(&self) -> &[RelayLine]
        ensures { result.now ≡ self.now.relays }
    {
        self.relays.as_slice()
    }

    /// What the system of that number is set up with.
    pub fn setup(&self, alloc: Global, number: u8, system: System) -> Result<SystemSetup, NoMemory>
        ensures { IfOk result (λ setup. setup ≡ setting_of self.now number system) }
    {
        let System {
            end,
            title,
            rows,
            ..
        } = system;
        Ok(SystemSetup {
            system: number,
            end,
            title,
            ports: self.ports_of(alloc, number)?,
            rows,
            bounds: self.bounds(alloc)?,
            rooms: self.rooms(alloc)?,
            life: self.life,
            hello: u32::from(self.hello),
            hold: u16::from(self.hold),
            paths: self.copied_paths(alloc)?,
        })
    }

    fn ports_of(&self, alloc: Global, number: u8) -> Result<Vec<Port>, NoMemory>
        ensures { IfOk result (λ ports. ports.items ≡ ports_at self.now.ports number) }
    {
        let mut ports = Vec::new(alloc);
        for row in &self.ports {
            if row.system == number {
                ports.push(row.port)?;
            }
        }
        Ok(ports)
    }

    fn bounds(&self, alloc: Global) -> Result<Vec<u32>, NoMemory>
        ensures { IfOk result (λ bounds. bounds.items ≡ map (λ lan. lan.bound) self.now.lans) }
    {
        let mut bounds = Vec::new(alloc);
        for lan in &self.lans {
            bounds.push(lan.bound)?;
        }
        Ok(bounds)
    }

    fn rooms(&self, alloc: Global) -> Result<Vec<u32>, NoMemory>
        ensures { IfOk result (λ rooms. rooms.items ≡ map (λ lan. lan.room) self.now.lans) }
    {
        let mut rooms = Vec::new(alloc);
        for lan in &self.lans {
            rooms.push(lan.room)?;
        }
        Ok(rooms)
    }

    fn copied_paths(&self, alloc: Global) -> Result<Vec<Path>, NoMemory>
        ensures { IfOk result (λ paths. paths.items ≡ self.now.paths) }
    {
        let mut paths = Vec::new(alloc);
        for path in &self.paths {
            let titles = path.titles.as_slice().to_vec(alloc)?;
            paths.push(Path {
                complete: path.complete,
                titles: Items::of(titles),
            })?;
        }
        Ok(paths)
    }
}

/// The port of a system on a LAN.
pub fn port_on(ports: &[PortRow], system: u8, lan: u8) -> Option<Port>
    ensures { result ≡ port_on ports.now system lan }
{
    for row in ports {
        if row.system == system && row.port.lan == lan {
            return Some(row.port);
        }
    }
    None
}
