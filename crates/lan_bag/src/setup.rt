//! The LANs and which system has which port (IEEE 802.3; ISO 9542, subnetwork addresses).

ghost use Rattle.std.specs.Prelude.{◌≡◌, IfOk, false};
ghost use Rattle.std.specs.List.{list_any};
ghost use Rattle.lan_step.specs.Rows.{bound_on, room_on, is_on, sender_of, has_sent};
ghost use Rattle.lan_step.specs.Receivers.{goes_to, is_one_of};
ghost use Rattle.lan_bag.specs.steps.Setting.{AreOfLans, rows_on};

use crate::lan_ports::LanPorts;
use lan_step::{Lan, PortRow, goes_to};
use nsap::Port;
use osi_base::NoMemory;
use std::alloc::Global;
use std::marker::Model;

/// The numbers of a LAN that is not listed.
const UNLISTED: Lan = Lan {
    bound: 1,
    room: 264,
};

/// The LANs, numbered from 0, and the ports of the systems.
#[derive(Drop)]
pub struct Setup {
    lans: Vec<Lan>,
    rows: Vec<PortRow>,
    lists: Vec<LanPorts>,
}

// The ports on each LAN that is listed are in its list.
impl Model for Setup {
    ghost use Rattle.lan_bag.specs.steps.Setting.{AreOfLans, Setting};

    ghost Value = { Setting };

    ghost view = { λ s. record { lans = s.lans.items; rows = s.rows.items } };

    ghost invariant = { λ s. AreOfLans s.lists.items s.rows.items };
}

impl Setup {
    /// These LANs and ports.
    pub fn new(alloc: Global, lans: &[Lan], rows: &[PortRow]) -> Result<Setup, NoMemory>
        ensures { IfOk result (λ setup. setup ≡ record { lans = lans.now; rows = rows.now }) }
    {
        let lists = lists_of(alloc, lans.len(), rows)?;
        let (lans, rows) = (lans.to_vec(alloc)?, rows.to_vec(alloc)?);
        Ok(Setup { lans, rows, lists })
    }

    /// The ports on a LAN; for a LAN that is not listed maybe others, too.
    pub fn rows_on(&self, lan: u8) -> &[PortRow]
        ensures { rows_on result.now lan ≡ rows_on self.now.rows lan }
    {
        match self.lists.get(usize::from(lan)) {
            Some(list) => list.rows(),
            None => &self.rows,
        }
    }

    /// Whether a frame to a destination may come to some port; false only where it goes to none.
    pub fn may_reach(&self, to: &Port) -> bool
        ensures { result ≡ false → list_any (is_one_of to.now) self.now.rows ≡ false }
    {
        match self.lists.get(usize::from(to.lan)) {
            Some(list) => list.may_name(&to.snpa),
            None => true,
        }
    }

    /// The bound of a LAN.
    pub fn bound(&self, lan: u8) -> u32
        ensures { result ≡ bound_on self.now.lans lan }
    {
        self.lans.get(usize::from(lan)).unwrap_or(&UNLISTED).bound
    }

    /// The room of a LAN.
    pub fn room(&self, lan: u8) -> u32
        ensures { result ≡ room_on self.now.lans lan }
    {
        self.lans.get(usize::from(lan)).unwrap_or(&UNLISTED).room
    }

    /// Whether a system has a port on a LAN.
    #[tactic(auto, using(crate::proofs::LanLists::on_alike))]
    pub fn has_port(&self, system: u8, lan: u8) -> bool
        ensures { result ≡ is_on self.now.rows system lan }
    {
        is_on(self.rows_on(lan), system, lan)
    }

    /// The system that has a port; None exactly where none has.
    #[tactic(auto, using(crate::proofs::LanLists::sender_on))]
    pub fn system_of(&self, port: &Port) -> Option<u8>
        ensures { result ≡ sender_of self.now.rows port.now }
    {
        sender_of(self.rows_on(port.lan), port)
    }

    /// Whether a port is one of a system.
    #[tactic(auto, using(crate::proofs::LanLists::sent_alike))]
    pub fn is_sender(&self, system: u8, from: &Port) -> bool
        ensures { result ≡ has_sent self.now.rows system from.now }
    {
        has_sent(self.rows_on(from.lan), system, from)
    }

    /// Whether a system is one of a destination.
    #[tactic(auto, using(crate::proofs::LanLists::goes_alike))]
    pub fn is_receiver(&self, system: u8, to: &Port) -> bool
        ensures { result ≡ goes_to self.now.rows to.now system }
    {
        goes_to(self.rows_on(to.lan), system, to)
    }
}

/// Whether a system has a port on a LAN, among these.
fn is_on(rows: &[PortRow], system: u8, lan: u8) -> bool
    ensures { result ≡ is_on rows.now system lan }
{
    rows.iter()
        .any(|row| row.system == system && row.port.lan == lan)
}

/// The first system that has a port, among these.
fn sender_of(rows: &[PortRow], port: &Port) -> Option<u8>
    ensures { result ≡ sender_of rows.now port.now }
{
    for row in rows {
        if row.port == *port {
            return Some(row.system);
        }
    }
    None
}

/// Whether a port is one of a system, among these.
fn has_sent(rows: &[PortRow], system: u8, from: &Port) -> bool
    ensures { result ≡ has_sent rows.now system from.now }
{
    rows.iter()
        .any(|row| row.system == system && row.port == *from)
}

/// The ports on each LAN.
#[tactic(auto, using(crate::proofs::LanLists::listed_more))]
fn lists_of(alloc: Global, lans: usize, rows: &[PortRow]) -> Result<Vec<LanPorts>, NoMemory>
    ensures { IfOk result (λ lists. AreOfLans lists.items rows.now) }
{
    let mut lists = Vec::new(alloc);
    for lan in 0..lans {
        lists.push(LanPorts::of(list_of(alloc, lan, rows)?))?;
    }
    Ok(lists)
}

/// The ports on a LAN.
fn list_of(alloc: Global, lan: usize, rows: &[PortRow]) -> Result<Vec<PortRow>, NoMemory>
    ensures { IfOk result (λ list. list.items ≡ rows_on rows.now lan) }
{
    let rows = rows.iter().copied();
    let list = rows.filter(|row| usize::from(row.port.lan) == lan);
    Ok(list.collect(alloc)?)
}
