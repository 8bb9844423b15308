//! What a system is set up with (X.233, network entity title, route PDU; ISO 9542, holding time).

ghost use Rattle.std.specs.Prelude.{◌≡◌, ◌==◌, find};
ghost use Rattle.pdu_parts.specs.Field.{IsAddress};
ghost use Rattle.clnp_system.specs.Setting.{bound_of, is_own_title, port_on, room_of};

use clnp_route::Table;
use nsap::{Nsap, Port};
use osi_base::Items;
use std::marker::Model;

/// A source route.
#[derive(Drop, Debug)]
pub struct Path {
    /// Each system that it passes stands in it.
    pub complete: bool,
    /// The titles, in order.
    pub titles: Items<Nsap>,
}

/// What a system is set up with. Bounds in ticks and rooms in octets are by LAN.
#[derive(Drop)]
pub struct SystemSetup {
    /// Its number.
    pub system: u8,
    /// Whether it is an end system.
    pub end: bool,
    /// Its entity title.
    pub title: Nsap,
    /// Its ports, each on another LAN.
    pub ports: Vec<Port>,
    /// Its routes.
    pub rows: Table,
    /// For each LAN how old a frame may be that arrives.
    pub bounds: Vec<u32>,
    /// For each LAN the most octets of a PDU in one frame.
    pub rooms: Vec<u32>,
    /// The initial lifetime of a PDU, in units of 500 ms.
    pub life: u8,
    /// The ticks from one hello to the next, and 0 for none.
    pub hello: u32,
    /// The holding time of its hellos and redirects, in seconds.
    pub hold: u16,
    /// The source routes of its units, which go by their number from 1.
    pub paths: Vec<Path>,
}

impl Model for SystemSetup {
    ghost use Rattle.clnp_system.specs.Setting.{Setting};

    ghost Value = { Setting };

    ghost view = { λ s. record {
      system = s.system;
      end = s.end;
      title = s.title;
      ports = s.ports.items;
      rows = s.rows;
      bounds = s.bounds.items;
      rooms = s.rooms.items;
      life = s.life;
      hello = s.hello;
      hold = s.hold;
      paths = s.paths.items;
    } };
}

impl SystemSetup {
    /// The bound of a LAN, in ticks.
    pub fn bound(&self, lan: u8) -> u32
        ensures { result ≡ bound_of self.now lan }
    {
        match self.bounds.get(usize::from(lan)) {
            Some(bound) => *bound,
            None => 0,
        }
    }

    /// The room of a LAN, in octets.
    pub fn room(&self, lan: u8) -> u32
        ensures { result ≡ room_of self.now lan }
    {
        match self.rooms.get(usize::from(lan)) {
            Some(room) => *room,
            None => 0,
        }
    }

    /// The own port on a LAN.
    pub fn port_on(&self, lan: u8) -> Option<Port>
        ensures { result ≡ port_on self.now lan }
    {
        port_on(&self.ports, lan)
    }

    /// The own title.
    pub(crate) fn own_title(&self) -> Nsap
        ensures { result ≡ self.now.title }
    {
        self.title
    }

    /// The own title is an address: a read for its clause alone.
    pub(crate) fn titled(&self)
        ensures { IsAddress self.now.title }
    {
        self.title.octets();
    }

    /// Whether the title is the own one.
    pub(crate) fn is_own_title(&self, title: &Nsap) -> bool
        ensures { result ≡ is_own_title self.now title.now }
    {
        *title == self.title
    }
}

/// The first of the ports on a LAN.
fn port_on(ports: &[Port], lan: u8) -> Option<Port>
    ensures { result ≡ find (λ port. port.lan == lan) ports.now }
{
    for port in ports {
        if port.lan == lan {
            return Some(*port);
        }
    }
    None
}
