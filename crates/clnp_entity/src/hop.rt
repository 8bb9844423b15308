//! Finding a hop (X.233, route PDU function; ISO 9542, route redirect and configuration information).

ghost use Rattle.std.specs.Prelude.{◌≡◌, ◌≤◌, ◌||◌, IfSome, Option, None, if◌then◌else◌};
ghost use Rattle.pdu_parts.specs.FirstFault.{or_else};
ghost use Rattle.clnp_route.specs.Routes.{next_hop};
ghost use Rattle.esis_tables.specs.Rows.{find_row, router_in};
ghost use Rattle.clnp_system.specs.Setting.{is_own_system};
ghost use Rattle.clnp_system.specs.Hops.{found_hop, group_hop, hop_of, hop_to, is_alone};
ghost use Rattle.clnp_system.specs.Tables.{rows_tables};
ghost use Rattle.clnp_entity.specs.Kept.{IsNear};

use crate::entity::NetEntity;
use clnp_system::SystemSetup;
use nsap::{ALL_END_SYSTEMS, Hop, Nsap, Port, Snpa};
use osi_base::Tick;

impl NetEntity {
    /// The hop to an entry of a source route.
    pub(crate) fn hop_to(&self, now: Tick, address: &Nsap) -> Option<Hop>
        requires { self.now.clock ≤ now }
        ensures value { result ≡ hop_to rows_tables self.now now address.now }
        ensures near { IfSome result (IsNear self.now.setup) }
    {
        if self.is_closed_to(address) {
            None
        } else {
            self.found_hop(now, address)
        }
    }

    /// The hop to an address.
    // Inlined: the hop, with its title, is a large value, which is moved once less for each PDU.
    #[inline(always)]
    pub(crate) fn hop_of(&self, now: Tick, address: &Nsap) -> Option<Hop>
        requires { self.now.clock ≤ now }
        ensures value { result ≡ hop_of rows_tables self.now now address.now }
        ensures near { IfSome result (IsNear self.now.setup) }
    {
        if self.is_closed_to(address) {
            return None;
        }
        match self.found_hop(now, address) {
            Some(hop) => Some(hop),
            None => self.last_hop(),
        }
    }

    /// The hop to an address by what is known: of an end system a redirect, a neighbour, a row or a router, of another one a
    /// neighbour or a row.
    // Inlined: the hop is moved once less.
    #[inline(always)]
    fn found_hop(&self, now: Tick, address: &Nsap) -> Option<Hop>
        requires { self.now.clock ≤ now }
        ensures value { result ≡ found_hop rows_tables self.now now address.now }
        ensures near { IfSome result (IsNear self.now.setup) }
    {
        if self.setup.end {
            self.end_hop(now, address)
        } else {
            self.onward_hop(now, address)
        }
    }

    /// Of an end system: a redirect, a neighbour, a row, or the known intermediate system of least title.
    fn end_hop(&self, now: Tick, address: &Nsap) -> Option<Hop>
        requires { self.now.clock ≤ now }
        ensures value { result ≡ or_else (find_row self.now.redirects.rows now address.now) (or_else (find_row self.now.neighbours.rows now address.now)
            (or_else (next_hop self.now.setup.rows address.now) (router_in self.now.neighbours.rows now))) }
        ensures near { IfSome result (IsNear self.now.setup) }
    {
        if let Some(hop) = self.redirect(now, address) {
            return Some(hop);
        }
        if let Some(hop) = self.neighbour(now, address) {
            return Some(hop);
        }
        match self.route(address) {
            Some(hop) => Some(hop),
            None => self.any_router(now),
        }
    }

    /// Of an intermediate system: a neighbour, or a row.
    fn onward_hop(&self, now: Tick, address: &Nsap) -> Option<Hop>
        requires { self.now.clock ≤ now }
        ensures value { result ≡ or_else (find_row self.now.neighbours.rows now address.now) (next_hop self.now.setup.rows address.now) }
        ensures near { IfSome result (IsNear self.now.setup) }
    {
        match self.neighbour(now, address) {
            Some(hop) => Some(hop),
            None => self.route(address),
        }
    }

    /// The hop that a redirect told.
    fn redirect(&self, now: Tick, address: &Nsap) -> Option<Hop>
        requires { self.now.clock ≤ now }
        ensures value { result ≡ find_row self.now.redirects.rows now address.now }
        ensures near { IfSome result (IsNear self.now.setup) }
    {
        if self.redirects.is_empty() {
            return None;
        }
        self.redirects.find(now, address)
    }

    /// The hop that a hello told.
    fn neighbour(&self, now: Tick, address: &Nsap) -> Option<Hop>
        requires { self.now.clock ≤ now }
        ensures value { result ≡ find_row self.now.neighbours.rows now address.now }
        ensures near { IfSome result (IsNear self.now.setup) }
    {
        if self.neighbours.is_empty() {
            return None;
        }
        self.neighbours.find(now, address)
    }

    /// The hop of a row.
    fn route(&self, address: &Nsap) -> Option<Hop>
        ensures value { result ≡ next_hop self.now.setup.rows address.now }
        ensures near { IfSome result (IsNear self.now.setup) }
    {
        next_hop(&self.setup, address)
    }

    /// The hop to the known intermediate system of least title.
    fn any_router(&self, now: Tick) -> Option<Hop>
        requires { self.now.clock ≤ now }
        ensures value { result ≡ router_in self.now.neighbours.rows now }
        ensures near { IfSome result (IsNear self.now.setup) }
    {
        self.neighbours.any_router(now)
    }

    /// All end systems on the port of an end system.
    fn last_hop(&self) -> Option<Hop>
        ensures value { result ≡ (if self.now.setup.end then group_hop self.now.setup.ports else None) }
        ensures near { IfSome result (IsNear self.now.setup) }
    {
        if self.setup.end {
            group_hop(&self.setup.ports)
        } else {
            None
        }
    }

    /// Whether no hop leads to the address: there is no port, or it is one of the own system.
    fn is_closed_to(&self, address: &Nsap) -> bool
        ensures { result ≡ (is_alone self.now.setup || is_own_system self.now.setup address.now) }
    {
        self.is_alone() || self.is_own_system(address)
    }

    /// Whether there is no port.
    fn is_alone(&self) -> bool
        ensures { result ≡ is_alone self.now.setup }
    {
        self.setup.ports.as_slice().is_empty()
    }

    /// Whether the address is one of the own system.
    pub(crate) fn is_own_system(&self, address: &Nsap) -> bool
        ensures { result ≡ is_own_system self.now.setup address.now }
    {
        address.same_system(&self.setup.title)
    }
}

/// The hop of the row of the longest prefix that covers the address.
fn next_hop(setup: &SystemSetup, address: &Nsap) -> Option<Hop>
    ensures { result ≡ next_hop setup.now.rows address.now }
{
    setup.rows.next(address)
}

/// All end systems of the first of the ports.
fn group_hop(ports: &[Port]) -> Option<Hop>
    ensures { result ≡ group_hop ports.now }
{
    let port = ports.first()?;
    let port = Port {
        lan: port.lan,
        snpa: Snpa::of(ALL_END_SYSTEMS),
    };
    Some(Hop { port, title: None })
}
