//! Where a PDU goes next (X.233, source routing).

ghost use Rattle.std.specs.Prelude.{◌≡◌, ◌==◌, Option, drop, slice_get};
ghost use Rattle.clnp_options.specs.SourceRoute.{HasSourceRoute, IsOnTheWay, IsSourceRoute, SourceRoute};
ghost use Rattle.clnp_header.specs.Values.{value_of};
ghost use Rattle.clnp_system.specs.SourceRouting.{IsRouteOf, aim_at, aim_behind, aim_of};
ghost use Rattle.clnp_system.specs.Written.{WasRead};

use crate::setup::SystemSetup;
use clnp_header::PduRef;
use clnp_options::{COMPLETE, SOURCE_ROUTING, advance_source, get, next_source_hop};
use nsap::Nsap;

/// Where a PDU goes next.
#[derive(Clone, Copy, Debug)]
pub enum Aim {
    /// To its destination.
    Free,
    /// To an entry of its source route.
    Entry { title: Nsap, complete: bool },
    /// Its source route does not pass here.
    Forbidden,
}

/// The most octets of a route.
const LONGEST_ROUTE: usize = 254;

impl SystemSetup {
    /// Where a PDU goes next, by its source route.
    pub fn aim(&self, pdu: &PduRef<'_>) -> Aim
        requires { WasRead pdu.now }
        ensures { (route : Option SourceRoute) → IsRouteOf (value_of pdu.now) route → result ≡ aim_of self.now route }
    {
        match get(&pdu.options, SOURCE_ROUTING) {
            Some(value) => self.aim_by(value),
            None => Aim::Free,
        }
    }

    /// Where a PDU with that route goes next.
    fn aim_by(&self, value: &[u8]) -> Aim
        requires { HasSourceRoute value.now }
        ensures { (route : SourceRoute) → IsSourceRoute value.now route → result ≡ aim_at self.now (route.kind == 1) route.ahead }
    {
        let complete = value[0] == COMPLETE;
        match next_source_hop(value) {
            None => Aim::Free,
            Some(title) if self.is_own_title(&title) => aim_behind(value, complete),
            Some(_) if complete => Aim::Forbidden,
            Some(title) => Aim::Entry { title, complete },
        }
    }
}

/// Where a PDU goes behind the entry at the offset.
fn aim_behind(value: &[u8], complete: bool) -> Aim
    requires { IsOnTheWay value.now }
    ensures { (route : SourceRoute) → IsSourceRoute value.now route → result ≡ aim_behind complete (drop 1 route.ahead) }
{
    match second_hop(value) {
        None => Aim::Free,
        Some(title) => Aim::Entry { title, complete },
    }
}

/// The title behind the entry at the offset.
fn second_hop(value: &[u8]) -> Option<Nsap>
    requires { IsOnTheWay value.now }
    ensures { (route : SourceRoute) → IsSourceRoute value.now route → result ≡ slice_get (drop 1 route.ahead) 0 }
{
    let mut copy = [0; LONGEST_ROUTE];
    let moved = &mut copy[..value.len()];
    moved.copy_from_slice(value);
    advance_source(moved);
    next_source_hop(moved)
}
