//! Redirects that are heard, counted by hand.

ghost use Rattle.std.specs.Prelude.{◌≡◌, ◌≤◌, true};
ghost use Rattle.esis_pdu.specs.Lent.{value_of};
ghost use Rattle.esis_tables.specs.Told.{IsRedirect};

use super::{Heard, hop};
use esis_pdu::{HelloRef, read_esis};
use esis_tables::{HearRefusal, Redirects};
use nsap::{Hop, Nsap, NsapFault};
use osi_base::Tick;
use std::process::Abort;

/// RDs of 6300 with 20 seconds: to an end system on LAN 1, and to the intermediate system 6301 on LAN 2.
const TO_AN_END: &[u8] =
    b"\x82\x14\x01\x00\x06\x00\x14\x00\x00\x02\x63\x00\x06\x02\x00\x00\x00\x00\x01\x00";

const TO_A_ROUTER: &[u8] =
    b"\x82\x16\x01\x00\x06\x00\x14\x00\x00\x02\x63\x00\x06\x02\x00\x00\x00\x00\x02\x02\x63\x01";

/// To an end system and to a router, and the last tick of each.
#[test]
fn a_redirect_tells_the_hop(rt: HostRuntime) {
    let title = Nsap::read("6301").expect(&rt, "a title");
    let mut table = Redirects::new(rt.alloc());
    hears(&rt, &mut table, 0, TO_AN_END, 1);
    finds(&rt, &table, 39, Some(hop(1, None)));
    finds(&rt, &table, 40, None);
    hears(&rt, &mut table, 1, TO_A_ROUTER, 2);
    finds(&rt, &table, 40, Some(hop(2, Some(title))));
}

/// The hop to an address.
fn find(table: &Redirects, now: Tick, address: &str) -> Result<Option<Hop>, NsapFault>
    requires { table.now.clock ≤ now }
{
    Ok(table.find(now, &Nsap::read(address)?))
}

/// Asserts that these octets are heard.
fn hears(rt: &impl Abort, table: &mut Redirects, now: Tick, octets: &[u8], lan: u8)
    requires { table.old.clock ≤ now }
    ensures { table.new.clock ≤ now }
{
    assert_eq!(*rt; hear(table, now, octets, lan), Ok(()), "at {now}");
}

/// Asserts what the hop to 6300 is.
fn finds(rt: &impl Abort, table: &Redirects, now: Tick, hop: Option<Hop>)
    requires { table.now.clock ≤ now }
{
    assert_eq!(*rt; find(table, now, "6300"), Ok(hop), "at {now}");
}

/// Hears the RD of these octets, which comes on that LAN.
fn hear(table: &mut Redirects, now: Tick, octets: &[u8], lan: u8) -> Heard
    requires { table.old.clock ≤ now }
    ensures { table.new.clock ≤ now }
{
    match read_esis(octets) {
        Ok(hello) if is_redirect(&hello) => table.hear(now, &hello, lan),
        _ => Err(HearRefusal::NoMemory),
    }
}

/// Whether it is an RD.
fn is_redirect(hello: &HelloRef<'_>) -> bool
    ensures { result ≡ true → IsRedirect (value_of hello.now) }
{
    match hello {
        HelloRef::Rd { .. } => true,
        HelloRef::Esh { .. } | HelloRef::Ish { .. } => false,
    }
}
