//! Hellos that are heard, and what is known by them, counted by hand. What a router shows of it stands in `examples/rows/neighbours.rows`, the limit of the
//! table in `examples/hello-full.osi` and `examples/redirect-full.osi`.
mod redirects;

ghost use Rattle.std.specs.Prelude.{◌≡◌, ◌≤◌, true};
ghost use Rattle.esis_pdu.specs.Lent.{value_of};
ghost use Rattle.esis_tables.specs.Told.{IsConfiguration};

use esis_pdu::{HelloRef, read_esis};
use esis_tables::{HearRefusal, Neighbours};
use nsap::{Hop, Nsap, NsapFault, Port, Snpa};
use osi_base::Tick;
use std::process::Abort;

type Heard = Result<(), HearRefusal>;

/// An ESH of 6300 alone, with 20 seconds.
const ONE: &[u8] = b"\x82\x0d\x01\x00\x02\x00\x14\x00\x00\x01\x02\x63\x00";

/// ISHs of 6302, 6301 and 63, with 20, 10 and 5 seconds.
const GREATEST: &[u8] = b"\x82\x0c\x01\x00\x04\x00\x14\x00\x00\x02\x63\x02";

const MIDDLE: &[u8] = b"\x82\x0c\x01\x00\x04\x00\x0a\x00\x00\x02\x63\x01";

const LEAST: &[u8] = b"\x82\x0b\x01\x00\x04\x00\x05\x00\x00\x01\x63";

/// Titles compare as lists of octets, a shorter one first; an ESH makes no router.
#[test]
fn the_router_of_least_title_is_told(rt: HostRuntime) {
    let mut table = Neighbours::new(rt.alloc());
    hears(&rt, &mut table, 0, ONE, 4);
    assert_eq!(rt; router(&table, 0), None);
    hears(&rt, &mut table, 0, MIDDLE, 2);
    hears(&rt, &mut table, 0, LEAST, 1);
    hears(&rt, &mut table, 0, GREATEST, 3);
    is_routed(&rt, &table, 9, 1, "63");
    is_routed(&rt, &table, 10, 2, "6301");
    is_routed(&rt, &table, 20, 3, "6302");
    assert_eq!(rt; router(&table, 40), None);
}

/// Where an allocation fails, as the first or the second may be made to, the hello is not heard and the next one is.
#[test]
fn a_hello_without_memory_is_not_heard(rt: HostRuntime) {
    let mut table = Neighbours::new(rt.alloc());
    if hear(&mut table, 0, ONE, 1).is_err() {
        finds(&rt, &table, 0, None);
        assert!(rt; table.is_empty());
        hears(&rt, &mut table, 0, ONE, 1);
    }
    finds(&rt, &table, 39, Some(hop(1, None)));
    table.tick(40);
    assert!(rt; table.is_empty());
}

/// A sweep over rows that are due one after another, one of them renewed in between.
#[test]
fn only_the_rows_that_are_past_go(rt: HostRuntime) {
    let mut table = Neighbours::new(rt.alloc());
    hears(&rt, &mut table, 0, LEAST, 3);
    hears(&rt, &mut table, 0, MIDDLE, 2);
    hears(&rt, &mut table, 0, ONE, 1);
    table.tick(9);
    is_routed(&rt, &table, 9, 3, "63");
    table.tick(10);
    is_routed(&rt, &table, 10, 2, "6301");
    hears(&rt, &mut table, 11, MIDDLE, 4);
    table.tick(20);
    is_routed(&rt, &table, 20, 4, "6301");
    table.tick(31);
    assert_eq!(rt; router(&table, 31), None);
    finds(&rt, &table, 39, Some(hop(1, None)));
    table.tick(40);
    assert!(rt; table.is_empty());
}

/// A hop by a port of that LAN.
fn hop(lan: u8, title: Option<Nsap>) -> Hop {
    let snpa = Snpa::of([2, 0, 0, 0, 0, lan]);
    Hop {
        port: Port { lan, snpa },
        title,
    }
}

/// The hop to an address.
fn find(table: &Neighbours, now: Tick, address: &str) -> Result<Option<Hop>, NsapFault>
    requires { table.now.clock ≤ now }
{
    Ok(table.find(now, &Nsap::read(address)?))
}

/// The hop to the intermediate system of least title.
fn router(table: &Neighbours, now: Tick) -> Option<Hop>
    requires { table.now.clock ≤ now }
{
    table.any_router(now)
}

/// Asserts that these octets are heard.
fn hears(rt: &impl Abort, table: &mut Neighbours, now: Tick, octets: &[u8], lan: u8)
    requires { table.old.clock ≤ now }
    ensures { table.new.clock ≤ now }
{
    assert_eq!(*rt; hear(table, now, octets, lan), Ok(()), "at {now}");
}

/// Asserts what the hop to 6300 is.
fn finds(rt: &impl Abort, table: &Neighbours, now: Tick, hop: Option<Hop>)
    requires { table.now.clock ≤ now }
{
    assert_eq!(*rt; find(table, now, "6300"), Ok(hop), "at {now}");
}

/// Asserts that the intermediate system of least title is this one, on that LAN.
fn is_routed(rt: &impl Abort, table: &Neighbours, now: Tick, lan: u8, title: &str)
    requires { table.now.clock ≤ now }
{
    let title = Nsap::read(title).expect(rt, "a title");
    assert_eq!(*rt; router(table, now), Some(hop(lan, Some(title))));
}

/// Hears the ESH or ISH of these octets, which comes from a port of that LAN.
fn hear(table: &mut Neighbours, now: Tick, octets: &[u8], lan: u8) -> Heard
    requires { table.old.clock ≤ now }
    ensures { table.new.clock ≤ now }
{
    match read_esis(octets) {
        Ok(hello) if is_configuration(&hello) => table.hear(now, &hello, hop(lan, None).port),
        _ => Err(HearRefusal::NoMemory),
    }
}

/// Whether it is an ESH or an ISH.
fn is_configuration(hello: &HelloRef<'_>) -> bool
    ensures { result ≡ true → IsConfiguration (value_of hello.now) }
{
    match hello {
        HelloRef::Esh { .. } | HelloRef::Ish { .. } => true,
        HelloRef::Rd { .. } => false,
    }
}
