//! Rows that are added and refused, and the hops that they give, counted by hand.
use clnp_route::{AddRefusal, Table};
use nsap::{Hop, Nsap, Port, Prefix, Snpa};
use std::test::Fail;

fn hop(lan: u8) -> Hop {
    Hop {
        port: Port {
            lan,
            snpa: Snpa::of([2, 0, 0, 0, 0, lan]),
        },
        title: None,
    }
}

/// Prefixes that cover one another, added out of order, and the empty one.
#[test]
fn the_longest_prefix_gives_the_hop(rt: HostRuntime) -> Result<(), Fail> {
    let mut table = Table::new(rt.alloc());
    assert_eq!(rt; table.next(&Nsap::read("490a01")?), None);
    for (lan, prefix) in [(1, "49"), (2, "490a01"), (3, "490a"), (4, "490b01")] {
        assert_eq!(rt; table.add(Prefix::read(prefix)?, hop(lan)), Ok(()));
    }
    for (address, lan) in [("490a01", 2), ("490a02", 3), ("490c01", 1), ("490a0101", 2)] {
        assert_eq!(rt; table.next(&Nsap::read(address)?), Some(hop(lan)));
    }
    assert_eq!(rt; table.next(&Nsap::read("47490a")?), None);
    assert_eq!(rt; table.add(Prefix::read("-")?, hop(5)), Ok(()));
    assert_eq!(rt; table.next(&Nsap::read("47490a")?), Some(hop(5)));
    Ok(())
}

/// The limit of the table, and which refusal is first.
#[test]
fn a_prefix_twice_and_a_257th_are_refused(rt: HostRuntime) -> Result<(), Fail> {
    let alloc = rt.alloc();
    let mut table = Table::new(alloc);
    for first in 0..16u8 {
        for last in 0..16u8 {
            let text = format!(in alloc; "49{first:02x}{last:02x}")?;
            assert_eq!(rt; table.add(Prefix::read(text.as_str())?, hop(last)), Ok(()));
        }
    }
    assert_eq!(rt;
        table.add(Prefix::read("490f0f")?, hop(1)),
        Err(AddRefusal::Duplicate)
    );
    assert_eq!(rt;
        table.add(Prefix::read("490f10")?, hop(1)),
        Err(AddRefusal::Full)
    );
    assert_eq!(rt; table.next(&Nsap::read("490f0f")?), Some(hop(15)));
    Ok(())
}
