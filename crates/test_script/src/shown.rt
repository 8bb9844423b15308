//! Which ends are kept. The lines of PDUs stand in `examples/rows` (`pdus.frames`, `tpdus.frames`, `hellos.frames` and others).

use capture_show::{End, ExtendedEnds, show_nsap};
use nsap::Nsap;
use std::test::Fail;

/// 1,024 ends, and which one goes: the oldest, where naming makes young again.
#[test]
fn the_last_ends_that_were_named_are_kept(rt: HostRuntime) -> Result<(), Fail> {
    let address = Nsap::of(b"\x49\x0b\x01").ok_or("an address")?;
    let mut ends = ExtendedEnds::new(rt.alloc());
    for reference in 0..1024 {
        ends.name(End { reference, address })?;
    }
    for reference in [0, 1024] {
        ends.name(End { reference, address })?;
    }
    for (reference, kept) in [(0, true), (1, false), (2, true), (1023, true), (1024, true)] {
        assert_eq!(rt; ends.has(&End { reference, address }), kept);
    }
    let mut out = Vec::new(rt.alloc());
    show_nsap(&address, &mut out)?;
    assert_eq!(rt; out.as_slice(), b"49.0b.01".as_slice());
    Ok(())
}
