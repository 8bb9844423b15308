//! Options counted by hand: what is written and read, and routes and recordings at the edges of offsets, of entries and of space. Their faults stand in
//! `examples/rows/option-faults.frames`.

use clnp_options::{
    Opt, PADDING, PRIORITY, PduKind, QUALITY, RECORDING, SOURCE_ROUTING, TooSmall, advance_source,
    get, known_values, next_source_hop, nth, read_options, record_here, write_option,
};
use nsap::Nsap;
use std::test::Fail;

/// Two options behind one another, and one that does not fit and changes nothing: the octets by hand.
#[test]
fn what_is_written_is_read(rt: HostRuntime) -> Result<(), Fail> {
    let mut octets = [7; 6];
    assert_eq!(rt; write_option(&mut octets, 0, PRIORITY, &[5]), Ok(3));
    assert_eq!(rt; write_option(&mut octets, 3, PADDING, &[9]), Ok(6));
    assert_eq!(rt; octets, *b"\xcd\x01\x05\xcc\x01\x09");
    assert_eq!(rt; write_option(&mut octets, 4, PRIORITY, &[6]), Err(TooSmall));
    assert_eq!(rt; octets, *b"\xcd\x01\x05\xcc\x01\x09");
    let text = format!(in rt.alloc(); "{TooSmall}")?;
    assert_eq!(rt; text.as_str(), "an option that does not fit");
    let Ok(options) = read_options(&octets, PduKind::Dt, 18) else {
        return Err(Fail::from("options"));
    };
    assert_eq!(rt; get(&options, PADDING), Some([9].as_slice()));
    assert_eq!(rt; get(&options, QUALITY), None);
    let first = Opt {
        code: PRIORITY,
        value: &[5],
    };
    assert_eq!(rt; nth(&options, 0), Some(first));
    assert_eq!(rt; nth(&options, 2), None);
    let codes = options.iter().map(|option| option.code);
    assert!(rt; codes.eq([PRIORITY, PADDING].iter().copied()));
    Ok(())
}

/// The title at the offset of a source route and the offset behind it, or none where the route has expired. None where the value is
/// no source route.
fn passed(octets: &[u8]) -> Option<Option<(Nsap, u8)>> {
    if octets.len() > 200 {
        return None;
    }
    let Ok(options) = read_options(octets, PduKind::Dt, 18) else {
        return None;
    };
    known_values();
    let Some(value) = get(&options, SOURCE_ROUTING) else {
        return None;
    };
    let Some(title) = next_source_hop(value) else {
        return Some(None);
    };
    let mut held = [0; 23];
    if held.len() < value.len() {
        return None;
    }
    let moved = &mut held[..value.len()];
    moved.copy_from_slice(value);
    advance_source(moved);
    Some(Some((title, *moved.get(1)?)))
}

/// Each row has a source route, the title at its offset and the offset behind it, `-` where it has expired.
const ROUTES: &str = "c8050003026162 6162 6
c806010301610162 61 5
c806010501610162 62 7
c806010701610162 - -
c8050006026162 - -
c8170003146162636465666768696a6b6c6d6e6f7071727374 6162636465666768696a6b6c6d6e6f7071727374 24
";

/// Offsets at the first entry, at a later one and past the last: where a count that is one off shows.
#[test]
fn a_source_route_is_read_at_its_offset(rt: HostRuntime) -> Result<(), Fail> {
    let alloc = rt.alloc();
    for row in ROUTES.lines() {
        let (digits, wanted) = row.split_once(' ').ok_or("a row")?;
        let octets = hex::decode(alloc, digits)?;
        let text = match passed(&octets).ok_or("a source route")? {
            Some((title, behind)) => format!(in alloc; "{title} {behind}")?,
            None => format!(in alloc; "- -")?,
        };
        assert_eq!(rt; text.as_str(), wanted, "{row}");
    }
    Ok(())
}

/// The value of a recording after a title was recorded in it, or None where it is no recording.
fn recorded<'a>(octets: &[u8], title: &Nsap, held: &'a mut [u8]) -> Option<&'a [u8]> {
    if octets.len() > 200 {
        return None;
    }
    let Ok(options) = read_options(octets, PduKind::Dt, 18) else {
        return None;
    };
    known_values();
    let Some(value) = get(&options, RECORDING) else {
        return None;
    };
    if held.len() < value.len() {
        return None;
    }
    let after = &mut held[..value.len()];
    after.copy_from_slice(value);
    record_here(after, title);
    Some(after)
}

/// Each row has a recording of route, and its value once the title 6162 was recorded in it.
const RECORDINGS: &str = "cb050003000000 0006026162
cb0400030000 00ff0000
cb0701050163000000 01080163026162
cb0401050163 01ff0163
cb0300ff00 00ff00
cb020003 00ff
cb170018146162636465666768696a6b6c6d6e6f7071727374 00ff146162636465666768696a6b6c6d6e6f7071727374
";

/// A title that just fits, one that does not, and a recording that has ended.
#[test]
fn a_title_is_recorded_where_it_fits(rt: HostRuntime) -> Result<(), Fail> {
    let alloc = rt.alloc();
    let title = Nsap::of(b"ab").ok_or("a title")?;
    for row in RECORDINGS.lines() {
        let (digits, wanted) = row.split_once(' ').ok_or("a row")?;
        let mut held = [0; 23];
        let octets = hex::decode(alloc, digits)?;
        let value = recorded(&octets, &title, &mut held).ok_or("a recording")?;
        assert_eq!(rt; hex::encode(alloc, value)?.as_str(), wanted, "{row}");
    }
    Ok(())
}
