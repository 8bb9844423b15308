mod rows;

use self::rows::TABLE;
use osi_base::{Bytes, HeaderRefusal};
use std::alloc::Global;
use std::process::Abort;
use std::test::*;
use tpdu::{Format, Tpdu, TpduFault, TpduRef, read_first, write_tpdu};

fn octets_of(alloc: Global, digits: &str) -> Result<Vec<u8>, Fail> {
    if digits == "-" {
        return Ok(Vec::new(alloc));
    }
    Ok(hex::decode(alloc, digits)?)
}

fn references_of(alloc: Global, digits: &str) -> Result<Vec<u16>, Fail> {
    let mut references = Vec::new(alloc);
    for pair in octets_of(alloc, digits)?.chunks(2) {
        if let [high, low] = pair {
            references.push(u16::from_be_bytes([*high, *low]))?;
        }
    }
    Ok(references)
}

fn check_row(rt: &impl Abort, alloc: Global, row: &str) -> Result<(), Fail> {
    let (digits, row) = row.split_once(' ').ok_or("no octets")?;
    let (references, shown) = row.split_once(' ').ok_or("no references")?;
    let octets = octets_of(alloc, digits)?;
    let extended = references_of(alloc, references)?;
    let text = match read(&octets, &extended) {
        Ok((tpdu, rest)) => format!(in alloc; "{tpdu:?} {rest:?}")?,
        Err(fault) => format!(in alloc; "{:?} {}", fault.cause, fault.place)?,
    };
    assert_eq!(rt; text.as_str(), shown);
    Ok(())
}

fn read<'a>(octets: &'a [u8], extended: &[u16]) -> Result<(TpduRef<'a>, &'a [u8]), TpduFault> {
    read_first(octets, extended)
}

/// Each kind in both formats, in its least and its fullest form. Each cause at each kind stands in `examples/rows/tpdu-faults.frames`.
#[test]
fn each_row_of_the_table_is_read(rt: HostRuntime) -> Result<(), Fail> {
    assert_eq!(rt; TABLE.lines().count(), 38);
    for row in TABLE.lines() {
        check_row(&rt, rt.alloc(), row)?;
    }
    Ok(())
}

fn bytes(alloc: Global, octets: &[u8]) -> Result<Bytes, Fail> {
    Ok(Bytes::of(octets.to_vec(alloc)?))
}

/// What is written for the TPDU, where it is written.
fn written(alloc: Global, tpdu: &Tpdu, format: Format, sum: bool) -> Result<Vec<u8>, Fail> {
    Ok(
        write_tpdu(alloc, tpdu, format, sum)
            .ok()
            .ok_or("not written")?,
    )
}

/// An AK in extended formats, with the one parameter that is left out at 0. What else is written stands in `examples/rows/octets.sent`.
#[test]
fn an_acknowledgement_with_a_subsequence_is_written(rt: HostRuntime) -> Result<(), Fail> {
    let tpdu = Tpdu::Ak {
        destination: 1,
        number: 7,
        credit: 3,
        subsequence: 258,
        confirmation: None,
    };
    let octets = written(rt.alloc(), &tpdu, Format::Extended, false)?;
    let digits = hex::encode(rt.alloc(), &octets)?;
    assert_eq!(rt; digits.as_str(), "0d6000010000000700038a020102");
    Ok(())
}

/// A CR with a calling selector of so many octets.
fn request(alloc: Global, calling: usize) -> Result<Tpdu, Fail> {
    Ok(Tpdu::Cr {
        credit: 8,
        source: 1,
        format: Format::Normal,
        calling: Bytes::of(vec![in alloc; 0; calling]?),
        called: bytes(alloc, &[0xbb])?,
        size: Some(1024),
        preferred: None,
        extra: 1,
        version: None,
        classes: None,
        ack_time: None,
        octets: Bytes::of(Vec::new(alloc)),
    })
}

fn is_too_long(alloc: Global, tpdu: &Tpdu) -> bool {
    matches!(
        write_tpdu(alloc, tpdu, Format::Normal, false),
        Err(HeaderRefusal::TooLong)
    )
}

/// The least selector whose header passes a length indicator of 254.
#[test]
fn a_long_selector_is_too_long(rt: HostRuntime) -> Result<(), Fail> {
    let tpdu = request(rt.alloc(), 234)?;
    assert!(rt; is_too_long(rt.alloc(), &tpdu));
    Ok(())
}

/// A DT with so many octets of 255.
fn long_data(alloc: Global, count: usize) -> Result<Tpdu, Fail> {
    Ok(Tpdu::Dt {
        destination: 1,
        last: false,
        number: 5,
        octets: Bytes::of(vec![in alloc; 0xff; count]?),
    })
}

/// The number and the length of a DT, and whether it has a checksum.
fn shape_of(unit: &[u8]) -> Option<(u32, usize, bool)> {
    match read(unit, &[]) {
        Ok(
            (
                TpduRef::Dt {
                    number,
                    octets,
                    sum,
                    ..
                },
                _,
            ),
        ) => Some((number, octets.len(), sum)),
        _ => None,
    }
}

/// More octets than a sum of 16 bits has room for: the checksum still holds.
#[test]
fn long_data_is_summed(rt: HostRuntime) -> Result<(), Fail> {
    let tpdu = long_data(rt.alloc(), 70_000)?;
    let unit = written(rt.alloc(), &tpdu, Format::Normal, true)?;
    assert_eq!(rt; shape_of(&unit), Some((5, 70_000, true)));
    Ok(())
}
