//! PDUs that are read and written again. What is read of them, and their faults, stand in `examples/rows` (`pdus.frames`, `pdu-faults.rows`).

use clnp_header::{Fault, OwnOpt, Pdu, PduRef, lower_lifetime, read_pdu, write_pdu};
use osi_base::{Bytes, Items};
use std::alloc::Global;
use std::process::Abort;
use std::test::Fail;

/// Each row has the octets of a PDU, the length of its header, whether its checksum is used, whether a report is wanted, and what is written for it; or
/// octets that begin as no frame of a PDU does, and the reason, the place and the reporting of their first fault.
///
/// A DT PDU with its checksum from outside, and without one; the last segment of one that wants a report, with a priority; an ER PDU, of whose flags
/// those that mean nothing are not told and not written.
const TABLE: &str =
    "811101201c0016155303490b0203490a0268656c6c6f 17 true false 811101201c0016155303490b0203490a0268656c6c6f
811101201c0016000003490b0203490a0268656c6c6f 17 false false 811101201c0016000003490b0203490a0268656c6c6f
811a0120bc0022000003490b0203490a0200070008002acd01056162636465666768 26 false true 811a0120bc0022000003490b0203490a0200070008002acd01056162636465666768
81150120010015000003490b0203490a02c102a004 21 false false 81150120010015000003490b0203490a02c102a004
81150120210015000003490b0203490a02c102a004 21 false false 81150120010015000003490b0203490a02c102a004
81150120410015000003490b0203490a02c102a004 21 false false 81150120010015000003490b0203490a02c102a004
81150120610015000003490b0203490a02c102a004 21 false false 81150120010015000003490b0203490a02c102a004
801a0120bc002200 06 0 false
801a0120bc0022000003490b0203490a0200070008002acd01056162636465666768 04 1 false
800c0120bc0022000003490b0203490a0200070008002acd01056162636465666768 04 1 false
";

/// The same as a value that owns what it holds.
fn owned(alloc: Global, read: &PduRef<'_>) -> Result<Pdu, Fail> {
    let mut options = Vec::new(alloc);
    for option in read.options.iter() {
        let value = Bytes::of(option.value.to_vec(alloc)?);
        options.push(OwnOpt {
            code: option.code,
            value,
        })?;
    }
    Ok(Pdu {
        kind: read.kind,
        destination: read.destination,
        source: read.source,
        lifetime: read.lifetime,
        checksum_used: read.checksum_used,
        report: read.report,
        segment: read.segment,
        options: Items::of(options),
        body: Bytes::of(read.body.to_vec(alloc)?),
    })
}

fn read(octets: &[u8]) -> Result<PduRef<'_>, Fault> {
    read_pdu(octets)
}

/// The octets of the value in hexadecimal digits.
fn written(alloc: Global, pdu: &Pdu) -> Result<String, Fail> {
    Ok(hex::encode(alloc, &write_pdu(alloc, pdu)?)?)
}

/// What is told of a PDU.
fn told(alloc: Global, read: &PduRef<'_>) -> Result<String, Fail> {
    let written = written(alloc, &owned(alloc, read)?)?;
    let (length, used, report) = (read.header.len(), read.checksum_used, read.report);
    Ok(format!(in alloc; "{length} {used} {report} {written}")?)
}

/// What is told of a fault.
fn told_fault(alloc: Global, fault: Fault) -> Result<String, Fail> {
    let (reason, place, reportable) = (fault.reason.code(), fault.place, fault.reportable);
    Ok(format!(in alloc; "{reason:02x} {place} {reportable}")?)
}

fn check_row(rt: &impl Abort, alloc: Global, row: &str) -> Result<(), Fail> {
    let (digits, wanted) = row.split_once(' ').ok_or("a row")?;
    let octets = hex::decode(alloc, digits)?;
    let text = match read(&octets) {
        Ok(read) => told(alloc, &read)?,
        Err(fault) => told_fault(alloc, fault)?,
    };
    assert_eq!(*rt; text.as_str(), wanted, "{row}");
    Ok(())
}

/// Whole PDUs both ways, and faults of the first octet.
#[test]
fn each_pdu_is_written_as_it_is_read(rt: HostRuntime) -> Result<(), Fail> {
    assert_eq!(rt; TABLE.lines().count(), 10);
    for row in TABLE.lines() {
        check_row(&rt, rt.alloc(), row)?;
    }
    Ok(())
}

/// Lowers the lifetime, where the octets are a PDU that has as much.
fn lower(octets: &mut [u8], by: u8) -> bool {
    let Ok(read) = read_pdu(octets) else {
        return false;
    };
    if read.lifetime < by {
        return false;
    }
    lower_lifetime(octets, by);
    true
}

/// Each row has a PDU, by how much its lifetime is lowered, and the PDU behind it: with a checksum from outside, and without one.
const LOWERED: &str =
    "811101201c0016155303490b0203490a0268656c6c6f 5 8111011b1c00162e3f03490b0203490a0268656c6c6f
811a0120bc0022000003490b0203490a0200070008002acd01056162636465666768 32 811a0100bc0022000003490b0203490a0200070008002acd01056162636465666768
";

/// The checksum is adjusted and not counted anew, and has to hold afterwards.
#[test]
fn a_lowered_lifetime_keeps_the_pdu(rt: HostRuntime) -> Result<(), Fail> {
    for row in LOWERED.lines() {
        let (before, row) = row.split_once(' ').ok_or("a row")?;
        let (by, after) = row.split_once(' ').ok_or("a row")?;
        let mut octets = hex::decode(rt.alloc(), before)?;
        assert!(rt; !lower(&mut octets, 33));
        assert!(rt; lower(&mut octets, by.parse()?));
        assert_eq!(rt; hex::encode(rt.alloc(), &octets)?.as_str(), after);
    }
    Ok(())
}
