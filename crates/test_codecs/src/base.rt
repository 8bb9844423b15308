//! What no clause says: that calls succeed with ample memory, and what streams give and take; one header with its checksum.
use osi_base::{
    Address, Bytes, Failed, Floating, Items, MemSink, MemSource, Octets, PlainSink, PlainSource,
    Sink, Source, StdSink, StdSource, Unit, WriteRefusal, fletcher_ok, fletcher_seal,
};
use std::alloc::Global;
use std::io::{self, BufWriter, ErrorKind, Read};
use std::test::Fail;

const HEADER: &[u8; 17] = b"\x81\x11\x01\x20\x1c\x00\x16\x15\x53\x03\x49\x0b\x02\x03\x49\x0a\x02";

#[derive(Drop)]
struct Broken;

impl Read for Broken {
    fn read(&mut self, _: &mut [u8]) -> io::Result<usize> {
        Err(ErrorKind::Other.into())
    }
}

/// The double of a source, on which other tests rest: it cuts and fails where it is told to.
#[test]
fn a_read_in_memory_is_cut_and_fails_by_its_number(rt: HostRuntime) -> Result<(), Fail> {
    let rows: [(&[usize], &[u32], &[Result<usize, Failed>]); 2] = [
        (&[3, 0, 2], &[2], &[Ok(3), Err(Failed), Ok(2), Ok(3), Ok(0)]),
        (&[0], &[], &[Ok(1), Ok(7), Ok(0)]),
    ];
    for (cuts, fails, answers) in rows {
        let mut source = MemSource::new(rt.alloc(), b"8 octets", cuts, fails)?;
        for answer in answers {
            assert_eq!(rt; source.read(&mut [0; 16]), *answer);
        }
    }
    Ok(())
}

/// The cursor past its end, and an address whose length passes its octets.
#[test]
fn octets_come_in_order(rt: HostRuntime) {
    let mut octets = Octets::new(b"\x01\x02\x03");
    assert_eq!(rt; octets.take(1), Some(b"\x01".as_slice()));
    assert_eq!(rt; [octets.number(2), octets.number(1)], [Some(0x0203), None]);
    let mut address = Address::of(&[7; 20]);
    address.length = 25;
    assert_eq!(rt; address.as_slice(), [7; 20].as_slice());
}

/// What std's streams do stands in no clause: each kind of source once.
#[test]
fn sources_give(rt: HostRuntime) -> Result<(), Fail> {
    let mut into = [0; 4];
    let mut source = StdSource::new(b"ab".as_slice().chain(Broken));
    assert_eq!(rt; source.read(&mut into), Ok(2));
    assert_eq!(rt; source.read(&mut into), Err(Failed));
    assert_eq!(rt; into, *b"ab\0\0");
    assert_eq!(rt; PlainSource::new(rt.alloc(), b"xy")?.read(&mut into), Ok(2));
    Ok(())
}

/// Each kind of sink once, and one that is full.
#[test]
fn sinks_take(rt: HostRuntime) -> Result<(), Fail> {
    let mut into = [0; 2];
    let mut held = Vec::new(rt.alloc());
    assert_eq!(rt; StdSink::new(&mut held).write(b"abc"), Ok(3));
    assert_eq!(rt; held.as_slice(), b"abc".as_slice());
    let mut full = StdSink::new(into.as_mut_slice());
    assert_eq!(rt; [full.write(b"abc"), full.write(b"c")], [Ok(2), Ok(0)]);
    assert_eq!(rt; PlainSink::new(rt.alloc()).write(b"abc"), Ok(3));
    assert_eq!(rt; MemSink::new(rt.alloc(), &[2])?.write(b"abc"), Ok(3));
    Ok(())
}

/// A sink whose buffer cannot empty.
#[test]
fn a_write_fails(rt: HostRuntime) -> Result<(), Fail> {
    let mut none = [0; 0];
    let writer = BufWriter::with_capacity(rt.alloc(), 2, none.as_mut_slice())?;
    let mut stuck = StdSink::new(writer);
    assert_eq!(rt; stuck.write(b"a"), Ok(1));
    assert_eq!(rt; stuck.write(b"bc"), Err(WriteRefusal::Failed));
    Ok(())
}

#[test]
fn lists_that_differ_are_not_equal(rt: HostRuntime) -> Result<(), Fail> {
    assert!(rt; Items::of([1].to_vec(rt.alloc())?) != Items::of([2].to_vec(rt.alloc())?));
    Ok(())
}

fn unit(alloc: Global, to: u8) -> Result<Unit<u8>, Fail> {
    Ok(Unit {
        from: 1,
        to,
        octets: Bytes::of([7].to_vec(alloc)?),
    })
}

fn has(alloc: Global, floating: &Floating<u8>, to: u8) -> Result<bool, Fail> {
    Ok(floating.has(&unit(alloc, to)?))
}

/// A unit goes one tick after its bound, and not at it.
#[test]
fn old_units_are_given_up(rt: HostRuntime) -> Result<(), Fail> {
    let alloc = rt.alloc();
    let mut floating = Floating::new(alloc, 2);
    floating.add(3, unit(alloc, 2)?)?;
    assert!(rt; !floating.is_full());
    floating.add(4, unit(alloc, 5)?)?;
    assert!(rt; floating.is_full());
    assert!(rt; has(alloc, &floating, 2)? && !has(alloc, &floating, 3)?);
    floating.drop_older(5, 2);
    assert!(rt; has(alloc, &floating, 2)?);
    floating.drop_older(6, 2);
    assert!(rt; !has(alloc, &floating, 2)? && has(alloc, &floating, 5)?);
    Ok(())
}

/// A checksum from outside, and one octet off.
#[test]
fn a_changed_header_is_not_ok(rt: HostRuntime) {
    let mut header = *HEADER;
    assert!(rt; fletcher_ok(&header));
    header[4] = 0x1f;
    assert!(rt; !fletcher_ok(&header));
}

/// The octets of the checksum come from outside.
#[test]
fn the_header_is_sealed_by_1553(rt: HostRuntime) {
    let mut header = *HEADER;
    header[7..9].fill(0);
    fletcher_seal(&mut header, 7);
    assert_eq!(rt; &header, HEADER);
}

/// As many octets of 255 as there may be: the sums do not wrap.
#[test]
fn the_largest_octets_pass(rt: HostRuntime) {
    assert!(rt; fletcher_ok(&[255; 65_535]));
}
