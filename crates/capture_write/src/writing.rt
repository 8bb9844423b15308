//! The header and the records of a capture (libpcap file format 2.4).

ghost use Rattle.std.specs.Prelude.{◌≡◌, ◌++◌, ◌≤◌, length, OnOk};
ghost use Rattle.byteorder.specs.Endian.{big_bytes};
ghost use Rattle.capture_write.specs.Written.{header_octets, record_octets};

use byteorder::{BigEndian, ByteOrder};
use osi_base::{NoMemory, Tick};

/// The header: the magic number, version 2.4, zone and accuracy 0, the most octets of a frame, the link type Ethernet.
const HEADER: [u8; 24] = [
    0xa1, 0xb2, 0xc3, 0xd4, 0x00, 0x02, 0x00, 0x04, 0x00, 0x00, 0x00, 0x00, 0x00, 0x00, 0x00, 0x00,
    0x00, 0x00, 0xff, 0xff, 0x00, 0x00, 0x00, 0x01,
];

/// The octets of a number in a record.
const NUMBER: usize = 4;

/// Half a second, in microseconds.
const HALF_SECOND: u32 = 500_000;

/// Adds the header of a capture.
pub fn push_header(out: &mut Vec<u8>) -> Result<(), NoMemory>
    ensures { OnOk result (out.new.items ≡ out.old.items ++ header_octets) }
{
    out.extend_from_slice(&HEADER)?;
    Ok(())
}

/// Adds the record of a frame that was sent at that tick, whole.
pub fn push_frame(tick: Tick, octets: &[u8], out: &mut Vec<u8>) -> Result<(), NoMemory>
    requires { length octets.now ≤ 65535 }
    ensures { OnOk result (out.new.items ≡ out.old.items ++ record_octets (record { tick = tick; octets = octets.now })) }
{
    let length = octets.len() as u32;
    push_number(tick / 2, out)?;
    push_number(tick % 2 * HALF_SECOND, out)?;
    push_number(length, out)?;
    push_number(length, out)?;
    out.extend_from_slice(octets)?;
    Ok(())
}

/// Adds a number, its highest octet first.
fn push_number(number: u32, out: &mut Vec<u8>) -> Result<(), NoMemory>
    ensures { OnOk result (out.new.items ≡ out.old.items ++ big_bytes 4 number) }
{
    let mut octets = [0; NUMBER];
    BigEndian::write_u32(&mut octets, number);
    out.extend_from_slice(&octets)?;
    Ok(())
}
