//! A frame that is written and read. What is no frame stands in `examples/rows/lan-frames.frames`.

use lan_frame::{FrameRef, read_frame, write_frame};
use nsap::Snpa;
use std::test::Fail;

/// A frame of less than 60 octets is padded on the wire, so what stands behind its length is not read.
#[test]
fn a_frame_is_written_and_read_with_padding_behind_it(rt: HostRuntime) -> Result<(), Fail> {
    let to = Snpa::of([0x02, 0x00, 0x00, 0x00, 0x00, 0x0b]);
    let from = Snpa::of([0x02, 0x00, 0x00, 0x00, 0x00, 0x0a]);
    let pdu = [0x81; 18];
    let mut octets = write_frame(&to, &from, pdu.to_vec(rt.alloc())?)?;
    let header = b"\x02\0\0\0\0\x0b\x02\0\0\0\0\x0a\x00\x15\xfe\xfe\x03";
    assert_eq!(rt; &octets[..17], header.as_slice());
    assert_eq!(rt; octets.len(), 35);
    octets.extend_from_slice(&[0x00; 25])?;
    let pdu = pdu.as_slice();
    assert_eq!(rt; read_frame(&octets), Some(FrameRef { to, from, pdu }));
    Ok(())
}
