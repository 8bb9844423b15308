//! A capture of one frame and a part of another, which was written by hand, and what is shown of it.

use capture_decode::decode;
use osi_base::{MemSink, MemSource, Status};
use std::test::Fail;

/// A little-endian capture of one DT PDU with the data `hello`, and ten octets of another record.
const HELLO: &[u8] =
    b"\xd4\xc3\xb2\xa1\x02\x00\x04\x00\0\0\0\0\0\0\0\0\xff\xff\x00\x00\x01\x00\x00\x00\
    \x01\x00\x00\x00\x02\x00\x00\x00\x27\x00\x00\x00\x27\x00\x00\x00\
    \x02\x00\x00\x00\x00\x0b\x02\x00\x00\x00\x00\x0a\x00\x19\xfe\xfe\x03\
    \x81\x11\x01\x20\x1c\x00\x16\x15\x53\x03\x49\x0b\x02\x03\x49\x0a\x02hello\
    \0\0\0\0\0\0\0\0\0\0";

/// What is shown of it.
const SHOWN: &[u8] = b"1 1 2 39 dt 49.0b.02 49.0a.02 32 - - - 5\nrefused 79 short\n";

/// A part that lies in one piece is not copied: whole, octet by octet, and cut inside each part.
#[test]
fn a_capture_gives_its_lines_in_whatever_pieces_it_comes(rt: HostRuntime) -> Result<(), Fail> {
    let all = [1; 100].as_slice();
    for cuts in [&[] as &[usize], all, &[23, 2, 15, 20]] {
        let mut source = MemSource::new(rt.alloc(), HELLO, cuts, &[])?;
        let mut sink = MemSink::new(rt.alloc(), &[])?;
        let status = decode(rt.alloc(), &mut source, &mut sink);
        assert_eq!(rt; status, Status::RefusedCapture);
        assert_eq!(rt; sink.written(), SHOWN);
    }
    Ok(())
}
