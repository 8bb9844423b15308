use pdu_parts::{are_parameters, push_field, push_number, push_parameter};
use std::test::Fail;

/// Each writer once with ample memory, the octets by hand.
#[test]
fn parts_are_read_and_written(rt: HostRuntime) -> Result<(), Fail> {
    let mut octets = Vec::new(rt.alloc());
    push_parameter(&mut octets, 0xcd, &[5])?;
    push_field(&mut octets, b"\x49\x0a\x00")?;
    push_number(&mut octets, 0x1234)?;
    assert_eq!(rt;
        octets.as_slice(),
        b"\xcd\x01\x05\x03\x49\x0a\x00\x12\x34".as_slice()
    );
    assert!(rt; are_parameters(&octets[..3]));
    assert!(rt; !are_parameters(&octets));
    Ok(())
}
