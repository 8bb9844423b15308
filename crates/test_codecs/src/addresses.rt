//! Texts and the addresses that they stand for, counted by hand.
use nsap::NsapFault::{self, BadDigit, Empty, OddDigits, TooLong, TooShort};
use nsap::{Nsap, Prefix, Snpa};
use std::test::Fail;

const DIGITS_42: &str = "470005800000000000000000000000000000000A00";

/// Each fault of a text, with the digit at fault, and both limits of length.
#[test]
fn the_first_fault_is_told(rt: HostRuntime) {
    for (text, fault) in [("", Empty), ("4g", BadDigit(2)), ("49f", OddDigits)] {
        assert_eq!(rt; Nsap::read(text), Err(fault));
        assert_eq!(rt; Snpa::read(text), Err(fault));
        assert_eq!(rt; Prefix::read(text), Err(fault));
    }
    assert_eq!(rt; Nsap::read("g"), Err(BadDigit(1)));
    assert_eq!(rt; Nsap::read(DIGITS_42), Err(TooLong));
    assert_eq!(rt; Snpa::read("aabbccddee"), Err(TooShort));
    assert_eq!(rt; Snpa::read("aabbccddeeff00"), Err(TooLong));
    assert!(rt; Nsap::read(&DIGITS_42[2..]).is_ok() && Nsap::of(&[7; 21]).is_none());
}

/// What is printed stands in no clause of `Display`.
#[test]
fn addresses_print_in_lower_case(rt: HostRuntime) -> Result<(), Fail> {
    let alloc = rt.alloc();
    assert_eq!(rt; Nsap::read("490A00"), Nsap::read("490a00"));
    let snpa = Snpa::read("09002B000004")?;
    assert_eq!(rt; snpa.to_string(alloc)?.as_str(), "09002b000004");
    assert_eq!(rt; Nsap::read("490A00")?.to_string(alloc)?.as_str(), "490a00");
    assert_eq!(rt; Prefix::read("490A")?.to_string(alloc)?.as_str(), "490a");
    assert_eq!(rt; Prefix::read("-")?.to_string(alloc)?.as_str(), "");
    assert_eq!(rt; TooLong.to_string(alloc)?.as_str(), "too many digits");
    Ok(())
}

/// The last octet is the selector, and the others are the system; an SNPA is a group by one bit.
#[test]
fn an_address_has_a_system_and_a_selector(rt: HostRuntime) -> Result<(), Fail> {
    let address = Nsap::read("490a02")?;
    assert_eq!(rt; address.with_selector(0xff), Nsap::read("490Aff")?);
    assert!(rt; address.selector() == 2 && address.same_system(&Nsap::read("490a00")?));
    assert!(rt; Snpa::of([9, 0, 0x2b, 0, 0, 4]).is_group());
    Ok(())
}

/// A prefix that is longer than the address, and the empty one.
#[test]
fn a_prefix_covers_what_begins_with_it(rt: HostRuntime) -> Result<(), Fail> {
    let prefix = Prefix::read("490a")?;
    assert!(rt; prefix.covers(&Nsap::read("490a02")?) && !prefix.covers(&Nsap::read("49")?));
    assert!(rt; Prefix::read("-")?.covers(&Nsap::read("49")?));
    Ok(())
}
