//! Hellos that are read and written again. What is read of them, and their faults, stand in `examples/rows` (`hellos.frames`, `hello-faults.frames`).

use esis_pdu::{EsisFault, Hello, HelloRef, read_esis, write_esis};
use nsap::Nsap;
use osi_base::{HeaderRefusal, Items};
use std::alloc::Global;
use std::process::Abort;
use std::test::Fail;

/// Octets with checksums from outside: an ESH of two addresses and of none; the shortest ISH and the longest, at both ends of the holding time;
/// the shortest RD and the longest, without and with a title; an ESH of as many addresses as fit, and one of as many octets.
const WRITTEN: &str = "82120100020014bde40203490a0103490a02
820a010002000097d800
820b01000400011a080149
821e010004ffff2b48140102030405060708090a0b0c0d0e0f1011121314
8213010006010056ae01490602000000000b00
823a01000612343720140102030405060708090a0b0c0d0e0f10111213140609002b0000051415161718191a1b1c1d1e1f202122232425262728
82fe0100020014d2b27a01490149014901490149014901490149014901490149014901490149014901490149014901490149014901490149014901490149014901490149014901490149014901490149014901490149014901490149014901490149014901490149014901490149014901490149014901490149014901490149014901490149014901490149014901490149014901490149014901490149014901490149014901490149014901490149014901490149014901490149014901490149014901490149014901490149014901490149014901490149014901490149014901490149014901490149014901490149014901490149014901490149
82fe0100020014fa1a0c140102030405060708090a0b0c0d0e0f1011121314140102030405060708090a0b0c0d0e0f1011121314140102030405060708090a0b0c0d0e0f1011121314140102030405060708090a0b0c0d0e0f1011121314140102030405060708090a0b0c0d0e0f1011121314140102030405060708090a0b0c0d0e0f1011121314140102030405060708090a0b0c0d0e0f1011121314140102030405060708090a0b0c0d0e0f1011121314140102030405060708090a0b0c0d0e0f1011121314140102030405060708090a0b0c0d0e0f1011121314140102030405060708090a0b0c0d0e0f10111213140c0102030405060708090a0b0c
";

/// Octets that begin as no frame of a hello does, and their faults.
const FAULTS: &str = "- short
810a0100020000000000 version
000b010004000000000149 version
81090100020000000000 length
";

fn octets_of(alloc: Global, digits: &str) -> Result<Vec<u8>, Fail> {
    if digits == "-" {
        return Ok(Vec::new(alloc));
    }
    Ok(hex::decode(alloc, digits)?)
}

/// The same as a value that owns what it holds.
fn owned(alloc: Global, read: &HelloRef<'_>) -> Result<Hello, Fail> {
    match *read {
        HelloRef::Esh {
            hold,
            addresses,
            ..
        } => {
            let mut list = Vec::new(alloc);
            for index in 0..256 {
                let Some(address) = addresses.nth(index) else {
                    break;
                };
                list.push(address)?;
            }
            let addresses = Items::of(list);
            Ok(Hello::Esh { hold, addresses })
        }
        HelloRef::Ish { hold, title, .. } => Ok(Hello::Ish { hold, title }),
        HelloRef::Rd {
            hold,
            address,
            snpa,
            title,
            ..
        } => Ok(Hello::Rd {
            hold,
            address,
            snpa,
            title,
        }),
    }
}

fn read(octets: &[u8]) -> Result<HelloRef<'_>, EsisFault> {
    read_esis(octets)
}

/// The octets of the value in hexadecimal digits.
fn written(alloc: Global, hello: &Hello) -> Result<String, Fail> {
    Ok(hex::encode(alloc, &write_esis(alloc, hello)?)?)
}

/// What is written for the hello of these octets, or their fault.
fn told(alloc: Global, octets: &[u8]) -> Result<String, Fail> {
    match read(octets) {
        Ok(read) => written(alloc, &owned(alloc, &read)?),
        Err(fault) => Ok(fault.to_string(alloc)?),
    }
}

fn check_row(rt: &impl Abort, alloc: Global, digits: &str, wanted: &str) -> Result<(), Fail> {
    let octets = octets_of(alloc, digits)?;
    assert_eq!(*rt; told(alloc, &octets)?.as_str(), wanted, "{digits}");
    Ok(())
}

/// Reading and writing do not share a mistake: the octets come from outside.
#[test]
fn each_hello_is_written_as_it_is_read(rt: HostRuntime) -> Result<(), Fail> {
    assert_eq!(rt; WRITTEN.lines().count(), 8);
    for row in WRITTEN.lines() {
        check_row(&rt, rt.alloc(), row, row)?;
    }
    Ok(())
}

/// Which fault is first is an order; each prints as its word.
#[test]
fn each_first_fault_is_told(rt: HostRuntime) -> Result<(), Fail> {
    for row in FAULTS.lines() {
        let (digits, wanted) = row.split_once(' ').ok_or("no fault")?;
        check_row(&rt, rt.alloc(), digits, wanted)?;
    }
    assert_eq!(rt; EsisFault::Option.to_string(rt.alloc())?.as_str(), "option");
    Ok(())
}

/// Eleven addresses of 20 octets and one of 13 are one octet more than what is written above.
#[test]
fn one_octet_more_is_too_long(rt: HostRuntime) -> Result<(), Fail> {
    let alloc = rt.alloc();
    let mut addresses = Vec::new(alloc);
    for length in [20, 20, 20, 20, 20, 20, 20, 20, 20, 20, 20, 13] {
        addresses.push(Nsap::of(&[1; 20][..length]).ok_or("no address")?)?;
    }
    let hello = Hello::Esh {
        hold: 20,
        addresses: Items::of(addresses),
    };
    assert!(rt; matches!(write_esis(alloc, &hello), Err(HeaderRefusal::TooLong)));
    Ok(())
}
