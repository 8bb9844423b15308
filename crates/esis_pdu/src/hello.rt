//! The PDUs of ES-IS as values: ESH, ISH and RD (ISO 9542, structure and encoding of PDUs).

ghost use Rattle.std.specs.Prelude.{◌≡◌, ◌≤◌, length, option_map, slice_get};
ghost use Rattle.pdu_parts.specs.Field.{address_at};
ghost use Rattle.esis_pdu.specs.Lent.{listed};

use nsap::{Nsap, Snpa};
use osi_base::Items;
use pdu_parts::address_at;

/// The addresses of an ESH, checked: `length, address` each. Contracts see them as the list `listed`.
#[derive(Clone, Copy, Debug, PartialEq, Eq)]
pub struct AddressesRef<'a> {
    count: u8,
    octets: &'a [u8],
}

/// A PDU that borrows from the octets that it was read from.
///
/// Holding times are in seconds. `options` is the checked options part: `code, length, value` each.
#[derive(Clone, Copy, Debug, PartialEq, Eq)]
pub enum HelloRef<'a> {
    /// End system hello: the addresses of the end system.
    Esh {
        hold: u16,
        addresses: AddressesRef<'a>,
        options: &'a [u8],
    },
    /// Intermediate system hello: the title of the intermediate system.
    Ish {
        hold: u16,
        title: Nsap,
        options: &'a [u8],
    },
    /// Redirect: where a better hop to the address is, with its title where that is an intermediate system.
    Rd {
        hold: u16,
        address: Nsap,
        snpa: Snpa,
        title: Option<Nsap>,
        options: &'a [u8],
    },
}

/// A PDU that owns what it holds. It has no options, since none is ever written.
///
/// Holding times are in seconds.
#[derive(Debug, PartialEq, Eq, Drop)]
pub enum Hello {
    /// End system hello: the addresses of the end system.
    Esh {
        hold: u16,
        addresses: Items<Nsap>,
    },
    /// Intermediate system hello: the title of the intermediate system.
    Ish {
        hold: u16,
        title: Nsap,
    },
    /// Redirect: where a better hop to the address is, with its title where that is an intermediate system.
    Rd {
        hold: u16,
        address: Nsap,
        snpa: Snpa,
        title: Option<Nsap>,
    },
}

impl<'a> AddressesRef<'a> {
    // The first `count` addresses of the octets.
    pub(crate) fn of(count: u8, octets: &'a [u8]) -> AddressesRef<'a>
        ensures count { result.count ≡ count }
        ensures octets { result.octets.now ≡ octets.now }
    {
        AddressesRef { count, octets }
    }

    /// The address at that position, counted from 0. None exactly where the list ends before it.
    #[tactic(auto, using(crate::proofs::Addresses::length_in))]
    pub fn nth(&self, index: usize) -> Option<Nsap>
        ensures value { result ≡ slice_get (listed self.now) index }
        ensures few { length (listed self.now) ≤ 255 }
    {
        if index >= usize::from(self.count) {
            return None;
        }
        let mut rest = self.octets;
        for _ in 0..index {
            let Some((_, after)) = address_at(rest) else {
                return None;
            };
            rest = after;
        }
        first_address(rest)
    }
}

/// The address at the front of the octets.
fn first_address(octets: &[u8]) -> Option<Nsap>
    ensures { result ≡ option_map (λ x. x.0) (address_at octets.now) }
{
    match address_at(octets) {
        Some((address, _)) => Some(address),
        None => None,
    }
}
