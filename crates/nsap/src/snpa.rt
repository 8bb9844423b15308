//! The address of a system's point of attachment to a LAN (ISO 9542, subnetwork addresses).
ghost use Rattle.std.specs.Prelude.{◌≡◌, ◌==◌, ◌%◌, length, Some, slice_index};
ghost use Rattle.hex.specs.Hex.{encode_lower};
ghost use Rattle.nsap.specs.Text.{snpa_of_text};

use crate::{NsapFault, text};
use std::fmt;
use std::marker::Model;

/// How many octets an SNPA has.
const SNPA_OCTETS: usize = 6;

/// The group of all end systems (ISO 9542, multicast addresses), as the octets of its SNPA.
pub const ALL_END_SYSTEMS: [u8; SNPA_OCTETS] = [0x09, 0x00, 0x2b, 0x00, 0x00, 0x04];

/// The group of all intermediate systems (ISO 9542, multicast addresses), as the octets of its SNPA.
pub const ALL_INTERMEDIATE_SYSTEMS: [u8; SNPA_OCTETS] = [0x09, 0x00, 0x2b, 0x00, 0x00, 0x05];

/// The bit of the first octet that tells a group of systems from one.
const GROUP: u8 = 0x01;

/// An SNPA address of 6 octets.
#[derive(Clone, Copy, Debug)]
pub struct Snpa {
    octets: [u8; SNPA_OCTETS],
}

// An SNPA has 6 octets.
impl Model for Snpa {
    ghost use Rattle.std.specs.Prelude.{◌≡◌, List, ℕ, length};

    ghost Value = { List ℕ };

    ghost view = { λ a. a.octets };

    ghost invariant = { λ a. length a.octets ≡ 6 };

    ghost inverse = { λ xs. record { octets = xs } };
}

impl Snpa {
    /// The SNPA of these octets.
    pub fn of(octets: [u8; SNPA_OCTETS]) -> Snpa
        ensures { result ≡ octets }
    {
        Snpa { octets }
    }

    /// The SNPA that the text stands for, of 12 hexadecimal digits in either case.
    ///
    /// The first fault in the order of [`NsapFault`].
    pub fn read(text: &str) -> Result<Snpa, NsapFault>
        ensures { result ≡ snpa_of_text text.now }
    {
        text::check(text, 2 * SNPA_OCTETS, 2 * SNPA_OCTETS)?;
        let mut octets = [0; SNPA_OCTETS];
        text::decode(text, &mut octets);
        Ok(Snpa { octets })
    }

    /// The octets, in the order in which a frame has them.
    pub fn octets(&self) -> &[u8]
        ensures value { result.now ≡ self.now }
        ensures six { length self.now ≡ 6 }
    {
        &self.octets
    }

    /// Whether the SNPA is that of a group of systems.
    pub fn is_group(&self) -> bool
        ensures { result ≡ (slice_index self.now 0 % 2 == 1) }
    {
        self.octets[0] & GROUP == GROUP
    }
}

impl fmt::Display for Snpa {
    ghost output = { λ a. Some (encode_lower a) };

    fn fmt<W: fmt::Write>(&self, f: &mut fmt::Formatter<W>) -> fmt::Result {
        text::show(self.octets(), f)
    }
}

impl PartialEq for Snpa {
    ghost use Rattle.std.specs.Cmp.Lexicographic.{pointwise, nat_list_eq_equiv};
    ghost use Rattle.std.specs.Cmp.{partial_equiv_from_equiv};
    ghost use Rattle.std.specs.Prelude.{nat_eq};

    ghost eq = { pointwise nat_eq };

    ghost laws = { partial_equiv_from_equiv nat_list_eq_equiv };

    // The groups of ISO 9542 differ in the last octet alone.
    fn eq(&self, other: &Snpa) -> bool {
        let [a, b, c, d, e, f] = self.octets;
        let [g, h, i, j, k, l] = other.octets;
        f == l && a == g && b == h && c == i && d == j && e == k
    }
}

impl Eq for Snpa {
    ghost use Rattle.std.specs.Cmp.Lexicographic.{nat_list_eq_equiv};

    ghost laws = { nat_list_eq_equiv };
}
