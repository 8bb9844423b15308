//! The address of a network service access point (ISO/IEC 8348, network layer addressing).
ghost use Rattle.std.specs.Prelude.{◌≡◌, ◌<◌, ◌≤◌, ◌==◌, ◌||◌, [], ◌∷◌, ◌++◌, length, Some, None, nat_lt, if◌then◌else◌};
ghost use Rattle.hex.specs.Hex.{encode_lower};
ghost use Rattle.nsap.specs.Address.{selector_of, system_part, is_same_system};
ghost use Rattle.nsap.specs.Text.{address_of_text};

use crate::octets::{CAPACITY, Octets};
use crate::{NsapFault, text};
use std::fmt;
use std::marker::Model;

/// The selector of transport.
pub const TRANSPORT: u8 = 1;

/// The selector of raw units.
pub const RAW: u8 = 2;

/// An address of 1 to 20 octets. The last octet is its selector, and those before it name a system.
#[derive(Clone, Copy, Debug)]
pub struct Nsap {
    octets: Octets,
}

// An address has 1 to 20 octets.
impl Model for Nsap {
    ghost use Rattle.std.specs.Prelude.{◌<◌, ◌≤◌, List, ℕ, length};

    ghost Value = { List ℕ };

    ghost view = { λ a. a.octets };

    ghost invariant = { λ a. (0 < length a.octets) × (length a.octets ≤ 20) };

    ghost inverse = { λ xs. record { octets = xs } };
}

impl Nsap {
    /// The address of these octets. None exactly where there is none of them or more than 20.
    pub fn of(octets: &[u8]) -> Option<Nsap>
        ensures { result ≡ (if (length octets.now == 0) || nat_lt 20 (length octets.now) then None else Some octets.now) }
    {
        if octets.is_empty() {
            return None;
        }
        let octets = Octets::of(octets)?;
        Some(Nsap { octets })
    }

    /// The address that the text stands for, of 2 to 40 hexadecimal digits in either case.
    ///
    /// The first fault in the order of [`NsapFault`] but for `TooShort`, which does not come.
    pub fn read(text: &str) -> Result<Nsap, NsapFault>
        ensures { result ≡ address_of_text text.now }
    {
        text::check(text, 0, 2 * CAPACITY)?;
        Ok(Nsap {
            octets: Octets::of_digits(text),
        })
    }

    /// The octets, in the order in which a PDU has them.
    pub fn octets(&self) -> &[u8]
        ensures value { result.now ≡ self.now }
        ensures least { 0 < length self.now }
        ensures most { length self.now ≤ 20 }
    {
        self.octets.as_slice()
    }

    /// The last octet.
    pub fn selector(&self) -> u8
        ensures { result ≡ selector_of self.now }
    {
        let octets = self.octets();
        octets[octets.len() - 1]
    }

    /// The address in the same system that has this selector.
    pub fn with_selector(&self, selector: u8) -> Nsap
        ensures { result ≡ system_part self.now ++ selector ∷ [] }
    {
        Nsap {
            octets: self.octets.with_last(selector),
        }
    }

    /// Whether the addresses are equal but for the selector.
    pub fn same_system(&self, other: &Nsap) -> bool
        ensures { result ≡ is_same_system self.now other.now }
    {
        self.system() == other.system()
    }

    // All but the selector.
    fn system(&self) -> &[u8]
        ensures { result.now ≡ system_part self.now }
    {
        let octets = self.octets();
        &octets[..octets.len() - 1]
    }
}

impl fmt::Display for Nsap {
    ghost output = { λ a. Some (encode_lower a) };

    fn fmt<W: fmt::Write>(&self, f: &mut fmt::Formatter<W>) -> fmt::Result {
        text::show(self.octets(), f)
    }
}

impl PartialEq for Nsap {
    ghost use Rattle.std.specs.Cmp.Lexicographic.{pointwise, nat_list_eq_equiv};
    ghost use Rattle.std.specs.Cmp.{partial_equiv_from_equiv};
    ghost use Rattle.std.specs.Prelude.{nat_eq};

    ghost eq = { pointwise nat_eq };

    ghost laws = { partial_equiv_from_equiv nat_list_eq_equiv };

    fn eq(&self, other: &Nsap) -> bool {
        self.octets == other.octets
    }
}

impl Eq for Nsap {
    ghost use Rattle.std.specs.Cmp.Lexicographic.{nat_list_eq_equiv};

    ghost laws = { nat_list_eq_equiv };
}
