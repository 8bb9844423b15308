//! The beginning that addresses share (X.233, route PDU function).
ghost use Rattle.std.specs.Prelude.{◌≡◌, ◌≤◌, length, Some};
ghost use Rattle.hex.specs.Hex.{encode_lower};
ghost use Rattle.nsap.specs.Address.{covers};
ghost use Rattle.nsap.specs.Text.{prefix_of_text};

use crate::octets::{CAPACITY, Octets};
use crate::{Nsap, NsapFault, text};
use std::fmt;
use std::marker::Model;

/// The first octets of addresses, 0 to 20 of them.
#[derive(Clone, Copy, Debug)]
pub struct Prefix {
    octets: Octets,
}

// A prefix has at most 20 octets.
impl Model for Prefix {
    ghost use Rattle.std.specs.Prelude.{◌≤◌, List, ℕ, length};

    ghost Value = { List ℕ };

    ghost view = { λ a. a.octets };

    ghost invariant = { λ a. length a.octets ≤ 20 };

    ghost inverse = { λ xs. record { octets = xs } };
}

impl Prefix {
    /// The prefix that the text stands for, of 2 to 40 hexadecimal digits in either case, or `-` for the empty one.
    ///
    /// The first fault in the order of [`NsapFault`] but for `TooShort`, which does not come.
    pub fn read(text: &str) -> Result<Prefix, NsapFault>
        ensures { result ≡ prefix_of_text text.now }
    {
        if text == "-" {
            return Ok(Prefix {
                octets: Octets::empty(),
            });
        }
        text::check(text, 0, 2 * CAPACITY)?;
        Ok(Prefix {
            octets: Octets::of_digits(text),
        })
    }

    /// The octets.
    pub fn octets(&self) -> &[u8]
        ensures value { result.now ≡ self.now }
        ensures most { length self.now ≤ 20 }
    {
        self.octets.as_slice()
    }

    /// Whether the octets are the first of the address.
    pub fn covers(&self, address: &Nsap) -> bool
        ensures { result ≡ covers self.now address.now }
    {
        address.octets().starts_with(self.octets())
    }
}

impl fmt::Display for Prefix {
    ghost output = { λ a. Some (encode_lower a) };

    fn fmt<W: fmt::Write>(&self, f: &mut fmt::Formatter<W>) -> fmt::Result {
        text::show(self.octets(), f)
    }
}

impl PartialEq for Prefix {
    ghost use Rattle.std.specs.Cmp.Lexicographic.{pointwise, nat_list_eq_equiv};
    ghost use Rattle.std.specs.Cmp.{partial_equiv_from_equiv};
    ghost use Rattle.std.specs.Prelude.{nat_eq};

    ghost eq = { pointwise nat_eq };

    ghost laws = { partial_equiv_from_equiv nat_list_eq_equiv };

    fn eq(&self, other: &Prefix) -> bool {
        self.octets == other.octets
    }
}

impl Eq for Prefix {
    ghost use Rattle.std.specs.Cmp.Lexicographic.{nat_list_eq_equiv};

    ghost laws = { nat_list_eq_equiv };
}
