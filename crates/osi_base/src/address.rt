//! A network address as plain octets, for notes and transcripts (ISO/IEC 8348).

ghost use Rattle.std.specs.Prelude.{◌≡◌, ◌≤◌, length};

use std::marker::Model;

/// An address of up to 20 octets: `length` of them count, or all 20 where `length` is above 20.
#[derive(Drop, Debug)]
pub struct Address {
    /// How many octets the address has.
    pub length: u8,
    /// The octets of the address, and then any.
    pub octets: [u8; 20],
}

impl Model for Address {
    ghost use Rattle.std.specs.Prelude.{List, ℕ, take};

    ghost Value = { List ℕ };

    ghost view = { λ a. take a.length a.octets };
}

impl Address {
    /// The address with these octets.
    pub fn of(octets: &[u8]) -> Address
        requires { length octets.now ≤ 20 }
        ensures { result ≡ octets.now }
    {
        let mut all = [0u8; 20];
        all[..octets.len()].copy_from_slice(octets);
        Address {
            length: octets.len() as u8,
            octets: all,
        }
    }

    /// The octets that count.
    pub fn as_slice(&self) -> &[u8]
        ensures { result.now ≡ self.now }
    {
        let count = usize::from(self.length);
        if count < self.octets.len() {
            &self.octets[..count]
        } else {
            &self.octets
        }
    }
}

impl PartialEq for Address {
    ghost use Rattle.std.specs.Cmp.Lexicographic.{pointwise, nat_list_eq_equiv};
    ghost use Rattle.std.specs.Cmp.{partial_equiv_from_equiv};
    ghost use Rattle.std.specs.Prelude.{nat_eq};

    ghost eq = { pointwise nat_eq };

    ghost laws = { partial_equiv_from_equiv nat_list_eq_equiv };

    fn eq(&self, other: &Address) -> bool {
        self.as_slice() == other.as_slice()
    }
}

impl Eq for Address {
    ghost use Rattle.std.specs.Cmp.Lexicographic.{nat_list_eq_equiv};

    ghost laws = { nat_list_eq_equiv };
}
