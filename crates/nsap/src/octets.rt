//! Up to twenty octets, kept in place.
ghost use Rattle.std.specs.Prelude.{◌≡◌, ◌-◌, ◌<◌, ◌≤◌, [], ◌∷◌, ◌++◌, length, take, Some, None, nat_le, if◌then◌else◌};
ghost use Rattle.nsap.specs.Text.{hex_octets};
ghost use Rattle.nsap.specs.steps.Digits.{IsDigits};

use crate::text;
use std::marker::Model;

/// The most octets that an address or a prefix has.
pub const CAPACITY: usize = 20;

/// Up to twenty octets. The length is as wide as it is so that they are three words, and are moved as such.
#[derive(Clone, Copy, Debug)]
pub struct Octets {
    len: u32,
    octets: [u8; CAPACITY],
}

// The octets past the length are 0, so that the list gives the fields back.
impl Model for Octets {
    ghost use Rattle.std.specs.Prelude.{List, ℕ, length, take};
    ghost use Rattle.std.proofs.Common.{arith, length-take-le, sym};
    ghost use Rattle.nsap.specs.steps.Padded.{IsPadded, padded};

    ghost Value = { List ℕ };

    ghost view = { λ a. take a.len a.octets };

    ghost invariant = { λ a. IsPadded a.len a.octets };

    ghost inverse = { λ xs. record { len = length xs; octets = padded xs } };

    ghost inverse_ok = { λ a h i. record {
      len = length-take-le a.len a.octets (omega (arith, h.fits, h.room)) i;
      octets = sym h.zeros i;
    } };
}

impl Octets {
    /// No octets.
    pub fn empty() -> Octets
        ensures { result ≡ [] }
    {
        Octets {
            len: 0,
            octets: [0; CAPACITY],
        }
    }

    /// The octets given, or None where there are more than twenty.
    pub fn of(octets: &[u8]) -> Option<Octets>
        ensures { result ≡ (if nat_le (length octets.now) 20 then Some octets.now else None) }
    {
        if octets.len() > CAPACITY {
            return None;
        }
        let mut held = [0; CAPACITY];
        held[..octets.len()].copy_from_slice(octets);
        Some(Octets {
            len: octets.len() as u32,
            octets: held,
        })
    }

    /// The octets that a text of at most forty digits stands for.
    pub fn of_digits(digits: &str) -> Octets
        requires { IsDigits 0 40 digits.now }
        ensures value { result ≡ hex_octets digits.now }
        ensures some { 0 < length result }
        ensures most { length result ≤ 20 }
    {
        let len = digits.len() / 2;
        let mut octets = [0; CAPACITY];
        text::decode(digits, &mut octets[..len]);
        Octets {
            len: len as u32,
            octets,
        }
    }

    /// The octets.
    pub fn as_slice(&self) -> &[u8]
        ensures value { result.now ≡ self.now }
        ensures most { length self.now ≤ 20 }
    {
        &self.octets[..self.len as usize]
    }

    /// These octets with another last one.
    pub fn with_last(&self, last: u8) -> Octets
        requires { 0 < length self.now }
        ensures { result ≡ take (length self.now - 1) self.now ++ last ∷ [] }
    {
        let mut changed = *self;
        changed.octets[self.len as usize - 1] = last;
        changed
    }
}

impl PartialEq for Octets {
    ghost use Rattle.std.specs.Cmp.Lexicographic.{pointwise, nat_list_eq_equiv};
    ghost use Rattle.std.specs.Cmp.{partial_equiv_from_equiv};
    ghost use Rattle.std.specs.Prelude.{nat_eq};

    ghost eq = { pointwise nat_eq };

    ghost laws = { partial_equiv_from_equiv nat_list_eq_equiv };

    fn eq(&self, other: &Octets) -> bool {
        self.as_slice() == other.as_slice()
    }
}

impl Eq for Octets {
    ghost use Rattle.std.specs.Cmp.Lexicographic.{nat_list_eq_equiv};

    ghost laws = { nat_list_eq_equiv };
}
