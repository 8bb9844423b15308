//! A cursor over octets, from the front, for what is read field by field.

ghost use Rattle.std.specs.Prelude.{◌≡◌, ◌<◌, ◌≤◌, ◌↔◌, length, take, drop, IsNone, IfNone, IfSome};
ghost use Rattle.osi_base.specs.Numbers.{big_number};

use byteorder::{BigEndian, ByteOrder};
use std::marker::Model;

/// The octets that are left to read. Contracts see it as their list.
#[derive(Drop, Debug)]
pub struct Octets<'a> {
    left: &'a [u8],
}

impl<'a> Model for Octets<'a> {
    ghost use Rattle.std.specs.Prelude.{List, ℕ};

    ghost Value = { List ℕ };

    ghost view = { λ o. o.left.now };
}

impl<'a> Octets<'a> {
    /// A cursor before all of the octets.
    pub fn new(octets: &'a [u8]) -> Octets<'a>
        ensures { result ≡ octets.now }
    {
        Octets { left: octets }
    }

    /// The next octets, `count` of them. None exactly where fewer are left, and then the cursor stays.
    pub fn take(&mut self, count: usize) -> Option<&'a [u8]>
        ensures none { IsNone result ↔ (length self.old < count) }
        ensures ok { IfSome result (λ octets. octets.now ≡ take count self.old) }
        ensures rest { IfSome result (λ octets. self.new ≡ drop count self.old) }
        ensures stays { IfNone result (self.new ≡ self.old) }
    {
        if self.left.len() < count {
            return None;
        }
        let (octets, rest) = self.left.split_at(count);
        self.left = rest;
        Some(octets)
    }

    /// The next `width` octets as a big-endian number. None exactly where fewer are left, and then the
    /// cursor stays.
    pub fn number(&mut self, width: usize) -> Option<u32>
        requires least { 1 ≤ width }
        requires most { width ≤ 4 }
        ensures none { IsNone result ↔ (length self.old < width) }
        ensures ok { IfSome result (λ number. number ≡ big_number width self.old) }
        ensures rest { IfSome result (λ number. self.new ≡ drop width self.old) }
        ensures stays { IfNone result (self.new ≡ self.old) }
    {
        if self.left.len() < width {
            return None;
        }
        let number = first_number(self.left, width);
        self.left = &self.left[width..];
        Some(number)
    }
}

/// The first `width` octets as a big-endian number.
fn first_number(octets: &[u8], width: usize) -> u32
    requires least { 1 ≤ width }
    requires most { width ≤ 4 }
    requires there { width ≤ length octets.now }
    ensures { result ≡ big_number width octets.now }
{
    BigEndian::read_uint(octets, width) as u32
}
