//! The order of the octets of a number.

ghost use Rattle.std.specs.Prelude.{◌≡◌, ◌≤◌, length};
ghost use Rattle.capture_decode.specs.Capture.{number};

use byteorder::{BigEndian, ByteOrder, LittleEndian};

/// Which octet of a number comes first.
#[derive(Clone, Copy, Debug, PartialEq, Eq)]
pub enum Order {
    /// The highest.
    Big,
    /// The lowest.
    Little,
}

impl Order {
    /// The number in the first four octets.
    pub fn long(&self, octets: &[u8]) -> u32
        requires { 4 ≤ length octets.now }
        ensures { result ≡ number self.now 4 octets.now }
    {
        match self {
            Order::Big => BigEndian::read_u32(octets),
            Order::Little => LittleEndian::read_u32(octets),
        }
    }

    /// The number in the first two octets.
    pub fn short(&self, octets: &[u8]) -> u16
        requires { 2 ≤ length octets.now }
        ensures { result ≡ number self.now 2 octets.now }
    {
        match self {
            Order::Big => BigEndian::read_u16(octets),
            Order::Little => LittleEndian::read_u16(octets),
        }
    }
}
