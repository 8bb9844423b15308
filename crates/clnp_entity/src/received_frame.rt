//! A frame that came to a port of a system.

ghost use Rattle.std.specs.Prelude.{◌≡◌, slice_index};

use nsap::Port;
use osi_base::Tick;

/// A frame that came to a system, on a LAN on which it has a port.
#[derive(Clone, Copy)]
pub struct ReceivedFrame<'a> {
    /// When it came.
    pub tick: Tick,
    /// The port that sent it.
    pub from: Port,
    /// The port to which it was sent.
    pub at: Port,
    /// What it carries.
    pub octets: &'a [u8],
}

/// The octet at that position, counted from 0, or 0 past the end.
pub fn octet_at(octets: &[u8], index: usize) -> u8
    ensures { result ≡ slice_index octets.now index }
{
    match octets.get(index) {
        Some(octet) => *octet,
        None => 0,
    }
}
