//! The checksum of a header (X.233, header error detection; ISO 9542, PDU header analysis).

ghost use Rattle.std.specs.Prelude.{◌≡◌, ◌≤◌, length};
ghost use Rattle.pdu_parts.specs.Checksum.{checksum_in};

use osi_base::fletcher_ok;

/// Whether the checksum in the eighth and ninth octet is used. None exactly where one of the two alone is 0, or it
/// does not hold over the octets.
#[tactic(auto, unfolding(crate::specs::Checksum::checksum_in))]
pub fn checksum_in(header: &[u8]) -> Option<bool>
    requires { 9 ≤ length header.now }
    ensures { result ≡ checksum_in header.now }
{
    let first = header[7];
    let second = header[8];
    if first == 0 && second == 0 {
        return Some(false);
    }
    if first == 0 || second == 0 || !fletcher_ok(header) {
        return None;
    }
    Some(true)
}
