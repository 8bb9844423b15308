//! Writing a frame (IEEE 802.3, MAC frame structure; ISO/IEC 8802-2, LLC PDU).

ghost use Rattle.std.specs.Prelude.{◌≡◌, ◌≤◌, ◌<◌, ◌/◌, ◌%◌, ◌-◌, ◌++◌, ◌∷◌, [], length, take, IfOk};
ghost use Rattle.lan_frame.specs.Frame.{whole_frame};

use crate::frame::{HEADER, LLC};
use nsap::Snpa;
use osi_base::NoMemory;

/// Where the source address begins in a frame.
const FROM_AT: usize = 6;

/// Where the length field begins in a frame.
const LENGTH_AT: usize = 12;

/// Where DSAP, SSAP and control begin in a frame.
const LLC_AT: usize = 14;

/// The octets of a whole frame, made in place: the octets of the PDU are moved behind the header.
///
/// Where the PDU has room for the header behind it, no memory is taken.
pub fn write_frame(to: &Snpa, from: &Snpa, pdu: Vec<u8>) -> Result<Vec<u8>, NoMemory>
    requires { length pdu.items ≤ 1497 }
    ensures whole { IfOk result (λ whole. whole.items ≡ whole_frame to.now from.now pdu.items) }
    ensures to { length to.now ≡ 6 }
    ensures from { length from.now ≡ 6 }
{
    let length = (LLC.len() + pdu.len()) as u16;
    let header = header_of(to.octets(), from.octets(), length);
    let mut whole = pdu;
    // Zeros, and not the header itself, which was written in parts just before and would be read whole: a processor waits for that.
    whole.extend_from_slice(&[0; HEADER])?;
    put_first(&mut whole, &header);
    Ok(whole)
}

/// The octets of a frame before its network PDU, with what the length field counts.
fn header_of(to: &[u8], from: &[u8], behind: u16) -> [u8; HEADER]
    requires to { length to.now ≡ 6 }
    requires from { length from.now ≡ 6 }
    ensures { result ≡ to.now ++ from.now ++ behind / 256 ∷ behind % 256 ∷ [] ++ 254 ∷ 254 ∷ 3 ∷ [] }
{
    let mut header = [0; HEADER];
    header[..FROM_AT].copy_from_slice(to);
    header[FROM_AT..LENGTH_AT].copy_from_slice(from);
    header[LENGTH_AT..LLC_AT].copy_from_slice(&behind.to_be_bytes());
    header[LLC_AT..].copy_from_slice(&LLC);
    header
}

/// Puts a header before the octets in place of as many at their end.
fn put_first(octets: &mut [u8], header: &[u8; HEADER])
    requires { 17 ≤ length octets.old }
    ensures { octets.new ≡ header.now ++ take (length octets.old - 17) octets.old }
{
    let count = octets.len() - HEADER;
    octets.copy_within(..count, HEADER);
    octets[..HEADER].copy_from_slice(header);
}
