//! Reading a frame (IEEE 802.3, MAC frame structure; ISO/IEC 8802-2, LLC PDU).

ghost use Rattle.std.specs.Prelude.{◌≡◌, ◌<◌, ◌↔◌, length, take, drop, option_map, IsNone, IfSome};
ghost use Rattle.lan_frame.specs.Frame.{frame_in, framed};

use crate::frame::{FrameRef, LLC};
use nsap::Snpa;
use osi_base::Octets;

/// How many octets an SNPA has.
const SNPA_OCTETS: usize = 6;

/// The least length field of a frame with a network PDU, in octets.
const LEAST_LENGTH: usize = 4;

/// The greatest length field, in octets.
const MOST_LENGTH: usize = 1500;

/// The frame that the octets are; octets past the length field are padding.
///
/// None exactly where they end in the header or before the length field says, that field is below 4
/// or above 1,500, or DSAP, SSAP and control are not those of the network layer.
pub fn read_frame(octets: &[u8]) -> Option<FrameRef<'_>>
    ensures { option_map framed result ≡ frame_in octets.now }
{
    let mut cursor = Octets::new(octets);
    let to = read_snpa(&mut cursor)?;
    let from = read_snpa(&mut cursor)?;
    let length = cursor.number(2)? as usize;
    let llc = cursor.take(LLC.len())?;
    if llc != LLC.as_slice() || length < LEAST_LENGTH || length > MOST_LENGTH {
        return None;
    }
    let pdu = cursor.take(length - LLC.len())?;
    Some(FrameRef { to, from, pdu })
}

/// The SNPA that comes next. None exactly where fewer than 6 octets are left.
fn read_snpa(cursor: &mut Octets<'_>) -> Option<Snpa>
    ensures none { IsNone result ↔ (length cursor.old < 6) }
    ensures ok { IfSome result (λ snpa. snpa ≡ take 6 cursor.old) }
    ensures rest { IfSome result (λ snpa. cursor.new ≡ drop 6 cursor.old) }
{
    let octets = cursor.take(SNPA_OCTETS)?;
    let mut snpa = [0; SNPA_OCTETS];
    snpa.copy_from_slice(octets);
    Some(Snpa::of(snpa))
}
