//! Writing a UD (X.234, unit data TPDU).
//!
//! Profile: a UD is written with both selectors and a checksum, in this order, and with no other parameter.

ghost use Rattle.std.specs.Prelude.{◌≡◌, ◌≤◌, length, IfOk};
ghost use Rattle.cltp.specs.Ud.{IsSelector, IsUd};
ghost use Rattle.cltp.specs.Writing.{IsWritten};

use crate::parameter::{CHECKSUM, DESTINATION, SOURCE};
use crate::reading::UD;
use osi_base::{NoMemory, fletcher_seal};
use pdu_parts::push_parameter;
use std::alloc::Global;

/// The octets of a header beside those of its selectors: the length indicator, the code, code and length of each of three
/// parameters, and the checksum.
const FIXED: usize = 10;

/// The octets of the UD that carries the data from the one selector to the other, with a checksum.
#[tactic(auto, using(crate::proofs::Written::written_from, crate::proofs::Written::written_is))]
pub fn write_ud(alloc: Global, from: &[u8], to: &[u8], octets: &[u8]) -> Result<Vec<u8>, NoMemory>
    requires from { IsSelector from.now }
    requires to { IsSelector to.now }
    requires short { length octets.now ≤ 16000 }
    ensures ok { IfOk result (λ written. IsUd written.items (record { from = from.now; to = to.now; octets = octets.now })) }
    ensures written { IfOk result (λ written. IsWritten (record { from = from.now; to = to.now; octets = octets.now }) written.items) }
{
    let count = FIXED + from.len() + to.len();
    let mut out = Vec::with_capacity(alloc, count + octets.len())?;
    out.extend_from_slice(&[(count - 1) as u8, UD])?;
    push_parameter(&mut out, SOURCE, from)?;
    push_parameter(&mut out, DESTINATION, to)?;
    push_parameter(&mut out, CHECKSUM, &[0, 0])?;
    out.extend_from_slice(octets)?;
    fletcher_seal(&mut out, count - 2);
    Ok(out)
}
