//! The lifetime of a PDU, lowered in place (X.233, PDU lifetime control).

ghost use Rattle.std.specs.Prelude.{◌≡◌, ◌≢◌, ◌≤◌, ℕ, List, length, slice_index};
ghost use Rattle.pdu_parts.specs.Front.{BeginsWith};
ghost use Rattle.clnp_header.specs.declared.pdu.Pdu.{Pdu};
ghost use Rattle.clnp_header.specs.Grammar.{IsPdu};
ghost use Rattle.clnp_header.specs.Lifetime.{HasLifetime, lowered};
ghost use Rattle.clnp_header.specs.steps.Lowering.{Lowers};

use crate::pdu::CHECKSUM;
use crate::writing::seal;

/// Lowers the lifetime of the PDU at the front of the octets, and mends its checksum where it is used.
///
/// No other octet changes. `by` is at most the lifetime.
pub fn lower_lifetime(octets: &mut [u8], by: u8)
    requires { HasLifetime octets.old by }
    ensures lowered { (pdu : Pdu) (rest : List ℕ) → BeginsWith IsPdu octets.old pdu rest → BeginsWith IsPdu octets.new (lowered by pdu) rest }
    ensures kept { (at : ℕ) → at ≢ 3 → at ≢ 7 → at ≢ 8 → slice_index octets.new at ≡ slice_index octets.old at }
{
    lower(octets, by);
}

/// Lowers the fourth octet, and writes the checksum of the header where there is one.
fn lower(octets: &mut [u8], by: u8)
    requires least { 13 ≤ slice_index octets.old 1 }
    requires inside { slice_index octets.old 1 ≤ length octets.old }
    requires enough { by ≤ slice_index octets.old 3 }
    ensures { Lowers octets.old by octets.new }
{
    let header = usize::from(octets[1]);
    let used = octets[CHECKSUM] != 0;
    octets[3] -= by;
    seal(&mut octets[..header], used);
}
