//! The text of an address (ISO/IEC 8348, network layer addressing).
//!
//! Profile: addresses of the formats 39, 47 and 49 are divided; all others are shown whole.

ghost use Rattle.std.specs.Prelude.{◌≡◌, ◌≤◌, ◌-◌, ◌++◌, ◌∷◌, [], length, OnOk, map};
ghost use Rattle.hex.specs.Hex.{encode_lower};
ghost use Rattle.capture_show.specs.Texts.{address_text, joined, cut};

use nsap::Nsap;
use osi_base::NoMemory;
use text_parts::{push, push_hex};

/// The authority and format identifier of local addresses in binary.
const LOCAL: u8 = 0x49;

/// The authority and format identifier of data country codes in binary.
const COUNTRY: u8 = 0x39;

/// The authority and format identifier of international code designators in binary.
const DESIGNATOR: u8 = 0x47;

/// Appends an address in hexadecimal, its parts divided by dots.
///
/// Of a local address of at least 3 octets the parts are the identifier, the middle and the selector. Behind the
/// identifiers 39 and 47 two octets more are a part, where there are at least 5. Others are one part. After
/// `NoMemory`, `out` ends in a part of the text.
pub fn show_nsap(address: &Nsap, out: &mut Vec<u8>) -> Result<(), NoMemory>
    ensures { OnOk result (out.new.items ≡ out.old.items ++ address_text address.now) }
{
    let octets = address.octets();
    match (octets[0], octets.len()) {
        (LOCAL, 3..) => push_local(octets, out),
        (COUNTRY | DESIGNATOR, 5..) => push_coded(octets, out),
        _ => push_hex(octets, out),
    }
}

/// Identifier, middle and selector.
fn push_local(octets: &[u8], out: &mut Vec<u8>) -> Result<(), NoMemory>
    requires { 3 ≤ length octets.now }
    ensures { OnOk result (out.new.items ≡ out.old.items ++ joined 46 (map encode_lower (cut (1 ∷ (length octets.now - 2) ∷ 1 ∷ []) octets.now))) }
{
    push_hex(&octets[..1], out)?;
    push(b".", out)?;
    push_ending(&octets[1..], out)
}

/// Identifier, two octets, middle and selector.
fn push_coded(octets: &[u8], out: &mut Vec<u8>) -> Result<(), NoMemory>
    requires { 5 ≤ length octets.now }
    ensures { OnOk result (out.new.items ≡ out.old.items
        ++ joined 46 (map encode_lower (cut (1 ∷ 2 ∷ (length octets.now - 4) ∷ 1 ∷ []) octets.now))) }
{
    push_hex(&octets[..1], out)?;
    push(b".", out)?;
    push_hex(&octets[1..3], out)?;
    push(b".", out)?;
    push_ending(&octets[3..], out)
}

/// The middle and the selector.
fn push_ending(octets: &[u8], out: &mut Vec<u8>) -> Result<(), NoMemory>
    requires { 1 ≤ length octets.now }
    ensures { OnOk result (out.new.items ≡ out.old.items ++ joined 46 (map encode_lower (cut ((length octets.now - 1) ∷ 1 ∷ []) octets.now))) }
{
    let (middle, selector) = octets.split_at(octets.len() - 1);
    push_hex(middle, out)?;
    push(b".", out)?;
    push_hex(selector, out)
}
