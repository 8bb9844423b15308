//! Octets in hexadecimal, in lower case.

ghost use Rattle.std.specs.Prelude.{◌≡◌, ◌*◌, ◌/◌, ◌%◌, ◌++◌, length, replicate, slice_index, OnOk};
ghost use Rattle.hex.specs.Hex.{encode_lower, lower_digits};

use osi_base::NoMemory;

/// The two digits of each octet, one pair after another: one look-up an octet, without a branch.
static PAIRS: [u8; 512] =
    *b"000102030405060708090a0b0c0d0e0f101112131415161718191a1b1c1d1e1f202122232425262728292a2b2c2d2e2f303132333435363738393a3b3c3d3e3f404142434445464748494a4b4c4d4e4f505152535455565758595a5b5c5d5e5f606162636465666768696a6b6c6d6e6f707172737475767778797a7b7c7d7e7f808182838485868788898a8b8c8d8e8f909192939495969798999a9b9c9d9e9fa0a1a2a3a4a5a6a7a8a9aaabacadaeafb0b1b2b3b4b5b6b7b8b9babbbcbdbebfc0c1c2c3c4c5c6c7c8c9cacbcccdcecfd0d1d2d3d4d5d6d7d8d9dadbdcdddedfe0e1e2e3e4e5e6e7e8e9eaebecedeeeff0f1f2f3f4f5f6f7f8f9fafbfcfdfeff";

/// Appends octets in hexadecimal, in lower case.
// Inlined: in front of a field of a known length the room is known too.
#[inline(always)]
pub fn push_hex(octets: &[u8], out: &mut Vec<u8>) -> Result<(), NoMemory>
    ensures { OnOk result (out.new.items ≡ out.old.items ++ encode_lower octets.now) }
{
    let before = out.len();
    make_room(out, octets.len())?;
    fill_hex(octets, &mut out.as_mut_slice()[before..]);
    Ok(())
}

/// Makes room for so many pairs of digits.
// Inlined: beside a known count the sum is short.
#[inline(always)]
fn make_room(out: &mut Vec<u8>, pairs: usize) -> Result<(), NoMemory>
    ensures { OnOk result (out.new.items ≡ out.old.items ++ replicate (2 * pairs) 0) }
{
    // A count that has no room of its own is more than there is memory for, too.
    let count = out.len().saturating_add(pairs.saturating_mul(2));
    out.resize(count, 0)?;
    Ok(())
}

/// Writes octets in hexadecimal over a place of just that room.
// Inlined: where the length is a constant the loop is unrolled.
#[inline(always)]
pub fn fill_hex(octets: &[u8], place: &mut [u8])
    requires { length place.old ≡ 2 * length octets.now }
    ensures { place.new ≡ encode_lower octets.now }
{
    // The label is the name of the loop in its proof.
    'octets: for i in 0..octets.len() {
        let (high, low) = digits_of(octets[i]);
        place[2 * i] = high;
        place[2 * i + 1] = low;
    }
}

/// The two digits of an octet, in hexadecimal.
// Inlined: two moves out of the table.
#[inline(always)]
fn digits_of(octet: u8) -> (u8, u8)
    ensures high { result.0 ≡ slice_index lower_digits (octet / 16) }
    ensures low { result.1 ≡ slice_index lower_digits (octet % 16) }
{
    let pair = 2 * usize::from(octet);
    (PAIRS[pair], PAIRS[pair + 1])
}
