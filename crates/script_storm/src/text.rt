//! What a line of a script repeats.

ghost use Rattle.std.specs.Prelude.{◌≡◌, ◌++◌, ◌∷◌, [], replicate, OnOk};
ghost use Rattle.std.specs.Fmt.{decimal};
ghost use Rattle.hex.specs.Hex.{encode_lower};

use osi_base::NoMemory;
use text_parts::{fill_hex, push};

/// Appends a text and a number in decimal.
pub fn push_number(before: &str, number: u32, out: &mut Vec<u8>) -> Result<(), NoMemory>
    ensures { OnOk result (out.new.items ≡ out.old.items ++ before.now ++ decimal number) }
{
    push(before.as_bytes(), out)?;
    text_parts::push_number(u64::from(number), out)
}

/// Appends an octet in hexadecimal, `count` times.
pub fn push_octets(octet: u8, count: u32, out: &mut Vec<u8>) -> Result<(), NoMemory>
    ensures { OnOk result (out.new.items ≡ out.old.items ++ encode_lower (replicate count octet)) }
{
    let digits = digits_of(octet);
    for _time in 0..count {
        out.extend_from_slice(&digits)?;
    }
    Ok(())
}

/// The two digits of an octet.
fn digits_of(octet: u8) -> [u8; 2]
    ensures { result ≡ encode_lower (octet ∷ []) }
{
    let mut digits = [0; 2];
    fill_hex(&[octet], &mut digits);
    digits
}
