//! Numbers in decimal.

ghost use Rattle.std.specs.Prelude.{◌≡◌, ◌++◌, ◌∷◌, [], OnOk};
ghost use Rattle.std.specs.Fmt.{decimal};

use crate::text::push;
use itoa::{Buffer, write_digits};
use osi_base::NoMemory;

/// The most digits of a number of 32 bits.
const MOST_DIGITS: usize = 10;

/// Appends a number in decimal.
pub fn push_number(number: u64, out: &mut Vec<u8>) -> Result<(), NoMemory>
    ensures { OnOk result (out.new.items ≡ out.old.items ++ decimal number) }
{
    let mut digits = Buffer::new();
    push(digits.format(number).as_bytes(), out)
}

/// Appends a number in decimal and the octet behind it.
///
/// Eleven octets are appended whatever the number, and what is too much is cut off: a copy of a fixed length is a few instructions.
// Inlined: most lines of long transcripts have several numbers.
#[inline(always)]
pub fn push_marked(number: u32, mark: u8, out: &mut Vec<u8>) -> Result<(), NoMemory>
    ensures { OnOk result (out.new.items ≡ out.old.items ++ (decimal number ++ mark ∷ [])) }
{
    let mut text = [mark; 2 * MOST_DIGITS + 1];
    let start = write_digits(u64::from(number), &mut text, MOST_DIGITS);
    let end = out.len();
    push(&text[start..start + MOST_DIGITS + 1], out)?;
    out.truncate(end + MOST_DIGITS + 1 - start);
    Ok(())
}
