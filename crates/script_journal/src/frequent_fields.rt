//! Fields of lines that are frequent in long transcripts, each with the octet behind it.

ghost use Rattle.std.specs.Prelude.{◌≡◌, ◌++◌, ◌∷◌, [], OnOk};
ghost use Rattle.hex.specs.Hex.{encode_lower};
ghost use Rattle.script_journal.specs.Cells.{octets_text};

use osi_base::NoMemory;
use text_parts::{fill_hex, push};

/// Appends a name.
// Inlined, as each of these: they stand one after another in the lines of frames and deliveries, and `out` stays in registers.
#[inline(always)]
pub fn push_name(name: &[u8], mark: u8, out: &mut Vec<u8>) -> Result<(), NoMemory>
    ensures { OnOk result (out.new.items ≡ out.old.items ++ (name.now ++ mark ∷ [])) }
{
    push(name, out)?;
    out.push(mark)?;
    Ok(())
}

/// Appends an SNPA in hexadecimal.
// Inlined, as `push_name`: its length is known, and so is the room of the line.
#[inline(always)]
pub fn push_snpa(snpa: &[u8; 6], mark: u8, out: &mut Vec<u8>) -> Result<(), NoMemory>
    ensures { OnOk result (out.new.items ≡ out.old.items ++ (encode_lower snpa.now ++ mark ∷ [])) }
{
    let mut text = [mark; 13];
    fill_hex(snpa, &mut text[..12]);
    push(&text, out)
}

/// Appends octets in hexadecimal, with the octet behind them.
pub fn push_hex(octets: &[u8], mark: u8, out: &mut Vec<u8>) -> Result<(), NoMemory>
    ensures { OnOk result (out.new.items ≡ out.old.items ++ (encode_lower octets.now ++ mark ∷ [])) }
{
    text_parts::push_hex(octets, out)?;
    out.push(mark)?;
    Ok(())
}

/// Appends octets in hexadecimal, and `-` for none.
// Inlined, as `push_name`: that there are none is seen by one look.
#[inline(always)]
pub fn push_octets(octets: &[u8], mark: u8, out: &mut Vec<u8>) -> Result<(), NoMemory>
    ensures { OnOk result (out.new.items ≡ out.old.items ++ (octets_text octets.now ++ mark ∷ [])) }
{
    if octets.is_empty() {
        push(&[b'-', mark], out)
    } else {
        push_hex(octets, mark, out)
    }
}
