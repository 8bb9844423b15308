//! Texts.

ghost use Rattle.std.specs.Prelude.{◌≡◌, ◌++◌, OnOk};

use osi_base::NoMemory;

/// Appends a text as it is.
// Inlined: most texts are constants of a few octets.
#[inline(always)]
pub fn push(text: &[u8], out: &mut Vec<u8>) -> Result<(), NoMemory>
    ensures { OnOk result (out.new.items ≡ out.old.items ++ text.now) }
{
    out.extend_from_slice(text)?;
    Ok(())
}
