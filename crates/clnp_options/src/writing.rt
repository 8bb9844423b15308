//! Writing of an option in place (X.233, options part).
ghost use Rattle.std.specs.Prelude.{◌≡◌, ◌+◌, ◌≤◌, ◌↔◌, length, IfOk, IfErr, IsOk};
ghost use Rattle.clnp_options.specs.Writing.{IsWritten};

use thiserror::Error;

/// An option does not fit where it was to be written.
#[derive(Clone, Copy, Debug, PartialEq, Eq, Error)]
#[error("an option that does not fit")]
pub struct TooSmall;

/// Writes code, length and value from position `at` on, and answers the position after them.
///
/// TooSmall exactly where they do not fit, and all octets stay then. The octets before and after them stay in any case.
/// It is for a header that has its room already; to append to octets that grow there is `pdu_parts::push_parameter`.
pub fn write_option(into: &mut [u8], at: usize, code: u8, value: &[u8]) -> Result<usize, TooSmall>
    requires place { at ≤ length into.old }
    requires short { length value.now ≤ 252 }
    ensures fits { IsOk result ↔ (at + (length value.now + 2) ≤ length into.old) }
    ensures next { IfOk result (λ next. next ≡ at + (length value.now + 2)) }
    ensures written { IfOk result (λ next. IsWritten into.old at (record { code = code; value = value.now }) into.new) }
    ensures kept { IfErr result (λ _. into.new ≡ into.old) }
{
    let start = at + 2;
    let end = at + (value.len() + 2);
    if end > into.len() {
        return Err(TooSmall);
    }
    into[at] = code;
    into[at + 1] = value.len() as u8;
    into[start..end].copy_from_slice(value);
    Ok(end)
}
