//! The printable characters of a line.

ghost use Rattle.std.specs.Prelude.{◌≡◌, ◌<◌, not, length, position, IfSome};
ghost use Rattle.std.specs.List.{list_all};
ghost use Rattle.script_lines.specs.Field.{is_printable};

/// The place of the first octet that is no printable character.
#[tactic(auto, using(crate::proofs::Printing::all_printable))]
pub fn first_unprintable(octets: &[u8]) -> Option<usize>
    ensures place { result ≡ position (λ octet. not (is_printable octet)) octets.now }
    ensures there { IfSome result (λ place. place < length octets.now) }
{
    if are_printable(octets) {
        return None;
    }
    octets.iter().position(|octet| !is_printable(*octet))
}

/// Whether all octets are printable characters. It goes over all of them without a branch, so that the compiler takes many at a time.
fn are_printable(octets: &[u8]) -> bool
    ensures { result ≡ list_all is_printable octets.now }
{
    let mut all = true;
    for octet in octets {
        all &= is_printable(*octet);
    }
    all
}

fn is_printable(octet: u8) -> bool
    ensures { result ≡ is_printable octet }
{
    matches!(octet, 0x20..=0x7e)
}

/// Printable characters as text.
#[tactic(auto, using(crate::proofs::Printing::printable_is_text))]
pub fn text_of(octets: &[u8]) -> &str
    requires { position (λ octet. not (is_printable octet)) octets.now ≡ None }
    ensures { result.now ≡ octets.now }
{
    // SAFETY: printable octets are ASCII, and so UTF-8.
    unsafe { str::from_utf8_unchecked(octets) }
}
