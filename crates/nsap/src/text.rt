//! Addresses as text: two hexadecimal digits for each octet, in either case.
ghost use Rattle.std.specs.Prelude.{◌≡◌, ◌*◌, ◌<◌, length, Some, None, IfSome, IfOk, IfErr};
ghost use Rattle.std.specs.List.{AllPass};
ghost use Rattle.std.specs.Fmt.{WritesOnOk};
ghost use Rattle.hex.specs.Hex.{encode_lower, is_hex_digit};
ghost use Rattle.nsap.specs.Text.{count_fault, first_bad, hex_octets, text_fault};
ghost use Rattle.nsap.specs.steps.Digits.{IsDigits};

use std::fmt;
use thiserror::Error;

/// What is wrong with the text of an address.
#[derive(Clone, Copy, Debug, PartialEq, Eq, Error)]
pub enum NsapFault {
    /// No character.
    #[error("no digits")]
    Empty,
    /// The character at this place, counted from 1, is the first that is no hexadecimal digit.
    #[error("no hexadecimal digit at character {0}")]
    BadDigit(usize),
    /// An odd number of digits.
    #[error("an odd number of digits")]
    OddDigits,
    /// Fewer digits than the address has.
    #[error("too few digits")]
    TooShort,
    /// More digits than an address may have.
    #[error("too many digits")]
    TooLong,
}

/// That the text is one of at least and at most so many digits, two for each octet, or its first fault.
pub fn check(text: &str, least: usize, most: usize) -> Result<(), NsapFault>
    ensures ok { IfOk result (λ _. text_fault least most text.now ≡ None) }
    ensures digits { IfOk result (λ _. IsDigits least most text.now) }
    ensures fault { IfErr result (λ fault. text_fault least most text.now ≡ Some fault) }
{
    match fault_of(text, least, most) {
        Some(fault) => Err(fault),
        None => Ok(()),
    }
}

/// Writes the octets that the digits stand for.
pub fn decode(digits: &str, octets: &mut [u8])
    requires digits { AllPass is_hex_digit digits.now }
    requires room { length digits.now ≡ 2 * length octets.old }
    ensures { octets.new ≡ hex_octets digits.now }
{
    let Ok(()) = hex::decode_to_slice(digits, octets) else {
        unreachable!();
    };
}

/// Prints two lower-case digits for each octet.
pub fn show<W: fmt::Write>(octets: &[u8], f: &mut fmt::Formatter<W>) -> fmt::Result
    ensures { WritesOnOk W.write_str_gives f.old result (encode_lower octets.now) f.new }
{
    for octet in octets {
        write!(f, "{octet:02x}")?;
    }
    Ok(())
}

// The first fault, in the order of the variants.
fn fault_of(text: &str, least: usize, most: usize) -> Option<NsapFault>
    ensures { result ≡ text_fault least most text.now }
{
    if text.is_empty() {
        return Some(NsapFault::Empty);
    }
    match first_bad(text.as_bytes()) {
        Some(at) => Some(NsapFault::BadDigit(at + 1)),
        None => count_fault(text.len(), least, most),
    }
}

// The index of the first character that is no digit.
fn first_bad(text: &[u8]) -> Option<usize>
    ensures place { result ≡ first_bad text.now }
    ensures within { IfSome result (λ at. at < length text.now) }
{
    text.iter().position(|&c| !is_digit(c))
}

fn is_digit(c: u8) -> bool
    ensures { result ≡ is_hex_digit c }
{
    c.is_ascii_hexdigit()
}

// The fault of a text of digits alone.
fn count_fault(digits: usize, least: usize, most: usize) -> Option<NsapFault>
    ensures { result ≡ count_fault least most digits }
{
    if digits % 2 == 1 {
        Some(NsapFault::OddDigits)
    } else if digits < least {
        Some(NsapFault::TooShort)
    } else if digits > most {
        Some(NsapFault::TooLong)
    } else {
        None
    }
}
