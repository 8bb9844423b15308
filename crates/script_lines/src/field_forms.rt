//! The forms that a field of a line may have by its characters alone.

ghost use Rattle.std.specs.Prelude.{◌≡◌, ◌≤◌, ◌%◌, length, IsTrue};
ghost use Rattle.hex.specs.Hex.{decode_pairs};
ghost use Rattle.script_lines.specs.Field.{number_of, title_of, station_of, prefix_of, octets_of, as_octets, choice_of, digits_cause};
ghost use Rattle.script_lines.specs.Field.{is_digit, is_number};
ghost use Rattle.script_lines.specs.Reading.{flags_of, format_of, path_kind_of, size_of, as_listed, as_preferred, selector_of};
ghost use Rattle.script_lines.specs.Gives.{Found};
ghost use Rattle.std.specs.List.{list_all};
ghost use Rattle.std.specs.Str.Parse.{digits_value};

use crate::cause::{FieldRefusal, LineCause};
use crate::hexadecimal;
use crate::line::PathKind;
use nsap::{Nsap, NsapFault, Prefix, Snpa};
use osi_base::{Bytes, Wish};
use std::alloc::Global;
use tpdu::Format;

/// The most digits of a number.
const DIGITS: usize = 9;

/// The most octets of a TPDU, and whether they are a preferred size.
#[derive(Clone, Copy)]
pub struct TpduSize {
    pub octets: u16,
    pub preferred: bool,
}

/// The number that the field stands for, from `least` to `most`.
pub fn number(least: u32, most: u32, field: &str) -> Result<u32, LineCause>
    ensures { result ≡ number_of least most field.now }
{
    number_in(least, most, field.as_bytes())
}

/// The number that the digits stand for, from `least` to `most`.
#[tactic(auto, unfolding(crate::specs::Field::number_of))]
fn number_in(least: u32, most: u32, digits: &[u8]) -> Result<u32, LineCause>
    ensures { result ≡ number_of least most digits.now }
{
    if !is_number(digits) {
        return Err(LineCause::Syntax);
    }
    let number = value(digits);
    if least <= number && number <= most {
        Ok(number)
    } else {
        Err(LineCause::Range)
    }
}

fn is_number(text: &[u8]) -> bool
    ensures { result ≡ is_number text.now }
{
    are_digits(text)
        && !text.is_empty()
        && text.len() <= DIGITS
        && (text.len() == 1 || text[0] != b'0')
}

fn are_digits(text: &[u8]) -> bool
    ensures { result ≡ list_all is_digit text.now }
{
    text.iter().all(|octet| matches!(octet, b'0'..=b'9'))
}

/// The value of at most nine decimal digits.
fn value(digits: &[u8]) -> u32
    requires digits { IsTrue (list_all is_digit digits.now) }
    requires few { length digits.now ≤ 9 }
    ensures { result ≡ digits_value 10 digits.now }
{
    let mut number = 0;
    for digit in digits {
        number = number * 10 + u32::from(*digit - b'0');
    }
    number
}

fn digits_cause(fault: NsapFault) -> LineCause
    ensures { result ≡ digits_cause fault }
{
    match fault {
        NsapFault::TooShort | NsapFault::TooLong => LineCause::Range,
        NsapFault::Empty | NsapFault::BadDigit(_) | NsapFault::OddDigits => LineCause::Syntax,
    }
}

/// The title of a system that the field stands for: two to twenty octets, the last of them 0.
#[tactic(auto, unfolding(crate::specs::Field::title_of))]
pub fn title(field: &str) -> Result<Nsap, LineCause>
    ensures { result ≡ title_of field.now }
{
    match Nsap::read(field) {
        Ok(title) if 1 < title.octets().len() && title.selector() == 0 => Ok(title),
        Ok(_) => Err(LineCause::Range),
        Err(fault) => Err(digits_cause(fault)),
    }
}

/// The SNPA of one system that the field stands for.
#[tactic(auto, unfolding(crate::specs::Field::station_of))]
pub fn station(field: &str) -> Result<Snpa, LineCause>
    ensures { result ≡ station_of field.now }
{
    match Snpa::read(field) {
        Ok(snpa) if snpa.is_group() => Err(LineCause::Range),
        Ok(snpa) => Ok(snpa),
        Err(fault) => Err(digits_cause(fault)),
    }
}

/// The prefix that the field stands for.
#[tactic(auto, unfolding(crate::specs::Field::prefix_of))]
pub fn prefix(field: &str) -> Result<Prefix, LineCause>
    ensures { result ≡ prefix_of field.now }
{
    match Prefix::read(field) {
        Ok(prefix) => Ok(prefix),
        Err(fault) => Err(digits_cause(fault)),
    }
}

/// The octets that the field stands for; `-` stands for none.
#[tactic(auto, unfolding(crate::specs::Field::octets_of))]
pub fn octets(alloc: Global, field: &str) -> Result<Bytes, FieldRefusal>
    ensures { Found (octets_of field.now) result }
{
    if matches!(field.as_bytes(), [b'-']) {
        return Ok(Bytes::of(Vec::new(alloc)));
    }
    if field.is_empty() || field.len() % 2 != 0 {
        return Err(FieldRefusal::Cause(LineCause::Syntax));
    }
    octets_of_pairs(alloc, field.as_bytes())
}

/// The octets that pairs of digits stand for.
fn octets_of_pairs(alloc: Global, text: &[u8]) -> Result<Bytes, FieldRefusal>
    requires { length text.now % 2 ≡ 0 }
    ensures { Found (as_octets (decode_pairs 0 text.now)) result }
{
    let Ok(mut octets) = vec![in alloc; 0u8; text.len() / 2] else {
        return Err(FieldRefusal::NoMemory);
    };
    if hexadecimal::write(text, octets.as_mut_slice()) {
        Ok(Bytes::of(octets))
    } else {
        Err(FieldRefusal::Cause(LineCause::Syntax))
    }
}

/// A selector of 1 to 32 octets.
#[tactic(auto, unfolding(crate::specs::Reading::selector_of))]
pub fn selector(alloc: Global, field: &str) -> Result<Bytes, FieldRefusal>
    ensures { Found (selector_of field.now) result }
{
    match octets(alloc, field) {
        Ok(octets) if 1 <= octets.as_slice().len() && octets.as_slice().len() <= 32 => Ok(octets),
        Ok(_) => Err(FieldRefusal::Cause(LineCause::Range)),
        Err(refusal) => Err(refusal),
    }
}

/// One of two words: the first is true.
pub fn choice(first: &str, second: &str, field: &str) -> Result<bool, LineCause>
    ensures { result ≡ choice_of first.now second.now field.now }
{
    if field == first {
        Ok(true)
    } else if field == second {
        Ok(false)
    } else {
        Err(LineCause::Syntax)
    }
}

/// `extended` or `normal`.
pub fn format(field: &str) -> Result<Format, LineCause>
    ensures { result ≡ format_of field.now }
{
    if field == "extended" {
        Ok(Format::Extended)
    } else if field == "normal" {
        Ok(Format::Normal)
    } else {
        Err(LineCause::Syntax)
    }
}

/// `complete` or `partial`.
pub fn path_kind(field: &str) -> Result<PathKind, LineCause>
    ensures { result ≡ path_kind_of field.now }
{
    if field == "complete" {
        Ok(PathKind::Complete)
    } else if field == "partial" {
        Ok(PathKind::Partial)
    } else {
        Err(LineCause::Syntax)
    }
}

/// A credit of 0 to 255.
#[tactic(auto, unfolding(crate::specs::Field::number_of))]
pub fn credit(field: &str) -> Result<u16, LineCause>
    ensures { result ≡ number_of 0 255 field.now }
{
    match number(0, 255, field) {
        Ok(credit) => Ok(credit as u16),
        Err(cause) => Err(cause),
    }
}

/// A listed size; in version 2 also `p` and how many times 128 octets.
#[tactic(auto, unfolding(crate::specs::Reading::size_of))]
pub fn size(second: bool, field: &str) -> Result<TpduSize, LineCause>
    ensures { result ≡ size_of second field.now }
{
    match field.as_bytes() {
        [b'p', number @ ..] if second => preferred_size(number),
        digits => listed_size(digits),
    }
}

/// A preferred size, by how many times 128 octets.
#[tactic(auto, unfolding(crate::specs::Field::number_of))]
fn preferred_size(digits: &[u8]) -> Result<TpduSize, LineCause>
    ensures { result ≡ as_preferred (number_of 1 128 digits.now) }
{
    match number_in(1, 128, digits) {
        Ok(number) => Ok(TpduSize {
            octets: 128 * number as u16,
            preferred: true,
        }),
        Err(cause) => Err(cause),
    }
}

/// A listed size.
fn listed_size(digits: &[u8]) -> Result<TpduSize, LineCause>
    ensures { result ≡ as_listed (number_of 0 999999999 digits.now) }
{
    match number_in(0, 999_999_999, digits) {
        Ok(size) if matches!(size, 128 | 256 | 512 | 1024 | 2048 | 4096 | 8192) => Ok(TpduSize {
            octets: size as u16,
            preferred: false,
        }),
        Ok(_) | Err(_) => Err(LineCause::Syntax),
    }
}

const fn wish(cut: bool, report: bool, trace: bool) -> Wish
    ensures { result ≡ record { cut = cut; report = report; trace = trace; path = 0 } }
{
    Wish {
        cut,
        report,
        trace,
        path: 0,
    }
}

/// The letters `s`, `e` and `r` in this order, or `-` for none.
#[tactic(auto, unfolding(crate::specs::Reading::flags_of))]
pub fn flags(field: &str) -> Result<Wish, LineCause>
    ensures { result ≡ flags_of field.now }
{
    match field.as_bytes() {
        [b'-'] => Ok(wish(false, false, false)),
        [b's'] => Ok(wish(true, false, false)),
        [b'e'] => Ok(wish(false, true, false)),
        [b'r'] => Ok(wish(false, false, true)),
        [b's', b'e'] => Ok(wish(true, true, false)),
        [b's', b'r'] => Ok(wish(true, false, true)),
        [b'e', b'r'] => Ok(wish(false, true, true)),
        [b's', b'e', b'r'] => Ok(wish(true, true, true)),
        _ => Err(LineCause::Syntax),
    }
}
