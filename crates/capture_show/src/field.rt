//! The fields of a line, and how they are written.

ghost use Rattle.std.specs.Prelude.{◌≡◌, ◌++◌, ◌∷◌, [], map, OnOk};
ghost use Rattle.std.specs.Fmt.{decimal};
ghost use Rattle.capture_show.specs.Pdus.{flags_text, segment_text};
ghost use Rattle.capture_show.specs.Texts.{line, octets_text, title_text};
ghost use Rattle.capture_show.specs.steps.Written.{before, field_text, tail};

use crate::address::show_nsap;
use crate::listed::{push_addresses, push_parameters};
use clnp_header::SegmentPart;
use nsap::Nsap;
use osi_base::NoMemory;
use text_parts::{push, push_hex, push_marked, push_number};

/// A field of a line.
#[derive(Clone, Copy)]
pub enum Field<'a> {
    Word(&'static str),
    Number(usize),
    /// An octet in hexadecimal.
    Octet(u8),
    /// Octets in hexadecimal, at least one.
    Digits(&'a [u8]),
    Address(&'a Nsap),
    Title(&'a Option<Nsap>),
    /// So many addresses behind their lengths.
    Addresses(u8, &'a [u8]),
    /// All parameters of the octets.
    Parameters(&'a [u8]),
}

/// Appends a line.
pub fn write(fields: &[Field<'_>], out: &mut Vec<u8>) -> Result<(), NoMemory>
    ensures { OnOk result (out.new.items ≡ out.old.items ++ line (map field_text fields.now)) }
{
    let Some((first, others)) = fields.split_first() else {
        return push(b"\n", out);
    };
    push_field(first, out)?;
    write_others(others, out)
}

/// Appends the fields behind the first of a line, each behind a blank, and a line feed.
fn write_others(fields: &[Field<'_>], out: &mut Vec<u8>) -> Result<(), NoMemory>
    ensures { OnOk result (out.new.items ≡ out.old.items ++ tail (map field_text fields.now)) }
{
    for field in fields {
        push(b" ", out)?;
        push_field(field, out)?;
    }
    push(b"\n", out)
}

/// Appends a field.
fn push_field(field: &Field<'_>, out: &mut Vec<u8>) -> Result<(), NoMemory>
    ensures { OnOk result (out.new.items ≡ out.old.items ++ field_text field.now) }
{
    match field {
        Field::Word(text) => push(text.as_bytes(), out),
        Field::Number(number) => push_number(*number as u64, out),
        Field::Octet(octet) => push_hex(&[*octet], out),
        Field::Digits(octets) => push_hex(octets, out),
        Field::Address(address) => show_nsap(address, out),
        Field::Title(title) => push_title(title, out),
        Field::Addresses(count, octets) => push_addresses(*count, octets, out),
        Field::Parameters(octets) => push_parameters(octets, out),
    }
}

/// Appends a word, and numbers in decimal, each with a blank behind it.
// Inlined: the word and how many numbers there are is known at each call, so the word is a few moves, and there is no loop. With the numbers and
// their blanks in one piece, a capture of 148,000 AKs takes 102 million instructions in place of 125.
#[inline(always)]
pub fn push_numbers(word: &str, numbers: &[u32], out: &mut Vec<u8>) -> Result<(), NoMemory>
    ensures { OnOk result (out.new.items ≡ out.old.items ++ (word.now ++ before (map decimal numbers.now))) }
{
    push(word.as_bytes(), out)?;
    for number in numbers {
        push_marked(*number, b' ', out)?;
    }
    Ok(())
}

/// Appends the last field of a line, the octets of the data.
pub fn push_end(count: usize, out: &mut Vec<u8>) -> Result<(), NoMemory>
    ensures { OnOk result (out.new.items ≡ out.old.items ++ 32 ∷ (decimal count ++ 10 ∷ [])) }
{
    // Most TPDUs have no data; it is 27 instructions less for each of those AKs.
    if count == 0 {
        return push(b" 0\n", out);
    }
    push(b" ", out)?;
    match u32::try_from(count) {
        Ok(count) => push_marked(count, b'\n', out),
        Err(_) => push_long(count as u64, out),
    }
}

/// Appends the last number of a line.
fn push_long(number: u64, out: &mut Vec<u8>) -> Result<(), NoMemory>
    ensures { OnOk result (out.new.items ≡ out.old.items ++ (decimal number ++ 10 ∷ [])) }
{
    push_number(number, out)?;
    push(b"\n", out)
}

/// Appends a title, `-` for none.
fn push_title(title: &Option<Nsap>, out: &mut Vec<u8>) -> Result<(), NoMemory>
    ensures { OnOk result (out.new.items ≡ out.old.items ++ title_text title.now) }
{
    match title {
        Some(title) => show_nsap(title, out),
        None => push(b"-", out),
    }
}

/// Appends the letters of the flags, `-` for none.
pub fn push_flags(
    segment: Option<SegmentPart>,
    report: bool,
    out: &mut Vec<u8>,
) -> Result<(), NoMemory>
    ensures { OnOk result (out.new.items ≡ out.old.items ++ flags_text segment report) }
{
    let letters = match (segment, report) {
        (None, false) => "-",
        (None, true) => "e",
        (Some(part), false) => if part.more { "sm" } else { "s" },
        (Some(part), true) => if part.more { "sme" } else { "se" },
    };
    push(letters.as_bytes(), out)
}

/// Appends identifier, offset and total length of a segmentation part, `-` for none.
pub fn push_segment(segment: Option<SegmentPart>, out: &mut Vec<u8>) -> Result<(), NoMemory>
    ensures { OnOk result (out.new.items ≡ out.old.items ++ segment_text segment) }
{
    let Some(part) = segment else {
        return push(b"-", out);
    };
    push_number(u64::from(part.id), out)?;
    push(b"/", out)?;
    push_number(u64::from(part.offset), out)?;
    push(b"/", out)?;
    push_number(u64::from(part.total), out)
}

/// Appends octets in hexadecimal, in lower case, `-` for none.
pub fn push_octets(octets: &[u8], out: &mut Vec<u8>) -> Result<(), NoMemory>
    ensures { OnOk result (out.new.items ≡ out.old.items ++ octets_text octets.now) }
{
    if octets.is_empty() {
        push(b"-", out)
    } else {
        push_hex(octets, out)
    }
}
