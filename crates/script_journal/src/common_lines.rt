//! Lines of the same shape, for several events each.

ghost use Rattle.std.specs.Prelude.{◌∷◌, []};
ghost use Rattle.script_lines.specs.Tags.{tags_of};
ghost use Rattle.script_journal.specs.Told.{settled_cells};
ghost use Rattle.script_journal.specs.Cells.{Word, Number, System, Octets, Digits};
ghost use Rattle.script_journal.specs.steps.Written.{piece_text, Appends, Heads};

use crate::cause::Settled;
use crate::cause_words::number;
use crate::frequent_fields::{push_hex, push_name, push_octets};
use crate::line_fields::{LineField, write};
use osi_base::{Address, Bytes, NoMemory};
use script_lines::Names;
use text_parts::{push, push_marked};

/// A number behind a word and a blank.
// Inlined: the word is a constant at each call, and its length is then known.
#[inline(always)]
pub fn write_count(
    head: &'static str,
    count: u32,
    names: &Names,
    out: &mut Vec<u8>,
) -> Result<(), NoMemory>
    ensures { Heads names.now head.now (Number count ∷ []) out.old.items out.new.items result }
{
    push(head.as_bytes(), out)?;
    push_marked(count, b'\n', out)
}

/// How a `settle` ends.
pub fn write_settled(settled: Settled, names: &Names, out: &mut Vec<u8>) -> Result<(), NoMemory>
    ensures { Appends names.now (settled_cells settled) out.old.items out.new.items result }
{
    match settled {
        Settled::Settled(count) => write_count("settled ", count, names, out),
        Settled::Stopped(count) => write_count("stopped ", count, names, out),
    }
}

/// A word and a system.
pub fn write_system(
    word: &'static str,
    system: u8,
    names: &Names,
    out: &mut Vec<u8>,
) -> Result<(), NoMemory>
    ensures { Appends names.now (Word word.now ∷ System system ∷ []) out.old.items out.new.items result }
{
    write(
        &[LineField::Word(word), LineField::System(system)],
        names,
        out,
    )
}

/// A word, a system and what it met.
pub fn write_told(
    word: &'static str,
    system: u8,
    told: LineField<'_>,
    names: &Names,
    out: &mut Vec<u8>,
) -> Result<(), NoMemory>
    ensures { Appends names.now (Word word.now ∷ System system ∷ Word (piece_text (tags_of names.now) told.entry) ∷ []) out.old.items out.new.items result }
{
    write(
        &[LineField::Word(word), LineField::System(system), told],
        names,
        out,
    )
}

/// A number and a system behind a word and a blank.
// Inlined, as `write_count`.
#[inline(always)]
pub fn write_pick(
    head: &'static str,
    count: u32,
    system: u8,
    names: &Names,
    out: &mut Vec<u8>,
) -> Result<(), NoMemory>
    ensures { Heads names.now head.now (Number count ∷ System system ∷ []) out.old.items out.new.items result }
{
    push(head.as_bytes(), out)?;
    push_marked(count, b' ', out)?;
    push_name(names.system_name(system), b'\n', out)
}

/// An end and octets behind a word and a blank.
pub fn write_octets(
    head: &'static str,
    end: u32,
    octets: &Bytes,
    names: &Names,
    out: &mut Vec<u8>,
) -> Result<(), NoMemory>
    ensures { Heads names.now head.now (Number end ∷ Octets octets.now ∷ []) out.old.items out.new.items result }
{
    push(head.as_bytes(), out)?;
    push_marked(end, b' ', out)?;
    push_octets(octets.as_slice(), b'\n', out)
}

/// A system, an address and octets behind a word and a blank.
// Inlined, as `write_count`.
#[inline(always)]
pub fn write_raw<'a>(
    head: &'static str,
    system: u8,
    address: &'a Address,
    octets: &'a Bytes,
    names: &Names,
    out: &mut Vec<u8>,
) -> Result<(), NoMemory>
    ensures { Heads names.now head.now (System system ∷ Digits address.now ∷ Octets octets.now ∷ []) out.old.items out.new.items result }
{
    push(head.as_bytes(), out)?;
    push_name(names.system_name(system), b' ', out)?;
    push_hex(address.as_slice(), b' ', out)?;
    push_octets(octets.as_slice(), b'\n', out)
}

/// Two words and a system.
pub fn write_marked(
    word: &'static str,
    mark: &'static str,
    system: u8,
    names: &Names,
    out: &mut Vec<u8>,
) -> Result<(), NoMemory>
    ensures { Appends names.now (Word word.now ∷ Word mark.now ∷ System system ∷ []) out.old.items out.new.items result }
{
    write(
        &[
            LineField::Word(word),
            LineField::Word(mark),
            LineField::System(system),
        ],
        names,
        out,
    )
}

/// A word, a system, the octet of a reason and a place.
pub fn write_place(
    word: &'static str,
    system: u8,
    reason: u8,
    place: u8,
    names: &Names,
    out: &mut Vec<u8>,
) -> Result<(), NoMemory>
    ensures { Appends names.now (Word word.now ∷ System system ∷ Digits (reason ∷ []) ∷ Number place ∷ []) out.old.items out.new.items result }
{
    write(
        &[
            LineField::Word(word),
            LineField::System(system),
            LineField::Digits(&[reason]),
            LineField::Number(u64::from(place)),
        ],
        names,
        out,
    )
}
