//! The fields of a transcript line, and how they are written.

ghost use Rattle.std.specs.Prelude.{◌≡◌, ◌++◌, OnOk};
ghost use Rattle.script_lines.specs.Tags.{tags_of};
ghost use Rattle.script_journal.specs.Cells.{line};
ghost use Rattle.script_journal.specs.steps.Written.{piece_text, pieces_text, tail};

use osi_base::NoMemory;
use script_lines::Names;
use text_parts::{push, push_hex, push_number};

/// A field of a transcript line.
#[derive(Clone, Copy)]
pub enum LineField<'a> {
    Word(&'static str),
    Number(u64),
    /// A preferred size, in units of 128 octets.
    Preferred(u64),
    System(u8),
    Lan(u8),
    /// Octets, at least one.
    Digits(&'a [u8]),
    /// Octets, `-` for none.
    Octets(&'a [u8]),
}

/// Appends a line.
pub fn write(pieces: &[LineField<'_>], names: &Names, out: &mut Vec<u8>) -> Result<(), NoMemory>
    ensures { OnOk result (out.new.items ≡ out.old.items ++ line (pieces_text (tags_of names.now) pieces.now)) }
{
    let Some((first, others)) = pieces.split_first() else {
        out.push(b'\n')?;
        return Ok(());
    };
    push_piece(*first, names, out)?;
    write_others(others, names, out)
}

/// Appends the fields behind the first of a line, each behind a blank, and a line feed.
fn write_others(pieces: &[LineField<'_>], names: &Names, out: &mut Vec<u8>) -> Result<(), NoMemory>
    ensures { OnOk result (out.new.items ≡ out.old.items ++ tail (pieces_text (tags_of names.now) pieces.now)) }
{
    for piece in pieces {
        out.push(b' ')?;
        push_piece(*piece, names, out)?;
    }
    out.push(b'\n')?;
    Ok(())
}

/// Appends a field.
fn push_piece(piece: LineField<'_>, names: &Names, out: &mut Vec<u8>) -> Result<(), NoMemory>
    ensures { OnOk result (out.new.items ≡ out.old.items ++ piece_text (tags_of names.now) piece.entry) }
{
    match piece {
        LineField::Word(text) => push(text.as_bytes(), out),
        LineField::Number(number) => push_number(number, out),
        LineField::Preferred(number) => {
            out.push(b'p')?;
            push_number(number, out)
        }
        LineField::System(system) => push(names.system_name(system), out),
        LineField::Lan(lan) => push(names.lan_name(lan), out),
        LineField::Digits(octets) => push_hex(octets, out),
        LineField::Octets(octets) => {
            if octets.is_empty() {
                out.push(b'-')?;
                Ok(())
            } else {
                push_hex(octets, out)
            }
        }
    }
}
