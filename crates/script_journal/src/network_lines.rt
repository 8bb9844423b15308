//! The lines of frames, hellos, redirects and TPDUs.

ghost use Rattle.std.specs.Prelude.{◌∷◌, [], codes};
ghost use Rattle.script_journal.specs.Told.{note_cells};
ghost use Rattle.script_journal.specs.CauseWords.{drop_text, hello_text, tpdu_cause_text, tpdu_text};
ghost use Rattle.script_journal.specs.Cells.{Word, Number, System, Lan, Digits};
ghost use Rattle.script_journal.specs.steps.Written.{Appends};

use crate::cause_words::{
    drop_piece, hello_cause_piece, hello_piece, number, tpdu_cause_piece, tpdu_piece,
};
use crate::common_lines::{write_marked, write_place, write_system, write_told};
use crate::frequent_fields::{push_name, push_snpa};
use crate::line_fields::{LineField, write};
use osi_base::{Address, DropCause, HelloKind, NoMemory, Note};
use script_lines::Names;
use text_parts::{push, push_marked};
use tpdu::{Kind, TpduCause};

/// What the network tells of itself.
pub fn write_note(note: &Note, names: &Names, out: &mut Vec<u8>) -> Result<(), NoMemory>
    ensures { Appends names.now (note_cells note.now) out.old.items out.new.items result }
{
    match note {
        Note::Frame {
            number,
            lan,
            system,
            snpa,
            length,
        } => write_frame(*number, *lan, *system, snpa, *length, names, out),
        Note::DropFrame { system } => write_marked("drop", "frame", *system, names, out),
        Note::Discard {
            system,
            reason,
            place,
        } => write_place("discard", *system, *reason, *place, names, out),
        Note::Report {
            system,
            reason,
            place,
        } => write_place("report", *system, *reason, *place, names, out),
        Note::Alien { system } => write_system("alien", *system, names, out),
        Note::BadHello { system, cause } => write_told(
            "badhello",
            *system,
            hello_cause_piece(*cause),
            names,
            out,
        ),
        Note::HelloFull { system } => write_system("hellofull", *system, names, out),
        Note::Hello { system, kind, snpa } => write_hello(*system, *kind, snpa, names, out),
        Note::Redirect {
            system,
            address,
            snpa,
        } => write_redirect(*system, address, snpa, names, out),
    }
}

/// A transport unit that the network does not take.
pub fn write_dropped(
    system: u8,
    cause: DropCause,
    names: &Names,
    out: &mut Vec<u8>,
) -> Result<(), NoMemory>
    ensures { Appends names.now (Word (codes "drop") ∷ System system ∷ Word (drop_text cause) ∷ []) out.old.items out.new.items result }
{
    write_told("drop", system, drop_piece(cause), names, out)
}

/// A TPDU that is for no end.
pub fn write_unknown(
    system: u8,
    kind: Kind,
    names: &Names,
    out: &mut Vec<u8>,
) -> Result<(), NoMemory>
    ensures { Appends names.now (Word (codes "unknown") ∷ System system ∷ Word (tpdu_text kind) ∷ []) out.old.items out.new.items result }
{
    write_told("unknown", system, tpdu_piece(kind), names, out)
}

/// A frame that was sent.
fn write_frame(
    frame: u32,
    lan: u8,
    system: u8,
    snpa: &[u8; 6],
    length: u32,
    names: &Names,
    out: &mut Vec<u8>,
) -> Result<(), NoMemory>
    ensures { Appends names.now (Word (codes "frame") ∷ Number frame ∷ Lan lan ∷ System system ∷ Digits snpa.now ∷ Number length ∷ []) out.old.items out.new.items result }
{
    push(b"frame ", out)?;
    push_marked(frame, b' ', out)?;
    push_name(names.lan_name(lan), b' ', out)?;
    push_name(names.system_name(system), b' ', out)?;
    push_snpa(snpa, b' ', out)?;
    push_marked(length, b'\n', out)
}

/// A hello that was heard.
fn write_hello(
    system: u8,
    kind: HelloKind,
    snpa: &[u8; 6],
    names: &Names,
    out: &mut Vec<u8>,
) -> Result<(), NoMemory>
    ensures { Appends names.now (Word (codes "hello") ∷ System system ∷ Word (hello_text kind) ∷ Digits snpa.now ∷ []) out.old.items out.new.items result }
{
    write(
        &[
            LineField::Word("hello"),
            LineField::System(system),
            hello_piece(kind),
            LineField::Digits(snpa),
        ],
        names,
        out,
    )
}

/// A redirect that was heard.
fn write_redirect<'a>(
    system: u8,
    address: &'a Address,
    snpa: &'a [u8; 6],
    names: &Names,
    out: &mut Vec<u8>,
) -> Result<(), NoMemory>
    ensures { Appends names.now (Word (codes "redirect") ∷ System system ∷ Digits address.now ∷ Digits snpa.now ∷ []) out.old.items out.new.items result }
{
    write(
        &[
            LineField::Word("redirect"),
            LineField::System(system),
            LineField::Digits(address.as_slice()),
            LineField::Digits(snpa),
        ],
        names,
        out,
    )
}

/// A TPDU that cannot be read.
pub fn write_bad_tpdu(
    system: u8,
    cause: TpduCause,
    place: u32,
    names: &Names,
    out: &mut Vec<u8>,
) -> Result<(), NoMemory>
    ensures { Appends names.now (Word (codes "badtpdu") ∷ System system ∷ Word (tpdu_cause_text cause) ∷ Number place ∷ []) out.old.items out.new.items result }
{
    write(
        &[
            LineField::Word("badtpdu"),
            LineField::System(system),
            tpdu_cause_piece(cause),
            number(place),
        ],
        names,
        out,
    )
}
