//! The lines of ends: how they are made and gone, what they agree on, and their numbers.

ghost use Rattle.std.specs.Prelude.{◌∷◌, [], codes};
ghost use Rattle.script_lines.specs.Tags.{tags_of};
ghost use Rattle.script_journal.specs.Told.{end_cells};
ghost use Rattle.script_journal.specs.CauseWords.{held_text, option_cells, refused_cells, gone_cell};
ghost use Rattle.script_journal.specs.Cells.{Word, Number, System, Octets, Digits};
ghost use Rattle.script_journal.specs.steps.Written.{Appends, piece_text};

use crate::cause::Refused;
use crate::cause_words::{
    cause_piece, choice, format_piece, held_piece, number, size_piece, state_piece,
};
use crate::common_lines::write_octets;
use crate::event::{Indication, Request};
use crate::line_fields::{LineField, write};
use osi_base::{Bytes, NoMemory};
use script_lines::Names;
use tpdu::{EndTold, GoneCause, HeldKind, Options};

/// A connect request.
pub fn write_connect(request: &Request, names: &Names, out: &mut Vec<u8>) -> Result<(), NoMemory>
    ensures { Appends names.now
        (Word (codes "connect") ∷ Number request.now.end ∷ System request.now.system ∷ Number request.now.reference
        ∷ Digits request.now.calling ∷ Octets request.now.calling_selector
        ∷ Digits request.now.called ∷ Octets request.now.called_selector ∷ Octets request.now.octets ∷ [])
        out.old.items out.new.items result }
{
    write(
        &[
            LineField::Word("connect"),
            number(request.end),
            LineField::System(request.system),
            LineField::Number(u64::from(request.reference)),
            LineField::Digits(request.calling.as_slice()),
            LineField::Octets(request.calling_selector.as_slice()),
            LineField::Digits(request.called.as_slice()),
            LineField::Octets(request.called_selector.as_slice()),
            LineField::Octets(request.octets.as_slice()),
        ],
        names,
        out,
    )
}

/// A connect indication.
pub fn write_incoming(heard: &Indication, names: &Names, out: &mut Vec<u8>) -> Result<(), NoMemory>
    ensures { Appends names.now
        (Word (codes "incoming") ∷ Number heard.now.end ∷ System heard.now.system ∷ Number heard.now.reference
        ∷ Digits heard.now.calling ∷ Number heard.now.partner ∷ Octets heard.now.calling_selector
        ∷ Digits heard.now.called ∷ Octets heard.now.called_selector ∷ option_cells heard.now.options (Octets heard.now.octets ∷ []))
        out.old.items out.new.items result }
{
    let options = heard.options;
    write(
        &[
            LineField::Word("incoming"),
            number(heard.end),
            LineField::System(heard.system),
            LineField::Number(u64::from(heard.reference)),
            LineField::Digits(heard.calling.as_slice()),
            LineField::Number(u64::from(heard.partner)),
            LineField::Octets(heard.calling_selector.as_slice()),
            LineField::Digits(heard.called.as_slice()),
            LineField::Octets(heard.called_selector.as_slice()),
            format_piece(options.format),
            size_piece(options),
            choice(options.expedited, "exp", "noexp"),
            choice(options.sum, "sum", "nosum"),
            LineField::Octets(heard.octets.as_slice()),
        ],
        names,
        out,
    )
}

/// What an end tells its user.
pub fn write_end(end: u32, told: &EndTold, names: &Names, out: &mut Vec<u8>) -> Result<(), NoMemory>
    ensures { Appends names.now (end_cells end told.now) out.old.items out.new.items result }
{
    match told {
        EndTold::Accept { options, octets } => write_agreed(
            "accept", end, *options, octets, names, out,
        ),
        EndTold::Confirm { options, octets } => write_agreed(
            "confirm", end, *options, octets, names, out,
        ),
        EndTold::Got(octets) => write_octets("got ", end, octets, names, out),
        EndTold::Urgent(octets) => write_octets("urgent ", end, octets, names, out),
        EndTold::Window(credit) => write_window(end, *credit, names, out),
        EndTold::Held(kind, held) => write_held(end, *kind, *held, names, out),
        EndTold::Gone(cause, octets) => write_gone(end, *cause, octets, names, out),
    }
}

/// A word, an end, what is agreed, and octets.
fn write_agreed(
    word: &'static str,
    end: u32,
    options: Options,
    octets: &Bytes,
    names: &Names,
    out: &mut Vec<u8>,
) -> Result<(), NoMemory>
    ensures { Appends names.now (Word word.now ∷ Number end ∷ option_cells options (Octets octets.now ∷ [])) out.old.items out.new.items result }
{
    write(
        &[
            LineField::Word(word),
            number(end),
            format_piece(options.format),
            size_piece(options),
            choice(options.expedited, "exp", "noexp"),
            choice(options.sum, "sum", "nosum"),
            LineField::Octets(octets.as_slice()),
        ],
        names,
        out,
    )
}

/// Why an end is gone.
fn write_gone(
    end: u32,
    cause: GoneCause,
    octets: &Bytes,
    names: &Names,
    out: &mut Vec<u8>,
) -> Result<(), NoMemory>
    ensures { Appends names.now (Word (codes "gone") ∷ Number end ∷ gone_cell cause ∷ Octets octets.now ∷ []) out.old.items out.new.items result }
{
    write(
        &[
            LineField::Word("gone"),
            number(end),
            cause_piece(cause),
            LineField::Octets(octets.as_slice()),
        ],
        names,
        out,
    )
}

/// A credit that is in force.
fn write_window(end: u32, credit: u16, names: &Names, out: &mut Vec<u8>) -> Result<(), NoMemory>
    ensures { Appends names.now (Word (codes "window") ∷ Number end ∷ Number credit ∷ []) out.old.items out.new.items result }
{
    write(
        &[
            LineField::Word("window"),
            number(end),
            LineField::Number(u64::from(credit)),
        ],
        names,
        out,
    )
}

/// Two ends that a relay joins.
pub fn write_joined(
    inbound: u32,
    outbound: u32,
    names: &Names,
    out: &mut Vec<u8>,
) -> Result<(), NoMemory>
    ensures { Appends names.now (Word (codes "joined") ∷ Number inbound ∷ Number outbound ∷ []) out.old.items out.new.items result }
{
    write(
        &[LineField::Word("joined"), number(inbound), number(outbound)],
        names,
        out,
    )
}

/// A number that is held back.
fn write_held(
    end: u32,
    kind: HeldKind,
    held: u64,
    names: &Names,
    out: &mut Vec<u8>,
) -> Result<(), NoMemory>
    ensures { Appends names.now
        (Word (codes "held") ∷ Number end ∷ Word (held_text kind) ∷ Number held ∷ [])
        out.old.items out.new.items result }
{
    write(
        &[
            LineField::Word("held"),
            number(end),
            held_piece(kind),
            LineField::Number(held),
        ],
        names,
        out,
    )
}

/// Why a call is refused.
pub fn write_refused(cause: Refused, names: &Names, out: &mut Vec<u8>) -> Result<(), NoMemory>
    ensures { Appends names.now (Word (codes "no") ∷ refused_cells cause) out.old.items out.new.items result }
{
    match cause {
        Refused::WrongState(state) => write_wrong_state(state_piece(state), names, out),
        Refused::Ended => write_wrong_state(LineField::Word("ended"), names, out),
        Refused::NoSuchEnd => write_no("nosuchend", names, out),
        Refused::EmptyUnit => write_no("emptyunit", names, out),
        Refused::TooLong => write_no("toolong", names, out),
        Refused::NoExpedited => write_no("noexpedited", names, out),
        Refused::QueueFull => write_no("queuefull", names, out),
        Refused::RefsSpent => write_no("refsspent", names, out),
        Refused::Silent => write_no("silent", names, out),
        Refused::NoRoute => write_no("noroute", names, out),
        Refused::Full => write_no("full", names, out),
        Refused::IdsSpent => write_no("idsspent", names, out),
        Refused::Relayed => write_no("relayed", names, out),
    }
}

/// `no` and a word.
fn write_no(word: &'static str, names: &Names, out: &mut Vec<u8>) -> Result<(), NoMemory>
    ensures { Appends names.now (Word (codes "no") ∷ Word word.now ∷ []) out.old.items out.new.items result }
{
    write(&[LineField::Word("no"), LineField::Word(word)], names, out)
}

/// The end's state has no such call.
fn write_wrong_state(state: LineField<'_>, names: &Names, out: &mut Vec<u8>) -> Result<(), NoMemory>
    ensures { Appends names.now
        (Word (codes "no") ∷ Word (codes "wrongstate") ∷ Word (piece_text (tags_of names.now) state.entry) ∷ [])
        out.old.items out.new.items result }
{
    write(
        &[LineField::Word("no"), LineField::Word("wrongstate"), state],
        names,
        out,
    )
}
