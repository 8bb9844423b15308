//! The lines of datagrams.

ghost use Rattle.std.specs.Prelude.{◌∷◌, [], codes};
ghost use Rattle.script_journal.specs.CauseWords.{ud_cause_text};
ghost use Rattle.script_journal.specs.Cells.{Word, Number, System, Octets, Digits};
ghost use Rattle.script_journal.specs.steps.Written.{Appends};

use crate::boxed::Boxed;
use crate::cause::UdCause;
use crate::cause_words::{number, ud_cause_piece};
use crate::line_fields::{LineField, write};
use osi_base::{Address, Bytes, NoMemory};
use script_lines::Names;

/// A datagram that the network took.
pub fn write_send<'a>(
    system: u8,
    selector: &'a Boxed<Bytes>,
    to: &'a Address,
    called: &'a Boxed<Bytes>,
    octets: &'a Boxed<Bytes>,
    names: &Names,
    out: &mut Vec<u8>,
) -> Result<(), NoMemory>
    ensures { Appends names.now
        (Word (codes "send") ∷ System system ∷ Octets selector.now ∷ Digits to.now ∷ Octets called.now ∷ Octets octets.now ∷ [])
        out.old.items out.new.items result }
{
    write(
        &[
            LineField::Word("send"),
            LineField::System(system),
            LineField::Octets(selector.get().as_slice()),
            LineField::Digits(to.as_slice()),
            LineField::Octets(called.get().as_slice()),
            LineField::Octets(octets.get().as_slice()),
        ],
        names,
        out,
    )
}

/// A datagram that is shown.
pub fn write_datagram<'a>(
    system: u8,
    from: &'a Address,
    calling: &'a Boxed<Bytes>,
    called: &'a Boxed<Bytes>,
    octets: &'a Boxed<Bytes>,
    names: &Names,
    out: &mut Vec<u8>,
) -> Result<(), NoMemory>
    ensures { Appends names.now
        (Word (codes "datagram") ∷ System system ∷ Digits from.now ∷ Octets calling.now ∷ Octets called.now ∷ Octets octets.now ∷ [])
        out.old.items out.new.items result }
{
    write(
        &[
            LineField::Word("datagram"),
            LineField::System(system),
            LineField::Digits(from.as_slice()),
            LineField::Octets(calling.get().as_slice()),
            LineField::Octets(called.get().as_slice()),
            LineField::Octets(octets.get().as_slice()),
        ],
        names,
        out,
    )
}

/// A UD that cannot be read.
pub fn write_bad_ud(
    system: u8,
    cause: UdCause,
    place: u32,
    names: &Names,
    out: &mut Vec<u8>,
) -> Result<(), NoMemory>
    ensures { Appends names.now (Word (codes "badud") ∷ System system ∷ Word (ud_cause_text cause) ∷ Number place ∷ []) out.old.items out.new.items result }
{
    write(
        &[
            LineField::Word("badud"),
            LineField::System(system),
            ud_cause_piece(cause),
            number(place),
        ],
        names,
        out,
    )
}
