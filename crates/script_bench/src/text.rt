//! The events of a line as they are told, and the closing lines of a transcript.

ghost use Rattle.std.specs.Prelude.{◌≡◌, ◌++◌, ◌∷◌, [], OnOk};
ghost use Rattle.std.specs.Fmt.{decimal};
ghost use Rattle.script_lines.specs.Tags.{tags_of};
ghost use Rattle.script_journal.specs.Told.{journal_text};
ghost use Rattle.script_bench.specs.Text.{done_line, refused_line, strays_line, toomuch_line};

use osi_base::NoMemory;
use script_journal::{Event, write_event};
use script_lines::{LineFault, Names};
use text_parts::{push, push_number};

/// Appends the lines of events, one after another. After `NoMemory`, `out` ends in a part of them.
pub fn push_events(events: &[Event], names: &Names, out: &mut Vec<u8>) -> Result<(), NoMemory>
    ensures { OnOk result (out.new.items ≡ out.old.items ++ journal_text (tags_of names.now) events.now) }
{
    for event in events {
        write_event(event, names, out)?;
    }
    Ok(())
}

/// Appends the closing line where the script's line of this number was refused. After `NoMemory`,
/// `out` ends in a part of it.
pub fn push_refusal(line: u32, fault: LineFault, out: &mut Vec<u8>) -> Result<(), NoMemory>
    ensures { OnOk result (out.new.items ≡ out.old.items ++ refused_line line fault) }
{
    push_numbered(b"refused ", line, out)?;
    push_numbered(b"", fault.column, out)?;
    push(fault.cause.text().as_bytes(), out)?;
    push(b"\n", out)
}

/// Appends how many arrivals equalled no unit afloat. After `NoMemory`, `out` ends in a part of it.
pub fn push_strays(count: u32, out: &mut Vec<u8>) -> Result<(), NoMemory>
    ensures { OnOk result (out.new.items ≡ out.old.items ++ strays_line count) }
{
    push(b"strays ", out)?;
    push_number(u64::from(count), out)?;
    push(b"\n", out)
}

/// Appends the closing line where the input was handled to its end. After `NoMemory`, `out` ends in a part of it.
pub fn push_done(out: &mut Vec<u8>) -> Result<(), NoMemory>
    ensures { OnOk result (out.new.items ≡ out.old.items ++ done_line) }
{
    push(b"done\n", out)
}

/// Appends the closing line where a limit was passed. After `NoMemory`, `out` ends in a part of it.
pub fn push_too_much(out: &mut Vec<u8>) -> Result<(), NoMemory>
    ensures { OnOk result (out.new.items ≡ out.old.items ++ toomuch_line) }
{
    push(b"toomuch\n", out)
}

/// Appends a word, a number in decimal and a blank. `word` has a blank at its end, or is empty.
fn push_numbered(word: &[u8], number: u32, out: &mut Vec<u8>) -> Result<(), NoMemory>
    ensures { OnOk result (out.new.items ≡ out.old.items ++ word.now ++ decimal number ++ 32 ∷ []) }
{
    push(word, out)?;
    push_number(u64::from(number), out)?;
    push(b" ", out)
}
