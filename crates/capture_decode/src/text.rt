//! The lines of a capture.

ghost use Rattle.std.specs.Prelude.{◌≡◌, ◌++◌, OnOk};
ghost use Rattle.capture_decode.specs.Show.{field, done_line, refused_line, toomuch_line, cause_text};

use crate::cause::Cause;
use osi_base::NoMemory;
use text_parts::{push, push_marked};

/// Appends what closes the lines where the capture was read to its end.
pub fn push_done(out: &mut Vec<u8>) -> Result<(), NoMemory>
    ensures { OnOk result (out.new.items ≡ out.old.items ++ done_line) }
{
    push(b"done\n", out)
}

/// Appends what closes the lines where the octets are no capture.
pub fn push_refused(offset: u32, cause: Cause, out: &mut Vec<u8>) -> Result<(), NoMemory>
    ensures { OnOk result (out.new.items ≡ out.old.items ++ refused_line offset cause) }
{
    push(b"refused ", out)?;
    push_field(offset, out)?;
    push(word(cause).as_bytes(), out)?;
    push(b"\n", out)
}

/// Appends what closes the lines where the limit of an input is passed.
pub fn push_too_much(out: &mut Vec<u8>) -> Result<(), NoMemory>
    ensures { OnOk result (out.new.items ≡ out.old.items ++ toomuch_line) }
{
    push(b"toomuch\n", out)
}

/// The word of a cause.
fn word(cause: Cause) -> &'static str
    ensures { result.now ≡ cause_text cause }
{
    match cause {
        Cause::Short => "short",
        Cause::Magic => "magic",
        Cause::Version => "version",
        Cause::Link => "link",
        Cause::Length => "length",
    }
}

/// Appends a number in decimal and a blank.
///
/// In one piece: 100,000 records of no octets take 47 million instructions in place of 57.
pub fn push_field(number: u32, out: &mut Vec<u8>) -> Result<(), NoMemory>
    ensures { OnOk result (out.new.items ≡ out.old.items ++ field number) }
{
    push_marked(number, b' ', out)
}
