//! The lines of a record.

ghost use Rattle.std.specs.Prelude.{◌≡◌, ◌++◌, length, OnOk};
ghost use Rattle.capture_decode.specs.steps.Reading.{AppendsRecord, head_of, record_of};

use crate::record::Numbers;
use crate::text::push_field;
use capture_show::{ExtendedEnds, show_frame};
use osi_base::NoMemory;
use text_parts::push;

/// Appends the lines of the record of this number. After `NoMemory`, `out` ends in a part of them.
pub fn push_record(
    number: u32,
    numbers: &Numbers,
    octets: &[u8],
    ends: &mut ExtendedEnds,
    out: &mut Vec<u8>,
) -> Result<(), NoMemory>
    requires { numbers.now.captured ≡ length octets.now }
    ensures { OnOk result (AppendsRecord number (record_of numbers.now octets.now) ends.old out.old.items ends.new out.new.items) }
{
    push_head(number, numbers, out)?;
    if numbers.captured < numbers.original {
        return push(b"cut\n", out);
    }
    show_frame(octets, ends, out)
}

/// Appends what stands in front of the line of a record: its number, its seconds and fraction, and its captured length.
fn push_head(number: u32, numbers: &Numbers, out: &mut Vec<u8>) -> Result<(), NoMemory>
    ensures { OnOk result (out.new.items ≡ out.old.items ++ head_of number numbers.now) }
{
    push_field(number, out)?;
    push_field(numbers.seconds, out)?;
    push_field(numbers.fraction, out)?;
    push_field(numbers.captured, out)
}
