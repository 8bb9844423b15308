//! The line that a generated script leaves.

ghost use Rattle.std.specs.Prelude.{◌≡◌, ◌++◌, OnOk};
ghost use Rattle.script_storm.specs.Summary.{summary_line};

use crate::counts::Counts;
use crate::request::Storm;
use crate::text::push_number;
use osi_base::NoMemory;
use text_parts::push;

/// Appends the line of what was counted of a run, with a line feed. After `NoMemory`, `out` ends in a
/// part of it.
pub fn push_summary(storm: Storm, counts: &Counts, out: &mut Vec<u8>) -> Result<(), NoMemory>
    ensures { OnOk result (out.new.items ≡ out.old.items ++ summary_line storm counts.now) }
{
    push_number("storm ", storm.seed, out)?;
    push_number(" ", storm.count, out)?;
    push_number(" ticks ", counts.ticks, out)?;
    push_number(" frames ", counts.frames, out)?;
    push_number(" ends ", counts.ends, out)?;
    push_number(" got ", counts.got, out)?;
    push_number(" urgent ", counts.urgent, out)?;
    push_number(" gone ", counts.gone, out)?;
    push(b"\n", out)
}
