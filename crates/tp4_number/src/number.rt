//! Numbers and wire numbers (X.224, sequence numbering).

ghost use Rattle.std.specs.Prelude.{◌≡◌, ◌<◌, ◌*◌};
ghost use Rattle.tp4_number.specs.Number.{ahead};
ghost use Rattle.tp4_number.specs.Formats.{block_of};

use tpdu::Format;

/// The numbers in a block, a quarter of the wire numbers.
pub fn block(format: Format) -> u32
    ensures { result ≡ block_of format }
{
    match format {
        Format::Normal => 32,
        Format::Extended => 0x2000_0000,
    }
}

/// How far a wire number lies ahead of another.
#[tactic(auto, using(crate::proofs::Numbers::ahead_within, crate::proofs::Numbers::ahead_turned))]
pub fn distance(format: Format, from: u32, wire: u32) -> u32
    requires from { from < 4 * block_of format }
    requires wire { wire < 4 * block_of format }
    ensures { result ≡ ahead (block_of format) from wire }
{
    if wire < from {
        wire + (4 * block(format) - from)
    } else {
        wire - from
    }
}
