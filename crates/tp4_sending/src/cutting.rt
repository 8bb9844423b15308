//! The pieces of units (X.224, segmentation and reassembling).

ghost use Rattle.std.specs.Prelude.{◌≡◌, ◌<◌, ◌≤◌, Some, length};
ghost use Rattle.std.specs.List.{sum_by};
ghost use Rattle.tp4_sending.specs.Pieces.{count_in, cut_at, cut_of, freed};
ghost use Rattle.tp4_sending.specs.steps.Lent.{piece_of};

use osi_base::Bytes;
use std::collections::VecDeque;

/// A piece of a unit that is lent.
#[derive(Clone, Copy)]
pub struct PieceRef<'a> {
    /// The unit ends with it.
    pub last: bool,
    pub octets: &'a [u8],
}

/// The piece of that number, counted from the first of these units.
#[tactic(auto, using(crate::proofs::Cuts::cut_here, crate::proofs::Cuts::cut_past, crate::proofs::Goings::is_piece))]
pub(crate) fn piece_at(units: &VecDeque<Bytes>, size: u16, number: u64) -> PieceRef<'_>
    requires some { 0 < size }
    requires there { number < sum_by (count_in size) units.now.items }
    ensures { piece_of (Some result) ≡ cut_at size units.now.items number }
{
    let mut left = number;
    for at in 0..units.len() {
        let octets = units[at].as_slice();
        let count = count_in(octets, size);
        if left < count {
            return cut(octets, size, left);
        }
        left -= count;
    }
    unreachable!();
}

/// How many pieces a unit has.
#[tactic(auto, using(crate::proofs::Singles::one_piece))]
pub(crate) fn count_in(octets: &[u8], size: u16) -> u64
    requires { 0 < size }
    ensures { result ≡ count_in size octets.now }
{
    let count = octets.len() as u64;
    let size = u64::from(size);
    // Most units are one piece, for which nothing has to be divided.
    if 0 < count && count <= size {
        return 1;
    }
    count.div_ceil(size)
}

/// A piece of a unit.
fn cut(octets: &[u8], size: u16, number: u64) -> PieceRef<'_>
    requires some { 0 < size }
    requires within { number < count_in size octets.now }
    ensures { piece_of (Some result) ≡ Some (cut_of size octets.now number) }
{
    let from = number as usize * usize::from(size);
    let rest = &octets[from..];
    if rest.len() <= usize::from(size) {
        PieceRef {
            last: true,
            octets: rest,
        }
    } else {
        PieceRef {
            last: false,
            octets: &rest[..usize::from(size)],
        }
    }
}

/// The units all of whose pieces are below a number go; `first` is the number of the first piece of the first, and `octets` are those
/// of the units.
#[tactic(auto, using(crate::proofs::Frees::freed_on, crate::proofs::Frees::freed_here, crate::proofs::Frees::octets_on))]
pub(crate) fn free(
    units: &mut VecDeque<Bytes>,
    first: &mut u64,
    octets: &mut u64,
    size: u16,
    n: u64,
)
    requires some { 0 < size }
    requires low { first.old ≤ n }
    requires octets { octets.old ≡ sum_by length units.old.items }
    ensures octets { octets.new ≡ sum_by length units.new.items }
    ensures freed { record { units = units.new.items; first = first.new } ≡ freed size n (record { units = units.old.items; first = first.old }) }
{
    while let Some(unit) = units.front() {
        let count = count_in(unit.as_slice(), size);
        if n - *first < count {
            return;
        }
        *octets -= unit.as_slice().len() as u64;
        let _ = units.pop_front();
        *first += count;
    }
}
