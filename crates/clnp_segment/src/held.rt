//! What is held of one unit (X.233, reassembly).

ghost use Rattle.std.specs.Prelude.{◌≡◌, ◌≤◌, ◌+◌, length, count_by, is_some, OnErr, OnOk};
ghost use Rattle.clnp_segment.specs.Joining.{Filled, IsUnit, nothing_of};
ghost use Rattle.clnp_segment.specs.steps.Places.{Compares, Judges, is_alone, segment_of, with_segment};

use crate::runs::Runs;
use osi_base::NoMemory;
use std::alloc::Global;
use std::marker::Model;

/// A segment: where it begins, its octets, and the lengths of its header and of the initial PDU.
#[derive(Clone, Copy)]
pub struct SegmentRef<'a> {
    pub offset: u16,
    pub octets: &'a [u8],
    pub header: usize,
    pub total: u16,
}

impl SegmentRef<'_> {
    /// Whether it is the whole unit.
    pub fn is_unit(&self) -> bool
        requires { self.now.offset + (self.now.header + length self.now.octets.now) ≤ self.now.total }
        ensures { result ≡ is_alone (segment_of self.now) }
    {
        self.offset == 0 && self.header + self.octets.len() == usize::from(self.total)
    }
}

/// What a segment does to what is held of its unit.
#[derive(Clone, Copy)]
pub enum Verdict {
    /// It differs from it.
    Clash,
    /// It fills what is left.
    Whole,
    /// It brings so many octets, and leaves places empty.
    Fresh(usize),
}

/// What is held of one unit: runs of octets.
#[derive(Drop)]
pub struct Joint {
    header: usize,
    total: u16,
    runs: Runs,
}

impl Model for Joint {
    ghost use Rattle.clnp_segment.specs.Joining.{Held};

    ghost Value = { Held };

    ghost view = { λ j. record { header = j.header; total = j.total; slots = j.runs } };
}

impl Joint {
    /// Nothing, with the lengths of this segment.
    pub fn new(alloc: Global, segment: &SegmentRef<'_>) -> Joint
        requires { segment.now.header ≤ segment.now.total }
        ensures { result ≡ nothing_of (segment_of segment.now) }
    {
        let places = usize::from(segment.total) - segment.header;
        Joint {
            header: segment.header,
            total: segment.total,
            runs: Runs::new(alloc, places),
        }
    }

    /// How many octets are held.
    pub fn count(&self) -> usize
        ensures { result ≡ count_by is_some self.now.slots }
    {
        self.runs.count()
    }

    /// What the segment does.
    pub fn judge(&self, segment: &SegmentRef<'_>) -> Verdict
        requires places { self.now.header + length self.now.slots ≡ self.now.total }
        requires within { segment.now.offset + (segment.now.header + length segment.now.octets.now) ≤ segment.now.total }
        ensures { Judges self.now (segment_of segment.now) result }
    {
        if self.header != segment.header || self.total != segment.total {
            return Verdict::Clash;
        }
        self.compare(segment.offset, segment.octets)
    }

    /// What octets from that position on do.
    fn compare(&self, at: u16, octets: &[u8]) -> Verdict
        requires { at + length octets.now ≤ length self.now.slots }
        ensures { Compares self.now.slots at octets.now result }
    {
        let Some(fresh) = self.runs.fresh(at, octets) else {
            return Verdict::Clash;
        };
        let all = self.runs.len();
        if self.runs.count() + fresh == all {
            return Verdict::Whole;
        }
        Verdict::Fresh(fresh)
    }

    /// Writes the octets of the segment. At NoMemory what is held is unchanged.
    pub fn write(&mut self, segment: &SegmentRef<'_>) -> Result<(), NoMemory>
        requires { segment.now.offset + length segment.now.octets.now ≤ length self.old.slots }
        ensures ok { OnOk result (self.new ≡ with_segment self.old (segment_of segment.now)) }
        ensures err { OnErr result (self.new ≡ self.old) }
    {
        self.runs.write(segment.offset, segment.octets)
    }

    /// The unit, of which all octets are there.
    pub fn unit(self) -> Vec<u8>
        requires { Filled self }
        ensures { IsUnit self result.items }
    {
        self.runs.into_octets()
    }
}
