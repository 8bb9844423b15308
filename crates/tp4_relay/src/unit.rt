//! Units that wait to be submitted.

ghost use Rattle.std.specs.Prelude.{◌≡◌, ◌++◌, ◌∷◌, [], length, drop, slice_get, IfOk, OnErr, OnOk, option_copied};
ghost use Rattle.tp4_relay.specs.steps.Marks.{unit_of};

use osi_base::{Bytes, NoMemory};
use std::alloc::Global;
use std::collections::VecDeque;
use std::marker::Model;

/// A unit with its mark.
#[derive(Drop)]
pub enum MarkedUnit {
    Normal(Bytes),
    Expedited(Bytes),
}

/// The mark of a unit.
#[derive(Clone, Copy, Debug, PartialEq, Eq)]
pub enum Mark {
    Normal,
    Expedited,
}

/// The unit with this mark and these octets.
pub fn unit_of(alloc: Global, mark: Mark, octets: &Bytes) -> Result<MarkedUnit, NoMemory>
    ensures { IfOk result (λ unit. unit ≡ unit_of mark octets.now) }
{
    let octets = Bytes::copy(alloc, octets.as_slice())?;
    Ok(match mark {
        Mark::Normal => MarkedUnit::Normal(octets),
        Mark::Expedited => MarkedUnit::Expedited(octets),
    })
}

/// Units that wait, the first of them at the front.
#[derive(Drop)]
pub struct Waiting {
    units: VecDeque<MarkedUnit>,
}

impl Model for Waiting {
    ghost use Rattle.std.specs.Prelude.{List};
    ghost use Rattle.tp4_relay.specs.declared.unit.MarkedUnit.{MarkedUnit};

    ghost Value = { List MarkedUnit };

    ghost view = { λ w. w.units.items };
}

impl Waiting {
    /// Nothing waits.
    pub fn new(alloc: Global) -> Waiting
        ensures { result ≡ [] }
    {
        Waiting {
            units: VecDeque::new(alloc),
        }
    }

    /// How many units wait.
    pub fn count(&self) -> usize
        ensures { result ≡ length self.now }
    {
        self.units.len()
    }

    /// The first that waits.
    pub fn first(&self) -> Option<&MarkedUnit>
        ensures { option_copied result ≡ slice_get self.now 0 }
    {
        self.units.front()
    }

    /// One unit more waits, behind the others.
    pub fn add(&mut self, unit: MarkedUnit) -> Result<(), NoMemory>
        ensures ok { OnOk result (self.new ≡ self.old ++ unit ∷ []) }
        ensures err { OnErr result (self.new ≡ self.old) }
    {
        self.units.push_back(unit)?;
        Ok(())
    }

    /// The first that waits is gone.
    pub fn drop_first(&mut self)
        ensures { self.new ≡ drop 1 self.old }
    {
        self.units.pop_front();
    }

    /// Nothing waits any more.
    pub fn clear(&mut self)
        ensures { self.new ≡ [] }
    {
        self.units.clear();
    }
}
