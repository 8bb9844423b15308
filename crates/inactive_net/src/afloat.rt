//! The units that were taken and may still arrive (X.233, Inactive Network Layer Protocol subset).

ghost use Rattle.std.specs.Prelude.{◌≡◌, ◌≤◌, ◌++◌, ◌∷◌, [], filter, not, ◌&&◌, nat_le, OnOk, OnErr};
ghost use Rattle.std.specs.List.{All, list_any};
ghost use Rattle.osi_base.specs.Floated.{IsOrdered, is_young};
ghost use Rattle.inactive_step.specs.Step.{is_live_of};

use nsap::Nsap;
use osi_base::{NoMemory, Tick, Unit, is_older};
use std::alloc::Global;
use std::collections::VecDeque;
use std::marker::Model;

/// The units with the ticks at which they were taken, oldest first.
#[derive(Drop)]
pub struct Afloat {
    entries: VecDeque<(u32, Unit<Nsap>)>,
}

// The ticks do not fall.
impl Model for Afloat {
    ghost use Rattle.std.specs.Prelude.{List, ℕ};
    ghost use Rattle.osi_base.specs.declared.unit.Unit.{Unit as CarriedUnit};
    ghost use Rattle.osi_base.specs.Floated.{IsOrdered};

    ghost Value = { List (ℕ × CarriedUnit (List ℕ)) };

    ghost view = { λ a. a.entries.items };

    ghost invariant = { λ a. IsOrdered a.entries.items };
}

impl Afloat {
    /// No unit.
    pub fn new(alloc: Global) -> Afloat
        ensures { result ≡ [] }
    {
        Afloat {
            entries: VecDeque::new(alloc),
        }
    }

    /// Whether a unit with that source, destination and octets was taken at most `bound` ticks ago.
    pub fn has(&self, now: Tick, bound: u32, unit: &Unit<Nsap>) -> bool
        ensures { result ≡ list_any (is_live_of now bound unit.now) self.now }
    {
        self.entries
            .iter()
            .any(|entry| entry.1 == *unit && !is_older(entry.0, now, bound))
    }

    /// One unit more, taken at `now`.
    ///
    /// At NoMemory nothing has changed.
    pub fn add(&mut self, now: Tick, unit: Unit<Nsap>) -> Result<(), NoMemory>
        requires { All (λ entry. entry.0 ≤ now) self.old }
        ensures ok { OnOk result (self.new ≡ self.old ++ (now, unit) ∷ []) }
        ensures err { OnErr result (self.new ≡ self.old) }
    {
        self.entries.push_back((now, unit))?;
        Ok(())
    }

    /// Gives up the units that are older than `age` ticks.
    pub fn drop_older(&mut self, now: Tick, age: u32)
        ensures { self.new ≡ filter (is_young now age) self.old }
    {
        drop_front(&mut self.entries, now, age);
    }
}

/// Takes the old units from the front.
fn drop_front(entries: &mut VecDeque<(u32, Unit<Nsap>)>, now: Tick, age: u32)
    requires { IsOrdered entries.old.items }
    ensures rest { entries.new.items ≡ filter (is_young now age) entries.old.items }
    ensures ordered { IsOrdered entries.new.items }
{
    while let Some(front) = entries.front() {
        if !is_older(front.0, now, age) {
            break;
        }
        let _ = entries.pop_front();
    }
}
