//! What a carrier took and may still let arrive (X.233, PDU lifetime control).

ghost use Rattle.std.specs.Prelude.{◌≡◌, ◌<◌, ◌≤◌, ◌+◌, ◌↔◌, ◌++◌, ◌∷◌, [], filter, length, nat_le, not, IsTrue, OnOk, OnErr};
ghost use Rattle.std.specs.List.{All, list_any};
ghost use Rattle.osi_base.specs.Floated.{is_unit_of, is_young, IsFloated, IsOrdered};

use crate::{NoMemory, Tick, Unit};
use std::alloc::Global;
use std::collections::VecDeque;
use std::marker::Model;

/// The units with the ticks at which they were taken, oldest first.
#[derive(Drop)]
pub struct Floating<A> {
    limit: u32,
    entries: VecDeque<(u32, Unit<A>)>,
}

// There are at most `limit` units, and their ticks do not fall.
impl<A> Model for Floating<A> {
    ghost use Rattle.osi_base.specs.Floated.{Floated, IsFloated};

    ghost Value = { Floated A };

    ghost view = { λ f. record { limit = f.limit; entries = f.entries.items } };

    ghost invariant = { λ f. IsFloated (record { limit = f.limit; entries = f.entries.items }) };
}

impl<A> Floating<A> {
    /// No unit, and room for `limit` units.
    pub fn new(alloc: Global, limit: u32) -> Floating<A>
        ensures limit { result.limit ≡ limit }
        ensures entries { result.entries ≡ [] }
    {
        Floating {
            limit,
            entries: VecDeque::new(alloc),
        }
    }

    /// Whether there is no room for another unit.
    pub fn is_full(&self) -> bool
        ensures full { IsTrue result ↔ (self.now.limit ≤ length self.now.entries) }
        ensures stands { IsFloated self.now }
    {
        self.entries.len() as u64 >= u64::from(self.limit)
    }

    /// Whether a unit with that source, destination and octets floats.
    pub fn has(&self, unit: &Unit<A>) -> bool
    where
        A: Eq,
        ensures { result ≡ list_any (is_unit_of A.eq unit.now) self.now.entries }
    {
        has_unit(&self.entries, unit)
    }

    /// One unit more, taken at `now`.
    ///
    /// At NoMemory nothing has changed.
    pub fn add(&mut self, now: Tick, unit: Unit<A>) -> Result<(), NoMemory>
    where
        A: Drop,
        requires room { length self.old.entries < self.old.limit }
        requires order { All (λ entry. entry.0 ≤ now) self.old.entries }
        ensures limit { self.new.limit ≡ self.old.limit }
        ensures ok { OnOk result (self.new.entries ≡ self.old.entries ++ (now, unit) ∷ []) }
        ensures err { OnErr result (self.new.entries ≡ self.old.entries) }
        ensures stands { IsFloated self.new }
    {
        self.entries.push_back((now, unit))?;
        Ok(())
    }

    /// Gives up the units that are older than `age` ticks.
    pub fn drop_older(&mut self, now: Tick, age: u32)
    where
        A: Drop,
        ensures limit { self.new.limit ≡ self.old.limit }
        ensures entries { self.new.entries ≡ filter (is_young now age) self.old.entries }
        ensures stands { IsFloated self.new }
    {
        drop_front(&mut self.entries, now, age);
    }
}

/// Whether an entry is of that unit.
fn has_unit<A: Eq>(entries: &VecDeque<(u32, Unit<A>)>, unit: &Unit<A>) -> bool
    ensures { result ≡ list_any (is_unit_of A.eq unit.now) entries.now.items }
{
    entries.iter().any(|entry| entry.1 == *unit)
}

/// Takes the old entries from the front.
fn drop_front<A: Drop>(entries: &mut VecDeque<(u32, Unit<A>)>, now: Tick, age: u32)
    requires { IsOrdered entries.old.items }
    ensures rest { entries.new.items ≡ filter (is_young now age) entries.old.items }
    ensures ordered { IsOrdered entries.new.items }
{
    while let Some(front) = entries.front() {
        if !is_older(front.0, now, age) {
            break;
        }
        let _ = entries.pop_front();
    }
}

/// Whether what was taken at a tick is more than so many ticks old.
pub fn is_older(taken: Tick, now: Tick, age: u32) -> bool
    ensures { result ≡ not (nat_le now (taken + age)) }
{
    u64::from(taken) + u64::from(age) < u64::from(now)
}
