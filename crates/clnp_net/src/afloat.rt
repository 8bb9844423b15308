//! The units that were taken and may still arrive (X.233, PDU lifetime control), with an index by what they carry.

ghost use Rattle.std.specs.Prelude.{◌≡◌, ◌<◌, ◌≤◌, ◌+◌, ◌*◌, ◌%◌, ◌↔◌, ◌++◌, ◌∷◌, [], true, false, take, drop, filter, length, nat_eq, IsTrue, OnOk, OnErr};
ghost use Rattle.std.specs.BTreeSet.{IsUnchanged, Updates, UpdatesBy, contains, keys_between};
ghost use Rattle.std.specs.Cmp.Lexicographic.{pointwise};
ghost use Rattle.std.specs.List.{All, list_any};
ghost use Rattle.std.specs.Ordering.{nat_cmp};
ghost use Rattle.std.specs.declared.ops.Bound.TheVariants.{Included};
ghost use Rattle.osi_base.specs.Floated.{is_unit_of, is_young, IsFloated};
ghost use Rattle.clnp_net.specs.steps.Indexed.{AreIndexed, code_of, is_front_older, key_of, sum_from, unit_at};

use nsap::Nsap;
use osi_base::{NoMemory, Tick, Unit, is_older};
use std::alloc::Global;
use std::collections::{BTreeSet, VecDeque};
use std::marker::Model;

/// How many running numbers there are.
const NUMBERS: u64 = 4_294_967_296;

/// The units with the ticks at which they were taken, oldest first, and an index of them.
///
/// Each unit has a running number, the oldest one `first`. The index has, for each unit, its key before its number, once it is
/// wanted, that is from the first injection on: before that no arrival is looked up, and nothing is put there.
#[derive(Drop)]
pub struct Afloat {
    limit: u32,
    first: u32,
    entries: VecDeque<(u32, Unit<Nsap>)>,
    indexed: bool,
    index: BTreeSet<u64>,
}

// There are at most `limit` units, their ticks do not fall, and each is in the index once that is wanted.
impl Model for Afloat {
    ghost use Rattle.std.specs.Prelude.{List, ℕ};
    ghost use Rattle.std.specs.BTreeSet.{contains};
    ghost use Rattle.std.specs.Ordering.{nat_cmp};
    ghost use Rattle.osi_base.specs.Floated.{Floated, IsFloated};
    ghost use Rattle.clnp_net.specs.steps.Indexed.{IsIndexed};

    ghost Value = { Floated (List ℕ) };

    ghost view = { λ a. record { limit = a.limit; entries = a.entries.items } };

    ghost invariant = { λ a. IsIndexed a.limit a.indexed (contains nat_cmp a.index) a.first a.entries.items };
}

impl Afloat {
    /// No unit, and room for `limit` units.
    pub fn new(alloc: Global, limit: u32) -> Afloat
        ensures limit { result.limit ≡ limit }
        ensures entries { result.entries ≡ [] }
    {
        Afloat {
            limit,
            first: 0,
            entries: VecDeque::new(alloc),
            indexed: false,
            index: BTreeSet::new(alloc),
        }
    }

    /// Whether there is no room for another unit.
    pub fn is_full(&self) -> bool
        ensures full { IsTrue result ↔ (self.now.limit ≤ length self.now.entries) }
        ensures stands { IsFloated self.now }
    {
        self.entries.len() as u64 >= u64::from(self.limit)
    }

    /// Whether a unit with that source, destination and octets floats.
    pub fn has(&self, unit: &Unit<Nsap>) -> bool
        ensures { result ≡ list_any (is_unit_of (pointwise nat_eq) unit.now) self.now.entries }
    {
        if !self.indexed {
            return is_among(&self.entries, unit);
        }
        any_at(&self.index, &self.entries, self.first, unit)
    }

    /// From here on there is an index, by which `has` is quick among many units.
    pub fn index_all(&mut self) -> Result<(), NoMemory>
        ensures { self.new ≡ self.old }
    {
        if self.indexed {
            return Ok(());
        }
        enlist_all(&mut self.index, &self.entries, self.first)?;
        self.indexed = true;
        Ok(())
    }

    /// One unit more, taken at `now`.
    ///
    /// At NoMemory nothing has changed.
    pub fn add(&mut self, now: Tick, unit: Unit<Nsap>) -> Result<(), NoMemory>
        requires room { length self.old.entries < self.old.limit }
        requires order { All (λ entry. entry.0 ≤ now) self.old.entries }
        ensures limit { self.new.limit ≡ self.old.limit }
        ensures ok { OnOk result (self.new.entries ≡ self.old.entries ++ (now, unit) ∷ []) }
        ensures err { OnErr result (self.new.entries ≡ self.old.entries) }
        ensures stands { IsFloated self.new }
    {
        let number = u64::from(self.first) + self.entries.len() as u64;
        enlist(&mut self.index, self.indexed, &unit, number)?;
        self.entries.push_back((now, unit))?;
        Ok(())
    }

    /// Gives up the units that are older than `age` ticks.
    pub fn drop_older(&mut self, now: Tick, age: u32)
        ensures limit { self.new.limit ≡ self.old.limit }
        ensures entries { self.new.entries ≡ filter (is_young now age) self.old.entries }
        ensures stands { IsFloated self.new }
    {
        while self.has_older(now, age) {
            self.drop_first();
        }
    }

    /// Whether the oldest unit is more than so many ticks old.
    fn has_older(&self, now: Tick, age: u32) -> bool
        ensures older { result ≡ is_front_older now age self.now.entries }
        ensures stands { IsFloated self.now }
    {
        match self.entries.front() {
            Some(front) => is_older(front.0, now, age),
            None => false,
        }
    }

    /// Gives up the oldest unit.
    fn drop_first(&mut self)
        ensures limit { self.new.limit ≡ self.old.limit }
        ensures entries { self.new.entries ≡ drop 1 self.old.entries }
    {
        let Some((_, unit)) = self.entries.pop_front() else {
            return;
        };
        let number = u64::from(self.first);
        delist(&mut self.index, self.indexed, &unit, number);
        self.first = self.first.wrapping_add(1);
    }
}

/// A unit is put into the index, where there is one.
fn enlist(
    index: &mut BTreeSet<u64>,
    indexed: bool,
    unit: &Unit<Nsap>,
    number: u64,
) -> Result<(), NoMemory>
    ensures ok { OnOk result (indexed ≡ true → Updates nat_cmp index.old index.new (code_of (key_of unit.now) number) true) }
    ensures err { OnErr result (IsUnchanged index.old index.new) }
{
    if !indexed {
        return Ok(());
    }
    index.insert(code_for(unit, number))?;
    Ok(())
}

/// A unit goes from the index, where there is one.
fn delist(index: &mut BTreeSet<u64>, indexed: bool, unit: &Unit<Nsap>, number: u64)
    ensures { indexed ≡ true → UpdatesBy nat_cmp (nat_cmp (code_of (key_of unit.now) number)) index.old index.new false }
{
    if !indexed {
        return;
    }
    let code = code_for(unit, number);
    index.remove(&code);
}

/// All units are put into the index, by running numbers from the first one.
fn enlist_all(
    index: &mut BTreeSet<u64>,
    entries: &VecDeque<(u32, Unit<Nsap>)>,
    first: u32,
) -> Result<(), NoMemory>
    requires { length entries.now.items < 4294967296 }
    ensures { OnOk result (AreIndexed (contains nat_cmp index.new) first entries.now.items) }
{
    for place in 0..entries.len() {
        enlist_at(index, entries, first, place)?;
    }
    Ok(())
}

/// The unit at a place is put into the index, behind those before it.
fn enlist_at(
    index: &mut BTreeSet<u64>,
    entries: &VecDeque<(u32, Unit<Nsap>)>,
    first: u32,
    place: usize,
) -> Result<(), NoMemory>
    requires within { place < length entries.now.items }
    requires few { length entries.now.items < 4294967296 }
    ensures { OnOk result (AreIndexed (contains nat_cmp index.old) first (take place entries.now.items)
        → AreIndexed (contains nat_cmp index.new) first (take (place + 1) entries.now.items)) }
{
    let Some(entry) = entries.get(place) else {
        unreachable!();
    };
    enlist(index, true, &entry.1, u64::from(first) + place as u64)?;
    Ok(())
}

/// Whether one of the units equals this one.
fn is_among(entries: &VecDeque<(u32, Unit<Nsap>)>, unit: &Unit<Nsap>) -> bool
    ensures { result ≡ list_any (is_unit_of (pointwise nat_eq) unit.now) entries.now.items }
{
    entries.iter().any(|entry| entry.1 == *unit)
}

/// Whether one of the units that the index has under the key of this one equals it.
fn any_at(
    index: &BTreeSet<u64>,
    entries: &VecDeque<(u32, Unit<Nsap>)>,
    first: u32,
    unit: &Unit<Nsap>,
) -> bool
    ensures { result ≡ list_any (unit_at entries.now.items first unit.now)
        (keys_between nat_cmp (Included (key_of unit.now * 4294967296)) (Included (key_of unit.now * 4294967296 + 4294967295)) index.now) }
{
    let low = u64::from(key_for(unit)) * NUMBERS;
    let high = low + (NUMBERS - 1);
    index
        .range(low..=high)
        .any(|code| is_at(entries, first, *code, unit))
}

/// Whether the unit of that code, where there is one, equals this one.
fn is_at(entries: &VecDeque<(u32, Unit<Nsap>)>, first: u32, code: u64, unit: &Unit<Nsap>) -> bool
    ensures { result ≡ unit_at entries.now.items first unit.now code }
{
    let place = (code % NUMBERS + (NUMBERS - u64::from(first))) % NUMBERS;
    match entries.get(place as usize) {
        Some(entry) => entry.1 == *unit,
        None => false,
    }
}

/// The code of a unit with that running number.
fn code_for(unit: &Unit<Nsap>, number: u64) -> u64
    ensures { result ≡ code_of (key_of unit.now) number }
{
    u64::from(key_for(unit)) * NUMBERS + number % NUMBERS
}

/// The key of a unit: a sum of its octets and those of its addresses, in their order.
fn key_for(unit: &Unit<Nsap>) -> u32
    ensures { result ≡ key_of unit.now }
{
    let from = sum_after(0, unit.from.octets());
    let to = sum_after(from, unit.to.octets());
    sum_after(to, unit.octets.as_slice())
}

/// A sum with the octets behind what was added up.
fn sum_after(start: u32, octets: &[u8]) -> u32
    ensures { result ≡ sum_from start octets.now }
{
    let mut sum = start;
    for octet in octets {
        sum = sum.wrapping_mul(31).wrapping_add(u32::from(*octet));
    }
    sum
}
