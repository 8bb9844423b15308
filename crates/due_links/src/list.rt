//! A list whose entries are due at ticks.

ghost use Rattle.std.specs.Prelude.{◌≡◌, ◌<◌, ◌≤◌, ◌++◌, ◌∷◌, [], length, slice_index_or, slice_set, vec_capacity, IfOk, None};
ghost use Rattle.std.specs.List.{remove};
ghost use Rattle.due_links.specs.Entries.{TakesDue};
ghost use Rattle.due_links.specs.Ticks.{tick_at};
ghost use Rattle.due_links.specs.steps.Listing.{AreListed, AreRising, IsId, ticks_by};

use crate::due::Due;
use osi_base::{NoMemory, Tick};
use std::alloc::Global;
use std::marker::Model;

/// The entries of a list, each due at one tick or at none. An entry keeps its id while others go, so that none is set anew then.
#[derive(Drop)]
pub struct DueList {
    due: Due,
    /// The ids of the entries, in their order. They rise, so that of the same tick the first entry comes first.
    ids: Vec<u32>,
    /// The id of the next entry. Where it is `room`, all are numbered anew, which is after as many entries came as there may be.
    next: u32,
    /// How many ids there are: where it can be, twice as many as entries.
    room: u32,
    /// How many entries there may be.
    most: u32,
}

// The ids rise and are those that are due, and there is memory for as many as may come.
impl Model for DueList {
    ghost use Rattle.std.specs.Prelude.{◌≡◌, ◌≤◌, length, vec_capacity};
    ghost use Rattle.due_links.specs.Entries.{Entries};
    ghost use Rattle.due_links.specs.steps.Listing.{AreListed, ticks_by};

    ghost Value = { Entries };

    ghost view = { λ l. record { most = l.most; ticks = ticks_by l.due l.ids.items } };

    ghost invariant = { λ l. AreListed l.due l.ids.items l.next × (length l.due ≡ l.room) × (l.most ≤ l.room) × (l.most ≤ vec_capacity l.ids) };
}

impl DueList {
    /// No entries, and room for so many. All memory is taken here.
    pub fn new(alloc: Global, most: u32) -> Result<DueList, NoMemory>
        ensures { IfOk result (λ list. list ≡ record { most = most; ticks = [] }) }
    {
        let room = most.saturating_mul(2);
        Ok(DueList {
            due: Due::new(alloc, room)?,
            ids: Vec::with_capacity(alloc, most as usize)?,
            next: 0,
            room,
            most,
        })
    }

    /// One entry more, behind the others.
    pub fn push(&mut self, tick: Option<Tick>)
        requires { length self.old.ticks < self.old.most }
        ensures { self.new ≡ record self.old { ticks = self.old.ticks ++ tick ∷ [] } }
    {
        let id = next_id(&mut self.due, &mut self.ids, self.next, self.room);
        let Ok(()) = self.ids.push(id) else {
            unreachable!();
        };
        keep(&mut self.due, id, tick);
        self.next = id + 1;
    }

    /// The entry at a place is due at that tick, or at none.
    pub fn set(&mut self, place: usize, tick: Option<Tick>)
        requires { place < length self.old.ticks }
        ensures { self.new ≡ record self.old { ticks = slice_set self.old.ticks place tick } }
    {
        let id = self.ids[place];
        keep(&mut self.due, id, tick);
    }

    /// The entry at a place goes.
    pub fn remove(&mut self, place: usize)
        requires { place < length self.old.ticks }
        ensures { self.new ≡ record self.old { ticks = remove self.old.ticks place } }
    {
        let id = self.ids.remove(place);
        self.due.clear(id);
    }

    /// The entry of the least tick goes, and of these the first, where that tick has come: its place. None exactly where no tick has come.
    pub fn pop(&mut self, now: Tick) -> Option<usize>
        ensures { TakesDue self.old now result self.new }
    {
        let id = self.due.pop(now)?;
        let place = place_of(&self.ids, id);
        self.ids.remove(place);
        Some(place)
    }
}

/// An id is due at that tick, or at none.
fn keep(due: &mut Due, id: u32, tick: Option<Tick>)
    requires { id < length due.old }
    ensures { due.new ≡ slice_set due.old id tick }
{
    match tick {
        Some(tick) => due.set(id, tick),
        None => due.clear(id),
    }
}

/// The place of an id.
fn place_of(ids: &[u32], id: u32) -> usize
    requires rising { AreRising ids.now }
    requires known { IsId ids.now id }
    ensures within { result < length ids.now }
    ensures is { slice_index_or ids.now result 0 ≡ id }
{
    let mut first = 0;
    let mut past = ids.len();
    while first < past {
        let middle = first + (past - first) / 2;
        if ids[middle] < id {
            first = middle + 1;
        } else {
            past = middle;
        }
    }
    first
}

/// The id of the entry that comes next. Where no id is left, all are numbered anew.
fn next_id(due: &mut Due, ids: &mut Vec<u32>, next: u32, room: u32) -> u32
    requires listed { AreListed due.old ids.old.items next }
    requires room { length due.old ≡ room }
    requires left { length ids.old.items < room }
    ensures listed { AreListed due.new ids.new.items result }
    ensures below { result < length due.new }
    ensures ticks { ticks_by due.new ids.new.items ≡ ticks_by due.old ids.old.items }
    ensures long { length due.new ≡ length due.old }
    ensures count { length ids.new.items ≡ length ids.old.items }
    ensures memory { vec_capacity ids.old ≤ vec_capacity ids.new }
{
    if next < room {
        return next;
    }
    renumber(due, ids);
    ids.len() as u32
}

/// The ids are numbered anew from 0, in their order.
#[inline(never)]
fn renumber(due: &mut Due, ids: &mut Vec<u32>)
    requires listed { AreListed due.old ids.old.items (length due.old) }
    requires few { length due.old < 4294967296 }
    ensures listed { AreListed due.new ids.new.items (length ids.new.items) }
    ensures ticks { ticks_by due.new ids.new.items ≡ ticks_by due.old ids.old.items }
    ensures long { length due.new ≡ length due.old }
    ensures count { length ids.new.items ≡ length ids.old.items }
    ensures memory { vec_capacity ids.old ≤ vec_capacity ids.new }
{
    for place in 0..ids.len() {
        let id = ids[place];
        pass(due, id, place as u32);
        ids[place] = place as u32;
    }
}

/// Another id is due as that one was.
fn pass(due: &mut Due, from: u32, to: u32)
    requires from { from < length due.old }
    requires to { to < length due.old }
    ensures { due.new ≡ slice_set (slice_set due.old from None) to (tick_at due.old from) }
{
    let tick = due.tick_of(from);
    due.clear(from);
    keep(due, to, tick);
}
