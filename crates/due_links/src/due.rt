//! Ids, each with at most one tick.

ghost use Rattle.std.specs.Prelude.{◌≡◌, ◌<◌, ℕ, length, replicate, slice_set, IfOk, None, Some};
ghost use Rattle.due_links.specs.Ticks.{IsFirst, Pops, tick_at};
ghost use Rattle.due_links.specs.steps.Kept.{AreFrom, IsFirstAt, IsFirstBy, IsFirstNode};

use crate::bucket::{BUCKETS, Node, bucket_of, least_head, node_at, put_in, take_out};
use osi_base::{NoMemory, Tick};
use slab::Slab;
use std::alloc::Global;
use std::marker::Model;

/// Ids below a count, each due at one tick or at none.
#[derive(Drop)]
pub struct Due {
    nodes: Slab<Node>,
    places: Vec<Option<usize>>,
    heads: Vec<Option<usize>>,
    /// No id is due before this tick: up to it no bucket need be looked at.
    from: Tick,
    /// The node that came last, where it still stands: ids often come in turn to one tick, and the next then stands behind it.
    last: Option<usize>,
}

// In each bucket the links forward and backward agree, and the buckets together hold exactly the ids that are due, each at its tick;
// none is due before `from`.
impl Model for Due {
    ghost use Rattle.std.specs.Prelude.{ℕ, List, Option};
    ghost use Rattle.slab.specs.Slab.{get};
    ghost use Rattle.due_links.specs.steps.Kept.{AreFrom, IsKept, ticks_of};

    ghost Value = { List (Option ℕ) };

    ghost view = { λ d. ticks_of (get d.nodes) d.places.items };

    ghost invariant = { λ d. IsKept d.nodes d.places.items d.heads.items × AreFrom d.from (ticks_of (get d.nodes) d.places.items) };
}

impl Due {
    /// So many ids, none of which is due. All memory is taken here.
    pub fn new(alloc: Global, count: u32) -> Result<Due, NoMemory>
        ensures { IfOk result (λ due. due ≡ replicate count None) }
    {
        Ok(Due {
            nodes: Slab::with_capacity(alloc, count as usize)?,
            places: no_keys(alloc, count)?,
            heads: no_keys(alloc, BUCKETS)?,
            from: Tick::MAX,
            last: None,
        })
    }

    /// The least tick that is set; none exactly where nothing is set.
    pub fn first(&self) -> Option<Tick>
        ensures { IsFirst self.now result }
    {
        Some(self.least()?.at)
    }

    /// The id is due at that tick, and at no other.
    pub fn set(&mut self, id: u32, at: Tick)
        requires { id < length self.old }
        ensures { self.new ≡ slice_set self.old id (Some at) }
    {
        if let Some(tick) = self.tick_of(id) {
            if tick == at {
                return;
            }
        }
        self.move_to(id, at);
    }

    /// The id is due at another tick than before.
    // Not inlined: where the tick of an id stays, as mostly, there is no room for these values to clear.
    #[inline(never)]
    fn move_to(&mut self, id: u32, at: Tick)
        requires { id < length self.old }
        ensures { self.new ≡ slice_set self.old id (Some at) }
    {
        self.clear(id);
        self.come(id, at);
    }

    /// The id is due no more.
    pub fn clear(&mut self, id: u32)
        requires { id < length self.old }
        ensures { self.new ≡ slice_set self.old id None }
    {
        if let Some(key) = self.places[id as usize] {
            self.places[id as usize] = None;
            take_out(&mut self.nodes, &mut self.heads, key);
        }
    }

    /// Takes out the id of the least tick, and of these the least id, where that tick has come; none exactly where no tick has come.
    pub fn pop(&mut self, now: Tick) -> Option<u32>
        ensures { Pops self.old now result self.new }
    {
        if now < self.from {
            return None;
        }
        self.pop_by(now)
    }

    /// The same by a look at what is due.
    // Not inlined: where no tick can have come, as mostly, there is no room for its values to clear.
    #[inline(never)]
    fn pop_by(&mut self, now: Tick) -> Option<u32>
        ensures { Pops self.old now result self.new }
    {
        let Some(node) = self.first_by(now) else {
            self.from = now.saturating_add(1);
            return None;
        };
        self.from = node.at;
        self.clear(node.id);
        Some(node.id)
    }

    /// The first node, where its tick has come.
    fn first_by(&self, now: Tick) -> Option<Node>
        ensures { IsFirstBy self.now now result }
    {
        if now.saturating_sub(self.from) < BUCKETS {
            return self.walk_to(now);
        }
        let node = self.least()?;
        if now < node.at {
            return None;
        }
        Some(node)
    }

    /// The first node, where its tick has come, by a look at the bucket of each tick from `from` to that one.
    fn walk_to(&self, now: Tick) -> Option<Node>
        ensures { IsFirstBy self.now now result }
    {
        for at in self.from..=now {
            if let Some(node) = self.first_at(at) {
                return Some(node);
            }
        }
        None
    }

    /// The first node, where it is due at that tick and none is before.
    fn first_at(&self, at: Tick) -> Option<Node>
        requires { AreFrom at self.now }
        ensures { IsFirstAt self.now at result }
    {
        let Some(node) = node_at(&self.nodes, self.heads[bucket_of(at)]) else {
            return None;
        };
        if node.at == at { Some(node) } else { None }
    }

    /// The tick of an id.
    pub(crate) fn tick_of(&self, id: u32) -> Option<Tick>
        requires { id < length self.now }
        ensures { result ≡ tick_at self.now id }
    {
        Some(node_at(&self.nodes, self.places[id as usize])?.at)
    }

    /// The first node.
    fn least(&self) -> Option<Node>
        ensures { IsFirstNode self.now result }
    {
        least_head(&self.nodes, &self.heads)
    }

    /// An id that is not due comes into its bucket.
    fn come(&mut self, id: u32, at: Tick)
        requires within { id < length self.old }
        requires none { tick_at self.old id ≡ None }
        ensures { self.new ≡ slice_set self.old id (Some at) }
    {
        let key = put_in(&mut self.nodes, &mut self.heads, id, at, self.last);
        self.last = Some(key);
        self.places[id as usize] = Some(key);
        self.from = self.from.min(at);
    }
}

/// So many places without keys.
fn no_keys(alloc: Global, count: u32) -> Result<Vec<Option<usize>>, NoMemory>
    ensures { IfOk result (λ keys. keys.items ≡ replicate count None) }
{
    let mut keys = Vec::new(alloc);
    keys.resize(count as usize, None)?;
    Ok(keys)
}
