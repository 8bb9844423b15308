//! What waits to be taken up, in order (IEEE 802.3).

ghost use Rattle.std.specs.Prelude.{◌≡◌, ◌++◌, ◌∷◌, [], None, OnOk};
ghost use Rattle.osi_base.specs.Calls.{after_first};

use nsap::Port;
use osi_base::{NoMemory, Up};
use std::alloc::Global;
use std::collections::VecDeque;
use std::marker::Model;

/// What waits. The first stands beside the list of the others: mostly one waits alone, and then no memory is taken for a list.
#[derive(Drop)]
pub struct Waiting {
    first: Option<Up<Port>>,
    others: VecDeque<Up<Port>>,
}

// Others wait only behind a first.
impl Model for Waiting {
    ghost use Rattle.std.specs.Prelude.{◌≡◌, ◌++◌, List, [], None, option_to_list};
    ghost use Rattle.osi_base.specs.declared.unit.Up.{Up};
    ghost use Rattle.nsap.specs.declared.port.Port.{Port};

    ghost Value = { List (Up Port) };

    ghost view = { λ w. option_to_list w.first ++ w.others.items };

    ghost invariant = { λ w. w.first ≡ None → w.others.items ≡ [] };
}

impl Waiting {
    /// Nothing waits.
    pub fn new(alloc: Global) -> Waiting
        ensures { result ≡ [] }
    {
        Waiting {
            first: None,
            others: VecDeque::new(alloc),
        }
    }

    /// One more waits, behind the others.
    // Inlined: what waits is a large value, which is moved once less.
    #[inline(always)]
    pub fn push(&mut self, up: Up<Port>) -> Result<(), NoMemory>
        ensures { OnOk result (self.new ≡ self.old ++ up ∷ []) }
    {
        if self.first.is_none() {
            self.first = Some(up);
            return Ok(());
        }
        self.others.push_back(up)?;
        Ok(())
    }

    /// The first of what waits, which is taken up.
    // Inlined: what waits is a large value, which is moved once less.
    #[inline(always)]
    pub fn pop(&mut self) -> Option<Up<Port>>
        ensures first { self.old ≡ after_first result self.new }
        ensures none { result ≡ None → self.old ≡ [] }
    {
        if self.first.is_none() {
            return None;
        }
        let first = self.first.take();
        if let Some(next) = self.others.pop_front() {
            self.first = Some(next);
        }
        first
    }
}
