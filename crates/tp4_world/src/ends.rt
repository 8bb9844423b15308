//! The ends that were made, by their numbers, and the latest one of each reference (X.224, frozen references).

ghost use Rattle.std.specs.Prelude.{◌≡◌, ◌+◌, ◌∷◌, [], ◌++◌, length, IfOk, OnErr, ◌≤◌};
ghost use Rattle.tp4_world.specs.World.{end_numbered, latest};
ghost use Rattle.tp4_world.specs.steps.Parts.{key_of};
ghost use Rattle.tp4_world.specs.Ended.{has_ended};

use crate::EndAt;
use osi_base::{NoMemory, Tick};
use std::alloc::Global;
use std::collections::HashMap;
use std::marker::Model;
use tp4_conn::Uncounted;
use tp4_entity::TpEntity;

/// The ends that were made, in the order of their numbers.
#[derive(Drop)]
pub struct Ends {
    made: Vec<EndAt>,
    /// The number of the latest end of each reference: each event asks for it, and looking through all ends would cost their number.
    latest: HashMap<u32, u32>,
}

// There are no more than numbers, and the table has the latest end of each reference.
impl Model for Ends {
    ghost use Rattle.std.specs.Prelude.{List, ◌≤◌, length, nat_eq};
    ghost use Rattle.std.specs.HashMap.{get};
    ghost use Rattle.tp4_world.specs.declared.place.EndAt.{EndAt};
    ghost use Rattle.tp4_world.specs.steps.Parts.{AreLatest};

    ghost Value = { List EndAt };

    ghost view = { λ e. e.made.items };

    ghost invariant = { λ e. (length e.made.items ≤ 4294967295) × AreLatest e.made.items (get nat_eq e.latest) };
}

impl Ends {
    /// No end yet.
    pub fn new(alloc: Global) -> Ends
        ensures { result ≡ [] }
    {
        Ends {
            made: Vec::new(alloc),
            latest: HashMap::new(alloc),
        }
    }

    /// How many there are.
    pub fn count(&self) -> u32
        ensures { result ≡ length self.now }
    {
        self.made.len() as u32
    }

    /// The end of a number.
    pub fn numbered(&self, number: u32) -> Option<EndAt>
        ensures { result ≡ end_numbered self.now number }
    {
        if number == 0 {
            return None;
        }
        self.made.get(number as usize - 1).copied()
    }

    /// The number of the latest end made at a reference of a system, and 0 where none was.
    pub fn latest(&self, system: u8, reference: u16) -> u32
        ensures { result ≡ latest self.now system reference }
    {
        match self.latest.get(&key_of(system, reference)) {
            Some(number) => *number,
            None => 0,
        }
    }

    /// One end more; the answer is its number. Unchanged at NoMemory.
    pub fn add(&mut self, end: EndAt) -> Result<u32, NoMemory>
        ensures number { IfOk result (λ number. number ≡ length self.old + 1) }
        ensures added { IfOk result (λ number. self.new ≡ self.old ++ end ∷ []) }
        ensures err { OnErr result (self.new ≡ self.old) }
    {
        let count = self.count();
        if count == u32::MAX {
            return Err(NoMemory);
        }
        self.made.push(end)?;
        match self
            .latest
            .insert(key_of(end.system, end.reference), count + 1)
        {
            Ok(_) => Ok(count + 1),
            Err(_) => {
                self.made.pop();
                Err(NoMemory)
            }
        }
    }
}

/// The place of a reference of a system in the table.
fn key_of(system: u8, reference: u16) -> u32
    ensures { result ≡ key_of system reference }
{
    u32::from(system) * 65_536 + u32::from(reference)
}

/// Whether the reference of an end has been free since the end was made, or its system began again since.
#[tactic(auto, using(tp4_entity::proofs::Restarts::no_state))]
pub fn has_ended(
    ends: &Ends,
    now: Tick,
    number: u32,
    end: EndAt,
    entity: &TpEntity<Uncounted>,
) -> bool
    requires { entity.now.clock ≤ now }
    ensures { result ≡ has_ended now ends.now number end entity.now }
{
    let is_latest = ends.latest(end.system, end.reference) == number;
    let is_gone = entity.state_of(end.reference, &mut Uncounted).is_none();
    !is_latest || is_gone || entity.is_free(now, end.reference, &mut Uncounted)
}
