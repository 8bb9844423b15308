//! The transport entities of the systems, in the order of their declaration, and the ends that were made there (X.224, class 4
//! procedures).

ghost use Rattle.std.specs.Prelude.{◌≡◌};
ghost use Rattle.std.specs.Borrow.{sem};
ghost use Rattle.std.specs.List.{position};
ghost use Rattle.tp4_world.specs.World.{is_of};
ghost use Rattle.tp4_world.specs.steps.Lending.{Finds, LendsEntity};

use crate::Placed;
use crate::ends::Ends;
use nsap::Nsap;
use osi_base::Arrival;
use std::alloc::Global;
use std::collections::VecDeque;
use tp4_flow::Step;

/// The entities, and their ends by number; and lists that hold nothing of value between calls, but have room. Each call that uses
/// one clears it first.
#[derive(Drop)]
pub struct Transport {
    pub alloc: Global,
    pub entities: Vec<Placed>,
    pub ends: Ends,
    pub out: Step,
    pub units: VecDeque<Arrival<Nsap>>,
}

/// The place of the entity of a system.
pub fn place_of(entities: &[Placed], system: u8) -> Option<usize>
    ensures { result ≡ position (is_of system) entities.now }
{
    entities.iter().position(|one| one.system == system)
}

/// The entity of a system, lent to be called.
pub fn entity_of(entities: &mut Vec<Placed>, system: u8) -> Option<&mut Placed>
    ensures* writes_back { sem 𝓛 (LendsEntity entities.entry system result) }
    ensures found { Finds entities.old.items system result }
{
    let Some(place) = place_of(entities, system) else {
        return None;
    };
    entities.get_mut(place)
}
