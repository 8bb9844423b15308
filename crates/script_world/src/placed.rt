//! The transport entities of the end systems of a script (X.224, class 4: timers, frozen references).

ghost use Rattle.std.specs.Prelude.{◌≡◌, ◌≤◌, ◌++◌, [], length, IfOk, OnOk};
ghost use Rattle.std.specs.List.{AllByRecursion};
ghost use Rattle.script_setup.specs.Fitting.{AreLimits, AreSelectorsApart};
ghost use Rattle.law_setup.specs.Entities.{entities_from, entities_of, placed_at};

use osi_base::NoMemory;
use script_setup::{Limits, SetUp, System};
use std::alloc::Global;
use tp4_world::Placed;

/// The transport entities of the end systems of a set-up, in the order of their lines; they did nothing yet.
pub fn entities(alloc: Global, setup: &SetUp) -> Result<Vec<Placed>, NoMemory>
    ensures { IfOk result (λ placed. placed.items ≡ entities_of setup.now) }
{
    entities_from(alloc, setup.limits(), setup.life(), setup.systems())
}

/// Those of these systems, with these limits, where a TPDU is under way for so many ticks at most.
fn entities_from(
    alloc: Global,
    limits: Limits,
    life: u8,
    systems: &[System],
) -> Result<Vec<Placed>, NoMemory>
    requires limits { AreLimits limits }
    requires few { length systems.now ≤ 16 }
    requires apart { AllByRecursion (λ system. AreSelectorsApart [] system.selectors) systems.now }
    ensures { IfOk result (λ placed. placed.items ≡ entities_from life limits 0 systems.now) }
{
    let mut placed = Vec::new(alloc);
    for (number, system) in systems.iter().enumerate() {
        place(alloc, limits, life, number as u8, system, &mut placed)?;
    }
    Ok(placed)
}

/// Adds the transport entity of a system, where it is an end system.
fn place(
    alloc: Global,
    limits: Limits,
    life: u8,
    number: u8,
    system: &System,
    placed: &mut Vec<Placed>,
) -> Result<(), NoMemory>
    requires limits { AreLimits limits }
    requires apart { AreSelectorsApart [] system.now.selectors }
    ensures { OnOk result (placed.new.items ≡ placed.old.items ++ placed_at life limits number system.now) }
{
    if !system.end {
        return Ok(());
    }
    let references = u16::from(limits.references);
    let entity = system.entity(alloc, references, limits.timers(life))?;
    placed.push(Placed {
        system: number,
        entity,
    })?;
    Ok(())
}
