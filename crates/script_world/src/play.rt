//! What a script sets up, and what then runs.

ghost use Rattle.std.specs.Prelude.{◌≡◌, [], IfOk, OnOk};
ghost use Rattle.script_setup.specs.SetUp.{SetUp as Said};
ghost use Rattle.script_world.specs.Plays.{CanRun, StartsUp, WorldStep, is_start};
ghost use Rattle.script_world.specs.declared.play.World.TheVariants.{SettingUp};

use osi_base::NoMemory;
use script_bench::Stage;
use script_journal::Event;
use script_lines::{Line, Names};
use script_setup::SetUp;
use std::alloc::Global;
use std::mem;

/// What a script runs once it is set up.
pub trait Play: Sized {
    ghost use Rattle.script_lines.specs.Known.{nothing_declared};
    ghost use Rattle.script_world.specs.Plays.{Going, PlayLaws, Playing};

    /// How it starts, what a line does, and how many arrivals were strays.
    ghost play: { Playing Self };

    /// Which lines it has, and what it has in common with the names declared.
    ghost going: { Going Self };

    /// The names of its scripts, of which none is declared yet.
    fn names(alloc: Global) -> Names
        ensures { result ≡ nothing_declared play.dialect };

    /// It starts, of what was set up.
    fn start(alloc: Global, setup: SetUp, events: &mut Vec<Event>) -> Result<Self, NoMemory>
        requires none { events.old.items ≡ [] }
        ensures { IfOk result (λ new. play.starts setup events.new.items new) };

    /// Does what a line that it has says, and adds the events.
    fn run_line(&mut self, line: Line, events: &mut Vec<Event>) -> Result<(), NoMemory>
        requires none { events.old.items ≡ [] }
        requires known { going.runs self.old line }
        ensures { OnOk result (play.step self.old line events.new.items self.new) };

    /// How many arrivals equalled no unit afloat, where something was injected.
    fn strays(&self) -> Option<u32>
        ensures { result ≡ play.strays self.now };

    /// What is set up well has one start, which fits the names; and what fits them has each line that is read, with one step, after which it fits.
    ghost laws: { PlayLaws play going };
}

/// What a script sets up and then runs.
pub enum World<P: Play + Drop> {
    /// It is set up.
    SettingUp(SetUp),
    /// It runs.
    Running(P),
}

// By hand, so that it is proved here alone: what is derived is proved again in each crate that lets a stage go.
impl<P: Play + Drop> Drop for World<P> {
    fn drop(self) {
        match self {
            World::SettingUp(_) => {}
            World::Running(_) => {}
        }
    }
}

impl<P: Play + Drop> Stage for World<P> {
    ghost use Rattle.script_world.specs.Plays.{world_acts, world_keeping};
    ghost use Rattle.script_world.specs.steps.Staged.{world_laws};

    ghost acts = { world_acts P.play };

    ghost keeping = { world_keeping P.play.dialect P.going };

    fn names(alloc: Global) -> Names {
        P::names(alloc)
    }

    fn begin(alloc: Global) -> World<P> {
        World::SettingUp(SetUp::new(alloc))
    }

    fn step(&mut self, alloc: Global, line: Line, events: &mut Vec<Event>) -> Result<(), NoMemory> {
        match self {
            World::Running(running) => running.run_line(line, events),
            World::SettingUp(_) => set_up(alloc, self, line, events),
        }
    }

    fn strays(&self) -> Option<u32> {
        match self {
            World::SettingUp(_) => None,
            World::Running(running) => running.strays(),
        }
    }

    ghost laws = { world_laws P.play P.going P.laws };
}

/// A line of a set-up.
// Not inlined: a function clears the room of all its values as it begins, and each line of what runs would clear that of a new network.
#[inline(never)]
fn set_up<P: Play + Drop>(
    alloc: Global,
    world: &mut World<P>,
    line: Line,
    events: &mut Vec<Event>,
) -> Result<(), NoMemory>
    requires none { events.old.items ≡ [] }
    requires set_up { (setup : Said) × (world.old ≡ SettingUp setup) }
    requires known { CanRun P.going world.old line }
    ensures { OnOk result (WorldStep P.play world.old line events.new.items world.new) }
{
    match world {
        World::Running(_) => unreachable!(),
        World::SettingUp(setup) => {
            if !is_start(&line) {
                return setup.add(line);
            }
            let setup = mem::replace(setup, SetUp::new(alloc));
            *world = start(alloc, setup, events)?;
            Ok(())
        }
    }
}

/// Whether the line ends the set-up.
fn is_start(line: &Line) -> bool
    ensures { result ≡ is_start line.now }
{
    matches!(line, Line::Start)
}

/// What was set up starts.
fn start<P: Play + Drop>(
    alloc: Global,
    setup: SetUp,
    events: &mut Vec<Event>,
) -> Result<World<P>, NoMemory>
    requires none { events.old.items ≡ [] }
    ensures { IfOk result (λ new. StartsUp P.play setup events.new.items new) }
{
    let running = P::start(alloc, setup, events)?;
    Ok(World::Running(running))
}
