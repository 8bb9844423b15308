//! What a script sets up and runs.

ghost use Rattle.std.specs.Prelude.{◌≡◌, [], OnOk};

use osi_base::NoMemory;
use script_journal::Event;
use script_lines::{Line, Names};
use std::alloc::Global;

/// What a script sets up and runs: each line that is read has its events.
pub trait Stage: Sized {
    ghost use Rattle.script_lines.specs.Known.{nothing_declared};
    ghost use Rattle.script_bench.specs.Acts.{Acts, Keeping, StageLaws};

    /// The command that reads the script, how it begins, what a line does, and how many arrivals were strays.
    ghost acts: { Acts Self };

    /// Which lines it has, and what it has in common with the names declared.
    ghost keeping: { Keeping Self };

    /// Nothing is declared yet in a script of the command.
    fn names(alloc: Global) -> Names
        ensures { result ≡ nothing_declared acts.dialect };

    /// Nothing was said yet.
    fn begin(alloc: Global) -> Self
        ensures { result ≡ acts.first };

    /// Does what a line that it has says, and adds the events.
    fn step(&mut self, alloc: Global, line: Line, events: &mut Vec<Event>) -> Result<(), NoMemory>
        requires none { events.old.items ≡ [] }
        requires known { keeping.runs self.old line }
        ensures { OnOk result (acts.step self.old line events.new.items self.new) };

    /// How many arrivals equalled no unit afloat, where something was injected.
    fn strays(&self) -> Option<u32>
        ensures { result ≡ acts.strays self.now };

    /// A line has one step; the stage goes on agreeing with the names; and it has each line that is read, with a step.
    ghost laws: { StageLaws acts keeping };
}
