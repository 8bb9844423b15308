//! What holds of every generated script.

ghost use Rattle.std.specs.Prelude.{◌≤◌};
ghost use Rattle.script_storm.specs.declared.request.Storm.{Storm};
ghost use Rattle.osi_storm.specs.Laws.{AsksOneSummary, RunsGenerated};
ghost use Rattle.osi_storm.specs.Storm.{AsksSomeSummary, IsLawfulStorm};

use law_run::ends_are_lawful;

/// What runs of a generated script is a script in which nothing is injected, line by line, and the run of the network for its lines.
pub fn generated_scripts_run()
    ensures { RunsGenerated }
{}

/// A generated script asks for a status and a text: each of its lines has a step, or fills the journal.
pub fn some_summary()
    ensures { (storm : Storm) → storm.count ≤ 20000 → AsksSomeSummary storm }
{}

/// It does not ask for two statuses or two texts.
pub fn one_summary()
    ensures { AsksOneSummary }
{}

/// Whatever front of the lines of a generated script ran, its journal is lawful: each raw unit that is shown was sent, and each end shows what
/// its partner submitted.
pub fn generated_scripts_are_lawful()
    ensures { (storm : Storm) → IsLawfulStorm storm }
{
    ends_are_lawful();
}
