//! What octets ask the commands for that read a script.

ghost use Rattle.std.specs.Prelude.{List, ℕ};
ghost use Rattle.line_loop.specs.Laws.{AsksOne, AsksSomething, OneCourse};
ghost use Rattle.law_run.specs.Bench.{bench_meaning, first_bench};
ghost use Rattle.osi_kinds.specs.declared.kinds.Kind.{Kind as Command};
ghost use Rattle.law_outcomes.specs.Laws.{AsksOneOf, AsksSomethingOf};

use law_run::NetWorld;
use osi_kinds::{DatagramWorld, InactiveWorld, RelayWorld};

/// All octets ask `run` for a status and a transcript: each line has a step, or fills the journal, or is refused.
pub fn some_outcome()
    ensures { (all : List ℕ) → AsksSomething bench_meaning first_bench all }
{
    script_bench::some_outcome::<NetWorld>();
}

/// A script does not ask for two statuses or two transcripts; and octets do not come to two of these: they were read, they
/// are refused at a line, they pass a limit.
pub fn one_outcome()
    ensures course { OneCourse bench_meaning }
    ensures asks { AsksOne bench_meaning }
{
    script_bench::one_outcome::<NetWorld>();
}

/// All octets ask each of the other commands for a status and a transcript, and not for two.
pub fn kinds_have_one_outcome()
    ensures some { (kind : Command) (all : List ℕ) → AsksSomethingOf kind all }
    ensures one { (kind : Command) → AsksOneOf kind }
{
    script_bench::some_outcome::<DatagramWorld>();
    script_bench::some_outcome::<InactiveWorld>();
    script_bench::some_outcome::<RelayWorld>();
    script_bench::one_outcome::<DatagramWorld>();
    script_bench::one_outcome::<InactiveWorld>();
    script_bench::one_outcome::<RelayWorld>();
}
