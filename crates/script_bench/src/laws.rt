//! What holds of every script, whatever it sets up and runs.

ghost use Rattle.std.specs.Prelude.{List, ℕ};
ghost use Rattle.line_loop.specs.Laws.{AsksOne, OneCourse, AsksSomething};
ghost use Rattle.script_bench.specs.Bench.{bench_meaning, first_bench};

use crate::stage::Stage;

/// All octets ask for a status and a transcript: each line has a step, or fills the journal, or is refused.
pub fn some_outcome<W: Stage>()
    ensures { (all : List ℕ) → AsksSomething (bench_meaning W.acts) (first_bench W.acts) all }
{}

/// A script does not ask for two statuses or two transcripts; and octets do not come to two of these: they were read, they
/// are refused at a line, they pass a limit.
pub fn one_outcome<W: Stage>()
    ensures course { OneCourse (bench_meaning W.acts) }
    ensures asks { AsksOne (bench_meaning W.acts) }
{}
