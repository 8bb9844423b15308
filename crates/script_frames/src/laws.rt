//! What holds of every capture of a script.

ghost use Rattle.std.specs.Prelude.{List, ℕ};
ghost use Rattle.line_loop.specs.Laws.{OneCourse};
ghost use Rattle.script_frames.specs.Laws.{AsksOneCapture, CapturesTooMuch, MakesCaptures};
ghost use Rattle.script_frames.specs.Frames.{AsksSomeCapture, frames_meaning};

/// The frames of the lines of a script are those of its journal, and what is written of them is a capture, whose records they are.
pub fn frames_make_captures()
    ensures { MakesCaptures }
{}

/// So it is where octets pass a limit or fill the journal: the frames are those of the events that stand in the journal then.
pub fn full_journals_make_captures()
    ensures { CapturesTooMuch }
{}

/// All octets ask for a status and a capture: each line has a step, or fills the journal, or is refused.
pub fn some_outcome()
    ensures { (all : List ℕ) → AsksSomeCapture all }
{}

/// Octets do not ask for two statuses or two captures; and they do not come to two of these: they were read, they are refused at a line,
/// they pass a limit.
pub fn one_outcome()
    ensures course { OneCourse frames_meaning }
    ensures asks { AsksOneCapture }
{}
