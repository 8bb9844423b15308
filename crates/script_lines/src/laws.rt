//! What holds of every line and of every script that is read.

ghost use Rattle.std.specs.Prelude.{◌≡◌, ℕ, List, Ok};
ghost use Rattle.std.specs.List.{AllByRecursion};
ghost use Rattle.script_lines.specs.Commands.{HasLine};
ghost use Rattle.script_lines.specs.Grammar.{Reading, line_read};
ghost use Rattle.script_lines.specs.Known.{Declared, nothing_declared};
ghost use Rattle.script_lines.specs.Names.{NamesDeclared};
ghost use Rattle.script_lines.specs.Script.{Says, Script, LineFaultAt};
ghost use Rattle.script_lines.specs.Tags.{HaveNames};
ghost use Rattle.script_lines.specs.declared.cause.LineFault.{LineFault};
ghost use Rattle.script_lines.specs.declared.line.Line.{Line};
ghost use Rattle.script_lines.specs.declared.words.Dialect.{Dialect};

/// The systems, LANs and source routes of a line are declared before it, each of the kind that the
/// line asks for; and what a line declares has the next number.
pub fn names_are_known()
    ensures { (names : Declared) (octets : List ℕ) (reading : Reading) → line_read names octets ≡ Ok reading → NamesDeclared names reading.line }
{}

/// After a script the names of systems, and those of LANs, are names, no two alike.
pub fn names_stay_names()
    ensures { (dialect : Dialect) (script : List (List ℕ)) (lines : List Line) (last : Declared)
        → Says (nothing_declared dialect) script lines last → HaveNames last }
{}

/// A line that is read is one that the scripts of the command have, and they stay scripts of that command.
pub fn lines_are_of_command()
    ensures has { (names : Declared) (octets : List ℕ) (reading : Reading) → line_read names octets ≡ Ok reading → HasLine names.dialect reading.line }
    ensures stays { (names : Declared) (octets : List ℕ) (reading : Reading) → line_read names octets ≡ Ok reading → reading.names.dialect ≡ names.dialect }
    ensures script { (dialect : Dialect) (script : List (List ℕ)) (lines : List Line) (last : Declared)
        → Says (nothing_declared dialect) script lines last → AllByRecursion (HasLine dialect) lines }
{}

/// A script has one list of lines, or one first fault, and not both.
pub fn one_reading()
    ensures lines { (dialect : Dialect) (script : List (List ℕ)) (first second : List Line) → Script dialect script first
        → Script dialect script second → first ≡ second }
    ensures fault { (dialect : Dialect) (script : List (List ℕ)) (line other : ℕ) (first second : LineFault) → LineFaultAt dialect script line first
        → LineFaultAt dialect script other second → (line ≡ other) × (first ≡ second) }
    ensures apart { (dialect : Dialect) (script : List (List ℕ)) (lines : List Line) (line : ℕ) (found : LineFault) → Script dialect script lines
        → LineFaultAt dialect script line found → ⊥ }
{}
