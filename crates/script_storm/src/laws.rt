//! What holds of every generated script.

ghost use Rattle.script_lines.specs.declared.words.Dialect.{Dialect};
ghost use Rattle.script_lines.specs.declared.words.Dialect.TheVariants as dialects;
ghost use Rattle.script_storm.specs.Read.{RunsStorms, AreRead};

/// Where the words of generated scripts name their lines, no line of them is refused, and none injects octets; so it is in scripts of `run`.
pub fn lines_are_read()
    ensures read { (dialect : Dialect) → RunsStorms dialect → AreRead dialect }
    ensures some { RunsStorms dialects.Run }
{}
