//! The commands of the program, and the words that ask for them.

ghost use Rattle.std.specs.Prelude.{◌≡◌, Some, map, string_bytes, IfSome};
ghost use Rattle.osi_commands.specs.Commands.{IsCalled, IsStorm};
ghost use Rattle.osi_commands.specs.declared.command.Command.{Command as Called};
ghost use Rattle.osi_commands.specs.steps.Naming.{named, named_by};
ghost use Rattle.script_storm.specs.declared.request.Storm.{Storm as StormWords};

use osi_kinds::Kind;
use script_storm::Storm;

/// A command of the program.
#[derive(Clone, Copy)]
pub enum Command {
    /// `run`: reads a script and writes its transcript.
    Run,
    /// `frames`: reads a script and writes the capture of its frames.
    Frames,
    /// `decode`: reads a capture and writes the lines of its records.
    Decode,
    /// `storm SEED COUNT`: reads nothing, runs a generated script and writes its summary.
    Storm(Storm),
    /// `datagrams`, `inactive` and `relay`: as `run`, over another network.
    Script(Kind),
}

impl Command {
    /// The command that the words ask for, if they ask for one.
    pub fn of(words: &[String]) -> Option<Command>
        ensures some { IfSome result (λ command. IsCalled (map string_bytes words.now) command) }
        ensures exact { (command : Called) → IsCalled (map string_bytes words.now) command → result ≡ Some command }
    {
        if let Some(command) = named_by(words) {
            return Some(command);
        }
        match storm_of(words) {
            Some(storm) => Some(Command::Storm(storm)),
            None => None,
        }
    }
}

/// The command that one word names.
fn named_by(words: &[String]) -> Option<Command>
    ensures { result ≡ named_by (map string_bytes words.now) }
{
    match words {
        [word] => named(word.as_str()),
        _ => None,
    }
}

/// The command of a name.
fn named(word: &str) -> Option<Command>
    ensures { result ≡ named word.now }
{
    if word == "run" {
        return Some(Command::Run);
    }
    if word == "frames" {
        return Some(Command::Frames);
    }
    if word == "decode" {
        return Some(Command::Decode);
    }
    if word == "datagrams" {
        return Some(Command::Script(Kind::Datagrams));
    }
    if word == "inactive" {
        return Some(Command::Script(Kind::Inactive));
    }
    if word == "relay" {
        return Some(Command::Script(Kind::Relay));
    }
    None
}

/// The generated script that the words `storm SEED COUNT` ask for.
fn storm_of(words: &[String]) -> Option<Storm>
    ensures some { IfSome result (λ storm. IsStorm (map string_bytes words.now) storm) }
    ensures exact { (storm : StormWords) → IsStorm (map string_bytes words.now) storm → result ≡ Some storm }
{
    match words {
        [word, seed, count] if word.as_str() == "storm" => {
            Storm::read(seed.as_str(), count.as_str())
        }
        _ => None,
    }
}
