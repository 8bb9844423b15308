//! The call of the program.

ghost use Rattle.std.specs.Prelude.{◌≡◌, ◌≢◌, ◌⊎◌, ◌+◌, ◌≤◌, ◌++◌, List, ℕ, Some, map, max, string_bytes, IfOk};
ghost use Rattle.osi_base.specs.Ends.{HasRisen, IsAtEnd};
ghost use Rattle.line_loop.specs.Limits.{most_read};
ghost use Rattle.line_loop.specs.Writing.{IsPrefix, IsWritten};
ghost use Rattle.osi_commands.specs.Commands.{Asks, Does, IsCalled, Tells};
ghost use Rattle.osi_commands.specs.Text.{usage_line};
ghost use Rattle.osi_commands.specs.declared.command.Command.{Command as Called};
ghost use Rattle.osi_commands.specs.steps.Naming.{IsShort};

use crate::command::Command;
use capture_decode::decode;
use law_recovery_scripts::{outages_are_kept, scripts_recover};
use law_run::{calm_scripts_are_served, ends_are_lawful, run_network, systems_are_silent};
use line_loop::write_last;
use osi_base::{Bytes, NoMemory, PlainSink, PlainSource, Sink, Source, Status};
use osi_kinds::run_kind;
use osi_storm::{generated_scripts_are_lawful, write_storm};
use script_frames::write_capture;
use std::alloc::Global;

/// Does what the words of the program ask for, and answers how it ended.
///
/// `run` reads a script from the source and writes its transcript to the sink; `frames` writes the capture of its frames;
/// `decode` reads a capture and writes the lines of its records; `storm SEED COUNT` reads nothing, runs a generated script
/// and writes its summary; `datagrams`, `inactive` and `relay` read a script as `run` does, over another network. Other words write the usage line.
pub fn osi<S: Source, K: Sink>(
    alloc: Global,
    words: &[String],
    source: &mut S,
    sink: &mut K,
) -> Status
    // What each command does stands in specs/Commands.antt.
    ensures does { (command : Called) → IsCalled (map string_bytes words.now) command
        → Does command (S.left source.old) (S.left source.new) (K.held sink.old) (K.held sink.new)
        (S.faults source.old) (S.faults source.new) (K.faults sink.old) (K.faults sink.new) result }
    // Other words: the usage line was written, or a front of it, and nothing was read.
    ensures words { ((command : Called) → IsCalled (map string_bytes words.now) command → ⊥)
        → (S.left source.new ≡ S.left source.old) × IsWritten K.held sink.old usage_line Status.RefusedWords sink.new result }
    // One read asks for no more than 4,096 octets.
    ensures asked { S.asked source.new ≤ max (S.asked source.old) most_read }
    // A failed read ends the run: no other status comes after it, and no further read.
    ensures no_read_fault { result ≢ Status.ReadFault → S.faults source.new ≡ S.faults source.old }
    ensures one_read_fault { S.faults source.new ≤ S.faults source.old + 1 }
    // So does a failed write: no other status comes after it, and no further write.
    ensures no_write_fault { result ≢ Status.WriteFault → K.faults sink.new ≡ K.faults sink.old }
    ensures one_write_fault { K.faults sink.new ≤ K.faults sink.old + 1 }
    // A fault comes only where its count rose in this call, or stands at its last value.
    ensures read_fault { result ≡ Status.ReadFault → HasRisen (S.faults source.old) (S.faults source.new) }
    ensures write_fault { result ≡ Status.WriteFault → HasRisen (K.faults sink.old) (K.faults sink.new) }
{
    match Command::of(words) {
        Some(command) => carry_out(alloc, command, source, sink),
        None => refuse_words(sink),
    }
}

/// Carries out a command.
fn carry_out<S: Source, K: Sink>(
    alloc: Global,
    command: Command,
    source: &mut S,
    sink: &mut K,
) -> Status
    requires { IsShort command }
    ensures does { Does command (S.left source.old) (S.left source.new) (K.held sink.old) (K.held sink.new)
        (S.faults source.old) (S.faults source.new) (K.faults sink.old) (K.faults sink.new) result }
    ensures asked { S.asked source.new ≤ max (S.asked source.old) most_read }
    ensures no_read_fault { result ≢ Status.ReadFault → S.faults source.new ≡ S.faults source.old }
    ensures one_read_fault { S.faults source.new ≤ S.faults source.old + 1 }
    ensures no_write_fault { result ≢ Status.WriteFault → K.faults sink.new ≡ K.faults sink.old }
    ensures one_write_fault { K.faults sink.new ≤ K.faults sink.old + 1 }
    ensures read_fault { result ≡ Status.ReadFault → HasRisen (S.faults source.old) (S.faults source.new) }
    ensures write_fault { result ≡ Status.WriteFault → HasRisen (K.faults sink.old) (K.faults sink.new) }
{
    match command {
        Command::Run => {
            ends_are_lawful();
            systems_are_silent();
            calm_scripts_are_served();
            scripts_recover();
            outages_are_kept();
            run_network(alloc, source, sink)
        }
        Command::Frames => write_capture(alloc, source, sink),
        Command::Decode => decode(alloc, source, sink),
        Command::Storm(storm) => {
            generated_scripts_are_lawful();
            write_storm(alloc, storm, sink)
        }
        Command::Script(kind) => run_kind(alloc, kind, source, sink),
    }
}

/// Writes the usage line.
fn refuse_words<K: Sink>(sink: &mut K) -> Status
    ensures written { IsWritten K.held sink.old usage_line Status.RefusedWords sink.new result }
    ensures faults_stay { K.faults sink.old ≤ K.faults sink.new }
    ensures no_write_fault { result ≢ Status.WriteFault → K.faults sink.new ≡ K.faults sink.old }
    ensures one_write_fault { K.faults sink.new ≤ K.faults sink.old + 1 }
    ensures write_fault { result ≡ Status.WriteFault → HasRisen (K.faults sink.old) (K.faults sink.new) }
{
    write_last(sink, usage(), Status::RefusedWords)
}

/// What a run in memory wrote, and how it ended.
#[derive(Drop, Debug)]
pub struct Transcript {
    pub status: Status,
    pub octets: Bytes,
}

/// Does what the words ask for over a script or a capture in memory. Neither a read nor a write fails.
pub fn run_in_memory(alloc: Global, words: &[String], input: &[u8]) -> Result<Transcript, NoMemory>
    ensures no_read_fault { IfOk result (λ made. made.status ≢ Status.ReadFault) }
    ensures no_write_fault { IfOk result (λ made. made.status ≢ Status.WriteFault) }
    // What the octets ask for comes, unless memory runs out.
    ensures exact { (command : Called) → IsCalled (map string_bytes words.now) command
        → (text : List ℕ) (asked : Status) → Asks command input.now text asked
        → IfOk result (λ made. ((made.status ≡ asked) × (made.octets ≡ text)) ⊎ (made.status ≡ Status.NoMemory)) }
    // Of a front of the octets, what was written is told as the status says.
    ensures told { (command : Called) → IsCalled (map string_bytes words.now) command
        → IfOk result (λ made. (read rest : List ℕ) × (input.now ≡ read ++ rest) × Tells command (IsAtEnd (Some rest)) read made.octets made.status) }
    // Other words: the usage line, or a front of it where memory runs out.
    ensures words { ((command : Called) → IsCalled (map string_bytes words.now) command → ⊥)
        → IfOk result (λ made. ((made.status ≡ Status.RefusedWords) × (made.octets ≡ usage_line))
        ⊎ ((made.status ≡ Status.NoMemory) × IsPrefix made.octets usage_line)) }
{
    let mut source = PlainSource::new(alloc, input)?;
    let mut sink = PlainSink::new(alloc);
    let status = osi(alloc, words, &mut source, &mut sink);
    let octets = Bytes::of(sink.into_written());
    Ok(Transcript { status, octets })
}

/// The line for wrong words.
fn usage() -> &'static [u8]
    ensures { result.now ≡ usage_line }
{
    b"usage: osi run | frames | decode | storm SEED COUNT | datagrams | inactive | relay\n"
}
