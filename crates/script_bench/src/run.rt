//! A script run from its source to its sink.

ghost use Rattle.std.specs.Prelude.{◌≡◌, ◌≢◌, ◌≤◌, ◌+◌, ◌⊎◌, List, ℕ, Some, length, max};
ghost use Rattle.line_loop.specs.Outcome.{IsAccepted, AsksFor, Outcome};
ghost use Rattle.octet_loop.specs.ByStatus.{IsFailure};
ghost use Rattle.line_loop.specs.Limits.{most_octets, most_read};
ghost use Rattle.osi_base.specs.Ends.{HasRisen, IsAtEnd, Put, Took};
ghost use Rattle.script_bench.specs.Bench.{bench_meaning, first_bench};

use crate::bench::Bench;
use crate::stage::Stage;
use line_loop::drive;
use osi_base::{Sink, Source, Status};
use std::alloc::Global;

/// Reads a script from the source, runs it on a stage, and writes the transcript to the sink.
pub fn run_script<W: Stage + Drop, S: Source, K: Sink>(
    alloc: Global,
    source: &mut S,
    sink: &mut K,
) -> Status
    // Of the octets read, what was written is told as the status says.
    ensures outcome { (read : List ℕ) × (written : List ℕ)
        × Took (S.left source.old) read (S.left source.new)
        × Put (K.held sink.old) written (K.held sink.new)
        × Outcome (bench_meaning W.acts) (IsAtEnd (S.left source.new)) (first_bench W.acts) read written result
        × (length read ≤ most_octets + most_read) }
    // What all octets of the source ask for comes, or a failure in its place.
    ensures exact { (all text : List ℕ) (asked : Status) → S.left source.old ≡ Some all → AsksFor (bench_meaning W.acts) (first_bench W.acts) all text asked
        → ((result ≡ asked) × Put (K.held sink.old) text (K.held sink.new)) ⊎ IsFailure result }
    // A script with no refused line and no limit passed is Done, unless memory runs out, where neither count of faults rises or
    // stands at its last value.
    ensures complete { (all : List ℕ) → S.left source.old ≡ Some all → IsAccepted (bench_meaning W.acts) (first_bench W.acts) all
        → ¬ HasRisen (S.faults source.old) (S.faults source.new) → ¬ HasRisen (K.faults sink.old) (K.faults sink.new)
        → ((result ≡ Status.Done) × (text : List ℕ) × AsksFor (bench_meaning W.acts) (first_bench W.acts) all text Status.Done × Put (K.held sink.old) text (K.held sink.new))
        ⊎ (result ≡ Status.NoMemory) }
    // One read asks for no more than 4,096 octets.
    ensures asked { S.asked source.new ≤ max (S.asked source.old) most_read }
    // A failed read ends the run: no other status comes after it, and no further read.
    ensures no_read_fault { result ≢ Status.ReadFault → S.faults source.new ≡ S.faults source.old }
    ensures one_read_fault { S.faults source.new ≤ S.faults source.old + 1 }
    // So does a failed write: no other status comes after it, and no further write.
    ensures no_write_fault { result ≢ Status.WriteFault → K.faults sink.new ≡ K.faults sink.old }
    ensures one_write_fault { K.faults sink.new ≤ K.faults sink.old + 1 }
    // A fault comes only where its count rose in this call, or stands at its last value.
    ensures read_fault { result ≡ Status.ReadFault → HasRisen (S.faults source.old) (S.faults source.new) }
    ensures write_fault { result ≡ Status.WriteFault → HasRisen (K.faults sink.old) (K.faults sink.new) }
{
    drive(alloc, Bench::<W>::new(alloc), source, sink)
}
