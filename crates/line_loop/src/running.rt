//! The loop over a source and a sink: octets are read in pieces, and what their lines did is written.

ghost use Rattle.std.specs.Prelude.{◌≡◌, ◌≢◌, ◌⊎◌, ◌++◌, ◌+◌, ◌≤◌, List, ℕ, Some, length, max};
ghost use Rattle.osi_base.specs.Ends.{HasRisen, Took, Put, IsAtEnd};
ghost use Rattle.line_loop.specs.Limits.{most_octets, most_read};
ghost use Rattle.line_loop.specs.Outcome.{AsksFor, Outcome};
ghost use Rattle.octet_loop.specs.ByStatus.{IsFailure};

use crate::feed::Feed;
use crate::machine::Machine;
use osi_base::{Sink, Source, Status};
use std::alloc::Global;

/// Reads lines to the end of the source, at most 4,096 octets a read, runs them and writes their transcript.
///
/// Octets are taken in order. RefusedLine exactly where a line is refused, and TooMuch exactly where an octet passes a
/// limit, whichever comes first; ReadFault, WriteFault or NoMemory may come in the place of any status, and end the run.
pub fn drive<M: Machine + Drop, S: Source, K: Sink>(
    alloc: Global,
    machine: M,
    source: &mut S,
    sink: &mut K,
) -> Status
    requires { M.meaning.lines machine ≡ 0 }
    // Of the octets read, what was written is told as the status says.
    ensures outcome { (read : List ℕ) × (written : List ℕ)
        × Took (S.left source.old) read (S.left source.new)
        × Put (K.held sink.old) written (K.held sink.new)
        × Outcome M.meaning (IsAtEnd (S.left source.new)) machine read written result
        × (length read ≤ most_octets + most_read) }
    // What all octets of a source ask for comes, or a failure in its place.
    ensures exact { (all text : List ℕ) (asked : Status) → S.left source.old ≡ Some all → AsksFor M.meaning machine all text asked
        → ((result ≡ asked) × Put (K.held sink.old) text (K.held sink.new)) ⊎ IsFailure result }
    // One read asks for no more than 4,096 octets.
    ensures asked { S.asked source.new ≤ max (S.asked source.old) most_read }
    // A failed read ends the run: no other status comes after it, and no further read.
    ensures no_read_fault { result ≢ Status.ReadFault → S.faults source.new ≡ S.faults source.old }
    ensures one_read_fault { S.faults source.new ≤ S.faults source.old + 1 }
    // So does a failed write: no other status comes after it, and no further write.
    ensures no_write_fault { result ≢ Status.WriteFault → K.faults sink.new ≡ K.faults sink.old }
    ensures one_write_fault { K.faults sink.new ≤ K.faults sink.old + 1 }
    // A fault comes only where its count rose in this call, or stands at its last value.
    ensures read_fault { result ≡ Status.ReadFault → HasRisen (S.faults source.old) (S.faults source.new) }
    ensures write_fault { result ≡ Status.WriteFault → HasRisen (K.faults sink.old) (K.faults sink.new) }
{
    octet_loop::drive(alloc, Feed::new(alloc, machine), source, sink)
}
