//! Decoding a capture: octets are read in pieces, and the lines of their records are written.

ghost use Rattle.std.specs.Prelude.{◌≡◌, ◌≢◌, ◌⊎◌, ◌++◌, ◌+◌, ◌≤◌, List, ℕ, Some, length, max};
ghost use Rattle.osi_base.specs.Ends.{HasRisen, Took, Put, IsAtEnd};
ghost use Rattle.octet_loop.specs.Limits.{most_octets, most_read};
ghost use Rattle.octet_loop.specs.Outcome.{AsksFor, IsFailure, IsOver, Outcome};
ghost use Rattle.capture_decode.specs.declared.cause.Cause.{Cause};
ghost use Rattle.capture_decode.specs.Course.{capture_course, Finishes, Refuses, IsAccepted, IsRefused, IsPast};

use crate::decoder::Decoder;
use octet_loop::drive;
use osi_base::{Sink, Source, Status};
use std::alloc::Global;

/// Reads a capture to the end of the source, at most 4,096 octets a read, and writes the lines of its records.
///
/// Done where the octets are a capture, RefusedCapture exactly at their first fault, and TooMuch exactly where octet
/// 16,777,217 comes before one. ReadFault, WriteFault or NoMemory may come in the place of any status, and end the
/// run.
pub fn decode<S: Source, K: Sink>(alloc: Global, source: &mut S, sink: &mut K) -> Status
    // Of the octets read, what was written is told as the status says.
    ensures outcome { (read : List ℕ) × (written : List ℕ)
        × Took (S.left source.old) read (S.left source.new)
        × Put (K.held sink.old) written (K.held sink.new)
        × Outcome capture_course (IsAtEnd (S.left source.new)) read written result
        × (length read ≤ most_octets + most_read) }
    // What all octets of a source ask for comes, or a failure in its place.
    ensures exact { (all text : List ℕ) (asked : Status) → S.left source.old ≡ Some all → AsksFor capture_course all text asked
        → ((result ≡ asked) × Put (K.held sink.old) text (K.held sink.new)) ⊎ IsFailure result }
    // A capture without a fault within the limit is Done, unless memory runs out, where neither count of faults rises
    // or stands at its last value.
    ensures complete { (all : List ℕ) → S.left source.old ≡ Some all → IsAccepted all
        → ¬ HasRisen (S.faults source.old) (S.faults source.new) → ¬ HasRisen (K.faults sink.old) (K.faults sink.new)
        → ((result ≡ Status.Done) × (text : List ℕ) × Finishes all text × Put (K.held sink.old) text (K.held sink.new))
        ⊎ (result ≡ Status.NoMemory) }
    // Where a fault shows within the limit, the octets are refused for it, or a failure comes in its place.
    ensures refused { (all : List ℕ) (offset : ℕ) (cause : Cause) → S.left source.old ≡ Some all → IsRefused all offset cause
        → ((result ≡ Status.RefusedCapture) × (text : List ℕ) × Refuses all text offset cause × Put (K.held sink.old) text (K.held sink.new))
        ⊎ IsFailure result }
    // Where octet 16,777,217 comes before a fault shows, it is too much, or a failure comes in its place.
    ensures past { (all : List ℕ) → S.left source.old ≡ Some all → IsPast all
        → ((result ≡ Status.TooMuch) × (text : List ℕ) × IsOver capture_course all text × Put (K.held sink.old) text (K.held sink.new))
        ⊎ IsFailure result }
    // One read asks for no more than 4,096 octets.
    ensures asked { S.asked source.new ≤ max (S.asked source.old) most_read }
    // A failed read ends the run: no other status comes after it, and no further read.
    ensures no_read_fault { result ≢ Status.ReadFault → S.faults source.new ≡ S.faults source.old }
    ensures one_read_fault { S.faults source.new ≤ S.faults source.old + 1 }
    // So does a failed write: no other status comes after it, and no further write.
    ensures no_write_fault { result ≢ Status.WriteFault → K.faults sink.new ≡ K.faults sink.old }
    ensures one_write_fault { K.faults sink.new ≤ K.faults sink.old + 1 }
    // A fault comes only where its count rose in this call, or stands at its last value.
    ensures read_fault { result ≡ Status.ReadFault → HasRisen (S.faults source.old) (S.faults source.new) }
    ensures write_fault { result ≡ Status.WriteFault → HasRisen (K.faults sink.old) (K.faults sink.new) }
{
    capture_show::one_show();
    drive(alloc, Decoder::new(alloc), source, sink)
}
