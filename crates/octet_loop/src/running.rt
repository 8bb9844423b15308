//! The pieces of an input, one after another, up to its limit, its end or a stop.

ghost use Rattle.std.specs.Prelude.{◌≡◌, ◌≢◌, ◌⊎◌, ◌++◌, ◌+◌, ◌≤◌, ◌<◌, List, ℕ, [], length, max};
ghost use Rattle.osi_base.specs.Ends.{HasRisen, Took, Put, IsAtEnd};
ghost use Rattle.octet_loop.specs.Limits.{most_octets, most_read};
ghost use Rattle.octet_loop.specs.Outcome.{Outcome};
ghost use Rattle.octet_loop.specs.steps.Driving.{Passes, Closes, IsClosed, IsOverWritten};

use crate::intake::Intake;
use crate::writing::{write_all, write_last};
use osi_base::{Sink, Source, Status};
use std::alloc::Global;

/// The most octets of one read.
const MOST_READ: usize = 4096;
/// The most octets of an input.
const MOST_OCTETS: u32 = 16_777_216;

/// Reads to the end of the source, at most 4,096 octets a read, hands the octets to the intake and writes what they
/// tell.
///
/// Octets are taken in order. TooMuch also where an octet passes the limit of 16,777,216. ReadFault, WriteFault or
/// NoMemory may come in the place of any status, and end the run.
pub fn drive<T: Intake + Drop, S: Source, K: Sink>(
    alloc: Global,
    mut intake: T,
    source: &mut S,
    sink: &mut K,
) -> Status
    requires ready { T.progress.ready intake }
    requires none { T.progress.led intake [] [] intake }
    // Of the octets read, what was written is told as the status says.
    ensures outcome { (read : List ℕ) × (written : List ℕ)
        × Took (S.left source.old) read (S.left source.new)
        × Put (K.held sink.old) written (K.held sink.new)
        × Outcome (T.course intake) (IsAtEnd (S.left source.new)) read written result
        × (length read ≤ most_octets + most_read) }
    // One read asks for no more than 4,096 octets.
    ensures asked { S.asked source.new ≤ max (S.asked source.old) most_read }
    // A failed read ends the run: no other status comes after it, and no further read.
    ensures no_read_fault { result ≢ Status.ReadFault → S.faults source.new ≡ S.faults source.old }
    ensures one_read_fault { S.faults source.new ≤ S.faults source.old + 1 }
    // So does a failed write: no other status comes after it, and no further write.
    ensures no_write_fault { result ≢ Status.WriteFault → K.faults sink.new ≡ K.faults sink.old }
    ensures one_write_fault { K.faults sink.new ≤ K.faults sink.old + 1 }
    // A fault comes only where its count rose in this call, or stands at its last value.
    ensures read_fault { result ≡ Status.ReadFault → HasRisen (S.faults source.old) (S.faults source.new) }
    ensures write_fault { result ≡ Status.WriteFault → HasRisen (K.faults sink.old) (K.faults sink.new) }
{
    let mut out = Vec::new(alloc);
    let mut buffer = [0u8; MOST_READ];
    loop {
        let Ok(count) = source.read(&mut buffer) else {
            return Status::ReadFault;
        };
        if count == 0 {
            return close(&mut intake, &mut out, sink);
        }
        match pass_on(&mut intake, &buffer[..count], &mut out, sink) {
            Status::Done => {}
            status => return status,
        }
    }
}

/// Hands on a piece of the input, as far as the limit goes, and writes what it tells. Done where the input goes on.
fn pass_on<T: Intake, K: Sink>(
    intake: &mut T,
    octets: &[u8],
    out: &mut Vec<u8>,
    sink: &mut K,
) -> Status
    requires ready { T.progress.ready intake.old }
    requires within { T.progress.octets intake.old ≤ most_octets }
    ensures passes { Passes T.course T.progress K.held octets.now intake.old sink.old intake.new sink.new result }
    ensures ready { result ≡ Status.Done → T.progress.ready intake.new }
    ensures octets { result ≡ Status.Done → T.progress.octets intake.new ≡ T.progress.octets intake.old + length octets.now }
    ensures within { result ≡ Status.Done → T.progress.octets intake.new ≤ most_octets }
    ensures faults_stay { K.faults sink.old ≤ K.faults sink.new }
    ensures no_write_fault { result ≢ Status.WriteFault → K.faults sink.new ≡ K.faults sink.old }
    ensures one_write_fault { K.faults sink.new ≤ K.faults sink.old + 1 }
    ensures write_fault { result ≡ Status.WriteFault → HasRisen (K.faults sink.old) (K.faults sink.new) }
{
    out.clear();
    let room = (MOST_OCTETS - intake.octets()) as usize;
    if octets.len() > room {
        return overfill(intake, octets, room, out, sink);
    }
    match intake.take(octets, out) {
        Ok(()) => write_all(sink, out),
        Err(status) => write_closed(out, status, sink),
    }
}

/// Hands on the first octets of a piece, to the limit, and writes what they tell; the next octet passes the limit.
fn overfill<T: Intake, K: Sink>(
    intake: &mut T,
    octets: &[u8],
    room: usize,
    out: &mut Vec<u8>,
    sink: &mut K,
) -> Status
    requires ready { T.progress.ready intake.old }
    requires empty { out.old.items ≡ [] }
    requires full { T.progress.octets intake.old + room ≡ most_octets }
    requires more { room < length octets.now }
    ensures passes { Passes T.course T.progress K.held octets.now intake.old sink.old intake.new sink.new result }
    ensures stopped { result ≢ Status.Done }
    ensures faults_stay { K.faults sink.old ≤ K.faults sink.new }
    ensures no_write_fault { result ≢ Status.WriteFault → K.faults sink.new ≡ K.faults sink.old }
    ensures one_write_fault { K.faults sink.new ≤ K.faults sink.old + 1 }
    ensures write_fault { result ≡ Status.WriteFault → HasRisen (K.faults sink.old) (K.faults sink.new) }
{
    match intake.take(&octets[..room], out) {
        Ok(()) => overflow(intake, out, sink),
        Err(status) => write_closed(out, status, sink),
    }
}

/// Writes what was told before an octet passed the limit, and that it did.
fn overflow<T: Intake, K: Sink>(intake: &T, out: &mut Vec<u8>, sink: &mut K) -> Status
    ensures written { IsOverWritten T.course T.progress K.held intake.now out.old.items sink.old sink.new result }
    ensures faults_stay { K.faults sink.old ≤ K.faults sink.new }
    ensures no_write_fault { result ≢ Status.WriteFault → K.faults sink.new ≡ K.faults sink.old }
    ensures one_write_fault { K.faults sink.new ≤ K.faults sink.old + 1 }
    ensures write_fault { result ≡ Status.WriteFault → HasRisen (K.faults sink.old) (K.faults sink.new) }
{
    let Ok(()) = intake.push_too_much(out) else {
        return Status::NoMemory;
    };
    write_last(sink, out, Status::TooMuch)
}

/// The input ends: writes what is told then.
fn close<T: Intake, K: Sink>(intake: &mut T, out: &mut Vec<u8>, sink: &mut K) -> Status
    requires { T.progress.ready intake.old }
    ensures closes { Closes T.course T.progress K.held intake.old sink.old sink.new result }
    ensures faults_stay { K.faults sink.old ≤ K.faults sink.new }
    ensures no_write_fault { result ≢ Status.WriteFault → K.faults sink.new ≡ K.faults sink.old }
    ensures one_write_fault { K.faults sink.new ≤ K.faults sink.old + 1 }
    ensures write_fault { result ≡ Status.WriteFault → HasRisen (K.faults sink.old) (K.faults sink.new) }
{
    out.clear();
    let status = intake.finish(out);
    write_closed(out, status, sink)
}

/// Writes a text to its end, after which the run ends with this status; where memory ran out there is no such text.
fn write_closed<K: Sink>(text: &[u8], end: Status, sink: &mut K) -> Status
    ensures written { IsClosed K.held sink.old text.now end sink.new result }
    ensures faults_stay { K.faults sink.old ≤ K.faults sink.new }
    ensures no_write_fault { result ≢ Status.WriteFault → K.faults sink.new ≡ K.faults sink.old }
    ensures one_write_fault { K.faults sink.new ≤ K.faults sink.old + 1 }
    ensures write_fault { result ≡ Status.WriteFault → HasRisen (K.faults sink.old) (K.faults sink.new) ⊎ (end ≡ Status.WriteFault) }
{
    match end {
        Status::NoMemory => Status::NoMemory,
        status => write_last(sink, text, status),
    }
}
