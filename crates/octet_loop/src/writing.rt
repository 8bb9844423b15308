//! A text is written to its end.

ghost use Rattle.std.specs.Prelude.{◌≡◌, ◌≢◌, ◌+◌, ◌≤◌, ◌⊎◌};
ghost use Rattle.osi_base.specs.Ends.{HasRisen};
ghost use Rattle.octet_loop.specs.Writing.{IsWritten};

use osi_base::{Sink, Status, WriteRefusal};

/// Writes a text to its end, and answers Done. Else the cause, and then a front of the text was written.
pub fn write_all<K: Sink>(sink: &mut K, text: &[u8]) -> Status
    ensures written { IsWritten K.held sink.old text.now Status.Done sink.new result }
    ensures faults_stay { K.faults sink.old ≤ K.faults sink.new }
    // A failed write ends the text: no other status comes after it, and no further write.
    ensures no_write_fault { result ≢ Status.WriteFault → K.faults sink.new ≡ K.faults sink.old }
    ensures one_write_fault { K.faults sink.new ≤ K.faults sink.old + 1 }
    ensures write_fault { result ≡ Status.WriteFault → HasRisen (K.faults sink.old) (K.faults sink.new) }
{
    let mut at = 0;
    while at < text.len() {
        let count = match sink.write(&text[at..]) {
            Ok(count) => count,
            Err(WriteRefusal::Failed) => return Status::WriteFault,
            Err(WriteRefusal::NoMemory) => return Status::NoMemory,
        };
        if count == 0 {
            return Status::WriteFault;
        }
        at += count;
    }
    Status::Done
}

/// Writes the last text of a run to its end, and answers `end`. Else the cause, and then a front of the text was
/// written.
pub fn write_last<K: Sink>(sink: &mut K, text: &[u8], end: Status) -> Status
    ensures written { IsWritten K.held sink.old text.now end sink.new result }
    ensures faults_stay { K.faults sink.old ≤ K.faults sink.new }
    // A failed write ends the text: no other status comes after it, and no further write.
    ensures no_write_fault { result ≢ Status.WriteFault → K.faults sink.new ≡ K.faults sink.old }
    ensures one_write_fault { K.faults sink.new ≤ K.faults sink.old + 1 }
    ensures write_fault { result ≡ Status.WriteFault → HasRisen (K.faults sink.old) (K.faults sink.new) ⊎ (end ≡ Status.WriteFault) }
{
    match write_all(sink, text) {
        Status::Done => end,
        status => status,
    }
}
