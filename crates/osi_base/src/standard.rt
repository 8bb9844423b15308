//! The edge over the system's own streams. What they give and take is known only where they tell it.

ghost use Rattle.std.specs.Prelude.{◌≡◌, ◌+◌, ◌<◌, ◌≤◌, ℕ, List, Option, length, take, max, IfOk, OnOk, OnErr, IsErrOf};
ghost use Rattle.std.specs.Io.KnownBytes.{ReadConsumes, WriteAppends};
ghost use Rattle.osi_base.specs.Ends.{HasRisen, Took, Put, IsAtEnd};

use crate::{Failed, Sink, Source, WriteRefusal};
use std::io::{Read, Write};

/// A source over a reader, such as standard input. It tells nothing of its octets where the reader does not.
/// Each error of the reader counts as a fault.
#[derive(Drop)]
pub struct StdSource<R: Read + Drop> {
    reader: R,
    faults: u64,
    asked: usize,
}

impl<R: Read + Drop> StdSource<R> {
    /// Reads from `reader`, with no fault so far.
    pub fn new(reader: R) -> StdSource<R>
        ensures faults { ⟦<StdSource<R> as Source>⟧.faults result ≡ 0 }
        ensures asked { ⟦<StdSource<R> as Source>⟧.asked result ≡ 0 }
    {
        StdSource {
            reader,
            faults: 0,
            asked: 0,
        }
    }
}

impl<R: Read + Drop> Source for StdSource<R> {
    ghost use Rattle.std.specs.Prelude.{None};

    ghost left = { λ _. None };

    ghost faults = { λ s. s.faults };

    ghost asked = { λ s. s.asked };

    fn read(&mut self, into: &mut [u8]) -> Result<usize, Failed>
        ensures count { IfOk result (λ n. n ≤ length into.old) }
        ensures moved { IfOk result (λ n. Took None (take n into.new) None) }
        ensures end { IfOk result (λ n. n ≡ 0 → 0 < length into.old → IsAtEnd None) }
        ensures failed { OnErr result (HasRisen self.old.faults self.new.faults) }
        ensures kept { OnErr result (◌≡◌ {A = Option (List ℕ)} None None) }
        ensures faultless { OnOk result (self.new.faults ≡ self.old.faults) }
        ensures one_fault { self.new.faults ≤ self.old.faults + 1 }
        ensures faults_stay { self.old.faults ≤ self.new.faults }
        ensures asked { self.new.asked ≡ max self.old.asked (length into.old) }
        // What the reader gives is given, and it has ended where 0 says so; Failed took nothing.
        ensures given { ReadConsumes (R.remaining self.old.reader) (R.remaining self.new.reader) result into.new }
    {
        self.asked = self.asked.max(into.len());
        match self.reader.read(into) {
            Ok(count) => Ok(count),
            Err(_) => {
                self.faults = self.faults.saturating_add(1);
                Err(Failed)
            }
        }
    }
}

/// A sink over a writer, such as standard output. It tells nothing of what was written.
/// Each error of the writer counts as a fault, and so does a piece of which it takes nothing.
#[derive(Drop)]
pub struct StdSink<W: Write + Drop> {
    writer: W,
    faults: u64,
}

impl<W: Write + Drop> StdSink<W> {
    /// Writes to `writer`, with no fault so far.
    pub fn new(writer: W) -> StdSink<W>
        ensures { ⟦<StdSink<W> as Sink>⟧.faults result ≡ 0 }
    {
        StdSink { writer, faults: 0 }
    }
}

impl<W: Write + Drop> Sink for StdSink<W> {
    ghost use Rattle.std.specs.Prelude.{None};

    ghost held = { λ _. None };

    ghost faults = { λ s. s.faults };

    fn write(&mut self, piece: &[u8]) -> Result<usize, WriteRefusal> {
        match self.writer.write(piece) {
            Ok(0) if !piece.is_empty() => {
                self.faults = self.faults.saturating_add(1);
                Ok(0)
            }
            Ok(count) => Ok(count),
            Err(_) => {
                self.faults = self.faults.saturating_add(1);
                Err(WriteRefusal::Failed)
            }
        }
    }
}
