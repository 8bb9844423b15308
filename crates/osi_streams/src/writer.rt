//! The sink over a writer.

ghost use Rattle.std.specs.Prelude.{◌≡◌, ℕ, List, Option};
ghost use Rattle.osi_streams.specs.Steady.{IsSteady};

use osi_base::{Sink, WriteRefusal};
use std::io::{Stdout, Write};

/// A writer whose contract knows the octets that it holds always, or never.
pub trait SteadyWriter: Write {
    ghost steady: { IsSteady Self.contents };
}

impl SteadyWriter for Stdout {
    ghost use Rattle.std.proofs.Common.{inl, refl};

    ghost steady = { inl (λ _. refl) };
}

impl SteadyWriter for Vec<u8> {
    ghost use Rattle.std.proofs.Common.{inr, refl};

    ghost steady = { inr (λ octets. (octets.items, refl)) };
}

/// A sink over a writer. It tells what was written where the contract of the writer knows it.
/// Each error of the writer counts as a fault, and so does a piece of which it takes nothing.
#[derive(Drop)]
pub struct WriterSink<W: SteadyWriter + Drop> {
    writer: W,
    faults: u64,
}

impl<W: SteadyWriter + Drop> WriterSink<W> {
    /// Writes to `writer`, with no fault so far.
    pub fn new(writer: W) -> WriterSink<W>
        ensures held { ⟦<WriterSink<W> as Sink>⟧.held result ≡ W.contents writer }
        ensures faults { ⟦<WriterSink<W> as Sink>⟧.faults result ≡ 0 }
    {
        WriterSink { writer, faults: 0 }
    }

    /// The writer, as the writes left it.
    pub fn into_inner(self) -> W
        ensures { W.contents result ≡ ⟦<WriterSink<W> as Sink>⟧.held self }
    {
        self.writer
    }
}

impl<W: SteadyWriter + Drop> Sink for WriterSink<W> {
    ghost held = { λ s. W.contents s.writer };

    ghost faults = { λ s. s.faults };

    fn write(&mut self, piece: &[u8]) -> Result<usize, WriteRefusal> {
        match self.writer.write(piece) {
            Ok(0) if !piece.is_empty() => {
                self.faults = self.faults.saturating_add(1);
                Ok(0)
            }
            Ok(count) => Ok(count),
            Err(_) => {
                self.faults = self.faults.saturating_add(1);
                Err(WriteRefusal::Failed)
            }
        }
    }
}
