//! The source over a reader.

ghost use Rattle.std.specs.Prelude.{◌≡◌, ℕ, List, Option};
ghost use Rattle.osi_streams.specs.Steady.{IsSteady};

use osi_base::{Failed, Source};
use std::io::{Read, Stdin};

/// A reader whose contract knows the octets that it has left always, or never.
pub trait SteadyReader: Read {
    ghost steady: { IsSteady Self.remaining };
}

impl SteadyReader for Stdin {
    ghost use Rattle.std.proofs.Common.{inl, refl};

    ghost steady = { inl (λ _. refl) };
}

impl SteadyReader for &[u8] {
    ghost use Rattle.std.proofs.Common.{inr, refl};

    ghost steady = { inr (λ octets. (octets.now, refl)) };
}

/// A source over a reader. It tells what is left where the contract of the reader knows it. Each error of the reader counts as a fault.
#[derive(Drop)]
pub struct ReaderSource<R: SteadyReader + Drop> {
    reader: R,
    faults: u64,
    asked: usize,
}

impl<R: SteadyReader + Drop> ReaderSource<R> {
    /// Reads from `reader`, with no fault so far.
    pub fn new(reader: R) -> ReaderSource<R>
        ensures left { ⟦<ReaderSource<R> as Source>⟧.left result ≡ R.remaining reader }
        ensures faults { ⟦<ReaderSource<R> as Source>⟧.faults result ≡ 0 }
        ensures asked { ⟦<ReaderSource<R> as Source>⟧.asked result ≡ 0 }
    {
        ReaderSource {
            reader,
            faults: 0,
            asked: 0,
        }
    }

    /// The reader, as the reads left it.
    pub fn into_inner(self) -> R
        ensures { R.remaining result ≡ ⟦<ReaderSource<R> as Source>⟧.left self }
    {
        self.reader
    }
}

impl<R: SteadyReader + Drop> Source for ReaderSource<R> {
    ghost left = { λ s. R.remaining s.reader };

    ghost faults = { λ s. s.faults };

    ghost asked = { λ s. s.asked };

    fn read(&mut self, into: &mut [u8]) -> Result<usize, Failed> {
        self.asked = self.asked.max(into.len());
        match self.reader.read(into) {
            Ok(count) => Ok(count),
            Err(_) => {
                self.faults = self.faults.saturating_add(1);
                Err(Failed)
            }
        }
    }
}
