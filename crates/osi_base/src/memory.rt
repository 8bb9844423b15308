//! Sources and sinks in memory. `MemSource` and `MemSink` can be told to fail; `PlainSource` and
//! `PlainSink` never do.

ghost use Rattle.std.specs.Prelude.{◌≡◌, ◌⊎◌, ◌+◌, ◌<◌, ◌≤◌, ℕ, List, [], length, take, min, max, slice_get, IfOk, OnOk, OnErr, IsErrOf};
ghost use Rattle.osi_base.specs.Ends.{HasRisen, Took, Put, IsAtEnd};
ghost use Rattle.osi_base.specs.Memory.{share, is_failing};

use crate::{Failed, NoMemory, Sink, Source, WriteRefusal};
use std::alloc::Global;
use std::marker::Model;

/// A source over octets in memory, in pieces of given sizes, that fails at given calls.
#[derive(Drop)]
pub struct MemSource {
    octets: Vec<u8>,
    at: usize,
    cuts: Vec<usize>,
    fails: Vec<u32>,
    calls: u64,
    faults: u64,
    asked: usize,
}

impl Model for MemSource {
    ghost use Rattle.std.specs.Prelude.{drop, length, ◌≤◌};
    ghost use Rattle.osi_base.specs.Memory.{Input};

    ghost Value = { Input };

    ghost view = { λ s. record {
      left = drop s.at s.octets.items;
      cuts = s.cuts.items;
      fails = s.fails.items;
      calls = s.calls;
      faults = s.faults;
      asked = s.asked;
    } };

    ghost invariant = { λ s. s.at ≤ length s.octets.items };
}

impl MemSource {
    ghost use Rattle.osi_base.specs.Memory.{Input};

    /// The octets, of which the k-th call gives at most `cuts[k - 1]`, and each call past the end of
    /// `cuts` as many as fit. A 0 in `cuts` counts as 1. Exactly the calls numbered in `fails`, from
    /// 1, fail.
    pub fn new(
        alloc: Global,
        octets: &[u8],
        cuts: &[usize],
        fails: &[u32],
    ) -> Result<MemSource, NoMemory>
        ensures { IfOk result (λ source. source ≡ record { left = octets.now; cuts = cuts.now; fails = fails.now; calls = 0; faults = 0; asked = 0 }) }
    {
        Ok(MemSource {
            octets: octets.to_vec(alloc)?,
            at: 0,
            cuts: cuts.to_vec(alloc)?,
            fails: fails.to_vec(alloc)?,
            calls: 0,
            faults: 0,
            asked: 0,
        })
    }
}

impl Source for MemSource {
    ghost use Rattle.std.specs.Prelude.{Some};
    ghost use Rattle.osi_base.specs.Memory.{Reads};

    ghost left = { λ s. Some s.left };

    ghost faults = { λ s. s.faults };

    ghost asked = { λ s. s.asked };

    fn read(&mut self, into: &mut [u8]) -> Result<usize, Failed>
        ensures count { IfOk result (λ n. n ≤ length into.old) }
        ensures moved { IfOk result (λ n. Took (Some self.old.left) (take n into.new) (Some self.new.left)) }
        ensures end { IfOk result (λ n. n ≡ 0 → 0 < length into.old → IsAtEnd (Some self.new.left)) }
        ensures failed { OnErr result (HasRisen self.old.faults self.new.faults) }
        ensures kept { OnErr result (Some self.new.left ≡ Some self.old.left) }
        ensures faultless { OnOk result (self.new.faults ≡ self.old.faults) }
        ensures one_fault { self.new.faults ≤ self.old.faults + 1 }
        ensures faults_stay { self.old.faults ≤ self.new.faults }
        ensures asked { self.new.asked ≡ max self.old.asked (length into.old) }
        ensures exact { Reads self.old (length into.old) result self.new }
    {
        self.asked = self.asked.max(into.len());
        let call = self.calls.saturating_add(1);
        let most = share(&self.cuts, self.calls, into.len());
        self.calls = call;
        if is_failing(&self.fails, call) {
            self.faults = self.faults.saturating_add(1);
            return Err(Failed);
        }
        let count = move_front(&self.octets[self.at..], into, most);
        self.at += count;
        Ok(count)
    }
}

/// The most that a call may give.
fn share(cuts: &[usize], calls: u64, room: usize) -> usize
    ensures value { result ≡ share room (slice_get cuts.now calls) }
    ensures some { 0 < room → 0 < result }
    ensures within { result ≤ room }
{
    match cuts.get(calls as usize) {
        Some(cut) => room.min((*cut).max(1)),
        None => room,
    }
}

/// Moves the first octets that are left to the front of `into`, at most `most` of them.
fn move_front(left: &[u8], into: &mut [u8], most: usize) -> usize
    requires { most ≤ length into.old }
    ensures count { result ≡ min most (length left.now) }
    ensures moved { take result into.new ≡ take result left.now }
{
    let count = most.min(left.len());
    into[..count].copy_from_slice(&left[..count]);
    count
}

/// Whether the call of this number is one that fails.
fn is_failing(fails: &[u32], call: u64) -> bool
    ensures { result ≡ is_failing fails.now call }
{
    fails.iter().any(|number| u64::from(*number) == call)
}

/// A source over octets in memory that never fails.
#[derive(Drop)]
pub struct PlainSource {
    octets: Vec<u8>,
    at: usize,
    asked: usize,
}

impl Model for PlainSource {
    ghost use Rattle.std.specs.Prelude.{drop, length, ◌≤◌};
    ghost use Rattle.osi_base.specs.Memory.{Unread};

    ghost Value = { Unread };

    ghost view = { λ s. record { left = drop s.at s.octets.items; asked = s.asked } };

    ghost invariant = { λ s. s.at ≤ length s.octets.items };
}

impl PlainSource {
    /// These octets, in pieces as large as fit.
    pub fn new(alloc: Global, octets: &[u8]) -> Result<PlainSource, NoMemory>
        ensures { IfOk result (λ source. source ≡ record { left = octets.now; asked = 0 }) }
    {
        Ok(PlainSource {
            octets: octets.to_vec(alloc)?,
            at: 0,
            asked: 0,
        })
    }
}

impl Source for PlainSource {
    ghost use Rattle.std.specs.Prelude.{Some, Ok};

    ghost left = { λ s. Some s.left };

    ghost faults = { λ _. 0 };

    ghost asked = { λ s. s.asked };

    fn read(&mut self, into: &mut [u8]) -> Result<usize, Failed>
        ensures count { IfOk result (λ n. n ≤ length into.old) }
        ensures moved { IfOk result (λ n. Took (Some self.old.left) (take n into.new) (Some self.new.left)) }
        ensures end { IfOk result (λ n. n ≡ 0 → 0 < length into.old → IsAtEnd (Some self.new.left)) }
        ensures failed { OnErr result (HasRisen 0 0) }
        ensures kept { OnErr result (Some self.new.left ≡ Some self.old.left) }
        ensures faultless { OnOk result (◌≡◌ {A = ℕ} 0 0) }
        ensures one_fault { 0 ≤ 0 + 1 }
        ensures faults_stay { 0 ≤ 0 }
        ensures asked { self.new.asked ≡ max self.old.asked (length into.old) }
        ensures exact { result ≡ Ok (min (length into.old) (length self.old.left)) }
    {
        self.asked = self.asked.max(into.len());
        let room = into.len();
        let count = move_front(&self.octets[self.at..], into, room);
        self.at += count;
        Ok(count)
    }
}

/// A sink in memory that fails at given calls, and else takes each piece whole.
#[derive(Drop)]
pub struct MemSink {
    held: Vec<u8>,
    fails: Vec<u32>,
    calls: u64,
    faults: u64,
}

impl Model for MemSink {
    ghost use Rattle.osi_base.specs.Memory.{Output};

    ghost Value = { Output };

    ghost view = { λ s. record { held = s.held.items; fails = s.fails.items; calls = s.calls; faults = s.faults } };
}

impl MemSink {
    ghost use Rattle.osi_base.specs.Memory.{Output};

    /// Nothing written yet. Exactly the calls numbered in `fails`, from 1, fail.
    pub fn new(alloc: Global, fails: &[u32]) -> Result<MemSink, NoMemory>
        ensures { IfOk result (λ sink. sink ≡ record { held = []; fails = fails.now; calls = 0; faults = 0 }) }
    {
        Ok(MemSink {
            held: Vec::new(alloc),
            fails: fails.to_vec(alloc)?,
            calls: 0,
            faults: 0,
        })
    }

    /// What was written.
    pub fn written(&self) -> &[u8]
        ensures { result.now ≡ self.now.held }
    {
        &self.held
    }
}

impl Sink for MemSink {
    ghost use Rattle.std.specs.Prelude.{Some};
    ghost use Rattle.osi_base.specs.Memory.{Writes};
    ghost use Rattle.osi_base.specs.declared.refusal.WriteRefusal.TheVariants.{Failed as WriteFailed, NoMemory as WriteNoMemory};

    ghost held = { λ s. Some s.held };

    ghost faults = { λ s. s.faults };

    fn write(&mut self, piece: &[u8]) -> Result<usize, WriteRefusal>
        ensures count { IfOk result (λ n. n ≤ length piece.now) }
        ensures moved { IfOk result (λ n. Put (Some self.old.held) (take n piece.now) (Some self.new.held)) }
        ensures stuck { IfOk result (λ n. n ≡ 0 → 0 < length piece.now → HasRisen self.old.faults self.new.faults) }
        ensures failed { IsErrOf result WriteFailed → HasRisen self.old.faults self.new.faults }
        ensures kept { OnErr result (Some self.new.held ≡ Some self.old.held) }
        ensures faultless { IfOk result (λ n. (0 < n) ⊎ (length piece.now ≡ 0) → self.new.faults ≡ self.old.faults) }
        ensures memory { IsErrOf result WriteNoMemory → self.new.faults ≡ self.old.faults }
        ensures one_fault { self.new.faults ≤ self.old.faults + 1 }
        ensures faults_stay { self.old.faults ≤ self.new.faults }
        ensures exact { Writes self.old piece.now result self.new }
    {
        let call = self.calls.saturating_add(1);
        self.calls = call;
        if is_failing(&self.fails, call) {
            self.faults = self.faults.saturating_add(1);
            return Err(WriteRefusal::Failed);
        }
        self.held.extend_from_slice(piece)?;
        Ok(piece.len())
    }
}

/// A sink in memory that never fails. Contracts see it as the octets that were written.
#[derive(Drop)]
pub struct PlainSink {
    held: Vec<u8>,
}

impl Model for PlainSink {
    ghost use Rattle.std.specs.Prelude.{List, ℕ};

    ghost Value = { List ℕ };

    ghost view = { λ s. s.held.items };
}

impl PlainSink {
    /// Nothing written yet.
    pub fn new(alloc: Global) -> PlainSink
        ensures { result ≡ [] }
    {
        PlainSink {
            held: Vec::new(alloc),
        }
    }

    /// What was written.
    pub fn written(&self) -> &[u8]
        ensures { result.now ≡ self.now }
    {
        &self.held
    }

    /// What was written, handed over.
    pub fn into_written(self) -> Vec<u8>
        ensures { result.items ≡ self }
    {
        self.held
    }
}

impl Sink for PlainSink {
    ghost use Rattle.std.specs.Prelude.{Some};
    ghost use Rattle.osi_base.specs.declared.refusal.WriteRefusal.TheVariants.{Failed as WriteFailed, NoMemory as WriteNoMemory};

    ghost held = { λ s. Some s };

    ghost faults = { λ _. 0 };

    fn write(&mut self, piece: &[u8]) -> Result<usize, WriteRefusal>
        ensures count { IfOk result (λ n. n ≤ length piece.now) }
        ensures moved { IfOk result (λ n. Put (Some self.old) (take n piece.now) (Some self.new)) }
        ensures stuck { IfOk result (λ n. n ≡ 0 → 0 < length piece.now → HasRisen 0 0) }
        ensures failed { IsErrOf result WriteFailed → HasRisen 0 0 }
        ensures kept { OnErr result (Some self.new ≡ Some self.old) }
        ensures faultless { IfOk result (λ n. (0 < n) ⊎ (length piece.now ≡ 0) → ◌≡◌ {A = ℕ} 0 0) }
        ensures memory { IsErrOf result WriteNoMemory → ◌≡◌ {A = ℕ} 0 0 }
        ensures one_fault { 0 ≤ 0 + 1 }
        ensures faults_stay { 0 ≤ 0 }
        ensures whole { IfOk result (λ n. n ≡ length piece.now) }
    {
        self.held.extend_from_slice(piece)?;
        Ok(piece.len())
    }
}
