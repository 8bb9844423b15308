//! What the scripts of commands run, beside that of `run`.

ghost use Rattle.std.specs.Prelude.{◌≡◌, ◌≢◌, ◌≤◌, ◌+◌, ◌⊎◌, List, ℕ, Some, max};
ghost use Rattle.octet_loop.specs.ByStatus.{IsFailure};
ghost use Rattle.line_loop.specs.Limits.{most_read};
ghost use Rattle.osi_base.specs.Ends.{HasRisen, IsAtEnd, Put, Took};
ghost use Rattle.osi_kinds.specs.Kinds.{AsksOf, IsAcceptedBy, IsToldBy};

use osi_base::{Sink, Source, Status};
use script_bench::run_script;
use script_datagrams::ClPlay;
use script_relays::RelayPlay;
use script_world::{RoutedNet, SubsetNet, TpPlay, World};
use std::alloc::Global;

/// The network of `inactive`: end systems over LANs by the inactive subset, with transport entities.
pub type InactiveWorld = World<TpPlay<SubsetNet>>;

/// The network of `datagrams`: systems over LANs, with users of datagrams.
pub type DatagramWorld = World<ClPlay<RoutedNet>>;

/// The network of `relay`: systems over LANs, with transport entities and relays.
pub type RelayWorld = World<RelayPlay<RoutedNet>>;

/// A command that reads a script, beside `run`.
#[derive(Clone, Copy)]
pub enum Kind {
    /// `datagrams`: users send one another datagrams (X.214, connectionless-mode service).
    Datagrams,
    /// `inactive`: transport entities over the inactive subset (X.233, Inactive Network Layer Protocol subset).
    Inactive,
    /// `relay`: transport entities, and relays that join their connections (X.214, model of the transport service).
    Relay,
}

/// Reads the script of a command from the source, runs it, and writes the transcript to the sink.
pub fn run_kind<S: Source, K: Sink>(
    alloc: Global,
    kind: Kind,
    source: &mut S,
    sink: &mut K,
) -> Status
    // Of the octets read, what was written is told as the status says.
    ensures told { (read : List ℕ) × (written : List ℕ)
        × Took (S.left source.old) read (S.left source.new)
        × Put (K.held sink.old) written (K.held sink.new)
        × IsToldBy kind (IsAtEnd (S.left source.new)) read written result }
    // What all octets of the source ask for comes, or a failure in its place.
    ensures exact { (all text : List ℕ) (asked : Status) → S.left source.old ≡ Some all → AsksOf kind all text asked
        → ((result ≡ asked) × Put (K.held sink.old) text (K.held sink.new)) ⊎ IsFailure result }
    // A script with no refused line and no limit passed is Done, unless memory runs out, where neither count of faults rises or
    // stands at its last value.
    ensures complete { (all : List ℕ) → S.left source.old ≡ Some all → IsAcceptedBy kind all
        → ¬ HasRisen (S.faults source.old) (S.faults source.new) → ¬ HasRisen (K.faults sink.old) (K.faults sink.new)
        → ((result ≡ Status.Done) × (text : List ℕ) × AsksOf kind all text Status.Done × Put (K.held sink.old) text (K.held sink.new))
        ⊎ (result ≡ Status.NoMemory) }
    // One read asks for no more than 4,096 octets.
    ensures asked { S.asked source.new ≤ max (S.asked source.old) most_read }
    // A failed read ends the run: no other status comes after it, and no further read.
    ensures no_read_fault { result ≢ Status.ReadFault → S.faults source.new ≡ S.faults source.old }
    ensures one_read_fault { S.faults source.new ≤ S.faults source.old + 1 }
    // So does a failed write: no other status comes after it, and no further write.
    ensures no_write_fault { result ≢ Status.WriteFault → K.faults sink.new ≡ K.faults sink.old }
    ensures one_write_fault { K.faults sink.new ≤ K.faults sink.old + 1 }
    // A fault comes only where its count rose in this call, or stands at its last value.
    ensures read_fault { result ≡ Status.ReadFault → HasRisen (S.faults source.old) (S.faults source.new) }
    ensures write_fault { result ≡ Status.WriteFault → HasRisen (K.faults sink.old) (K.faults sink.new) }
{
    match kind {
        Kind::Datagrams => {
            script_datagrams::shows_sent::<RoutedNet>();
            script_datagrams::runs_give_each::<RoutedNet>();
            run_script::<DatagramWorld, S, K>(alloc, source, sink)
        }
        Kind::Inactive => {
            law_tp4_lawful::lawful::<SubsetNet>();
            run_script::<InactiveWorld, S, K>(alloc, source, sink)
        }
        Kind::Relay => {
            script_relays::relays_lawfully::<RoutedNet>();
            script_relays::pumps_give_all::<RoutedNet>();
            run_script::<RelayWorld, S, K>(alloc, source, sink)
        }
    }
}
