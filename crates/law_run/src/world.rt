//! The network of `run`, the machine of scripts over it, and its run from a source to a sink.

ghost use Rattle.std.specs.Prelude.{◌≡◌, ◌≢◌, ◌≤◌, ◌+◌, ◌⊎◌, [], List, ℕ, OnOk, Some, length, max};
ghost use Rattle.law_run.specs.Bench.{bench_meaning, first_bench};
ghost use Rattle.line_loop.specs.Limits.{most_octets, most_read};
ghost use Rattle.line_loop.specs.Outcome.{AsksFor, IsAccepted, Outcome};
ghost use Rattle.octet_loop.specs.ByStatus.{IsFailure};
ghost use Rattle.osi_base.specs.Ends.{HasRisen, IsAtEnd, Put, Took};

use osi_base::{NoMemory, Sink, Source, Status};
use script_bench::{Stage, run_script};
use script_journal::Event;
use script_lines::{Line, Names};
use script_world::{RoutedNet, TpPlay, World};
use std::alloc::Global;
use std::marker::Model;

/// The network of `run`: systems over LANs, with transport entities.
pub struct NetWorld {
    world: World<TpPlay<RoutedNet>>,
}

// By hand, so that it is proved here alone: what is derived is proved again in each crate that lets one go.
impl Drop for NetWorld {
    fn drop(self) {
        let NetWorld { world: _ } = self;
    }
}

impl Model for NetWorld {
    ghost use Rattle.law_run.specs.World.{World};

    ghost Value = { World };

    ghost view = { λ a. a.world };
}

impl NetWorld {
    /// What is set up, or runs.
    pub fn stage(&self) -> &World<TpPlay<RoutedNet>>
        ensures { result.now ≡ self.now }
    {
        &self.world
    }
}

impl Stage for NetWorld {
    ghost use Rattle.law_run.specs.World.{net_play, world_acts};
    ghost use Rattle.law_setup.proofs.Made.{net_law, net_laws, none_sent};
    ghost use Rattle.law_setup.specs.ClnpNets.{MakesNet, NetDoes, link_of_net};
    ghost use Rattle.script_lines.specs.declared.words.Dialect.TheVariants as dialects;
    ghost use Rattle.script_world.specs.Plays.{world_keeping};
    ghost use Rattle.script_world.specs.steps.Staged.{world_laws};
    ghost use Rattle.script_world.specs.steps.Transported.{tp_going, tp_laws};

    ghost acts = { world_acts };

    ghost keeping = { world_keeping net_play.dialect (tp_going link_of_net NetDoes dialects.Run) };

    fn names(alloc: Global) -> Names {
        World::<TpPlay<RoutedNet>>::names(alloc)
    }

    fn begin(alloc: Global) -> NetWorld {
        NetWorld {
            world: World::begin(alloc),
        }
    }

    fn step(&mut self, alloc: Global, line: Line, events: &mut Vec<Event>) -> Result<(), NoMemory> {
        self.world.step(alloc, line, events)
    }

    fn strays(&self) -> Option<u32> {
        self.world.strays()
    }

    ghost laws = { world_laws net_play (tp_going link_of_net NetDoes dialects.Run) (tp_laws link_of_net NetDoes net_law MakesNet dialects.Run none_sent net_laws) };
}

/// The machine of scripts over the network of `run`.
pub type Bench = script_bench::Bench<NetWorld>;

/// Reads a script from the source, runs it on the network, and writes the transcript to the sink.
pub fn run_network<S: Source, K: Sink>(alloc: Global, source: &mut S, sink: &mut K) -> Status
    // Of the octets read, what was written is told as the status says.
    ensures outcome { (read : List ℕ) × (written : List ℕ)
        × Took (S.left source.old) read (S.left source.new)
        × Put (K.held sink.old) written (K.held sink.new)
        × Outcome bench_meaning (IsAtEnd (S.left source.new)) first_bench read written result
        × (length read ≤ most_octets + most_read) }
    // What all octets of the source ask for comes, or a failure in its place.
    ensures exact { (all text : List ℕ) (asked : Status) → S.left source.old ≡ Some all → AsksFor bench_meaning first_bench all text asked
        → ((result ≡ asked) × Put (K.held sink.old) text (K.held sink.new)) ⊎ IsFailure result }
    // A script with no refused line and no limit passed is Done, unless memory runs out, where neither count of faults rises or
    // stands at its last value.
    ensures complete { (all : List ℕ) → S.left source.old ≡ Some all → IsAccepted bench_meaning first_bench all
        → ¬ HasRisen (S.faults source.old) (S.faults source.new) → ¬ HasRisen (K.faults sink.old) (K.faults sink.new)
        → ((result ≡ Status.Done) × (text : List ℕ) × AsksFor bench_meaning first_bench all text Status.Done × Put (K.held sink.old) text (K.held sink.new))
        ⊎ (result ≡ Status.NoMemory) }
    // One read asks for no more than 4,096 octets.
    ensures asked { S.asked source.new ≤ max (S.asked source.old) most_read }
    // A failed read ends the run: no other status comes after it, and no further read.
    ensures no_read_fault { result ≢ Status.ReadFault → S.faults source.new ≡ S.faults source.old }
    ensures one_read_fault { S.faults source.new ≤ S.faults source.old + 1 }
    // So does a failed write: no other status comes after it, and no further write.
    ensures no_write_fault { result ≢ Status.WriteFault → K.faults sink.new ≡ K.faults sink.old }
    ensures one_write_fault { K.faults sink.new ≤ K.faults sink.old + 1 }
    // A fault comes only where its count rose in this call, or stands at its last value.
    ensures read_fault { result ≡ Status.ReadFault → HasRisen (S.faults source.old) (S.faults source.new) }
    ensures write_fault { result ≡ Status.WriteFault → HasRisen (K.faults sink.old) (K.faults sink.new) }
{
    run_script::<NetWorld, S, K>(alloc, source, sink)
}
