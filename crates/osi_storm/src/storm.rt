//! A generated script, run on the bench, and the summary of its journal.

ghost use Rattle.std.specs.Prelude.{◌≡◌, ◌≢◌, ◌+◌, ◌<◌, ◌≤◌, ◌++◌, [], ℕ, List, length, map, OnOk, IfOk, IsErrOf};
ghost use Rattle.line_loop.specs.Lines.{most_lines};
ghost use Rattle.osi_base.specs.Ends.{HasRisen, Put};
ghost use Rattle.script_journal.specs.declared.event.Event.{Event as JournalEvent};
ghost use Rattle.script_storm.specs.Counted.{counts_of};
ghost use Rattle.script_storm.specs.Line.{set_up_lines};
ghost use Rattle.script_storm.specs.Words.{words};
ghost use Rattle.law_run.specs.Bench.{Bench as BenchState, FillsJournal, RunsText, first_bench};
ghost use Rattle.osi_storm.specs.Storm.{AsksSummary, SummaryOutcome, as_it_stands, line_after, storm_lines};
ghost use Rattle.osi_storm.specs.steps.Storming.{Fills, Goes, HasJournal, IsKnown, IsReady};

use law_run::Bench;
use line_loop::{LineError, write_last};
use osi_base::{NoMemory, Sink, Status};
use script_bench::{push_done, push_too_much};
use script_journal::Event;
use script_storm::{Counts, Storm, Words, push_line, push_summary, set_up};
use std::alloc::Global;

/// Why a generated script was not run to its end.
enum Stop {
    /// The journal has no room for what a line does.
    Full,
    /// Memory ran out.
    NoMemory,
}

/// A bench on which a generated script runs, what is counted of its journal, and the events of its last line.
#[derive(Drop)]
struct Rig {
    bench: Bench,
    counts: Counts,
    // A field, so that each line uses its room again.
    events: Vec<Event>,
}

impl Rig {
    /// No line was run yet.
    fn new(alloc: Global) -> Rig
        ensures bench { result.bench ≡ first_bench }
        ensures counts { result.counts ≡ counts_of [] }
    {
        Rig {
            bench: Bench::new(alloc),
            counts: Counts::new(),
            events: Vec::new(alloc),
        }
    }

    /// Runs the lines of the set-up.
    fn run_set_up(&mut self) -> Result<(), Stop>
        requires bench { self.old.bench ≡ first_bench }
        requires counts { self.old.counts ≡ counts_of [] }
        ensures ok { OnOk result (Goes (map as_it_stands set_up_lines) self.old.bench self.old.counts self.new.bench self.new.counts) }
        ensures ready { OnOk result (IsReady self.new.bench.names) }
        ensures stands { OnOk result (HasJournal self.new.bench self.new.counts) }
        ensures lines { OnOk result (self.new.bench.lines ≡ 15) }
        ensures full { IsErrOf result Stop.Full → Fills (map as_it_stands set_up_lines) self.old.bench self.old.counts }
    {
        for line in set_up() {
            if let Err(stop) = self.run_line(line.as_bytes()) {
                return Err(stop);
            }
        }
        Ok(())
    }

    /// Runs the line of each word.
    fn run_words(&mut self, alloc: Global, storm: Storm) -> Result<(), Stop>
        requires ready { IsReady self.old.bench.names }
        requires stands { HasJournal self.old.bench self.old.counts }
        requires lines { self.old.bench.lines + storm.count < most_lines }
        ensures ok { OnOk result (Goes (map line_after (words storm.seed storm.count)) self.old.bench self.old.counts self.new.bench self.new.counts) }
        ensures full { IsErrOf result Stop.Full → Fills (map line_after (words storm.seed storm.count)) self.old.bench self.old.counts }
    {
        let mut text = Vec::new(alloc);
        for word in Words::new(storm) {
            text.clear();
            let Ok(()) = push_line(word, &self.counts, &mut text) else {
                return Err(Stop::NoMemory);
            };
            if let Err(stop) = self.run_line(&text) {
                return Err(stop);
            }
        }
        Ok(())
    }

    /// Runs a line that is not refused, and counts its events.
    fn run_line(&mut self, text: &[u8]) -> Result<(), Stop>
        requires lines { self.old.bench.lines < most_lines }
        requires known { IsKnown self.old.bench.names text.now }
        ensures ok { OnOk result (RunsText self.old.bench text.now self.new.events.items self.new.bench) }
        ensures counts { OnOk result ((journal : List JournalEvent) → length journal + length self.new.events.items < 4294967296 → self.old.counts ≡ counts_of journal
            → self.new.counts ≡ counts_of (journal ++ self.new.events.items)) }
        ensures full { IsErrOf result Stop.Full → (made : List JournalEvent) × (last : BenchState) × FillsJournal self.old.bench text.now made last }
    {
        match self.bench.run(text, &mut self.events) {
            Ok(()) => {
                self.counts.count_all(&self.events);
                Ok(())
            }
            Err(LineError::Refused(_)) => unreachable!(),
            Err(LineError::Full) => Err(Stop::Full),
            Err(LineError::NoMemory) => Err(Stop::NoMemory),
        }
    }
}

/// Runs a generated script, and writes its summary.
pub fn write_storm<K: Sink>(alloc: Global, storm: Storm, sink: &mut K) -> Status
    requires { storm.count ≤ 20000 }
    // What was written is the summary, as the status says.
    ensures storm { (written : List ℕ) × Put (K.held sink.old) written (K.held sink.new) × SummaryOutcome storm written result }
    ensures no_write_fault { result ≢ Status.WriteFault → K.faults sink.new ≡ K.faults sink.old }
    ensures one_write_fault { K.faults sink.new ≤ K.faults sink.old + 1 }
    ensures write_fault { result ≡ Status.WriteFault → HasRisen (K.faults sink.old) (K.faults sink.new) }
{
    let mut out = Vec::new(alloc);
    match push_storm(alloc, storm, &mut out) {
        Ok(end) => write_last(sink, &out, end),
        Err(NoMemory) => Status::NoMemory,
    }
}

/// Runs a generated script, and appends what is written of it; the answer is how the run ends.
fn push_storm(alloc: Global, storm: Storm, out: &mut Vec<u8>) -> Result<Status, NoMemory>
    requires count { storm.count ≤ 20000 }
    requires none { out.old.items ≡ [] }
    ensures { IfOk result (λ end. AsksSummary storm out.new.items end) }
{
    // In a box, since a whole network is a large local.
    let mut rig = Box::new(alloc, Rig::new(alloc))?;
    match run_storm(&mut rig, alloc, storm) {
        Ok(()) => {
            push_summary(storm, &rig.counts, out)?;
            push_done(out)?;
            Ok(Status::Done)
        }
        Err(Stop::Full) => {
            push_too_much(out)?;
            Ok(Status::TooMuch)
        }
        Err(Stop::NoMemory) => Err(NoMemory),
    }
}

/// Runs the lines of a generated script.
fn run_storm(rig: &mut Rig, alloc: Global, storm: Storm) -> Result<(), Stop>
    requires count { storm.count ≤ 20000 }
    requires bench { rig.old.bench ≡ first_bench }
    requires counts { rig.old.counts ≡ counts_of [] }
    ensures ok { OnOk result (Goes (storm_lines storm) rig.old.bench rig.old.counts rig.new.bench rig.new.counts) }
    ensures full { IsErrOf result Stop.Full → Fills (storm_lines storm) rig.old.bench rig.old.counts }
{
    if let Err(stop) = rig.run_set_up() {
        return Err(stop);
    }
    rig.run_words(alloc, storm)
}
