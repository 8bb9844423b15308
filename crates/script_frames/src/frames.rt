//! The capture of the frames that the lines of a script make.

ghost use Rattle.std.specs.Prelude.{◌≡◌, ◌≢◌, ◌⊎◌, ◌+◌, ◌<◌, ◌≤◌, ◌++◌, ℕ, List, Some, length, drop, max, take, option_copied, OnErr, OnOk, IsErrOf};
ghost use Rattle.std.specs.List.{AllByRecursion, count_by};
ghost use Rattle.capture_write.specs.Written.{IsWritable, SentFrame, header_octets, records_octets};
ghost use Rattle.line_loop.specs.Outcome.{IsAccepted};
ghost use Rattle.octet_loop.specs.ByStatus.{IsFailure};
ghost use Rattle.line_loop.specs.Limits.{most_read};
ghost use Rattle.line_loop.specs.Writing.{IsWritten};
ghost use Rattle.osi_base.specs.Ends.{HasRisen, IsAtEnd, Put, Took};
ghost use Rattle.law_run.specs.Bench.{first_bench};
ghost use Rattle.script_frames.specs.Frames.{AreMade, AsksForCapture, IsFramesRun, bag_of, frames_meaning, sent_of, slots_of};
ghost use Rattle.script_storm.specs.Counted.{is_frame};

use capture_write::{push_frame, push_header};
use lan_bag::{LanBag, Sent};
use law_run::{Bench, NetWorld, ends_are_lawful, systems_are_silent};
use line_loop::{LineError, Machine, drive, write_all};
use osi_base::{Bytes, NoMemory, Sink, Source, Status, Tick};
use script_journal::Event;
use script_lines::LineFault;
use script_storm::Counts;
use script_world::World;
use std::alloc::Global;
use std::marker::Model;

/// A frame as it stood on its LAN, and the tick at which it was sent.
#[derive(Drop)]
pub struct Frame {
    tick: Tick,
    octets: Bytes,
}

impl Model for Frame {
    ghost use Rattle.capture_write.specs.Written.{SentFrame};

    ghost Value = { SentFrame };

    ghost view = { λ f. record { tick = f.tick; octets = f.octets } };
}

/// A bench whose lines are told by the frames that they make. It keeps the events of its last line.
#[derive(Drop)]
pub struct Capture {
    bench: Bench,
    // A field, so that each line uses its room again.
    events: Vec<Event>,
}

impl Model for Capture {
    ghost use Rattle.law_run.specs.Bench.{Bench as BenchState};

    ghost Value = { BenchState };

    ghost view = { λ c. c.bench };
}

impl Capture {
    /// A bench that ran no line yet.
    pub fn new(alloc: Global) -> Capture
        ensures { result ≡ first_bench }
    {
        Capture {
            bench: Bench::new(alloc),
            events: Vec::new(alloc),
        }
    }
}

impl Machine for Capture {
    ghost use Rattle.script_frames.specs.Frames.{frames_meaning};
    ghost use Rattle.script_frames.specs.steps.FrameLaws.{frames_laws};

    type Event = Frame;

    /// The first fault of a line that is refused.
    type Refusal = LineFault;

    ghost meaning = { frames_meaning };

    ghost laws = { frames_laws };

    fn run_line(&mut self, line: &[u8], out: &mut Vec<u8>) -> Result<(), LineError<LineFault>> {
        let before = numbered(self.bench.world());
        match self.bench.run(line, &mut self.events) {
            Ok(()) => push_frames(self.bench.world(), before, u32::MAX, out),
            Err(LineError::Full) => {
                let most = count_frames(&self.events);
                let Ok(()) = push_frames(self.bench.world(), before, most, out) else {
                    return Err(LineError::NoMemory);
                };
                Err(LineError::Full)
            }
            Err(error) => Err(error),
        }
    }

    fn too_long(&self) -> LineFault {
        self.bench.too_long()
    }

    fn push_done(&self, _out: &mut Vec<u8>) -> Result<(), NoMemory> {
        Ok(())
    }

    fn push_refusal(
        &self,
        _line: u32,
        _refusal: LineFault,
        _out: &mut Vec<u8>,
    ) -> Result<(), NoMemory> {
        Ok(())
    }

    fn push_too_much(&self, _out: &mut Vec<u8>) -> Result<(), NoMemory> {
        Ok(())
    }
}

/// The LANs of a network that runs.
fn lans(world: &NetWorld) -> Option<&LanBag>
    ensures { option_copied result ≡ bag_of world.now }
{
    match world.stage() {
        World::SettingUp(_) => None,
        World::Running(running) => Some(running.ends().carrier().link()),
    }
}

/// How many frames were numbered.
fn numbered(world: &NetWorld) -> u32
    ensures { result ≡ length (slots_of world.now) }
{
    match lans(world) {
        Some(bag) => bag.count(),
        None => 0,
    }
}

/// How many of the events are frames.
fn count_frames(events: &[Event]) -> u32
    requires { length events.now < 4294967296 }
    ensures { result ≡ count_by is_frame events.now }
{
    let mut counts = Counts::new();
    counts.count_all(events);
    counts.frames
}

/// Appends the records of the first `most` frames that were numbered after so many others.
fn push_frames(
    world: &NetWorld,
    before: u32,
    most: u32,
    out: &mut Vec<u8>,
) -> Result<(), LineError<LineFault>>
    ensures told { OnOk result ((frames : List SentFrame) × AreMade (take most (drop before (slots_of world.now))) frames × (out.new.items ≡ out.old.items ++ records_octets frames)) }
    ensures numbers { length (slots_of world.now) ≤ 4294967295 }
    ensures memory { OnErr result (IsErrOf result LineError.NoMemory) }
{
    let Some(bag) = lans(world) else {
        return Ok(());
    };
    let end = bag.count().min(before.saturating_add(most));
    for place in before..end {
        let Ok(()) = push_sent(bag.frame(place + 1), out) else {
            return Err(LineError::NoMemory);
        };
    }
    Ok(())
}

/// Appends the record of a frame, where there is one.
fn push_sent(frame: Option<&Sent>, out: &mut Vec<u8>) -> Result<(), NoMemory>
    ensures told { OnOk result (out.new.items ≡ out.old.items ++ records_octets (sent_of (option_copied frame.entry))) }
    ensures fit { AllByRecursion IsWritable (sent_of (option_copied frame.entry)) }
{
    match frame {
        Some(sent) => push_frame(sent.tick(), sent.whole(), out),
        None => Ok(()),
    }
}

/// Reads a script to the end of the source, and writes the capture of the frames that it makes.
pub fn write_capture<S: Source, K: Sink>(alloc: Global, source: &mut S, sink: &mut K) -> Status
    // Of the octets read, what was written is the capture of the frames that their lines make, as the status says.
    ensures frames { (read : List ℕ) × (written : List ℕ)
        × Took (S.left source.old) read (S.left source.new)
        × Put (K.held sink.old) written (K.held sink.new)
        × IsFramesRun (IsAtEnd (S.left source.new)) read written result }
    // The capture that all octets of the source ask for comes, or a failure in its place.
    ensures exact { (all capture : List ℕ) (asked : Status) → S.left source.old ≡ Some all → AsksForCapture all capture asked
        → ((result ≡ asked) × Put (K.held sink.old) capture (K.held sink.new)) ⊎ IsFailure result }
    // A script with no refused line and no limit passed is Done, unless a failure comes.
    ensures accepted { (all : List ℕ) → S.left source.old ≡ Some all → IsAccepted frames_meaning first_bench all
        → ((result ≡ Status.Done) × (capture : List ℕ) × AsksForCapture all capture Status.Done × Put (K.held sink.old) capture (K.held sink.new))
        ⊎ IsFailure result }
    ensures asked { S.asked source.new ≤ max (S.asked source.old) most_read }
    ensures no_read_fault { result ≢ Status.ReadFault → S.faults source.new ≡ S.faults source.old }
    ensures one_read_fault { S.faults source.new ≤ S.faults source.old + 1 }
    ensures no_write_fault { result ≢ Status.WriteFault → K.faults sink.new ≡ K.faults sink.old }
    ensures one_write_fault { K.faults sink.new ≤ K.faults sink.old + 1 }
    ensures read_fault { result ≡ Status.ReadFault → HasRisen (S.faults source.old) (S.faults source.new) }
    ensures write_fault { result ≡ Status.WriteFault → HasRisen (K.faults sink.old) (K.faults sink.new) }
{
    ends_are_lawful();
    systems_are_silent();
    match write_header(alloc, sink) {
        Status::Done => drive(alloc, Capture::new(alloc), source, sink),
        status => status,
    }
}

/// Writes the header of a capture.
fn write_header<K: Sink>(alloc: Global, sink: &mut K) -> Status
    ensures written { IsWritten K.held sink.old header_octets Status.Done sink.new result }
    ensures faults_stay { K.faults sink.old ≤ K.faults sink.new }
    ensures no_write_fault { result ≢ Status.WriteFault → K.faults sink.new ≡ K.faults sink.old }
    ensures one_write_fault { K.faults sink.new ≤ K.faults sink.old + 1 }
    ensures write_fault { result ≡ Status.WriteFault → HasRisen (K.faults sink.old) (K.faults sink.new) }
{
    let mut header = Vec::new(alloc);
    match push_header(&mut header) {
        Ok(()) => write_all(sink, &header),
        Err(NoMemory) => Status::NoMemory,
    }
}
