//! The machine of scripts: what a line does to the names declared, to the stage and to the journal.

ghost use Rattle.std.specs.Prelude.{◌≡◌, ◌<◌, ◌++◌, OnErr, OnOk, IsErrOf};
ghost use Rattle.line_loop.specs.Lines.{most_lines};
ghost use Rattle.script_journal.specs.Told.{journal_text};
ghost use Rattle.script_lines.specs.Tags.{tags_of};
ghost use Rattle.script_bench.specs.Bench.{FillsJournal, RefusesLine, RunsText};

use crate::event_limit::told_of;
use crate::stage::Stage;
use crate::text::{push_done, push_events, push_refusal, push_strays, push_too_much};
use line_loop::{LineError, Machine};
use osi_base::NoMemory;
use script_journal::Event;
use script_lines::{LineCause, LineFault, LineRefusal, Names};
use std::alloc::Global;
use std::marker::Model;
use std::mem;

/// The column of the first octet that is too many for a line.
const TOO_LONG: u32 = 40_001;

/// The names declared, the stage, how many lines were run and how many events there were, and the events of the last
/// line.
pub struct Bench<W: Stage + Drop> {
    alloc: Global,
    names: Names,
    world: W,
    lines: u32,
    count: u32,
    // A field, so that each line uses its room again.
    events: Vec<Event>,
    stopped: bool,
}

// By hand, so that it is proved here alone: what is derived is proved again in each crate that lets a bench go.
impl<W: Stage + Drop> Drop for Bench<W> {
    fn drop(self) {
        let Bench {
            alloc: _,
            names: _,
            world: _,
            lines: _,
            count: _,
            events: _,
            stopped: _,
        } = self;
    }
}

// Until a run stops, the names and the stage agree.
impl<W: Stage + Drop> Model for Bench<W> {
    ghost use Rattle.script_bench.specs.Bench.{Bench as BenchState, most_events};
    ghost use Rattle.std.specs.Prelude.{◌≡◌, ◌≤◌, false};

    ghost Value = { BenchState W };

    ghost view = { λ b. record { names = b.names; world = b.world; lines = b.lines; events = b.count } };

    ghost invariant = { λ b. b.stopped ≡ false → W.keeping.agrees b.names b.world b.lines × (b.count ≤ most_events) };
}

impl<W: Stage + Drop> Bench<W> {
    ghost use Rattle.script_bench.specs.Bench.{first_bench};

    /// A bench that ran no line yet.
    pub fn new(alloc: Global) -> Bench<W>
        ensures { result ≡ first_bench W.acts }
    {
        Bench {
            alloc,
            names: W::names(alloc),
            world: W::begin(alloc),
            lines: 0,
            count: 0,
            events: Vec::new(alloc),
            stopped: false,
        }
    }

    /// What the lines so far set up and ran.
    pub fn world(&self) -> &W
        ensures { result.now ≡ self.now.world }
    {
        &self.world
    }

    /// Runs a line, which stands without its end; the events that the journal has room for take the place of `events`.
    ///
    /// Refused exactly where the line is refused in this state. Full exactly where the journal has no room for what the line
    /// does. After Full or NoMemory no line is run.
    pub fn run(&mut self, line: &[u8], events: &mut Vec<Event>) -> Result<(), LineError<LineFault>>
        requires { self.old.lines < most_lines }
        ensures ok { OnOk result (RunsText W.acts self.old line.now events.new.items self.new) }
        ensures refused { (said : LineFault) → IsErrOf result (LineError.Refused said)
            → RefusesLine W.acts self.old line.now said × (self.new ≡ self.old) }
        ensures full { IsErrOf result LineError.Full → FillsJournal W.acts self.old line.now events.new.items self.new }
    {
        if self.stopped {
            return Err(LineError::NoMemory);
        }
        let line = match self.names.read_line(line) {
            Ok(line) => line,
            Err(LineRefusal::Fault(fault)) => return Err(LineError::Refused(fault)),
            Err(LineRefusal::NoMemory) => return Err(LineError::NoMemory),
        };
        self.stopped = true;
        events.clear();
        let Ok(()) = self.world.step(self.alloc, line, events) else {
            return Err(LineError::NoMemory);
        };
        self.lines += 1;
        let made = events.len();
        let told = told_of(self.count, made);
        events.truncate(told);
        self.count += told as u32;
        if told < made {
            return Err(LineError::Full);
        }
        self.stopped = false;
        Ok(())
    }

    /// Tells the events of a line, and keeps their list for the next one.
    fn tell(&mut self, events: Vec<Event>, out: &mut Vec<u8>) -> Result<(), LineError<LineFault>>
        ensures told { OnOk result (out.new.items ≡ out.old.items ++ journal_text (tags_of self.old.names) events.items) }
        ensures same { self.new ≡ self.old }
        ensures memory { OnErr result (IsErrOf result LineError.NoMemory) }
    {
        let Ok(()) = push_events(&events, &self.names, out) else {
            return Err(LineError::NoMemory);
        };
        self.events = events;
        Ok(())
    }
}

impl<W: Stage + Drop> Machine for Bench<W> {
    ghost use Rattle.script_bench.specs.Bench.{bench_meaning};
    ghost use Rattle.script_bench.specs.steps.BenchLaws.{bench_laws};

    type Event = Event;

    /// The first fault of a line that is refused.
    type Refusal = LineFault;

    ghost meaning = { bench_meaning W.acts };

    ghost laws = { bench_laws W.acts W.keeping W.laws };

    fn run_line(&mut self, line: &[u8], out: &mut Vec<u8>) -> Result<(), LineError<LineFault>> {
        let mut events = mem::replace(&mut self.events, Vec::new(self.alloc));
        match self.run(line, &mut events) {
            Ok(()) => self.tell(events, out),
            Err(LineError::Full) => {
                let Ok(()) = self.tell(events, out) else {
                    return Err(LineError::NoMemory);
                };
                Err(LineError::Full)
            }
            Err(error) => Err(error),
        }
    }

    fn too_long(&self) -> LineFault {
        LineFault {
            cause: LineCause::Long,
            column: TOO_LONG,
        }
    }

    fn push_done(&self, out: &mut Vec<u8>) -> Result<(), NoMemory> {
        if let Some(count) = self.world.strays() {
            push_strays(count, out)?;
        }
        push_done(out)
    }

    fn push_refusal(
        &self,
        line: u32,
        refusal: LineFault,
        out: &mut Vec<u8>,
    ) -> Result<(), NoMemory> {
        push_refusal(line, refusal, out)
    }

    fn push_too_much(&self, out: &mut Vec<u8>) -> Result<(), NoMemory> {
        push_too_much(out)
    }
}
