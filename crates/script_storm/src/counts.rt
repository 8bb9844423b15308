//! What is counted of a run.

ghost use Rattle.std.specs.Prelude.{◌≡◌, ◌+◌, ◌<◌, ◌++◌, ◌∷◌, [], List, length, min, if◌then◌else◌};
ghost use Rattle.script_journal.specs.declared.event.Event.{Event as JournalEvent};
ghost use Rattle.script_journal.specs.RawLawful.{clock_after};
ghost use Rattle.script_storm.specs.Counted.{counts_of, is_frame, makes_end, is_got, is_urgent, is_gone};

use osi_base::{Note, Tick};
use script_journal::Event;
use tpdu::EndTold;

/// The tick of the last event, and how many frames were numbered, ends made, units shown and disconnect
/// indications given.
#[derive(Clone, Copy, Debug, PartialEq, Eq)]
pub struct Counts {
    pub ticks: Tick,
    pub frames: u32,
    pub ends: u32,
    pub got: u32,
    pub urgent: u32,
    pub gone: u32,
}

impl Counts {
    /// The counts of no events.
    pub fn new() -> Counts
        ensures { result ≡ counts_of [] }
    {
        Counts {
            ticks: 0,
            frames: 0,
            ends: 0,
            got: 0,
            urgent: 0,
            gone: 0,
        }
    }

    /// Counts one event more. A count that is full stands still.
    pub fn count(&mut self, event: &Event)
        ensures { (journal : List JournalEvent) → length journal < 4294967295 → self.old ≡ counts_of journal
            → self.new ≡ counts_of (journal ++ event.now ∷ []) }
    {
        self.ticks = tick_after(event, self.ticks);
        self.frames = more(self.frames, is_frame(event));
        self.ends = more(self.ends, makes_end(event));
        self.got = more(self.got, is_got(event));
        self.urgent = more(self.urgent, is_urgent(event));
        self.gone = more(self.gone, is_gone(event));
    }

    /// Counts the events of a line.
    pub fn count_all(&mut self, events: &[Event])
        ensures { (journal : List JournalEvent) → length journal + length events.now < 4294967296 → self.old ≡ counts_of journal
            → self.new ≡ counts_of (journal ++ events.now) }
    {
        for event in events {
            self.count(event);
        }
    }
}

/// A count with one more where an event is counted. One that is full stands still.
fn more(count: u32, counted: bool) -> u32
    ensures { result ≡ min (count + (if counted then 1 else 0)) 4294967295 }
{
    count.saturating_add(u32::from(counted))
}

/// The tick of an event that comes after this tick.
fn tick_after(event: &Event, ticks: Tick) -> Tick
    ensures { result ≡ clock_after ticks event.now }
{
    if let Event::Tick { now } = event {
        *now
    } else {
        ticks
    }
}

fn is_frame(event: &Event) -> bool
    ensures { result ≡ is_frame event.now }
{
    matches!(event, Event::Net(Note::Frame { .. }))
}

fn makes_end(event: &Event) -> bool
    ensures { result ≡ makes_end event.now }
{
    matches!(event, Event::Connect(_) | Event::Incoming(_))
}

fn is_got(event: &Event) -> bool
    ensures { result ≡ is_got event.now }
{
    matches!(
        event,
        Event::End {
            what: EndTold::Got(_),
            ..
        }
    )
}

fn is_urgent(event: &Event) -> bool
    ensures { result ≡ is_urgent event.now }
{
    matches!(
        event,
        Event::End {
            what: EndTold::Urgent(_),
            ..
        }
    )
}

fn is_gone(event: &Event) -> bool
    ensures { result ≡ is_gone event.now }
{
    matches!(
        event,
        Event::End {
            what: EndTold::Gone(..),
            ..
        }
    )
}
