//! The events of a run, in their order.

ghost use Rattle.std.specs.Prelude.{◌≡◌, ◌≤◌, ◌++◌, ◌∷◌, [], ◌↔◌, length, OnOk, OnErr};
ghost use Rattle.std.specs.Result.{IsErrOf};
ghost use Rattle.script_journal.specs.declared.journal.JournalRefusal.TheVariants.{Full};

use crate::event::Event;
use std::alloc::Global;
use std::marker::Model;

/// The most events of a transcript.
const MOST_EVENTS: usize = 4_194_304;

/// Why an event is not taken.
#[derive(Clone, Copy)]
pub enum JournalRefusal {
    /// There are as many events as there may be.
    Full,
    /// There is no memory.
    NoMemory,
}

/// The events of a run. Contracts see them as a list.
#[derive(Drop)]
pub struct Journal {
    events: Vec<Event>,
}

// A transcript has at most 4,194,304 events.
impl Model for Journal {
    ghost use Rattle.std.specs.Prelude.{List, ◌≤◌, length};
    ghost use Rattle.script_journal.specs.declared.event.Event.{Event as One};

    ghost Value = { List One };

    ghost view = { λ j. j.events.items };

    ghost invariant = { λ j. length j.events.items ≤ 4194304 };
}

impl Journal {
    /// No events.
    pub fn new(alloc: Global) -> Journal
        ensures { result ≡ [] }
    {
        Journal {
            events: Vec::new(alloc),
        }
    }

    /// The events so far.
    pub fn events(&self) -> &[Event]
        ensures { result.now ≡ self.now }
    {
        &self.events
    }

    /// Appends an event. `Full` exactly where there are 4,194,304 already; after a refusal the journal
    /// is as before.
    pub fn add(&mut self, event: Event) -> Result<(), JournalRefusal>
        ensures ok { OnOk result (self.new ≡ self.old ++ event ∷ []) }
        ensures full { IsErrOf result Full ↔ (length self.old ≡ 4194304) }
        ensures err { OnErr result (self.new ≡ self.old) }
    {
        if self.events.len() == MOST_EVENTS {
            return Err(JournalRefusal::Full);
        }
        match self.events.push(event) {
            Ok(()) => Ok(()),
            Err(_) => Err(JournalRefusal::NoMemory),
        }
    }
}
