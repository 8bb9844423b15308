//! What holds of the journals in which a relay takes part (X.214, model of the transport service).

ghost use Rattle.std.specs.Prelude.{List, ℕ};
ghost use Rattle.script_journal.specs.Lawful.{AreQueues, Lawful};
ghost use Rattle.script_journal.specs.declared.event.Event.{Event};
ghost use Rattle.law_relay.specs.Notes.{plain};
ghost use Rattle.law_relay.specs.Through.{IsThrough, Relays};

/// Where each connection of a lawful journal is two queues, the two connections of a pair are two queues together.
pub fn goes_through()
    ensures { (titles : List (List ℕ)) (journal : List Event) → AreQueues titles journal → Relays journal → IsThrough journal }
{}

/// What a relay notes in a journal leaves it lawful.
pub fn noted()
    ensures { (frozen : ℕ) (titles : List (List ℕ)) (journal : List Event) → Lawful frozen titles (plain journal) → Lawful frozen titles journal }
{}
