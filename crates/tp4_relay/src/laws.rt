//! What holds of the journals in which a relay takes part.

ghost use Rattle.std.specs.Prelude.{◌++◌, List};
ghost use Rattle.std.specs.List.{AllByRecursion};
ghost use Rattle.script_journal.specs.declared.event.Event.{Event};
ghost use Rattle.tp4_conn.specs.declared.timers.Timers.{Timers as Times};
ghost use Rattle.tp4_relay.specs.Allowed.{AreAllowed};
ghost use Rattle.tp4_relay.specs.Kept.{nothing_kept, relay_after};
ghost use Rattle.tp4_relay.specs.Laws.{AllButWaiting, GivesShown, TellsRefusals};
ghost use Rattle.tp4_relay.specs.Relaying.{RelaysUnits};
ghost use Rattle.tp4_relay.specs.Worked.{WorkedRows};
ghost use Rattle.tp4_relay.specs.declared.row.RelayRow.{RelayRow as Row};

use crate::service::Service;

/// At each front of a journal in which each event may come after those before it: what was submitted at the one end of a pair is a
/// front of what was shown at the other, in order and with the marks.
pub fn relays_units()
    ensures { (rows : List Row) (rules : Times) (front back : List Event) → AreAllowed (nothing_kept rows rules) (front ++ back) → RelaysUnits front }
{}

/// After such a journal: what was shown at the one end of an open pair was submitted at the other, in order and with the marks, but for
/// what waits, which comes behind it.
pub fn relays_all()
    ensures { (rows : List Row) (rules : Times) (journal : List Event) → AreAllowed (nothing_kept rows rules) journal
        → AllByRecursion (AllButWaiting journal) (relay_after rows rules journal).pairs }
{}

/// After a pump: all that the one end of an open pair showed was submitted at the other, unless this pump's own call for the next unit
/// was refused, as it submitted those of this pair, this way.
pub fn pump_gives_all<S: Service>()
    ensures { GivesShown S.connects S.calls }
{}

/// A refusal of the next unit, which excuses what a pump leaves, is one of its calls: what it told stands in what the pump made.
pub fn refusals_are_told<S: Service>()
    ensures { TellsRefusals S.connects S.calls }
{}

/// The rows of a connection through a relay, worked out.
pub fn worked_rows()
    ensures { WorkedRows }
{}
