//! What holds of every run of the network, for all scripts.

ghost use Rattle.std.specs.Prelude.{◌≡◌, List, None, ℕ};
ghost use Rattle.law_run.specs.Laws.{ServesCalmScripts, RunsScripts};
ghost use Rattle.script_lines.specs.declared.words.Dialect.TheVariants as dialects;
ghost use Rattle.script_journal.specs.declared.event.Event.{Event};
ghost use Rattle.script_lines.specs.declared.line.Line.{Line};
ghost use Rattle.script_lines.specs.Injecting.{HasNoInject};
ghost use Rattle.script_lines.specs.Known.{Declared, nothing_declared};
ghost use Rattle.script_lines.specs.Script.{Says};
ghost use Rattle.law_run.specs.World.{World, WorldRun, frozen_of, life_of, strays_of, titles_of};
ghost use Rattle.script_journal.specs.Lawful.{Lawful};
ghost use Rattle.script_journal.specs.Silence.{KeepsSilence};
ghost use Rattle.script_journal.specs.RawLawful.{RawLawful};

use script_world::RoutedNet;

/// The lines of a script have one journal, and leave one network.
pub fn one_journal()
    ensures { (script : List Line) (journal other : List Event) (last end : World)
        → WorldRun script journal last → WorldRun script other end → (journal ≡ other) × (last ≡ end) }
{}

/// No strays are told where no line of a script is an `inject` line.
pub fn strays_are_injected()
    ensures { (texts : List (List ℕ)) (script : List Line) (names : Declared) (journal : List Event) (last : World)
        → Says (nothing_declared dialects.Run) texts script names → WorldRun script journal last → HasNoInject script
        → strays_of last ≡ None }
{}

/// Where no strays are told, since no line is an `inject` line that was taken, each raw unit that is shown was sent to that system, from
/// that address, with those octets, at most the lifetime before.
pub fn raw_units_are_lawful()
    ensures { (script : List Line) (journal : List Event) (last : World) → WorldRun script journal last → strays_of last ≡ None
        → RawLawful (life_of last) (titles_of last) journal }
{}

/// Where no strays are told, since no line of a script is an `inject` line that was taken, its journal is lawful, and with it each front
/// of the journal: what an end shows of a connection is a front, in order, of what its one partner was asked to send, of normal units and
/// of expedited ones; no normal unit comes before an expedited one that was submitted before it; an end without a partner shows nothing;
/// and a system that began again is silent, as `systems_are_silent` says.
pub fn ends_are_lawful()
    ensures { (texts : List (List ℕ)) (script : List Line) (names : Declared) (journal : List Event) (last : World)
        → Says (nothing_declared dialects.Run) texts script names → WorldRun script journal last → strays_of last ≡ None
        → Lawful (frozen_of last) (titles_of last) journal }
{
    law_tp4_lawful::lawful::<RoutedNet>();
}

/// After a `restart` line of a system no line of an end that it had stands, and it makes none for as long as references are frozen; also
/// where frames are injected.
pub fn systems_are_silent()
    ensures { (texts : List (List ℕ)) (script : List Line) (names : Declared) (journal : List Event) (last : World)
        → Says (nothing_declared dialects.Run) texts script names → WorldRun script journal last → KeepsSilence (frozen_of last) journal }
{
    law_tp4_lawful::silent::<RoutedNet>();
}

/// What runs on the bench is a script, line by line, and the run of the network for its lines.
pub fn script_runs()
    ensures { RunsScripts }
{}

/// After a calm script nothing is missing, as long as nothing was dropped: each two partner ends that are both Opened have shown all that the
/// other was asked to send, but for want of credit or by the number rule; a connect request has its indication by the `settle` behind it,
/// with its addresses, selectors and octets, where its selector is registered and a reference free, and no end of that caller is there; and an accept has its confirm.
pub fn calm_scripts_are_served()
    ensures { ServesCalmScripts }
{
    tp4_world::whole_run::<RoutedNet>();
}
