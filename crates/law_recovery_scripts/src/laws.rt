//! What a script of `run` promises the users of its network once nothing is lost any more (X.214, service primitives; queue model of the transport service).

ghost use Rattle.law_recovery_scripts.specs.Laws.{NetsArePrompt, NetsAsk, NetsFollow, NetsRecover, OctetsKept, OctetsRecover, ScriptsKept, ScriptsRecover, LinesKeepOrder, ScriptsAreOrdered, ScriptsPart};
ghost use Rattle.tp4_number.specs.Number.{whole};

use nsap::Nsap;
use osi_base::Carrier;
use script_world::RoutedNet;

/// A network of two end systems on one LAN serves again once nothing is lost, from any state to which calls without an injection lead from its start on.
pub fn nets_are_prompt()
    ensures { NetsArePrompt }
{}

/// The ends of each such network recover; over whole numbers.
pub fn nets_recover()
    ensures { NetsRecover whole }
{
    law_recovery::walked_recover::<RoutedNet>();
    law_tp4_history::journals_are_lawful();
    law_tp4_history::flowed();
    law_tp4_history::moved();
}

/// Each end of such a network that was in CrWait is answered, or its called user alone is missing, or it went; over whole numbers.
pub fn nets_ask()
    ensures { NetsAsk whole }
{
    law_recovery::networks_ask::<RoutedNet>();
    law_tp4_history::journals_are_lawful();
    law_tp4_history::flowed();
    law_tp4_history::moved();
}

/// No end of such a network is left beside a partner that had left; over whole numbers.
pub fn nets_follow()
    ensures { NetsFollow whole }
{
    law_recovery::runs_follow::<RoutedNet>();
    law_recovery_run::ends_have_numbers::<RoutedNet>();
    law_recovery_world::over_calls::<RoutedNet>();
    law_tp4_history::journals_are_lawful();
    law_tp4_history::flowed();
    law_tp4_history::moved();
}

/// So it is of the ends of each script whose lines were read, and after whatever part of octets was run whole, over the numbers of the wire: all that the set-up has to be, two end systems on
/// one LAN come to, and the reader of `set` lines keeps W below I. And no indication is left without an answer for I ticks.
pub fn scripts_recover()
    ensures scripts { ScriptsRecover }
    ensures octets { OctetsRecover }
{
    nets_recover();
    nets_ask();
    nets_follow();
    law_recovery::recovers_on_wire::<RoutedNet>();
    law_recovery::asks_on_wire::<RoutedNet>();
    law_recovery::runs_follow::<RoutedNet>();
    law_recovery::runs_end_indications::<RoutedNet>();
    scripts_are_ordered();
}

/// A short outage of such a script ends no connection of two ends that were up to date before it, and none at all where the script was calm up to there; so it is of each script whose lines were
/// read, and after whatever part of octets was run whole, over the numbers of the wire.
pub fn outages_are_kept()
    ensures scripts { ScriptsKept }
    ensures octets { OctetsKept }
{
    nets_recover();
    law_recovery::outages_end_none::<RoutedNet>();
    law_recovery::outages_end_none_on_wire::<RoutedNet>();
    scripts_are_ordered();
}

/// Where names and set-up have the same W and I, of which W is less, they have after each line that was read.
pub fn lines_keep_order()
    ensures { LinesKeepOrder }
{}

/// So have the timers of each script of which no line is refused.
pub fn scripts_are_ordered()
    ensures { ScriptsAreOrdered }
{}

/// So of two partners that are Opened in a network with such timers: both stay so, or the first to leave did so by its user, by what it had tried N
/// times by then, or by what it had not heard since before then, and by nothing that came; and its partner follows.
pub fn scripts_part<C: Carrier<Addr = Nsap>>()
    ensures { ScriptsPart C.link C.steps }
{
    scripts_are_ordered();
    law_recovery_world::partners_part::<C>();
}
