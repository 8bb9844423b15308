//! What the users of a network may rely on once nothing is lost any more (X.214, service primitives; queue model of the transport service).

ghost use Rattle.law_recovery.specs.Laws.{WalkedRecover, EndedHaveLeft, LeftAreOver, RunsAreTold, RunsLast, RunsPart, StandByNumber, RecoversOnWire, RunsTell, WalkedTell, FollowedAreBack, FollowedArePairs, FollowedPart, FollowedShow, AlongRunsFollow, CallsEndIndications, FollowsOnWire, LinesFollow, RunsEndIndications, RunsFollow, AlongRunsAsk, AsksOnWire, RunsAccept, RunsAsk, TriesArePast, CalmAreUpToDate, OutagesOnWire, RecoveringIsKept, PartnersStay};
ghost use Rattle.law_recovery.specs.Service.{AsksOnPrompt};
ghost use Rattle.law_recovery.specs.Outage.{CalmOutagesOnPrompt, OutagesOnPrompt};
ghost use Rattle.law_recovery_run.specs.Service.{RecoversOnPrompt};
ghost use Rattle.tp4_number.specs.Number.{whole, wire};

use nsap::Nsap;
use osi_base::Carrier;

/// Where lines that are settled and lose nothing are steps of each two ends that know each other, and tell what happens to the two, each two partners that were Opened recover, in each run
/// that recovers; over whole numbers, whatever tells what waits in the carrier.
pub fn walked_recover<C: Carrier<Addr = Nsap>>()
    ensures { WalkedRecover C.link C.steps }
{
    law_recovery_run::runs_are_ready::<C>();
    law_recovery_run::opened_are_followed::<C>();
    law_recovery_run::ends_have_numbers::<C>();
    followed_are_pairs::<C>();
    followed_are_back::<C>();
    walked_tell::<C>();
}

/// So over each carrier that serves again once nothing is lost: of each run that recovers, each two partners that were Opened at its recovering settle are back, or one of them went and neither
/// is Opened any more (`Recovered` of law_recovery_run); over whole numbers and those of the wire.
pub fn runs_recover<C: Carrier<Addr = Nsap>>()
    ensures whole_numbers { RecoversOnPrompt C.link C.steps whole }
    ensures wire_numbers { RecoversOnPrompt C.link C.steps wire }
{
    walked_recover::<C>();
    runs_are_told::<C>();
    recovers_on_wire::<C>();
}

/// Of two ends that were Opened at a tick at which nothing waited, whatever happens to the two in order from there on: neither is frozen before both have left.
pub fn ended_have_left()
    ensures { EndedHaveLeft }
{
    law_recovery_steps::pairs_part();
}

/// Two ends that are Opened or Closing and know each other, in a network in which nothing is left to deliver: lines that are settled and lose nothing are steps of the pair of the two, with a
/// tick of each where it is due, until one of them is frozen, and tell what happens to the two; over whole numbers.
pub fn runs_are_told<C: Carrier<Addr = Nsap>>()
    ensures { RunsAreTold C.link C.steps }
{
    law_tp4_history::journals_are_lawful();
    law_tp4_history::flowed();
    law_tp4_history::moved();
}

/// Two ends that are Opened or Closing and know each other, in a network in which nothing is left to deliver: lines that are settled and lose nothing are steps of the pair of the two, with a
/// tick of each where it is due, until one of them is frozen; if both had left by then, the two ends have left in the network that the lines led to. Over whole numbers.
pub fn runs_last<C: Carrier<Addr = Nsap>>()
    ensures { RunsLast C.link C.steps }
{
    runs_are_told::<C>();
}

/// Two partners that are Opened, and of which all is known, in a network in which nothing is left to deliver: after lines that are settled and lose nothing both are Opened still, or the first
/// that left did so by its user or for a cause of that tick or before, and both have left; over whole numbers.
pub fn runs_part<C: Carrier<Addr = Nsap>>()
    ensures { RunsPart C.link C.steps }
{
    law_recovery_steps::pairs_part();
    runs_last::<C>();
}

/// An end that has left is Opened no more, by its number.
pub fn left_are_over<C: Carrier<Addr = Nsap>>()
    ensures { LeftAreOver C }
{}

/// After any calls after which the carrier is honest, an end that stands is that of its number; over whole numbers.
pub fn stand_by_number<C: Carrier<Addr = Nsap>>()
    ensures { StandByNumber C.link C.steps }
{
    law_tp4_history::journals_are_lawful();
    law_tp4_history::flowed();
}

/// Where the ends of each run of a network that begins with a state of its carrier recover over whole numbers, they do over the numbers of the wire, which the program keeps; and so it
/// is over each carrier that serves again once nothing is lost.
pub fn recovers_on_wire<C: Carrier<Addr = Nsap>>()
    ensures begins { RecoversOnWire C.link C.steps }
    ensures prompt { RecoversOnPrompt C.link C.steps whole → RecoversOnPrompt C.link C.steps wire }
{
    tp4_world::whole_run::<C>();
}

/// Two partners that are Opened, in a network in which nothing is left to deliver: where lines that are settled and lose nothing are steps of each two ends that know each other, both are Opened
/// still after them, where nothing waits between them, or the lines tell that one of them went by its user, or by a cause of that tick or before, and neither is Opened any more; over whole
/// numbers, whatever tells what waits in the carrier.
pub fn walked_tell<C: Carrier<Addr = Nsap>>()
    ensures { WalkedTell C.link C.steps }
{
    law_recovery_run::partners_are_followed::<C>();
    ended_have_left();
    left_are_over::<C>();
    law_recovery_world::partners_are_known::<C>();
    law_recovery_world::partners_part::<C>();
}

/// So it is over each carrier that serves again once nothing is lost.
pub fn runs_tell<C: Carrier<Addr = Nsap>>()
    ensures { RunsTell C.link C.steps }
{
    walked_tell::<C>();
    runs_are_told::<C>();
}

/// A pair of two Opened ends that is followed, where nothing waits, is one of which all is known (`IsPairOf`), and the other way round; over whole numbers.
pub fn followed_are_pairs<C: Carrier<Addr = Nsap>>()
    ensures { FollowedArePairs C.link C.steps }
{
    law_recovery_run::partners_are_followed::<C>();
}

/// So where a pair is followed from two Opened ends on, and nothing waits at a later tick, from the longer of T1 and W on: one has left, or each has shown by the journal what
/// the other submitted, but for want of credit or by the number rule at that tick; over whole numbers.
pub fn followed_show<C: Carrier<Addr = Nsap>>()
    ensures { FollowedShow C.link C.steps }
{
    followed_are_pairs::<C>();
    law_recovery_run::calls_rest::<C>();
    law_recovery_run::ends_have_numbers::<C>();
    law_recovery_world::partners_show::<C>();
}

/// And where no end of it misses a tick at which it is due: both are Opened, or the first that left did so by its user, by what it had tried N times at the tick of the beginning, or by what it
/// had not heard since before then, and for nothing that came; and its partner follows; over whole numbers.
pub fn followed_part<C: Carrier<Addr = Nsap>>()
    ensures { FollowedPart C.link C.steps }
{
    followed_are_pairs::<C>();
    law_recovery_world::partners_part::<C>();
}

/// So at each such tick both are back (`AreBack` of law_recovery_run), or neither is Opened any more, and the first that left did so for such a cause; over whole numbers.
pub fn followed_are_back<C: Carrier<Addr = Nsap>>()
    ensures { FollowedAreBack C.link C.steps }
{
    followed_show::<C>();
    followed_part::<C>();
    law_recovery_run::ends_have_numbers::<C>();
}

/// In a network in which nothing is left to deliver, at tick t0: lines that are settled and lose nothing leave no end Opened from t0 + I on beside a partner that had left by t0, and none in
/// AkWait from t0 + T1 on beside one that was frozen or gone, and from t0 + 2 T1 on beside any, whose system was not silent. Over whole numbers.
pub fn lines_follow<C: Carrier<Addr = Nsap>>()
    ensures { LinesFollow C.link C.steps }
{
    law_recovery_run::ends_have_numbers::<C>();
    law_recovery_world::over_calls::<C>();
    law_tp4_history::journals_are_lawful();
    law_tp4_history::flowed();
    law_tp4_history::moved();
}

/// So of each run that recovers, over each carrier that serves again once nothing is lost, whatever was lost, repeated, delayed and reordered before, and whichever systems began again; t0 is the
/// tick of its recovering settle. Over whole numbers, and over those of the wire, which the program keeps. And wherever lines leave no such end, whatever tells what waits in the carrier.
pub fn runs_follow<C: Carrier<Addr = Nsap>>()
    ensures along { AlongRunsFollow C.link C.steps }
    ensures on_wire { FollowsOnWire C.link C.steps }
    ensures whole_numbers { RunsFollow C.link C.steps whole }
    ensures wire_numbers { RunsFollow C.link C.steps wire }
{
    lines_follow::<C>();
    law_recovery_run::runs_are_ready::<C>();
    tp4_world::whole_run::<C>();
}

/// After any calls after which the carrier is honest, whatever that loses, repeats, delays and reorders: an end whose user has not answered its indication is there for less than I ticks since
/// that. Over whole numbers.
pub fn indications_end<C: Carrier<Addr = Nsap>>()
    ensures { CallsEndIndications C.link C.steps }
{
    law_recovery_run::ends_have_numbers::<C>();
    law_tp4_history::journals_are_lawful();
    law_tp4_history::flowed();
}

/// So in each run that recovers, over any carrier; over whole numbers and those of the wire.
pub fn runs_end_indications<C: Carrier<Addr = Nsap>>()
    ensures whole_numbers { RunsEndIndications C.link C.steps whole }
    ensures wire_numbers { RunsEndIndications C.link C.steps wire }
{
    indications_end::<C>();
    law_recovery_run::runs_are_ready::<C>();
    tp4_world::whole_run::<C>();
}

/// After any calls no end in CrWait sent its CR later than now; over whole numbers.
pub fn tries_are_past<C: Carrier<Addr = Nsap>>()
    ensures { TriesArePast C.link C.steps }
{}

/// In a network in which nothing is left to deliver, over a carrier that serves again then: an end in CrWait, where none that it called was answered and no entity that it calls is silent.
/// After lines that are settled and lose nothing, where T1 has passed since its last CR, its called end stands in UserWait and is its partner, or the lines tell that it was confirmed, or
/// that it went. And where the user of its called end had accepted, T1 after its last CC, they tell that the first was confirmed, or went, or that the other is exhausted; over whole numbers.
pub fn runs_ask<C: Carrier<Addr = Nsap>>()
    ensures asks { RunsAsk C.link C.steps }
    ensures accepts { RunsAccept C.link C.steps }
{
    law_tp4_history::journals_are_lawful();
    law_tp4_history::flowed();
    law_tp4_history::moved();
}

/// What is so of each run over whole numbers is so over the numbers of the wire.
pub fn asks_on_wire<C: Carrier<Addr = Nsap>>()
    ensures { AsksOnWire C.link C.steps }
{
    tp4_world::whole_run::<C>();
}

/// So over each carrier that serves again once nothing is lost, of each run that recovers, whatever was lost before: from T1 after its recovering settle on, each end that was in CrWait there,
/// and whose called end was not answered, has its called end in UserWait, or the lines since tell that it was confirmed, or that it went; and of each that was there with its called end in
/// AkWait they tell that, or that the called end is exhausted; over whole numbers and those of the wire.
pub fn networks_ask<C: Carrier<Addr = Nsap>>()
    ensures along { AlongRunsAsk C.link C.steps }
    ensures whole_numbers { AsksOnPrompt C.link C.steps whole }
    ensures wire_numbers { AsksOnPrompt C.link C.steps wire }
{
    law_recovery_run::runs_are_ready::<C>();
    law_recovery_run::ends_have_numbers::<C>();
    law_recovery_run::partners_are_alone::<C>();
    law_recovery_world::calls_know::<C>();
    law_recovery_world::over_calls::<C>();
    tries_are_past::<C>();
    runs_ask::<C>();
    asks_on_wire::<C>();
}

/// In a calm run, from a start on at which nothing is left to deliver, each two partners that are Opened are up to date at the tick of its last line; over whole numbers.
pub fn calm_ends_are_up_to_date<C: Carrier<Addr = Nsap>>()
    ensures { CalmAreUpToDate C.link C.steps }
{
    law_recovery_run::lines_are_calls::<C>();
    law_recovery_run::runs_are_ready::<C>();
    law_recovery_run::ends_have_numbers::<C>();
    law_recovery_world::partners_are_known::<C>();
}

/// Where the ends of each run that recovers do so: whatever is lost, repeated, delayed and reordered between two ticks, two partners that were Opened and up to date at the first one are so at the
/// second one and from there on, as long as that outage is short and neither is left by its user or its system; over whole numbers.
pub fn outages_end_none<C: Carrier<Addr = Nsap>>()
    ensures begins { RecoveringIsKept C.link C.steps }
    ensures prompt { OutagesOnPrompt C.link C.steps whole }
    ensures calm { CalmOutagesOnPrompt C.link C.steps whole }
{
    law_recovery_run::lines_are_calls::<C>();
    law_recovery_run::runs_are_ready::<C>();
    law_recovery_run::ends_have_numbers::<C>();
    partners_stay::<C>();
    calm_ends_are_up_to_date::<C>();
    runs_recover::<C>();
    law_recovery_run::goes_in_order::<C>();
}

/// So it is over the numbers of the wire.
pub fn outages_end_none_on_wire<C: Carrier<Addr = Nsap>>()
    ensures begins { OutagesOnWire C.link C.steps }
    ensures prompt { OutagesOnPrompt C.link C.steps wire }
    ensures calm { CalmOutagesOnPrompt C.link C.steps wire }
{
    tp4_world::whole_run::<C>();
    outages_end_none::<C>();
}

/// Whatever a carrier loses, repeats, delays and reorders after some calls: two partners that are Opened and up to date since a tick are so after further calls, as long as neither is left by its
/// user or its system, fewer than N T1 ticks have passed since then, and no more than I less W; over whole numbers.
pub fn partners_stay<C: Carrier<Addr = Nsap>>()
    ensures { PartnersStay C.link C.steps }
{
    law_tp4_history::flowed();
    law_tp4_history::journals_are_lawful();
}
