//! A network from a tick on since when nothing is lost, over any carrier of units (X.213, queue model; X.224, class 4 procedures).

ghost use Rattle.law_recovery_run.specs.Laws.{OthersStayAside, PartnersAreAlone, RunsGoInOrder, OpenEndsSpeak, PartnersAreFollowed, SettlesGoOn, CallsRest, EndsHaveNumbers, LinesAreCalls, OpenedAreFollowed, RunsAreCalls, RunsAreReady, RunsGoOn, RequestsAreCarried, RequestsAreSentAgain, RequestsStayIndicated, GoesInTime};
ghost use Rattle.tp4_number.specs.Number.{whole, wire};

use nsap::Nsap;
use osi_base::Carrier;

/// Whatever was lost before: from a tick on at which nothing is left to deliver, lines that are settled and lose nothing are steps of the network without its
/// carrier, in which what waits is handed over in the order in which it was sent, and nothing waits in the end; over whole numbers.
pub fn goes_in_order<C: Carrier<Addr = Nsap>>()
    ensures { RunsGoInOrder C.link C.steps }
{}

/// After any calls after which the carrier is honest, whatever that loses, repeats, delays and reorders: an end that is not frozen is named as its partner by no
/// end but its one partner, as long as that is not frozen; over whole numbers.
pub fn partners_are_alone<C: Carrier<Addr = Nsap>>()
    ensures { PartnersAreAlone C.link C.steps }
{
    law_tp4_history::journals_are_lawful();
    law_tp4_history::flowed();
}

/// So after such calls a TPDU that comes to the system of an end that is not frozen, and is not from its partner for it, leaves it as it is, and what is sent for that TPDU does not go to
/// its partner, whatever other ends stand there; over whole numbers. A CR, CC or DR of the partner is not one of these.
pub fn others_stay_aside<C: Carrier<Addr = Nsap>>()
    ensures { OthersStayAside C.link C.steps }
{
    law_tp4_history::journals_are_lawful();
    law_tp4_history::flowed();
    law_tp4_history::moved();
}

/// All that an end sends that is Opened or Closing, and takes nothing but what is of its partner, is for its partner, from itself, and in the format that was agreed.
pub fn open_ends_speak()
    ensures { OpenEndsSpeak }
{}

/// After any calls after which the carrier is honest, whatever that loses, repeats, delays and reorders: two partners that are Opened where nothing waits between them are a pair as
/// `settles_go_on` has it, and such a pair in which both are Opened are partners; over whole numbers.
pub fn partners_are_followed<C: Carrier<Addr = Nsap>>()
    ensures { PartnersAreFollowed C.link C.steps }
{
    law_tp4_history::journals_are_lawful();
    law_tp4_history::flowed();
}

/// Two partner ends that are Opened or Closing, in a network in which the TPDUs of others wait too: a settle in which nothing is lost is steps of the pair of the two, in which what waits
/// between them is handed over in order, until nothing waits or one of them is frozen; over whole numbers.
pub fn settles_go_on<C: Carrier<Addr = Nsap>>()
    ensures { SettlesGoOn C.link C.steps }
{
    law_tp4_history::journals_are_lawful();
    law_tp4_history::flowed();
    law_tp4_history::moved();
}

/// Lines without an injection, from a network after calls after which its carrier is honest, are such calls too, of which the limits are kept; over whole numbers and those of the wire.
pub fn lines_are_calls<C: Carrier<Addr = Nsap>>()
    ensures whole_numbers { LinesAreCalls C.link C.steps whole }
    ensures wire_numbers { LinesAreCalls C.link C.steps wire }
{}

/// Of a run that recovers, whatever was lost before its recovering settle and whichever transport entities began again: what came up to that settle are calls after which the carrier is honest,
/// and so is all; the network there is one from which it goes on in order (`goes_in_order`); and the lines since are settled and lose nothing. Over whole numbers.
pub fn runs_are_ready<C: Carrier<Addr = Nsap>>()
    ensures calls { RunsAreCalls C.link C.steps whole }
    ensures ready { RunsAreReady C.link C.steps }
    ensures goes_on { RunsGoOn C.link C.steps }
{
    lines_are_calls::<C>();
    law_tp4_history::journals_are_lawful();
    law_tp4_history::flowed();
}

/// After any calls after which the carrier is honest no end is due; over whole numbers.
pub fn calls_rest<C: Carrier<Addr = Nsap>>()
    ensures { CallsRest C.link C.steps }
{
    law_tp4_history::journals_are_lawful();
    law_tp4_history::flowed();
}

/// After any calls after which the carrier is honest, an end stands exactly where it is that of its number; over whole numbers.
pub fn ends_have_numbers<C: Carrier<Addr = Nsap>>()
    ensures { EndsHaveNumbers C.link C.steps }
{
    law_tp4_history::journals_are_lawful();
    law_tp4_history::flowed();
}

/// So two partners that are Opened there, by their numbers, are followed as a pair in which nothing waits between them; over whole numbers.
pub fn opened_are_followed<C: Carrier<Addr = Nsap>>()
    ensures { OpenedAreFollowed C.link C.steps }
{
    ends_have_numbers::<C>();
    partners_are_followed::<C>();
}

/// An end in CrWait that has sent its CR fewer than N times sends it again at the tick at which T1 has passed since the last time, whatever else is due at that tick; over whole numbers.
pub fn requests_are_sent_again()
    ensures { RequestsAreSentAgain }
{}

/// An end in CrWait whose CR waits, that calls an entity which is not silent, and whose called end, where there is one, has no answer of its user yet, in a network in which the TPDUs of others wait
/// too: after a settle in which nothing is lost its called end stands in UserWait, and is its partner; or it took a CC or a DR meanwhile, and is Opened or has left, and where none waited for it before,
/// that is the DR by which the entity that it calls refused its CR: since that end is frozen, its selector is not registered, or no reference is free. And where its called end stands so before a
/// settle, it does after it, or the calling one was answered; over whole numbers.
pub fn requests_are_carried<C: Carrier<Addr = Nsap>>()
    ensures comes { RequestsAreCarried C.link C.steps }
    ensures stays { RequestsStayIndicated C.link C.steps }
{
    law_tp4_history::journals_are_lawful();
    law_tp4_history::flowed();
    law_tp4_history::moved();
}

/// An end that goes by itself since when nothing is lost does so by the longer of T1 and W after that.
pub fn goes_in_time()
    ensures { GoesInTime }
{}
