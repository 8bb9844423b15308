//! What the ends of a network keep along its calls (X.224, class 4 procedures).

ghost use Rattle.law_recovery_world.specs.Laws.{AksAreOffered, AksWereSaid, CallsAreShort, CallsGive, CallsHaveViews, CallsKeepSteady, CallsKnow, CallsTell, EndsKeep, RowsKeepViews, ViewsAreKnown, LinesAreReached, LinesHaveRoom, LinesHaveViews, LinesSpeak, AskersAreKnown, AskersOpen, AskersShow, ConfirmedAreKnown, ConfirmedOpen, ConfirmedShow, KnownAreCarried, PartnersAreKnown, PartnersAreLined, PartnersPart, PartnersRecover, PartnersShow};
ghost use Rattle.law_recovery_world.specs.Lines.{HasKnowingHistory};
ghost use Rattle.law_recovery_world.specs.Partners.{PairsAreKnown};
ghost use Rattle.law_tp4_lawful.specs.Called.{OfWhole, OnCalls};
ghost use Rattle.tp4_number.specs.Number.{wire};

use nsap::Nsap;
use osi_base::Carrier;

/// After any calls of a network after which its carrier is still honest, whatever that loses, repeats, delays and reorders: each end keeps
/// the credit that all timers give, what it knows, its places and its ticks, and no expedited unit was submitted where that is not agreed; each
/// CR and CC afloat gives that credit, and each normal unit that was submitted has at most 16,384 octets, and each number that
/// an end noted as held was told.
pub fn over_calls<C: Carrier<Addr = Nsap>>()
    ensures steady { CallsKeepSteady C.link C.steps }
    ensures gives { CallsGive C.link C.steps }
    ensures short { CallsAreShort C.link C.steps }
    ensures told { CallsTell C.link C.steps }
    ensures on_wire { OnCalls C.link C.steps wire (OfWhole (EndsKeep C.link)) }
{
    tp4_world::whole_calls::<C>();
    law_tp4_history::flowed();
    law_tp4_history::journals_are_lawful();
}

/// Each AK that comes to an open end was said in the line of that end, which reads it for what it is; and where it is heard, its partner
/// offered what the sending half then knows.
pub fn aks_were_said<C: Carrier<Addr = Nsap>>()
    ensures said { AksWereSaid C.link }
    ensures offered { AksAreOffered C.link }
{}

/// Each row keeps what is known of an offer of the partner.
pub fn rows_keep_views()
    ensures { RowsKeepViews }
{}

/// What an open end knows by an offer of its partner stands in its line.
pub fn views_are_known<C: Carrier<Addr = Nsap>>()
    ensures { ViewsAreKnown C.link }
{}

/// After any calls a history explains the network, in which the sender of the line of each open end knows what it began with, or what an AK said; and
/// between each two open partners the views are in order: nothing that is known or was said is newer than what the receiver says now.
pub fn calls_know<C: Carrier<Addr = Nsap>>()
    ensures lines { CallsKnow C.link C.steps }
    ensures views { CallsHaveViews C.link C.steps }
    ensures on_wire { OnCalls C.link C.steps wire (OfWhole (HasKnowingHistory C.link)) }
{
    tp4_world::whole_calls::<C>();
    law_tp4_history::flowed();
    law_tp4_history::journals_are_lawful();
}

/// In each line of a history that was reached, whatever was lost: what is said only rises, from the room on that its receiver
/// began with; and where its sender began with no more, or knows what an AK said, that is no newer than what the receiver says.
pub fn lines_speak()
    ensures reached { LinesAreReached }
    ensures speaks { LinesSpeak }
    ensures views { LinesHaveViews }
{}

/// Both lines of a connection begin with the room that the timers give, as the called end is accepted.
pub fn lines_have_room()
    ensures { LinesHaveRoom }
{}

/// After any calls of a network after which its carrier is still honest, whatever that loses, repeats, delays and reorders: of each two
/// partners that are Opened all is known that a pair of ends begins with, as far as nothing waits between them.
pub fn partners_are_known<C: Carrier<Addr = Nsap>>()
    ensures whole_numbers { PartnersAreKnown C.link C.steps }
    ensures on_wire { OnCalls C.link C.steps wire (OfWhole (PairsAreKnown C.link)) }
{
    over_calls::<C>();
    calls_know::<C>();
    tp4_world::whole_calls::<C>();
    law_tp4_history::flowed();
    law_tp4_history::journals_are_lawful();
}

/// And they stand in the lines of their connection: each normal unit that was submitted has at most 16,384 octets, and none was submitted as expedited
/// where that is not agreed.
pub fn partners_are_lined<C: Carrier<Addr = Nsap>>()
    ensures { PartnersAreLined C.link C.steps }
{
    over_calls::<C>();
    calls_know::<C>();
}

/// What is known of a direction has what is known of its units at any tick.
pub fn known_are_carried()
    ensures { KnownAreCarried }
{}

/// So of two partners that are Opened after some calls, whatever happens to them in order from there on: where nothing waits, neither is due, and
/// the longer of T1 and W has passed, all that was submitted is shown, but for want of credit or by the number rule; or one of them has left.
pub fn partners_recover<C: Carrier<Addr = Nsap>>()
    ensures { PartnersRecover C.link C.steps }
{
    partners_are_known::<C>();
    known_are_carried();
    law_recovery_steps::pairs_recover();
}

/// And each has shown by the journal what the other submitted; of a number that the number rule holds back the journal tells.
pub fn partners_show<C: Carrier<Addr = Nsap>>()
    ensures { PartnersShow C.link C.steps }
{
    partners_recover::<C>();
    over_calls::<C>();
}

/// Of two partners that are Opened after some calls: both stay so, or the first to leave did so by its user, by what it had tried N times by
/// then, or by what it had not heard since before then, and by nothing that came; and its partner follows.
pub fn partners_part<C: Carrier<Addr = Nsap>>()
    ensures { PartnersPart C.link C.steps }
{
    partners_are_known::<C>();
    partners_are_lined::<C>();
    law_recovery_steps::pairs_part();
    law_recovery_steps::lines_fit();
}

/// After any calls of a network after which its carrier is honest: of each two partners of which the one is in CrWait and the other in AkWait, where
/// nothing waits between them, all is known that such a pair begins with, and their timers are those of the network.
pub fn askers_are_known<C: Carrier<Addr = Nsap>>()
    ensures { AskersAreKnown C.link C.steps }
{
    over_calls::<C>();
    calls_know::<C>();
}

/// So T1 ticks later both are Opened, or one has left; and where the longer of T1 and W has passed, each has shown by the journal what the other
/// submitted, but for want of credit or by the number rule.
pub fn askers_open<C: Carrier<Addr = Nsap>>()
    ensures opened { AskersOpen C.link C.steps }
    ensures shown { AskersShow C.link C.steps }
{
    askers_are_known::<C>();
    partners_are_known::<C>();
    known_are_carried();
    over_calls::<C>();
    law_recovery_steps::asks_begin();
    law_recovery_steps::pairs_open();
}

/// After any calls of a network after which its carrier is honest: of each two partners of which the one is Opened and the other in AkWait, since its
/// first AK was lost, where nothing waits between them, all is known that such a pair begins with, and their timers are those of the network.
pub fn confirmed_are_known<C: Carrier<Addr = Nsap>>()
    ensures { ConfirmedAreKnown C.link C.steps }
{
    over_calls::<C>();
    calls_know::<C>();
}

/// So T1 ticks later both are Opened, or one has left; and where the longer of T1 and W has passed, each has shown by the journal what the other
/// submitted, but for want of credit or by the number rule.
pub fn confirmed_open<C: Carrier<Addr = Nsap>>()
    ensures opened { ConfirmedOpen C.link C.steps }
    ensures shown { ConfirmedShow C.link C.steps }
{
    confirmed_are_known::<C>();
    partners_are_known::<C>();
    known_are_carried();
    over_calls::<C>();
    law_recovery_steps::pairs_open();
}
