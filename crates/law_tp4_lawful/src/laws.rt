//! What a receiver of a connection may see, over any carrier of units (X.214, model of the transport service).

ghost use Rattle.law_tp4_lawful.specs.Laws.{CallsAreLawful, CallsAreSilent, ReceivesWhatWasSubmitted, StaysSilent};
ghost use Rattle.law_tp4_lawful.specs.Called.{OfWhole, OnCalls};
ghost use Rattle.law_tp4_lawful.specs.Numbers.{AreRead};
ghost use Rattle.law_tp4_lawful.specs.References.{AreCarried, IsNotBefore, IsOfPartner, OnRuns};
ghost use Rattle.tp4_number.specs.Number.{whole, wire};

use nsap::Nsap;
use osi_base::Carrier;

/// After any calls of a network after which its carrier is still honest, whatever that loses, repeats, delays and reorders: what an end
/// shows of a connection is a front of what its one partner was asked to send, in order, of normal units and of expedited ones; what is
/// afloat and matches an end was not offered before that end was made, and is of its partner, or was sent by the partner's entity where it had no end; a DT or an ED
/// carries the piece or the unit of its number; and an end that is open reads what comes to it as the number that it was sent with, or
/// ignores it. A system that began again is silent also where octets were injected. A user of `TpWorld` has the calls from the clauses
/// of its calls.
pub fn over_calls<C: Carrier<Addr = Nsap>>()
    ensures silent { CallsAreSilent C.link C.steps }
    ensures lawful { CallsAreLawful C.link C.steps }
    ensures later { OnCalls C.link C.steps wire (IsNotBefore C.link) }
    ensures partner { OnCalls C.link C.steps wire (IsOfPartner C.link) }
    ensures carries { OnCalls C.link C.steps wire (AreCarried C.link) }
    ensures numbers { OnCalls C.link C.steps wire (OfWhole (AreRead C.link)) }
{
    tp4_world::whole_calls::<C>();
    law_tp4_history::journals_are_lawful();
    law_tp4_history::times();
    law_tp4_history::flowed();
}

/// A system whose transport entity began again tells nothing of the ends that it had, and makes none for as long as references are frozen;
/// whatever comes to it, also octets that nobody sent.
pub fn silent<C: Carrier<Addr = Nsap>>()
    ensures { StaysSilent C.link C.steps }
{
    over_calls::<C>();
}

/// Whatever a carrier loses, repeats, delays and reorders: what an end shows of a connection is a front of what its one partner was
/// asked to send, in order, of normal units and of expedited ones; and no normal unit comes before an expedited one that was submitted
/// before it. Of an end that a system lost as it began again nothing more is told. So it is while the carrier is honest: no `inject` line
/// was taken.
pub fn lawful<C: Carrier<Addr = Nsap>>()
    ensures { ReceivesWhatWasSubmitted C.link C.steps }
{
    over_calls::<C>();
}

/// What is afloat and matches an end was not offered before that end was made, and is of its partner, or was sent by the partner's entity where it had no end; a DT
/// or an ED carries the piece or the unit of its number.
pub fn references<C: Carrier<Addr = Nsap>>()
    ensures later { OnRuns C.link C.steps wire (IsNotBefore C.link) }
    ensures partner { OnRuns C.link C.steps wire (IsOfPartner C.link) }
    ensures carries { OnRuns C.link C.steps wire (AreCarried C.link) }
{
    over_calls::<C>();
}

/// An end that is open reads what comes to it as the number that it was sent with, or as one that it ignores: over whole numbers, and of a
/// run over the numbers of the wire, in the network with whole numbers whose numbers it keeps.
pub fn numbers<C: Carrier<Addr = Nsap>>()
    ensures whole_numbers { OnRuns C.link C.steps whole (AreRead C.link) }
    ensures wire_numbers { OnRuns C.link C.steps wire (OfWhole (AreRead C.link)) }
{
    over_calls::<C>();
    law_tp4_history::journals_are_lawful();
    law_tp4_history::flowed();
}
