//! What holds of the network of two end systems on one LAN.

ghost use Rattle.law_clnp_net.specs.Laws.{BeginsEmpty, BeginsReached, IsFifoNet, IsNewKey, IsPromptNet, StaysReached, BeginsByHellos, RouterIsTold, StepsByHellos, AlwaysAnswered, AlwaysGathered, BeginsServing, BeginsStanding, LansAlwaysAnswered, NetServes, OneAnswer, OneBeginning, OneLanAnswer, OneNetAnswer, OneNetBeginning};
ghost use Rattle.std.specs.Prelude.{◌≡◌};

use nsap::Port;
use osi_base::Carrier;

/// Such a network is fifo: as long as no frame is dropped, units wait in one queue, in the order of their offers, and the least fresh pair, chosen
/// again and again, hands over the first of them.
pub fn is_fifo()
    ensures { IsFifoNet }
{}

/// It begins with nothing on its way, once its first hellos were sent.
pub fn begins_empty()
    ensures { BeginsEmpty }
{}

/// Such a network is prompt: from any state that calls without an injection lead to, where no pair is fresh nothing waits, and from there on it is
/// fifo, as long as no frame is dropped and no segment refused for want of room.
pub fn is_prompt()
    ensures { IsPromptNet }
{}

/// Whatever is called but an injection, in any order, no system comes to know of another, and what is afloat stays harmless.
pub fn stays_reached()
    ensures { StaysReached }
{}

/// It begins so.
pub fn begins_reached()
    ensures { BeginsReached }
{}

/// The key of a unit that is taken is one that nothing held has.
pub fn is_new_key()
    ensures { IsNewKey }
{}

/// Over every carrier that answers in one way, each call of the network has one answer, and the network begins as one.
pub fn one_answer<C: Carrier<Addr = Port>, N>()
    ensures answer { OneAnswer C.link C.steps N }
    ensures beginning { OneBeginning C.link C.steps N }
{}

/// Each call of the LANs has one answer.
pub fn one_lan_answer()
    ensures { OneLanAnswer }
{}

/// So each call of the network over the LANs has one answer, and it begins as one.
pub fn one_network()
    ensures answer { OneNetAnswer }
    ensures beginning { OneNetBeginning }
{}

/// While the network over the LANs stands, each call that may be asked of it is answered, and what waits is taken up; then it
/// still stands. So it is with the LANs while what they hold is in octets.
pub fn always_answers()
    ensures answers { AlwaysAnswered }
    ensures gathers { AlwaysGathered }
    ensures lans { LansAlwaysAnswered }
{}

/// Of set-ups that may be, a network begins over LANs without frames, and stands.
pub fn begins_standing()
    ensures { BeginsStanding }
{}

/// While the network over the LANs stands and what waits in it is in octets, between addresses of 1 to 20 octets, it serves: each call that
/// may be asked is answered, then that is still so, and there is a least pair that can be taken and was not yet, or none.
pub fn serves()
    ensures { NetServes }
{}

/// Of set-ups that may be, a network that begins over LANs without frames is such.
pub fn begins_serving()
    ensures { BeginsServing }
{}

/// Over every carrier that keeps the link contract a network over rows is one over the lists of hellos that its systems heard: each step is
/// one of the other, with the same calls below and the same units, frames and notes, and so it begins.
pub fn steps_by_hellos<C: Carrier<Addr = Port>>()
    ensures steps { StepsByHellos C.link C.steps }
    ensures begins { BeginsByHellos C.link C.steps }
{}

/// The hellos tell the router that is taken there: the known intermediate system of least title, or none.
pub fn router_is_told()
    ensures { RouterIsTold }
{}
