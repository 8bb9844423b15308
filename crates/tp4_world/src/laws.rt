//! What holds of every run of a network with its transport entities.

ghost use Rattle.std.specs.Prelude.{List, ℕ};
ghost use Rattle.tp4_world.specs.Laws.{TellsAsked, CallsStayHonest, WholeCalls, OneRun, OneStart, ShowsSent, ShowsSentWhereHonest, StaysHonest, WholeLine, WholeRun, WireLine, SomeRun, SomeStart};

use nsap::Nsap;
use osi_base::Carrier;

/// A line has one list of events, and leads to one state, where the carrier answers in one way.
pub fn one_run<C: Carrier<Addr = Nsap>>()
    ensures { OneRun C.link C.steps }
{
    law_carrier_answers::one_gathering::<C>();
    tpdu::one_writing();
    tp4_entity::one_hearing();
}

/// The start has one list of events, and leads to one state, where the carrier answers in one way.
pub fn one_start<C: Carrier<Addr = Nsap>>()
    ensures { OneStart C.link C.steps }
{
    law_carrier_answers::one_gathering::<C>();
    tpdu::one_writing();
}

/// While the carrier is honest, each raw unit that is shown was sent to that system, from that address, with those octets, at most the
/// lifetime before; also where octets were given to no system.
pub fn shows_sent_where_honest<C: Carrier<Addr = Nsap>>()
    ensures { ShowsSentWhereHonest C.link C.steps }
{}

/// A carrier that is honest after lines was so before them; and where no line is an `inject` line it is as honest as it was.
pub fn stays_honest<C: Carrier<Addr = Nsap>>()
    ensures { StaysHonest C.link C.steps }
{}

/// A carrier that is honest after calls was so before them; and where nothing is injected it is as honest as it was.
pub fn calls_stay_honest<C: Carrier<Addr = Nsap>>()
    ensures { CallsStayHonest C.link C.steps }
{}

/// The events by which users ask for connections and hand over units are those of the lines that ask for it, in order: each such line has its
/// own event, which says what the line says, or is refused.
pub fn tells_asked<C: Carrier<Addr = Nsap>>()
    ensures { TellsAsked C.link C.steps }
{}

/// Where nothing is injected, each raw unit that is shown was sent to that system, from that address, with those octets, at most the
/// lifetime before.
pub fn shows_sent<C: Carrier<Addr = Nsap>>()
    ensures { ShowsSent C.link C.steps }
{}

/// Calls over the numbers of the wire, which the code keeps, that begin without ends are calls over whole numbers, with the same events.
pub fn whole_calls<C: Carrier<Addr = Nsap>>()
    ensures { WholeCalls C.link C.steps }
{
    tp4_entity::over_wires();
    tp4_entity::one_hearing();
}

/// A line over the numbers of the wire, which the code keeps, is one over whole numbers, and the other way round; so a run that begins
/// without ends is one over whole numbers, with the same journal.
pub fn whole_run<C: Carrier<Addr = Nsap>>()
    ensures whole { WholeLine C.link C.steps }
    ensures wire { WireLine C.link C.steps }
    ensures run { WholeRun C.link C.steps }
{
    tp4_entity::over_wires();
    tp4_entity::one_hearing();
}

/// A line that may be asked has a list of events, where the carrier answers all that it may be asked, what comes up is in octets, and the
/// least pair that can be taken is known. It leads to a network that has a run of the next line too.
pub fn some_run<C: Carrier<Addr = Nsap>>()
    ensures { SomeRun C.link C.steps }
{}

/// The start has a list of events, where the carrier answers all that it may be asked, and leads to a network that has a run of the next call.
pub fn some_start<C: Carrier<Addr = Nsap>>()
    ensures { SomeStart C.link C.steps }
{}
