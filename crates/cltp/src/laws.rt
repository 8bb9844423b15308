//! What holds of the grammar and of its faults, for all lists of octets, and of every run of a network of users.

ghost use Rattle.std.specs.Prelude.{◌≡◌, ◌⊎◌, List, ℕ};
ghost use Rattle.pdu_parts.specs.Front.{OneValue};
ghost use Rattle.cltp.specs.Faults.{IsUdFault};
ghost use Rattle.cltp.specs.Laws.{OneHearing, OneRun, OneStart, ShowsSentDatagrams, SomeRun, SomeStart};
ghost use Rattle.cltp.specs.Ud.{Ud, IsUd};
ghost use Rattle.cltp.specs.Writing.{IsWritten};
ghost use Rattle.cltp.specs.declared.fault.UdFault.{UdFault};

use nsap::Nsap;
use osi_base::Carrier;

/// Octets are one UD at most.
pub fn one_value()
    ensures { OneValue IsUd }
{}

/// Octets have one first fault at most.
pub fn one_fault()
    ensures { (octets : List ℕ) (fault other : UdFault) → IsUdFault octets fault → IsUdFault octets other → fault ≡ other }
{}

/// Octets are a UD or have a fault, and never both.
pub fn value_or_fault()
    ensures apart { (octets : List ℕ) (ud : Ud) (fault : UdFault) → IsUd octets ud → IsUdFault octets fault → ⊥ }
    ensures all { (octets : List ℕ) → ((ud : Ud) × IsUd octets ud) ⊎ ((fault : UdFault) × IsUdFault octets fault) }
{}

/// What is written for a UD is one list of octets.
pub fn one_writing()
    ensures { (ud : Ud) (octets others : List ℕ) → IsWritten ud octets → IsWritten ud others → octets ≡ others }
{}

/// A unit that comes up gives one list of events: one event at the system to whose users it is sent, and nothing elsewhere.
pub fn one_hearing()
    ensures { OneHearing }
{}

/// Each datagram that is shown was sent, to this system and selector, with these octets, at most the lifetime before.
pub fn shows_sent<C: Carrier<Addr = Nsap>>()
    ensures { ShowsSentDatagrams C.link C.steps }
{}

/// A call has one list of events, and leads to one state, where the carrier answers in one way.
pub fn one_run<C: Carrier<Addr = Nsap>>()
    ensures { OneRun C.link C.steps }
{
    law_carrier_answers::one_gathering::<C>();
}

/// The start has one list of events, and leads to one state, where the carrier answers in one way.
pub fn one_start<C: Carrier<Addr = Nsap>>()
    ensures { OneStart C.link C.steps }
{
    law_carrier_answers::one_gathering::<C>();
}

/// A call that may be asked has a list of events, where the carrier answers all that it may be asked and the least pair that can be taken
/// is known. It leads to a network that has a run of the next call too.
pub fn some_run<C: Carrier<Addr = Nsap>>()
    ensures { SomeRun C.link C.steps }
{}

/// The start has a list of events, where the carrier answers all that it may be asked, and leads to a network that has a run of the next call.
pub fn some_start<C: Carrier<Addr = Nsap>>()
    ensures { SomeStart C.link C.steps }
{}
