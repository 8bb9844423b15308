//! What holds of each step of a system.

ghost use Rattle.clnp_system.specs.Laws.{ComesUp, Derived, QuietTick, SentAll, Stored};

/// A DT PDU that goes out derives from the PDU that came in: less lifetime, a header of the same length, a run of the data.
pub fn derived<N>()
    ensures { Derived N }
{}

/// What is sent for a unit is the unit, or runs of it under one identifier.
pub fn sent<N>()
    ensures { SentAll N }
{}

/// A tick sends no DT PDU, and hands up no unit.
pub fn quiet_tick<N>()
    ensures { QuietTick N }
{}

/// A unit that comes up is the data of a DT PDU for this end system, or was joined from such PDUs.
pub fn comes_up<N>()
    ensures { ComesUp N }
{}

/// A frame leaves the store as it is, or a segment of a DT PDU for this end system is taken; the setup and the identifiers stay.
pub fn stored<N>()
    ensures { Stored N }
{}
