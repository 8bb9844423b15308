//! What holds of the grammar and of its faults, for all lists of octets.

ghost use Rattle.pdu_parts.specs.Front.{Apart, FrontOrFault, OneFront, OneValue};
ghost use Rattle.esis_pdu.specs.Faults.{IsEsisFault};
ghost use Rattle.esis_pdu.specs.Hellos.{IsEsis};
ghost use Rattle.esis_pdu.specs.Laws.{OneWriting};

/// Octets are one PDU at most.
pub fn one_value()
    ensures { OneValue IsEsis }
{}

/// Octets begin with one PDU at most, and one rest stands behind it.
pub fn one_front()
    ensures { OneFront IsEsis }
{}

/// Octets begin with a PDU or have a fault, and not both.
pub fn front_or_fault()
    ensures apart { Apart IsEsis IsEsisFault }
    ensures all { FrontOrFault IsEsis IsEsisFault }
{}

/// The octets that are written of a PDU are one list.
pub fn one_writing()
    ensures { OneWriting }
{}
