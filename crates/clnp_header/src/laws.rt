//! What holds of the grammar of PDUs, of their faults and of what is written, for all lists of octets.

ghost use Rattle.std.specs.Prelude.{◌≡◌, ℕ, List};
ghost use Rattle.pdu_parts.specs.Front.{Apart, FrontOrFault, OneFront, OneValue};
ghost use Rattle.clnp_options.specs.declared.reason.PduKind.TheVariants.{Dt};
ghost use Rattle.clnp_header.specs.declared.pdu.Pdu.{Pdu};
ghost use Rattle.clnp_header.specs.Faults.{IsPduFault};
ghost use Rattle.clnp_header.specs.Grammar.{IsPdu};
ghost use Rattle.clnp_header.specs.Writing.{IsWritten};

/// A list of octets is one PDU at most.
pub fn one_value()
    ensures { OneValue IsPdu }
{}

/// Octets begin with one PDU at most, whatever follows it.
pub fn one_front()
    ensures { OneFront IsPdu }
{}

/// A PDU at the front of the octets and a fault exclude each other, and one of the two is there.
pub fn front_or_fault()
    ensures apart { Apart IsPdu IsPduFault }
    ensures all { FrontOrFault IsPdu IsPduFault }
{}

/// A DT PDU has one list of octets: also its checksum is the only one that can be used. In an ER PDU two bits are ignored.
pub fn one_spelling()
    ensures { (octets others : List ℕ) (pdu : Pdu) → pdu.kind ≡ Dt → IsPdu octets pdu → IsPdu others pdu → octets ≡ others }
{}

/// What is written for a value is one list of octets.
pub fn one_writing()
    ensures { (pdu : Pdu) (octets others : List ℕ) → IsWritten pdu octets → IsWritten pdu others → octets ≡ others }
{}
