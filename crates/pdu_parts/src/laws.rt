//! What holds of the readers' definitions, for all lists of octets.

ghost use Rattle.pdu_parts.specs.Laws.{ReadsAddress, ReadsParameters};

/// An address is found exactly where it stands behind its length.
pub fn reads_address()
    ensures { ReadsAddress }
{}

/// Octets are parameters and a rest at whose front none stands whole, in one way.
pub fn reads_parameters()
    ensures { ReadsParameters }
{}
