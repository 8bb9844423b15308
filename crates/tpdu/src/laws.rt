//! Laws of the grammar of TPDUs and of its faults (X.224, structure and encoding of TPDUs).

ghost use Rattle.std.specs.Prelude.{◌≡◌, ◌≤◌, ◌⊎◌, ℕ, Bool, false, List, [], ◌++◌, take, IsTrue};
ghost use Rattle.pdu_parts.specs.Front.{OneValue};
ghost use Rattle.tpdu.specs.Faults.{IsTpduFault};
ghost use Rattle.tpdu.specs.Grammar.{IsTpdu, IsListedTpdu, BeginsWithTpdu, IsBundle};
ghost use Rattle.tpdu.specs.Kinds.{has_number};
ghost use Rattle.tpdu.specs.Values.{TpduAndSum, destination_of, format_for, reaches_end};
ghost use Rattle.tpdu.specs.Writing.{kind_for, IsAllowed, IsWritten, header_count};
ghost use Rattle.tpdu.specs.declared.fault.TpduFault.{TpduFault};
ghost use Rattle.tpdu.specs.declared.tpdu.Format.{Format};
ghost use Rattle.tpdu.specs.declared.tpdu.Tpdu.{Tpdu};

/// In one format octets are one TPDU at most, with a checksum or without.
pub fn one_value()
    ensures { (format : Format) → OneValue (IsTpdu format) }
{}

/// Octets have at most one TPDU at their front, with one rest.
pub fn one_front()
    ensures { (extended octets : List ℕ) (tpdu other : TpduAndSum) (rest more : List ℕ)
        → BeginsWithTpdu extended octets tpdu rest → BeginsWithTpdu extended octets other more → (tpdu ≡ other) × (rest ≡ more) }
{}

/// The octets of a unit are those of one list of TPDUs at most.
pub fn one_bundle()
    ensures { (extended : List ℕ) → OneValue (IsBundle extended) }
{}

/// Octets have a TPDU at their front, or a fault, and never both.
pub fn front_or_fault()
    ensures apart { (extended octets rest : List ℕ) (tpdu : TpduAndSum) (fault : TpduFault)
        → BeginsWithTpdu extended octets tpdu rest → IsTpduFault extended octets fault → ⊥ }
    ensures all { (extended octets : List ℕ)
        → ((tpdu : TpduAndSum) × (rest : List ℕ) × BeginsWithTpdu extended octets tpdu rest) ⊎ ((fault : TpduFault) × IsTpduFault extended octets fault) }
{}

/// A spelling of a TPDU stands at the front of the octets that begin with it. Nothing may follow a CR, CC,
/// DR, DT or ED.
pub fn spelling_is_first()
    ensures { (extended front rest : List ℕ) (tpdu : TpduAndSum) → IsListedTpdu extended front tpdu
        → (IsTrue (reaches_end tpdu.0) → rest ≡ []) → BeginsWithTpdu extended (front ++ rest) tpdu rest }
{}

/// What is written for a TPDU is one list of octets.
pub fn one_writing()
    ensures { (format : Format) (sum : Bool) (tpdu : Tpdu) (octets others : List ℕ)
        → IsWritten format sum tpdu octets → IsWritten format sum tpdu others → octets ≡ others }
{}

/// CR, CC, DR, DC and ER have the same spelling in both formats.
pub fn either_format()
    ensures { (one other : Format) (octets : List ℕ) (tpdu : TpduAndSum) → has_number (kind_for tpdu.0) ≡ false
        → IsTpdu one octets tpdu → IsTpdu other octets tpdu }
{}

/// Kind and destination reference do not depend on the format, and stand in the first four octets.
pub fn same_target()
    ensures { (one other : Format) (octets others : List ℕ) (tpdu second : TpduAndSum) → IsTpdu one octets tpdu → IsTpdu other others second
        → take 4 octets ≡ take 4 others → (kind_for tpdu.0 ≡ kind_for second.0) × (destination_of tpdu.0 ≡ destination_of second.0) }
{}

/// The header of what a format allows is never too long.
pub fn allowed_fits()
    ensures { (format : Format) (sum : Bool) (tpdu : Tpdu) → IsAllowed format tpdu → header_count format sum tpdu ≤ 254 }
{}

/// What is read is allowed in the format that it is read in.
pub fn read_is_allowed()
    ensures spelled { (format : Format) (octets : List ℕ) (tpdu : TpduAndSum) → IsTpdu format octets tpdu → IsAllowed format tpdu.0 }
    ensures first { (extended octets rest : List ℕ) (tpdu : TpduAndSum) → BeginsWithTpdu extended octets tpdu rest
        → IsAllowed (format_for extended (destination_of tpdu.0)) tpdu.0 }
{}
