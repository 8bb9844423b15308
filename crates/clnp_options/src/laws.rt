//! What holds of the grammar of options, of their faults and of the reasons for discard, for all lists of octets.
ghost use Rattle.std.specs.Prelude.{◌≡◌, ◌+◌, ◌≤◌, ◌∷◌, ◌++◌, ◌↔◌, ◌⊎◌, ℕ, List, length, take, drop, slice_range, Some};
ghost use Rattle.pdu_parts.specs.Parameter.{Parameter, spelled};
ghost use Rattle.clnp_options.specs.declared.reason.Fault.{Fault};
ghost use Rattle.clnp_options.specs.declared.reason.PduKind.{PduKind};
ghost use Rattle.clnp_options.specs.declared.reason.PduKind.TheVariants.{Er};
ghost use Rattle.clnp_options.specs.declared.reason.Reason.{Reason};
ghost use Rattle.clnp_options.specs.Options.{value_of};
ghost use Rattle.clnp_options.specs.Grammar.{AreAllowed, IsKnown, IsOptions};
ghost use Rattle.clnp_options.specs.Faults.{IsFirstFault, IsOptionsFault};
ghost use Rattle.clnp_options.specs.Reasons.{code_of};
ghost use Rattle.clnp_options.specs.Recording.{IsRecording};
ghost use Rattle.clnp_options.specs.SourceRoute.{HasSourceRoute};
ghost use Rattle.clnp_options.specs.Writing.{AreWritten};

/// Octets are at most one list of options.
pub fn one_list()
    ensures { (kind : PduKind) (octets : List ℕ) (one other : List Parameter)
        → IsOptions kind octets one → IsOptions kind octets other → one ≡ other }
{}

/// Octets are options or have a fault, and not both.
pub fn list_or_fault()
    ensures apart { (kind : PduKind) (first : ℕ) (octets : List ℕ) (options : List Parameter) (fault : Fault)
        → IsOptions kind octets options → IsOptionsFault kind first octets fault → ⊥ }
    ensures all { (kind : PduKind) (first : ℕ) (octets : List ℕ)
        → ((options : List Parameter) × IsOptions kind octets options) ⊎ ((fault : Fault) × IsOptionsFault kind first octets fault) }
{}

/// The fault of octets is that of what stands in them behind options that have none.
pub fn first_fault()
    ensures { (kind : PduKind) (first : ℕ) (octets : List ℕ) (fault : Fault)
        → IsOptionsFault kind first octets fault ↔ IsFirstFault kind first octets fault }
{}

/// Two reasons have two codes.
pub fn one_code()
    ensures { (one other : Reason) → code_of one ≡ code_of other → one ≡ other }
{}

/// The value of a code among options has the form that its code asks for.
pub fn known_values()
    ensures known { (kind : PduKind) (octets value : List ℕ) (options : List Parameter) (code : ℕ)
        → IsOptions kind octets options → value_of code options ≡ Some value → IsKnown kind (record { code = code; value = value }) }
    ensures route { (kind : PduKind) (octets value : List ℕ) (options : List Parameter)
        → IsOptions kind octets options → value_of 0xc8 options ≡ Some value → HasSourceRoute value }
    ensures recording { (kind : PduKind) (octets value : List ℕ) (options : List Parameter)
        → IsOptions kind octets options → value_of 0xcb options ≡ Some value → IsRecording value }
    ensures reason { (kind : PduKind) (octets value : List ℕ) (options : List Parameter)
        → IsOptions kind octets options → value_of 0xc1 options ≡ Some value → (kind ≡ Er) × (length value ≡ 2) }
{}

/// Options that may stand in a PDU still may where one's value changes to another of its form.
pub fn changed_value()
    ensures { (kind : PduKind) (before after : List Parameter) (option changed : Parameter) → AreAllowed kind (before ++ option ∷ after)
        → changed.code ≡ option.code → IsKnown kind changed → AreAllowed kind (before ++ changed ∷ after) }
{}

/// Options that may stand in a PDU, written one after another, read to their list, and all other octets stay.
pub fn written_options()
    ensures read { (kind : PduKind) (old new : List ℕ) (position : ℕ) (options : List Parameter)
        → AreAllowed kind options → AreWritten old position options new → position + length (spelled options) ≤ length old
        → IsOptions kind (slice_range new position (position + length (spelled options))) options }
    ensures kept { (old new : List ℕ) (position : ℕ) (options : List Parameter)
        → AreWritten old position options new → position + length (spelled options) ≤ length old
        → (take position new ≡ take position old) × (drop (position + length (spelled options)) new ≡ drop (position + length (spelled options)) old) }
{}
