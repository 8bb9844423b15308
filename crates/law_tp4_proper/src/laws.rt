//! Laws of the steps of an entity (X.224, class 4 state tables; structure and encoding of TPDUs).

ghost use Rattle.std.specs.Prelude.{◌≡◌, ◌≤◌, ℕ, ◌+◌, Bool, true, false, List, replicate, Some, None};
ghost use Rattle.law_carrier_answers.specs.Answers.{AreOctets};
ghost use Rattle.tpdu.specs.declared.tpdu.Format.{Format};
ghost use Rattle.tpdu.specs.declared.tpdu.Tpdu.{Tpdu};
ghost use Rattle.tpdu.specs.Grammar.{BeginsWithTpdu};
ghost use Rattle.tpdu.specs.Values.{TpduAndSum, destination_of, format_for};
ghost use Rattle.tpdu.specs.Writing.{IsAllowed, IsWritten};
ghost use Rattle.tp4_flow.specs.declared.step.EndEvent.{EndEvent};
ghost use Rattle.tp4_flow.specs.declared.step.Sent.{Sent};
ghost use Rattle.tp4_conn.specs.Calls.{IsCall};
ghost use Rattle.tp4_conn.specs.End.{IsTimed};
ghost use Rattle.tp4_conn.specs.Proper.{IsProperCall, IsSendable};
ghost use Rattle.tp4_conn.specs.declared.call.ConnectRequest.{ConnectRequest};
ghost use Rattle.tp4_conn.specs.declared.call.UserCall.{UserCall};
ghost use Rattle.tp4_entity.specs.Association.{met};
ghost use Rattle.tp4_entity.specs.Entity.{Acted, Entity, at, end_at};
ghost use Rattle.tp4_entity.specs.References.{least_free};
ghost use Rattle.tp4_entity.specs.Step.{call_of, calling, connecting, dues, first_due, is_due, restarted, ticking, user_refusal};
ghost use Rattle.tp4_entity.specs.Unit.{EndsWith, Separates, TakesUnit, extended_of};
ghost use Rattle.law_tp4_proper.specs.Octets.{CallInOctets, ConnectInOctets, EntityInOctets, HasOctets, StepInOctets};
ghost use Rattle.law_tp4_proper.specs.Rest.{AreInTime, AreProper, IsAtRest, IsProperStep, IsProperTick};
ghost use Rattle.law_tp4_proper.specs.Units.{IsOneOrBad};

/// An entity without an end is at rest. Where it is at rest, and a proper call, a TPDU in the format of its end or a unit comes, it is
/// at rest afterwards, and all that it sends has octets.
pub fn rests()
    ensures new { (now references : ℕ) (e : Entity) → e.ends ≡ replicate references None → IsTimed e.timers → 1 ≤ e.timers.inactive → IsAtRest now e }
    ensures restarting { (now : ℕ) (e : Entity) → IsTimed e.timers → 1 ≤ e.timers.inactive → IsAtRest now (restarted now e) }
    ensures connecting { (now reference : ℕ) (e : Entity) (request : ConnectRequest) → IsAtRest now e → least_free now e ≡ Some reference
        → IsProperCall (call_of e reference request) → IsProperStep now (connecting now e reference request) }
    ensures calling { (wrap : ℕ → ℕ → ℕ) (now reference : ℕ) (e : Entity) (call : UserCall) → IsAtRest now e → user_refusal e reference call ≡ None → IsCall call
        → IsProperStep now (calling wrap now e reference call) }
    ensures met { (wrap : ℕ → ℕ → ℕ) (now : ℕ) (e : Entity) (from : List ℕ) (tpdu : TpduAndSum) → IsAtRest now e
        → IsAllowed (format_for (extended_of e) (destination_of tpdu.0)) tpdu.0 → IsProperStep now (met wrap now e from tpdu) }
    ensures heard { (wrap : ℕ → ℕ → ℕ) (now : ℕ) (e : Entity) (from octets : List ℕ) (acted : Acted) → IsAtRest now e → TakesUnit wrap now e from octets acted
        → IsProperStep now acted }
{}

/// Where no end was due before a tick, each end that ticks then is due later, or no more. Where none is due any more the entity is at
/// rest, and none is due before the next tick.
pub fn ticks()
    ensures ticking { (wrap : ℕ → ℕ → ℕ) (now : ℕ) (e : Entity) → AreProper e → AreInTime now e → IsProperTick now (ticking wrap now e) }
    ensures after { (wrap : ℕ → ℕ → ℕ) (now reference : ℕ) (e : Entity) → AreProper e → first_due now e ≡ Some reference
        → is_due now (end_at (ticking wrap now e).entity reference) ≡ false }
    ensures fewer { (wrap : ℕ → ℕ → ℕ) (now reference : ℕ) (e : Entity) → AreProper e → first_due now e ≡ Some reference
        → dues now (ticking wrap now e).entity + 1 ≡ dues now e }
    ensures waits { (now : ℕ) (e : Entity) → first_due now e ≡ None → AreInTime now e × AreInTime (now + 1) e }
    ensures clock { (now clock : ℕ) (e : Entity) → IsAtRest now e → IsAtRest now (at clock e) }
{}

/// Octets that were written for one TPDU are that TPDU alone, and nothing else: they are read as it was sent, or no TPDU is there and
/// a fault is told.
pub fn one_in_unit()
    ensures { (extended octets rest : List ℕ) (sent : Sent) (tpdus : List TpduAndSum) (told : List EndEvent) → IsSendable sent
        → IsWritten sent.format sent.sum sent.tpdu octets → Separates extended octets tpdus rest → EndsWith extended rest told
        → IsOneOrBad extended sent tpdus rest told }
{}

/// Each unit has an outcome.
pub fn some_hearing()
    ensures { (wrap : ℕ → ℕ → ℕ) (now : ℕ) (entity : Entity) (from octets : List ℕ) → (acted : Acted) × TakesUnit wrap now entity from octets acted }
{}

/// What a format allows can be written, in octets where its fields are; and what is read from octets has such fields.
pub fn written_and_read()
    ensures writes { (width : Format) (sum : Bool) (tpdu : Tpdu) → IsAllowed width tpdu → HasOctets tpdu
        → (octets : List ℕ) × IsWritten width sum tpdu octets × AreOctets octets }
    ensures reads { (extended octets rest : List ℕ) (tpdu : TpduAndSum) → BeginsWithTpdu extended octets tpdu rest → AreOctets octets
        → HasOctets tpdu.0 × AreOctets rest }
{}

/// Where all that an entity holds is in octets, and so is what comes, from an address, it is so afterwards, and what it sends is in
/// octets and goes to addresses.
pub fn stays_in_octets()
    ensures connecting { (is_address : List ℕ → Bool) (now reference : ℕ) (e : Entity) (request : ConnectRequest) → EntityInOctets is_address e
        → ConnectInOctets is_address (call_of e reference request) → StepInOctets is_address (connecting now e reference request) }
    ensures calling { (is_address : List ℕ → Bool) (wrap : ℕ → ℕ → ℕ) (now reference : ℕ) (e : Entity) (call : UserCall) → EntityInOctets is_address e → AreProper e
        → CallInOctets is_address call → StepInOctets is_address (calling wrap now e reference call) }
    ensures met { (is_address : List ℕ → Bool) (wrap : ℕ → ℕ → ℕ) (now : ℕ) (e : Entity) (from : List ℕ) (tpdu : TpduAndSum) → EntityInOctets is_address e → AreProper e
        → is_address from ≡ true → HasOctets tpdu.0 → StepInOctets is_address (met wrap now e from tpdu) }
    ensures heard { (is_address : List ℕ → Bool) (wrap : ℕ → ℕ → ℕ) (now : ℕ) (e : Entity) (from octets : List ℕ) (acted : Acted) → is_address from ≡ true → AreOctets octets
        → IsAtRest now e → EntityInOctets is_address e → TakesUnit wrap now e from octets acted → StepInOctets is_address acted }
    ensures restarting { (is_address : List ℕ → Bool) (now : ℕ) (e : Entity) → EntityInOctets is_address e → EntityInOctets is_address (restarted now e) }
    ensures ticking { (is_address : List ℕ → Bool) (wrap : ℕ → ℕ → ℕ) (now : ℕ) (e : Entity) → EntityInOctets is_address e → StepInOctets is_address (ticking wrap now e) }
{}
