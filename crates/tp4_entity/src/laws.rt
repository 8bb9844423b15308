//! Laws of the ends of a system (X.224, frozen references; association of TPDUs with connections; concatenation and separation).

ghost use Rattle.std.specs.Prelude.{◌≡◌, ◌≤◌, ◌<◌, ℕ, ◌+◌, nat_le, Bool, true, false, List, [], length, map, Option, Some, None};
ghost use Rattle.tpdu.specs.Grammar.{IsBundle};
ghost use Rattle.tpdu.specs.Values.{TpduAndSum};
ghost use Rattle.tpdu.specs.declared.tpdu.Tpdu.{Tpdu};
ghost use Rattle.tpdu.specs.declared.tpdu.Tpdu.TheVariants.{Dr};
ghost use Rattle.tp4_number.specs.Number.{whole, wire};
ghost use Rattle.tp4_conn.specs.declared.call.ConnectRequest.{ConnectRequest};
ghost use Rattle.tp4_conn.specs.declared.call.UserCall.{UserCall};
ghost use Rattle.tp4_conn.specs.End.{frozen_for};
ghost use Rattle.tp4_entity.specs.Association.{met};
ghost use Rattle.tp4_entity.specs.Entity.{Acted, Entity, at, end_at};
ghost use Rattle.tp4_entity.specs.References.{is_free, least_free};
ghost use Rattle.tp4_entity.specs.Silence.{is_silent};
ghost use Rattle.tp4_entity.specs.Standing.{IsFreeAt, KeepsEnds, Meets};
ghost use Rattle.tp4_entity.specs.Step.{calling, connecting, restarted, ticking};
ghost use Rattle.tp4_entity.specs.Unit.{HearsUnit, Separates, TakesUnit, all_met, extended_of};
ghost use Rattle.tp4_entity.specs.Wire.{acted_on_wire, entity_on_wire};

/// A reference is free exactly where the entity is not silent, it is one of the entity's, and no end stands there, or one that entered
/// Frozen more than F ticks ago. No step takes out another end than such a one, and a new end takes the place of no other.
pub fn over_references()
    ensures free { (now reference : ℕ) (e : Entity) → is_free now e reference ≡ true → (is_silent now e ≡ false) × (1 ≤ reference) × (reference ≤ length e.ends) × IsFreeAt now (end_at e reference) }
    ensures only { (now reference : ℕ) (e : Entity) → is_silent now e ≡ false → 1 ≤ reference → reference ≤ length e.ends → IsFreeAt now (end_at e reference) → is_free now e reference ≡ true }
    ensures least { (now reference : ℕ) (e : Entity) → is_silent now e ≡ false → least_free now e ≡ Some reference → is_free now e reference ≡ true }
    ensures connecting { (wrap : ℕ → ℕ → ℕ) (now reference : ℕ) (e : Entity) (request : ConnectRequest) → least_free now e ≡ Some reference → KeepsEnds wrap now e (connecting now e reference request).entity }
    ensures calling { (wrap : ℕ → ℕ → ℕ) (now reference : ℕ) (e : Entity) (call : UserCall) → KeepsEnds wrap now e (calling wrap now e reference call).entity }
    ensures met { (wrap : ℕ → ℕ → ℕ) (now : ℕ) (e : Entity) (from : List ℕ) (tpdu : TpduAndSum) → KeepsEnds wrap now e (met wrap now e from tpdu).entity }
    ensures ticking { (wrap : ℕ → ℕ → ℕ) (now : ℕ) (e : Entity) → KeepsEnds wrap now e (ticking wrap now e).entity }
{}

/// An entity that begins again has no end, and is silent for F ticks from then on; nothing else makes it silent.
pub fn over_restarts()
    ensures none { (now reference : ℕ) (e : Entity) → end_at (restarted now e) reference ≡ None }
    ensures silent { (now later : ℕ) (e : Entity) → is_silent later (restarted now e) ≡ nat_le later (now + frozen_for e.timers) }
    ensures connecting { (now reference : ℕ) (e : Entity) (request : ConnectRequest) → (connecting now e reference request).entity.restarted ≡ e.restarted }
    ensures calling { (wrap : ℕ → ℕ → ℕ) (now reference : ℕ) (e : Entity) (call : UserCall) → (calling wrap now e reference call).entity.restarted ≡ e.restarted }
    ensures met { (wrap : ℕ → ℕ → ℕ) (now : ℕ) (e : Entity) (from : List ℕ) (tpdu : TpduAndSum) → (met wrap now e from tpdu).entity.restarted ≡ e.restarted }
    ensures ticking { (wrap : ℕ → ℕ → ℕ) (now : ℕ) (e : Entity) → (ticking wrap now e).entity.restarted ≡ e.restarted }
{}

/// A unit has one outcome.
pub fn one_hearing()
    ensures { (wrap : ℕ → ℕ → ℕ) (now : ℕ) (old : Entity) (from octets : List ℕ) (one other : Acted)
        → TakesUnit wrap now old from octets one → TakesUnit wrap now old from octets other → one ≡ other }
{}

/// A unit that is separated with no rest is a bundle of the grammar, of these TPDUs; and a bundle is separated so. What an entity does with a
/// bundle is what its TPDUs do, one after another, and none of it is told as bad.
pub fn separates_bundles()
    ensures bundle { (extended octets : List ℕ) (tpdus : List TpduAndSum) → Separates extended octets tpdus [] → IsBundle extended octets (map (λ (t : TpduAndSum). t.0) tpdus) }
    ensures separates { (extended octets : List ℕ) (bundle : List Tpdu) → IsBundle extended octets bundle
        → (tpdus : List TpduAndSum) × (map (λ (t : TpduAndSum). t.0) tpdus ≡ bundle) × Separates extended octets tpdus [] }
    ensures hears { (wrap : ℕ → ℕ → ℕ) (now : ℕ) (old : Entity) (from octets : List ℕ) (new : Acted) (bundle : List Tpdu) → IsBundle (extended_of old) octets bundle
        → HearsUnit wrap now old from octets new → (tpdus : List TpduAndSum) × (map (λ (t : TpduAndSum). t.0) tpdus ≡ bundle) × (new ≡ all_met wrap now (at now old) from tpdus) }
{}

/// What is sent for a TPDU is sent by the end that it matches, or it is one answer of the entity: a DR with source 0 to a CR or a CC, or a
/// DC to a DR that has a source. A DR with source 0 is answered by nobody.
pub fn one_answer()
    ensures meets { (wrap : ℕ → ℕ → ℕ) (now : ℕ) (e : Entity) (from : List ℕ) (tpdu : TpduAndSum) → Meets wrap now e from tpdu (met wrap now e from tpdu) }
    ensures last { (wrap : ℕ → ℕ → ℕ) (now : ℕ) (e : Entity) (from : List ℕ) (destination reason : ℕ) (info : Option (List ℕ)) (text : List ℕ) (sum : Bool)
        → (met wrap now e from (Dr destination 0 reason info text, sum)).tpdus ≡ [] }
{}

/// An entity whose ends keep wire numbers stands for every entity whose ends have these wire numbers: it tells and sends what that
/// one does, and stands for it afterwards.
pub fn over_wires()
    ensures connecting { (now reference : ℕ) (e : Entity) (request : ConnectRequest) → connecting now (entity_on_wire e) reference request ≡ acted_on_wire (connecting now e reference request) }
    ensures calling { (now reference : ℕ) (e : Entity) (call : UserCall) → calling wire now (entity_on_wire e) reference call ≡ acted_on_wire (calling whole now e reference call) }
    ensures met { (now : ℕ) (e : Entity) (from : List ℕ) (tpdu : TpduAndSum) → met wire now (entity_on_wire e) from tpdu ≡ acted_on_wire (met whole now e from tpdu) }
    ensures ticking { (now : ℕ) (e : Entity) → ticking wire now (entity_on_wire e) ≡ acted_on_wire (ticking whole now e) }
    ensures hearing { (now : ℕ) (e : Entity) (from octets : List ℕ) (acted : Acted) → TakesUnit whole now e from octets acted → TakesUnit wire now (entity_on_wire e) from octets (acted_on_wire acted) }
{}
