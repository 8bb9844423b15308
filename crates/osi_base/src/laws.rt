//! What holds of every carrier and of every checksum.

ghost use Rattle.std.specs.Prelude.{◌≡◌, ◌≤◌, ℕ, true};
ghost use Rattle.osi_base.specs.Calls.{GivesPicks, IsSameLink, OnChains};
ghost use Rattle.osi_base.specs.Laws.{OneSeal};
ghost use Rattle.osi_base.specs.Link.{IsSpent};

use crate::Carrier;

/// Two used checksums over the same other octets are the same.
pub fn one_seal()
    ensures { OneSeal }
{}

/// What every chain of calls keeps, in any order and of any length.
///
/// The clock does not fall, bounds and rooms stay, and a carrier that is honest was honest all the
/// time and has counted no stray. A pair that was taken, or that can be taken no more, is fresh
/// never again.
pub fn over_runs<C: Carrier>()
    ensures clock { OnChains C.steps (λ old new. (C.link old).clock ≤ (C.link new).clock) }
    ensures same { OnChains C.steps (λ old new. IsSameLink (C.link old) (C.link new)) }
    ensures honest { OnChains C.steps (λ old new. (C.link new).honest ≡ true → (C.link old).honest ≡ true) }
    ensures strays { OnChains C.steps (λ old new. (C.link new).honest ≡ true → (C.link old).strays ≡ 0 → (C.link new).strays ≡ 0) }
    ensures picks { OnChains C.steps (λ old new. GivesPicks (C.link old) (C.link new)) }
    ensures spent { OnChains C.steps (λ old new. (pick system : ℕ) → IsSpent (C.link old) pick system → IsSpent (C.link new) pick system) }
{}
