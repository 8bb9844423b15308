//! Laws of associations of two ends.

ghost use Rattle.std.specs.Prelude.{◌≡◌, ℕ, ◌<◌, List, ◌∷◌, ◌++◌, true};
ghost use Rattle.tp4_conn.specs.End.{End, end_of};
ghost use Rattle.tp4_conn.specs.Matching.{fits};
ghost use Rattle.tp4_conn.specs.Table.{Took, stepped};
ghost use Rattle.tp4_conn.specs.declared.timers.Timers.{Timers};
ghost use Rattle.tp4_flow.specs.declared.step.Sent.{Sent};
ghost use Rattle.tp4_number.specs.Number.{whole};
ghost use Rattle.law_tp4_associations.specs.Laws.{Addressed, Answerable, Connected, Formatted, Handed, MayAccept, Ticks, WasCalled, AnswersEnded, CallsAnswerEnded, CallsTellWhatEnded, TellsWhatEnded};
ghost use Rattle.law_tp4_associations.specs.Phase.{AreParting};
ghost use Rattle.law_tp4_associations.specs.Ticking.{IsTicking};

use nsap::Nsap;
use osi_base::Carrier;

/// Where one end has left, a TPDU that waits first for an end and that it takes leaves the two so: an end that is not frozen will be.
pub fn parts()
    ensures { (z w : End) (here there : List ℕ) (now : ℕ) (sent : Sent) (rest out : List Sent) → 0 < w.base.own → 0 < z.base.own → AreParting z w here there (sent ∷ rest) out
        → fits z.base z.stage sent.tpdu ≡ true
        → AreParting (end_of (stepped whole now z (Took sent.tpdu sent.sum))) w here there rest (out ++ (stepped whole now z (Took sent.tpdu sent.sum)).tpdus) }
{}

/// What waits first goes to the other side's system, and data are in the format of the end that they come to. That end takes it, and it alone, or the
/// entity answers; a CR makes the called end, at a free reference.
pub fn hands()
    ensures handed { (timers : Timers) (own : ℕ → List ℕ) → Handed timers own }
    ensures addressed { (timers : Timers) (own : ℕ → List ℕ) → Addressed timers own }
    ensures formatted { (timers : Timers) (own : ℕ → List ℕ) → Formatted timers own }
{}

/// Where nothing waits, a called end whose user has not answered has a calling end that waits for the answer, or has left; and an accept is that of a
/// pair.
pub fn accepts()
    ensures answerable { (timers : Timers) (own : ℕ → List ℕ) → Answerable timers own }
    ensures pair { (timers : Timers) (own : ℕ → List ℕ) → MayAccept timers own }
{}

/// A connect request, where nothing waits, begins an association with its CR, at a free reference.
pub fn connects()
    ensures { (timers : Timers) (own : ℕ → List ℕ) → Connected timers own }
{}

/// A call that is not refused, where nothing waits, is a row of one end; what it sends waits for the other end of its association.
pub fn calls()
    ensures { (timers : Timers) (own : ℕ → List ℕ) → WasCalled timers own }
{}

/// The clock goes on, each end that is due has its tick once, in any order, and where none is due any more the associations stand.
pub fn ticks()
    ensures { (timers : Timers) (own : ℕ → List ℕ) → Ticks timers own (IsTicking timers own) }
{}

/// Whatever a carrier loses, repeats, delays and reorders, and whatever is injected: after lines of a network that began without an end, an end
/// counts as ended exactly where its reference was free once since it was made, or its system began again since; and a line that calls it is
/// answered by `wrongstate ended` then, and only then.
pub fn ended<C: Carrier<Addr = Nsap>>()
    ensures state { TellsWhatEnded C.link C.steps }
    ensures answer { AnswersEnded C.link C.steps }
{}

/// The same after any calls of such a network, of a user who calls the end. A user of `TpWorld` has the calls from the clauses of its calls.
pub fn over_calls<C: Carrier<Addr = Nsap>>()
    ensures state { CallsTellWhatEnded C.link C.steps }
    ensures answer { CallsAnswerEnded C.link C.steps }
{}
