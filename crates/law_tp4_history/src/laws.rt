//! Laws of histories and of their journals, whatever is lost, repeated, delayed or reordered.

ghost use Rattle.std.specs.Prelude.{◌<◌, ◌++◌, ℕ, List, [], ◌≡◌, ◌≢◌, ◌+◌, ◌≤◌, Option, Some, None, Contains};
ghost use Rattle.script_journal.specs.Lawful.{AllQueues, Marked, IsQueue};
ghost use Rattle.script_journal.specs.declared.event.Event.{Event};
ghost use Rattle.tp4_number.specs.Traffic.{Rules, IsFit as IsLong};
ghost use Rattle.law_tp4_history.specs.Ends.{Times, IsFit, frozen, Cr, Tpdu, Offer, Sent, End};
ghost use Rattle.law_tp4_history.specs.History.{History, IsFree, IsFresh, IsNotSilent, IsReading, Connect, Indicate, May};
ghost use Rattle.law_tp4_history.specs.Indications.{IndicatesEach};
ghost use Rattle.law_tp4_history.specs.Journals.{MayFollow, Written};
ghost use Rattle.law_tp4_history.specs.Reached.{Reached, MeetsOwn, EachRequest, FreeIsQuiet, FlowInFormat, EachEnd};
ghost use Rattle.law_tp4_history.specs.Line.{Line, Happening, Runs, empty};
ghost use Rattle.law_tp4_history.specs.Tracks.{Whole, Moment, onward, IsNothing, ReachedAll, IsTold, IsNumbered};
ghost use Rattle.law_tp4_history.specs.Units.{Spoken, TellsTrue};
ghost use Rattle.law_tp4_history.specs.Worked.{IsWorked};
ghost use Rattle.law_tp4_history.specs.Begins.{HasNoEnd, begun, indicated_by};
ghost use Rattle.law_tp4_history.specs.Moves.{HasSource, IsSourced, Moves, Sees, cause_of, times_of};
ghost use Rattle.law_tp4_history.specs.Seen.{AreOffersOf, seen};
ghost use Rattle.tpdu.specs.declared.tpdu.Tpdu.{Tpdu as WireTpdu};
ghost use Rattle.tp4_conn.specs.declared.call.ConnectCall.{ConnectCall};
ghost use Rattle.tp4_conn.specs.declared.states.StateData.TheVariants.{Frozen};
ghost use Rattle.tp4_conn.specs.declared.timers.Timers.{Timers};
ghost use Rattle.tp4_conn.specs.Dues.{IsBefore};
ghost use Rattle.tp4_conn.specs.End.{End as ConnEnd, Moved, IsTimed, end_of, frozen_for};
ghost use Rattle.tp4_conn.specs.Living.{IsFit as IsFitEvent};
ghost use Rattle.tp4_conn.specs.Making.{connected, on_cr};
ghost use Rattle.tp4_conn.specs.Proper.{IsProper, IsProperEvent};
ghost use Rattle.tp4_conn.specs.Table.{Event as EndEvent, due, stepped};

/// What is afloat for an end is of its partner, or answers it, and is in its format; and what was for an
/// end that stopped is gone when its reference may be given again: the last CR of a request sooner, a lifetime after it
/// may be sent no more.
pub fn references()
    ensures own { (times : Times) (h : History) → IsFit times → Reached times h → MeetsOwn times h }
    ensures each { (times : Times) (h : History) → IsFit times → Reached times h → EachEnd times h }
    ensures request { (times : Times) (h : History) → IsFit times → Reached times h → EachRequest times h }
    ensures format { (times : Times) (h : History) → IsFit times → Reached times h → FlowInFormat times h }
    ensures quiet { (times : Times) (h : History) → IsFit times → Reached times h → FreeIsQuiet times h }
{}

/// By the events of a history no connect request is the partner of two connect indications, and each
/// indication has a partner that says the same.
pub fn indications()
    ensures { (times : Times) (h : History) → IsFit times → Reached times h → IndicatesEach h.events }
{}

/// Along a line what is shown of each mark is a front of what was submitted, and no normal unit is shown
/// before an expedited one that was submitted before it.
pub fn units()
    ensures part { (given front back : List Marked) → IsQueue given (front ++ back) → IsQueue given front }
    ensures whole { (rules : Rules) (size tick credit places room : ℕ) (happenings : List Happening) (l : Line) → IsLong rules → 0 < size → credit < rules.block → room < rules.block
        → Runs rules size (empty tick credit places room) happenings l → IsQueue l.submitted l.shown }
{}

/// What an end shows is what its partner submitted, in order; each DT and ED offered carries what its number
/// says; and each flow TPDU afloat is read for the number that it was sent with.
pub fn queues()
    ensures told { (times : Times) (w : Whole) → IsFit times → ReachedAll times w → IsTold times w }
    ensures numbers { (times : Times) (w : Whole) → IsFit times → ReachedAll times w → IsNumbered times w }
    ensures base { (times : Times) (w : Whole) → ReachedAll times w → Reached times w.base }
{}

/// In a journal the units that an end shows are those that its one partner was asked to send, in order; an
/// end without a partner shows none.
pub fn journal()
    ensures { (times : Times) (w : Whole) (journal : List Event) → IsFit times → Spoken times w journal → TellsTrue w journal }
{}

/// In the journal that a history writes each connection is two queues. It is written from nothing on, one step after another.
pub fn journals_are_lawful()
    ensures lawful { (times : Times) (titles : List (List ℕ)) (w : Whole) (journal : List Event) → IsFit times → Written times titles w journal → AllQueues titles journal }
    ensures begins { (times : Times) (titles : List (List ℕ)) (w : Whole) → IsNothing w → Written times titles w [] }
    ensures more { (times : Times) (titles : List (List ℕ)) (w : Whole) (journal : List Event) (m : Moment) (made : List Event) → Written times titles w journal
        → MayFollow times titles w m made → Written times titles (onward times w m) (journal ++ made) }
    ensures reached { (times : Times) (titles : List (List ℕ)) (w : Whole) (journal : List Event) → Written times titles w journal → ReachedAll times w }
{}

/// A history worked by hand writes its journal: a unit of two pieces, the second of which comes first and again.
pub fn worked_history()
    ensures { IsWorked }
{}

/// What each proper event does to a proper end that goes on is a move of the end that is seen of it. An end that is frozen stays as it
/// is seen, and tells and sends nothing.
pub fn moved()
    ensures going { (wrap : ℕ → ℕ → ℕ) (times : Times) (now n : ℕ) (h : End) (e : ConnEnd) (event : EndEvent) → Sees times now h e → h.stop ≡ None
        → IsFitEvent e event → IsSourced n event → IsProper e.base e.stage → IsProperEvent e event → Moves times now (cause_of e n event) h (stepped wrap now e event) }
    ensures frozen { (wrap : ℕ → ℕ → ℕ) (times : Times) (now t : ℕ) (h : End) (e : ConnEnd) (event : EndEvent) → Sees times now h e → h.stop ≡ Some t
        → IsFitEvent e event → Sees times now h (end_of (stepped wrap now e event)) × ((stepped wrap now e event).events ≡ []) × ((stepped wrap now e event).tpdus ≡ []) }
{}

/// An end that goes on is due by its latest tick, and that tick has not passed. Where it is not due the clock may go on:
/// then it is before its latest tick, and is seen as it was.
pub fn due_by_latest()
    ensures due { (times : Times) (now : ℕ) (h : End) (e : ConnEnd) → Sees times now h e → h.stop ≡ None
        → (next : ℕ) × (due e.base e.stage ≡ Some next) × (next ≤ h.latest) }
    ensures low { (times : Times) (now : ℕ) (h : End) (e : ConnEnd) → Sees times now h e → h.stop ≡ None → now ≤ h.latest }
    ensures before { (times : Times) (now : ℕ) (h : End) (e : ConnEnd) → Sees times now h e → h.stop ≡ None → IsBefore (due e.base e.stage) now
        → now < h.latest }
    ensures passes { (times : Times) (now : ℕ) (h : End) (e : ConnEnd) → Sees times now h e → IsBefore (due e.base e.stage) now → Sees times (now + 1) h e }
{}

/// An end that a connect request makes begins in the history as it is seen, with the CR that it sends.
pub fn begins()
    ensures seen { (h : History) (address : List ℕ) (call : ConnectCall) → IsTimed call.rules
        → Sees (times_of call.rules) h.clock (begun h address call) (end_of (connected h.clock call)) }
    ensures may { (h : History) (address : List ℕ) (call : ConnectCall) (offered : List Offer) → 0 < call.own → IsFree h address call.own
        → IsNotSilent (times_of call.rules) h address → AreOffersOf h.clock h.count address (connected h.clock call).tpdus offered
        → May (times_of call.rules) h (Connect (begun h address call) offered) }
{}

/// An end that a CR makes which was offered begins in the history as it is seen.
pub fn indicates()
    ensures { (h : History) (own caller n : ℕ) (rules : Timers) (cr : WireTpdu) (o : Offer) (m : Moved) → IsTimed rules → 0 < own → o.tpdu.source ≢ 0
        → on_cr h.clock own o.from rules cr ≡ Some m → Contains h.offers o → IsFresh (times_of rules) h o → IsReading o (seen n cr) → o.origin ≡ Sent caller
        → IsFree h o.to own → IsNotSilent (times_of rules) h o.to → HasNoEnd h o
        → Sees (times_of rules) h.clock (indicated_by h own rules caller o) (end_of m) × May (times_of rules) h (Indicate o (indicated_by h own rules caller o)) }
{}

/// A CR that was offered, and a CC as an offer is read, has a source reference.
pub fn sourced()
    ensures requests { (times : Times) (h : History) (o : Offer) → IsFit times → Reached times h → Contains h.offers o → o.tpdu.kind ≡ Cr
        → o.tpdu.source ≢ 0 }
    ensures read { (times : Times) (h : History) (o : Offer) (tpdu : Tpdu) → IsFit times → Reached times h → Contains h.offers o → IsReading o tpdu
        → HasSource tpdu }
{}

/// The times of timers are fit for a history; and an end that stopped is frozen since then, with its reference for as long
/// as the history says.
pub fn times()
    ensures fit { (t : Timers) → IsFit (times_of t) }
    ensures since { (times : Times) (now t : ℕ) (h : End) (e : ConnEnd) → Sees times now h e → h.stop ≡ Some t → e.stage ≡ Frozen t }
    ensures frozen { (times : Times) (now : ℕ) (h : End) (e : ConnEnd) → Sees times now h e → frozen times ≡ frozen_for e.base.timers }
{}
