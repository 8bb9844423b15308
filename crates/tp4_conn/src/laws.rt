//! Laws of one end (X.224, class 4 state tables; frozen references).

ghost use Rattle.std.specs.Prelude.{◌≡◌, ◌≤◌, ◌+◌, ℕ, true, List, [], Some};
ghost use Rattle.tpdu.specs.declared.tpdu.Format.TheVariants.{Normal};
ghost use Rattle.tpdu.specs.declared.tpdu.Tpdu.{Tpdu};
ghost use Rattle.tpdu.specs.Writing.{IsAllowed};
ghost use Rattle.tpdu.specs.declared.service.Options.{Options};
ghost use Rattle.tp4_flow.specs.declared.step.EndEvent.{EndEvent};
ghost use Rattle.tp4_flow.specs.declared.step.Sent.{Sent};
ghost use Rattle.tp4_number.specs.Number.{whole, wire};
ghost use Rattle.tp4_conn.specs.declared.end_record.EndRecord.{EndRecord};
ghost use Rattle.tp4_conn.specs.declared.call.ConnectCall.{ConnectCall};
ghost use Rattle.tp4_conn.specs.declared.states.StateData.{StateData};
ghost use Rattle.tp4_conn.specs.declared.states.StateData.TheVariants.{Frozen};
ghost use Rattle.tp4_conn.specs.declared.timers.Timers.{Timers};
ghost use Rattle.tp4_conn.specs.declared.proposed.Proposed.{Proposed};
ghost use Rattle.tp4_conn.specs.Agreeing.{agreed_by, confirmed_size, extra_of, is_confirmed, listed_of, number_of, options_in, proposed_by, proposed_in};
ghost use Rattle.tp4_conn.specs.Dues.{IsDue, IsRunning};
ghost use Rattle.tp4_conn.specs.End.{End, IsProposal, IsSized, IsTimed, Moved, end_of, span};
ghost use Rattle.tp4_conn.specs.Living.{Life, Leads, IsOverBy, sent_by};
ghost use Rattle.tp4_conn.specs.Making.{connected, indicated, on_cr};
ghost use Rattle.tp4_conn.specs.Proper.{AreProper, AreSendable, IsProper, IsProperCall, IsProperEvent, IsProperRow};
ghost use Rattle.tp4_conn.specs.Table.{Event, EndStep, stepped};
ghost use Rattle.tp4_conn.specs.Wire.{end_on_wire};
ghost use Rattle.tp4_conn.specs.Worked.{Refused, Unanswered, Beyond, Waited, Late_user, Parted, Answered, Reduced, Expedited_first, Quiet, Wide, Dropped, Dropped_unanswered, Opened_and_parted, Refused_in_wait};

/// A frozen end stays as it is and sends nothing. An end that was made, or took its last matching TPDU, at u at the
/// latest is Frozen at most I and N times T1 later: it is, or it is due by then.
pub fn over_lives()
    ensures still { (wrap : ℕ → ℕ → ℕ) (base : EndRecord) (when clock took : ℕ) (events : List (ℕ × Event)) (last : Life)
        → Leads wrap (record { end = record { base = base; stage = Frozen when }; clock = clock; took = took }) events last
        → (last.end.stage ≡ Frozen when) × (sent_by wrap (record { end = record { base = base; stage = Frozen when }; clock = clock; took = took }) events ≡ []) }
    ensures calling { (wrap : ℕ → ℕ → ℕ) (made u : ℕ) (call : ConnectCall) (events : List (ℕ × Event)) (last : Life) → IsTimed call.rules
        → Leads wrap (record { end = end_of (connected made call); clock = made; took = made }) events last
        → last.took ≤ u → IsOverBy last.end (u + call.rules.inactive + span call.rules) }
    ensures called { (wrap : ℕ → ℕ → ℕ) (u : ℕ) (base : EndRecord) (text : List ℕ) (events : List (ℕ × Event)) (last : Life) → IsTimed base.timers
        → Leads wrap (record { end = end_of (indicated base text); clock = base.clock; took = base.clock }) events last
        → last.took ≤ u → IsOverBy last.end (u + base.timers.inactive + span base.timers) }
{}

/// Before its due tick a tick changes the clock alone, and from it on more; after a tick an end is due later, or no more.
pub fn over_dues()
    ensures { (base : EndRecord) (stage : StateData) → IsTimed base.timers → IsRunning stage → IsDue base stage }
{}

/// An end that a proper call or a CR made is proper, and stays so through each proper event; and each TPDU that it sends
/// has octets in its format.
pub fn over_sendings()
    ensures calling { (made : ℕ) (call : ConnectCall) → IsProperCall call → IsProperRow (connected made call) }
    ensures called { (made own : ℕ) (from : List ℕ) (rules : Timers) (cr : Tpdu) (m : Moved) → IsTimed rules → IsAllowed Normal cr
        → on_cr made own from rules cr ≡ Some m → IsProperRow m }
    ensures step { (wrap : ℕ → ℕ → ℕ) (now : ℕ) (old : End) (event : Event) → IsProper old.base old.stage → IsProperEvent old event
        → IsProperRow (stepped wrap now old event) }
    ensures events { (wrap : ℕ → ℕ → ℕ) (old : Life) (events : List (ℕ × Event)) (last : Life) → IsProper old.end.base old.end.stage
        → AreProper wrap old events → Leads wrap old events last → IsProper last.end.base last.end.stage × AreSendable (sent_by wrap old events) }
{}

/// An end whose receiving half keeps wire numbers stands for every end with these wire numbers: it tells and sends what
/// that end does, and stands for it afterwards.
pub fn over_wires()
    ensures { (old : End) (event : Event) (now : ℕ) (new : End) (events : List EndEvent) (tpdus : List Sent) → EndStep whole old event now new events tpdus
        → EndStep wire (end_on_wire old) event now (end_on_wire new) events tpdus }
{}

/// What a CR proposes is read back from it, and what an accept agrees on from its CC. What is agreed is no more than the accept asked for, and the CC is
/// within what was proposed.
pub fn over_sizes()
    ensures proposed { (asked : Options) → IsSized asked → IsProposal (proposed_by asked) }
    ensures request { (asked : Options) → IsSized asked → proposed_in asked.format (Some (listed_of asked)) (number_of asked) (extra_of asked) ≡ proposed_by asked }
    ensures agreed { (proposed : Proposed) (asked : Options) → IsProposal proposed → IsSized asked → IsSized (agreed_by proposed asked) }
    ensures lesser { (proposed : Proposed) (asked : Options) → IsSized asked → (agreed_by proposed asked).size ≤ asked.size }
    ensures confirm { (agreed : Options) → IsSized agreed → options_in agreed.format (confirmed_size agreed) (number_of agreed) (extra_of agreed) ≡ agreed }
    ensures within { (proposed : Proposed) (asked : Options) → IsProposal proposed → IsSized asked → is_confirmed proposed (agreed_by proposed asked) ≡ true }
{}

/// Worked rows that one end shows.
pub fn worked_rows()
    ensures refused { Refused }
    ensures unanswered { Unanswered }
    ensures beyond { Beyond }
    ensures waited { Waited }
    ensures late_user { Late_user }
    ensures parted { Parted }
    ensures answered { Answered }
    ensures reduced { Reduced }
    ensures expedited_first { Expedited_first }
    ensures quiet { Quiet }
    ensures wide { Wide }
    ensures dropped { Dropped }
    ensures dropped_unanswered { Dropped_unanswered }
    ensures opened_and_parted { Opened_and_parted }
    ensures refused_in_wait { Refused_in_wait }
{}
