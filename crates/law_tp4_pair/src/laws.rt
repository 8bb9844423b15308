//! Laws of two ends between which nothing is lost, and all is handed over in order before a user or the clock acts (X.224, class 4: sequencing,
//! explicit flow control, expedited data; class 4 state tables).

ghost use Rattle.std.specs.Prelude.{◌≡◌, ◌⊎◌, ℕ, List, [], ◌∷◌, ◌++◌, Bool, true, false, Option, Some};
ghost use Rattle.std.specs.List.{list_any};
ghost use Rattle.tp4_flow.specs.ReceivingHalf.{Half, ak, dt_arrival, half_granted, taken_dt, taken_ed};
ghost use Rattle.tp4_flow.specs.declared.rules.Life.TheVariants.{Goes};
ghost use Rattle.tpdu.specs.declared.service.Options.{Options};
ghost use Rattle.tp4_number.specs.declared.got.Got.TheVariants.{TooLarge};
ghost use Rattle.tp4_number.specs.declared.piece.Piece.{Piece};
ghost use Rattle.tp4_number.specs.Number.{whole};
ghost use Rattle.tp4_sending.specs.SendingHalf.{FlowSender, acknowledged, life_of, submitted, ticked, urged, urgent_done};
ghost use Rattle.tp4_conn.specs.declared.call.UserCall.TheVariants.{Accept};
ghost use Rattle.tp4_conn.specs.declared.states.InOpened.{InOpened};
ghost use Rattle.tp4_conn.specs.declared.states.InCrWait.{InCrWait};
ghost use Rattle.tp4_conn.specs.declared.states.StateData.TheVariants.{CrWait, Opened};
ghost use Rattle.tp4_conn.specs.declared.end_record.EndRecord.{EndRecord};
ghost use Rattle.tp4_conn.specs.declared.call.ConnectCall.{ConnectCall};
ghost use Rattle.tp4_conn.specs.declared.timers.Timers.{Timers};
ghost use Rattle.tp4_conn.specs.Agreeing.{agreed_by, confirm, is_confirmed, proposed_by, request};
ghost use Rattle.tp4_flow.specs.declared.step.EndEvent.{EndEvent};
ghost use Rattle.tp4_flow.specs.declared.step.Sent.{Sent};
ghost use Rattle.tp4_conn.specs.End.{End, IsProposal, IsSized};
ghost use Rattle.tp4_conn.specs.declared.proposed.Proposed.{Proposed};
ghost use Rattle.tp4_conn.specs.CrWait.{confirmed};
ghost use Rattle.tp4_conn.specs.Making.{called_end, caller, indicated, on_cr};
ghost use Rattle.tp4_conn.specs.Table.{Event, stepped, takes};
ghost use Rattle.tp4_entity.specs.Association.{is_called, is_registered, met};
ghost use Rattle.tp4_entity.specs.Entity.{Entity, moved};
ghost use Rattle.tp4_entity.specs.References.{least_free};
ghost use Rattle.law_tp4_pair.specs.Flowing.{IsCalm, IsCalmOn};
ghost use Rattle.script_journal.specs.declared.event.Event.{Event as JournalEvent};
ghost use Rattle.law_tp4_pair.specs.Claim.{AllShown};
ghost use Rattle.law_tp4_pair.specs.Meeting.{IsMet};
ghost use Rattle.law_tp4_pair.specs.Pair.{Accepts, AreOpened, Asks_called, Comes_back, Comes_forth, Happening, IsIdle, Leads, May, Pair, next};
ghost use Rattle.law_tp4_pair.specs.Pairs.{AreLater, ArePairs};
ghost use Rattle.law_tp4_pair.specs.Rest.{AreAtRest, IsAtRest};
ghost use Rattle.law_tp4_pair.specs.Standing.{HasLeft, Stands};
ghost use Rattle.law_tp4_pair.specs.Telling.{AreTold, Tells};
ghost use Rattle.law_tp4_pair.specs.Waiting.{View, aks_in, eas_in};

/// One direction between two Opened ends stays calm: what waits first is handed over; where no AK waits a unit is submitted; where nothing
/// waits a credit is given or a tick passes.
pub fn stays_calm()
    ensures dt { (s : FlowSender) (h : Half) (w : ℕ) (rest eds : List ℕ) (aks : List View) (eas : List ℕ) (piece : Piece) → IsCalm s h (w ∷ rest) eds aks eas
        → ((dt_arrival h w piece).got ≡ TooLarge → ⊥)
        → IsCalm s (taken_dt whole h w piece).half rest eds (aks ++ aks_in (taken_dt whole h w piece).tpdus) (eas ++ eas_in (taken_dt whole h w piece).tpdus) }
    ensures ed { (s : FlowSender) (h : Half) (dts : List ℕ) (w : ℕ) (rest : List ℕ) (aks : List View) (eas octets : List ℕ) → IsCalm s h dts (w ∷ rest) aks eas
        → IsCalm s (taken_ed whole h w octets).half dts rest (aks ++ aks_in (taken_ed whole h w octets).tpdus) (eas ++ eas_in (taken_ed whole h w octets).tpdus) }
    ensures ak { (s : FlowSender) (h : Half) (dts eds : List ℕ) (rest : List View) (eas : List ℕ) (v : View) → IsCalm s h dts eds (v ∷ rest) eas
        → IsCalmOn (acknowledged s v.number v.credit v.subsequence) h dts eds rest eas }
    ensures ea { (s : FlowSender) (h : Half) (dts eds : List ℕ) (aks : List View) (w : ℕ) (rest : List ℕ) → IsCalm s h dts eds aks (w ∷ rest)
        → IsCalmOn (urgent_done s w) h dts eds aks rest }
    ensures submitted { (s : FlowSender) (h : Half) (dts eds eas unit : List ℕ) → IsCalm s h dts eds [] eas → IsCalmOn (submitted s unit) h dts eds [] eas }
    ensures urged { (s : FlowSender) (h : Half) (dts eds eas unit : List ℕ) → IsCalm s h dts eds [] eas → IsCalmOn (urged s unit) h dts eds [] eas }
    ensures granted { (s : FlowSender) (h : Half) (credit : ℕ) → IsCalm s h [] [] [] [] → IsCalm s (half_granted h credit) [] [] (aks_in (ak (half_granted h credit) ∷ [])) [] }
    ensures ticked { (s : FlowSender) (h : Half) → IsCalm s h [] [] [] [] → (life_of s ≡ Goes) × IsCalmOn (ticked s) h [] [] [] [] }
    ensures rests { (s : FlowSender) (h : Half) → IsCalm s h [] [] [] [] → IsAtRest s h }
{}

/// A pair of ends stands from the CC on, whatever happens in order; and so it does where one has left. Where nothing waits between two Opened
/// ends each has taken all that the other sent, and has shown each unit that was submitted there, but for want of credit or by the number rule.
pub fn stands()
    ensures left { (p : Pair) → HasLeft p.calling.stage ⊎ HasLeft p.called.stage → Stands p }
    ensures accepted { (p : Pair) (asked : Options) (octets : List ℕ) → Accepts p asked → Stands (next p (Asks_called (Accept asked octets))) }
    ensures step { (p : Pair) (happening : Happening) → Stands p → May p happening → Stands (next p happening) }
    ensures rests { (p : Pair) (o q : InOpened) → Stands p → IsIdle p → p.calling.stage ≡ Opened o → p.called.stage ≡ Opened q → AreAtRest p o q }
{}

/// Nothing is missing: after an accept, whatever happens in order, where nothing waits between the two ends and both are Opened each has shown all
/// that the other submitted, but for want of credit or by the number rule; and each number that is held back was told.
pub fn nothing_missing()
    ensures rest { (p : Pair) (asked : Options) (octets : List ℕ) (happenings : List Happening) (last : Pair) (o q : InOpened) → Accepts p asked
        → Leads (next p (Asks_called (Accept asked octets))) happenings last → IsIdle last → last.calling.stage ≡ Opened o → last.called.stage ≡ Opened q → AreAtRest last o q }
    ensures told { (p : Pair) (asked : Options) (octets : List ℕ) (happenings : List Happening) (last : Pair) → Accepts p asked
        → Leads (next p (Asks_called (Accept asked octets))) happenings last → AreTold last }
{}

/// A CR is indicated with what it proposes: where the selector is registered and a reference is free, and no end of that caller is there, a new end
/// waits for its user. An accept has its confirm: what is agreed is within what was proposed, and both ends are Opened by
/// the CC and the first AK, after which nothing waits.
pub fn opens()
    ensures indicated { (made now own : ℕ) (from : List ℕ) (rules : Timers) (call : ConnectCall) → IsSized call.request.options → on_cr now own from rules (request (caller made call) call.request.octets).tpdu
        ≡ Some (indicated (called_end now own from rules call.rules.credit call.own call.request.from_selector call.request.to_selector (proposed_by call.request.options)) call.request.octets) }
    ensures incoming { (made now reference : ℕ) (e : Entity) (from : List ℕ) (call : ConnectCall) (sum : Bool) → IsSized call.request.options → list_any (is_called false from call.own) e.ends ≡ false
        → list_any (is_called true from call.own) e.ends ≡ false → is_registered e.selectors call.request.to_selector ≡ true → least_free now e ≡ Some reference
        → met whole now e from ((request (caller made call) call.request.octets).tpdu, sum)
        ≡ moved e reference (indicated (called_end now reference from e.timers call.rules.credit call.own call.request.from_selector call.request.to_selector (proposed_by call.request.options)) call.request.octets) }
    ensures within { (proposed : Proposed) (asked : Options) → IsProposal proposed → IsSized asked → is_confirmed proposed (agreed_by proposed asked) ≡ true }
    ensures confirm { (b c : EndRecord) (r : InCrWait) (options : Options) (octets : List ℕ) (now : ℕ) → c.agreed ≡ Some options → IsSized options → is_confirmed b.proposed options ≡ true
        → takes whole now b (CrWait r) (confirm c options octets).tpdu (confirm c options octets).sum
        ≡ confirmed (record b { partner = c.own; credit = c.timers.credit; agreed = Some options; clock = now }) options octets }
    ensures both { (p : Pair) (asked : Options) (octets : List ℕ) → Accepts p asked → AreOpened (next (next (next p (Asks_called (Accept asked octets))) Comes_back) Comes_forth) }
{}

/// Each number that an end notes as held it told, over each row.
pub fn tells()
    ensures row { (now : ℕ) (e : End) (event : Event) (told : List EndEvent) → Tells e.stage told → Tells (stepped whole now e event).stage (told ++ (stepped whole now e event).events) }
    ensures pair { (p : Pair) (happening : Happening) → AreTold p → AreTold (next p happening) }
{}

/// What waits first for an end of a pair is for it: the entity of its system, in which it stands, lets it take that TPDU.
pub fn meets()
    ensures forth { (p : Pair) (sent : Sent) (rest : List Sent) → (HasLeft p.calling.stage ⊎ HasLeft p.called.stage → ⊥) → Stands p → p.forth ≡ sent ∷ rest
        → IsMet p.clock p.called p.calling sent }
    ensures back { (p : Pair) (sent : Sent) (rest : List Sent) → (HasLeft p.calling.stage ⊎ HasLeft p.called.stage → ⊥) → Stands p → p.back ≡ sent ∷ rest
        → IsMet p.clock p.calling p.called sent }
{}

/// Where each two partner ends that are both Opened are such a pair, nothing waits there, and no end is due at this tick, each has shown all
/// that the other submitted, but for want of credit or for a number that the number rule holds back at this tick.
pub fn claims()
    ensures { (now : ℕ) (journal : List JournalEvent) (end_of : ℕ → Option End) → ArePairs journal end_of → AreLater now end_of → AllShown now journal end_of }
{}
