//! What the rows of an end's state table do to both lines of its connection (X.224, class 4 state tables;
//! X.214, queue model).

ghost use Rattle.std.specs.Prelude.{◌≡◌, ◌≢◌, ◌↔◌, ◌+◌, ℕ, Bool, true, false, List, Option, Some, Contains};
ghost use Rattle.tpdu.specs.declared.tpdu.Format.TheVariants.{Normal};
ghost use Rattle.tpdu.specs.declared.tpdu.Tpdu.{Tpdu};
ghost use Rattle.tpdu.specs.Writing.{IsAllowed};
ghost use Rattle.tp4_number.specs.Formats.{block_of};
ghost use Rattle.tp4_number.specs.Number.{whole, MaySend};
ghost use Rattle.tp4_number.specs.Sender.{may_send};
ghost use Rattle.tp4_sending.specs.SendingHalf.{FlowSender, block_in};
ghost use Rattle.tp4_flow.specs.declared.step.Sent.{Sent};
ghost use Rattle.tp4_conn.specs.declared.end_record.EndRecord.{EndRecord};
ghost use Rattle.tp4_conn.specs.declared.call.ConnectCall.{ConnectCall};
ghost use Rattle.tp4_conn.specs.declared.states.StateData.{StateData};
ghost use Rattle.tp4_conn.specs.declared.timers.Timers.{Timers};
ghost use Rattle.tp4_conn.specs.End.{End, Moved, agreed_format};
ghost use Rattle.tp4_conn.specs.Making.{connected, on_cr};
ghost use Rattle.tp4_conn.specs.Proper.{IsProper, IsProperEvent};
ghost use Rattle.tp4_conn.specs.Table.{Event, Took, stepped};
ghost use Rattle.law_tp4_history.specs.Ends.{Times, IsFit, Terms, Body, Plain, Cc, Flow, Offer, Sent as SentBy};
ghost use Rattle.law_tp4_history.specs.History.{History, IsPartner};
ghost use Rattle.law_tp4_history.specs.Tracks.{Track, Whole, IsTold, ReachedAll, CanOut, CanIn, GoesOn, Go, done, Noted, clocked};
ghost use Rattle.law_tp4_history.specs.Seen.{seen, IsNumbered};
ghost use Rattle.law_tp4_history.specs.Lines.{IsSendingAt, Stands, IsTimely, IsKnownEvent, Flowed, IsIn, AreSentIn, ArePlain, AreOffered};

/// Where the halves of an end stand in the lines of its connection, each row leaves both lines, begins them or goes
/// on with them, and the halves stand there after it; so do those of its partner. What is sent can be offered, and
/// stands in the lines.
pub fn flowed()
    ensures step { (times : Times) (terms : Terms) (now : ℕ) (taken : Option Offer) (own theirs : Track) (old : End) (event : Event) → times.life ≡ old.base.timers.life
        → IsProper old.base old.stage → IsProperEvent old event → Stands terms old.base old.stage own theirs → IsKnownEvent terms old.base old.stage taken event own theirs
        → IsTimely now own → IsTimely now theirs → Flowed times terms now taken old.stage event (stepped whole now old event) own theirs }
    ensures known { (times : Times) (w : Whole) (terms : Terms) (b : EndRecord) (stage : StateData) (tpdu : Tpdu) (sum : Bool) (x n : ℕ) (o : Offer) (own : Track) → IsTold times w
        → Contains w.base.offers o → o.tpdu ≡ seen n tpdu → (o.tpdu.kind ≡ Flow → IsNumbered (block_of (agreed_format b.agreed)) n tpdu) → (o.tpdu.kind ≡ Flow → o.origin ≡ SentBy x)
        → (o.tpdu.kind ≡ Cc → (own.is_begun ≡ true) × (o.tpdu.terms ≡ terms)) → IsKnownEvent terms b stage (Some o) (Took tpdu sum) own (w.track x) }
    ensures partner { (taken : Option Offer) (own theirs new_own new_theirs : Track) → GoesOn (CanOut taken) own new_own → GoesOn (CanIn taken) theirs new_theirs
        → (terms : Terms) (b : EndRecord) (stage : StateData) → Stands terms b stage theirs own → Stands terms b stage new_theirs new_own }
    ensures later { (terms : Terms) (b : EndRecord) (stage : StateData) (own theirs : Track) → Stands terms b stage own theirs → Stands terms b stage (clocked own) (clocked theirs) }
    ensures timely { (now : ℕ) (t : Track) → IsTimely now t → IsTimely (now + 1) (clocked t) }
    ensures calling { (terms : Terms) (made : ℕ) (call : ConnectCall) (own theirs : Track) → own.is_begun ≡ false
        → Stands terms (connected made call).base (connected made call).stage own theirs }
    ensures called { (terms : Terms) (made reference : ℕ) (from : List ℕ) (rules : Timers) (cr : Tpdu) (m : Moved) (own theirs : Track) → IsAllowed Normal cr
        → on_cr made reference from rules cr ≡ Some m → Stands terms m.base m.stage own theirs }
    ensures offered { (own theirs : Track) (now number : ℕ) (address : List ℕ) (tpdus : List Sent) → AreSentIn own theirs now tpdus
        → AreOffered now number address tpdus (IsIn own theirs now) }
    ensures plain { (now number : ℕ) (address : List ℕ) (tpdus : List Sent) → ArePlain tpdus → AreOffered now number address tpdus (λ body. body ≡ Plain) }
    ensures noted { (h : History) (track : ℕ → Track) (y z : ℕ) (own theirs : Track) (now : ℕ) (body : Body) → IsPartner h y z → y ≢ z
        → IsIn own theirs now body → Noted h (done track y (Go z own theirs)) y now body }
{}

/// What `Sending::may_send` tells of the next DT, and what the half asks before it sends one, is the number rule over all DTs that it ever sent:
/// a number that opens a block goes exactly where the third block before it was last sent more than `limit` ticks ago. So it is of the next
/// ED, over all EDs.
pub fn number_rule()
    ensures dt { (times : Times) (w : Whole) (x : ℕ) (s : FlowSender) → IsFit times → ReachedAll times w → IsSendingAt s (w.track x)
        → (may_send (block_in s) s.rules.limit s.numbers.blocks s.numbers.next w.base.clock ≡ true)
        ↔ MaySend (block_in s) s.rules.limit (w.track x).line.world.sends s.numbers.next w.base.clock }
    ensures ed { (times : Times) (w : Whole) (x : ℕ) (s : FlowSender) → IsFit times → ReachedAll times w → IsSendingAt s (w.track x)
        → (may_send (block_in s) s.rules.limit s.urgent.blocks s.urgent.next w.base.clock ≡ true)
        ↔ MaySend (block_in s) s.rules.limit (w.track x).line.urgent.sends s.urgent.next w.base.clock }
{}
