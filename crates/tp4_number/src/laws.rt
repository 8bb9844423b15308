//! The law of numbers: whatever is lost, repeated, delayed or reordered, what is afloat is read for the
//! number that it was sent with (X.224, class 4: sequencing; frozen references and numbers).

ghost use Rattle.std.specs.Prelude.{◌≡◌, ◌↔◌, ◌<◌, ◌≤◌, ◌*◌, ℕ, List, [], ◌∷◌, ◌++◌, true, IsTrue};
ghost use Rattle.tp4_number.specs.declared.blocks.Blocks.{Blocks};
ghost use Rattle.tp4_number.specs.Expedited.{Urgent, UrgentEvent, LeadsUrgently, quiet, IsAlone, ObeysRule};
ghost use Rattle.tp4_number.specs.Number.{near, IsNear};
ghost use Rattle.tp4_number.specs.Sender.{may_send, opens_at, IsPast, sent_all, gone};
ghost use Rattle.tp4_number.specs.Traffic.{Rules, IsFit, Traffic, Event, May, after, Leads, start, ReadsRightly, KeepsRule};

/// After any events each DT and each AK afloat is read for the number that it was sent with, and the
/// sender's words on its blocks say what the number rule says of all that was ever sent.
pub fn over_events()
    ensures read { (rules : Rules) (tick credit size room : ℕ) (events : List Event) (w : Traffic) → IsFit rules → credit < rules.block → room < rules.block
        → Leads rules (start tick credit size room) events w → ReadsRightly rules w }
    ensures kept { (rules : Rules) (tick credit size room : ℕ) (events : List Event) (w : Traffic) → IsFit rules → credit < rules.block → room < rules.block
        → Leads rules (start tick credit size room) events w → KeepsRule rules w }
    ensures more { (rules : Rules) (events : List Event) (old w : Traffic) (event : Event) → Leads rules old events w → May rules w event
        → Leads rules old (events ++ event ∷ []) (after rules w event) }
    ensures all { (rules : Rules) (fuel total : ℕ) (w : Traffic) → (events : List Event) × Leads rules w events
        (record w { sender = sent_all fuel rules.block rules.limit w.sender w.clock total; sends = w.sends ++ gone fuel rules.block rules.limit w.sender w.clock total }) }
{}

/// `near` is the least number from another one on that has a wire number.
pub fn near_is_least()
    ensures { (block from w : ℕ) → 0 < block → w < 4 * block → IsNear block from w (near block from w) }
{}

/// The number rule lets a number go from `opens_at` on, and not before.
pub fn rule_opens()
    ensures { (block limit : ℕ) (b : Blocks) (n now : ℕ) → (may_send block limit b n now ≡ true) ↔ IsPast (opens_at block limit b n) now }
{}

/// After any events no ED and no EA afloat with another number has the wire number of the one expected, and the sender's words on its
/// blocks say what the number rule says of all EDs that were ever sent.
pub fn over_urgent_events()
    ensures alone { (rules : Rules) (tick : ℕ) (events : List UrgentEvent) (u : Urgent) → IsFit rules → LeadsUrgently rules (quiet tick) events u → IsAlone rules u }
    ensures kept { (rules : Rules) (tick : ℕ) (events : List UrgentEvent) (u : Urgent) → IsFit rules → LeadsUrgently rules (quiet tick) events u → ObeysRule rules u }
{}
