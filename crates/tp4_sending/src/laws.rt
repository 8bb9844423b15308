//! Laws of a sending half: when it is to be called again, and what its pieces join to (X.224, retransmission
//! on time-out; segmentation and reassembling).

ghost use Rattle.std.specs.Prelude.{◌≡◌, ◌↔◌, ◌<◌, ◌≤◌, ℕ, List, [], length, All, true, false};
ghost use Rattle.std.specs.List.{sum_by};
ghost use Rattle.tp4_flow.specs.declared.rules.Life.TheVariants.{Goes};
ghost use Rattle.tp4_number.specs.Window.{joined};
ghost use Rattle.tp4_sending.specs.Cutting.{cuts};
ghost use Rattle.tp4_sending.specs.SendingHalf.{FlowSender, at, nothing, life_of, opened, submitted, urged, acknowledged, urgent_done, ticked, due_of, rule_allows};
ghost use Rattle.tp4_sending.specs.Kept.{IsSending, IsUpTo};
ghost use Rattle.tp4_sending.specs.Pieces.{count_in};
ghost use Rattle.tp4_sending.specs.Settled.{IsSettled, IsDue, Acts};

/// A tick does more than move the clock on exactly from the one on that `next_due` tells.
pub fn due_is_least()
    ensures { (s : FlowSender) (now : ℕ) → s.is_open ≡ true → Acts (at now s) ↔ IsDue (due_of s) now }
{}

/// Before it is due a tick goes on and does nothing. After a tick that goes on a half is due later, or no more.
pub fn waits_until_due()
    ensures before { (s : FlowSender) (now : ℕ) → s.is_open ≡ true → (IsDue (due_of s) now → ⊥)
        → (life_of (at now s) ≡ Goes) × (ticked (at now s) ≡ nothing (at now s)) }
    ensures after { (s : FlowSender) → s.is_open ≡ true → 0 < s.rules.t1 → life_of s ≡ Goes → IsDue (due_of (ticked s).sender) s.clock → ⊥ }
{}

/// An open half is settled after each of its calls.
pub fn stays_settled()
    ensures opened { (s : FlowSender) → IsSettled (opened s).sender }
    ensures submitted { (s : FlowSender) (unit : List ℕ) → s.is_open ≡ true → IsSettled (submitted s unit).sender }
    ensures urged { (s : FlowSender) (unit : List ℕ) → s.is_open ≡ true → IsSettled (urged s unit).sender }
    ensures acknowledged { (s : FlowSender) (w credit subsequence : ℕ) → s.is_open ≡ true → IsSettled s
        → IsSettled (acknowledged s w credit subsequence).sender }
    ensures urgent_done { (s : FlowSender) (w : ℕ) → s.is_open ≡ true → IsSettled s → IsSettled (urgent_done s w).sender }
    ensures ticked { (s : FlowSender) → s.is_open ≡ true → IsSettled s → IsSettled (ticked s).sender }
    ensures later { (s : FlowSender) (now : ℕ) → IsSettled s → IsSettled (at now s) }
{}

/// All pieces of units of 1 to 16,384 octets, in order, join to these units.
pub fn joins_what_was_cut()
    ensures { (size : ℕ) (units : List (List ℕ)) → 0 < size → All (λ (u : List ℕ). (0 < length u) × (length u ≤ 16384)) units
        → joined [] (cuts size units 0 (sum_by (count_in size) units))
        ≡ record { count = sum_by (count_in size) units; units = units; begun = []; is_large = false } }
{}

/// A number that the number rule holds back is not below one that was told as held before. So each is told
/// once, as the last one is not told again.
pub fn held_numbers_rise()
    ensures normal { (s : FlowSender) → IsSending s → rule_allows s s.numbers.blocks s.numbers.next ≡ false → IsUpTo s.noted s.numbers.next }
    ensures urgent { (s : FlowSender) → IsSending s → rule_allows s s.urgent.blocks s.urgent.next ≡ false → IsUpTo s.urgent.noted s.urgent.next }
{}
