//! Where a program's octets come from.

ghost use Rattle.std.specs.Prelude.{◌≡◌, ◌+◌, ◌<◌, ◌≤◌, List, ℕ, Option, length, take, max, IfOk, OnOk, OnErr};
ghost use Rattle.osi_base.specs.Ends.{HasRisen, Took, IsAtEnd};

use crate::Failed;

/// Gives octets in pieces of any size, and may fail at any call.
pub trait Source {
    /// The octets that are left, where the source tells.
    ghost left: { Self → Option (List ℕ) };

    /// How often a call has failed. A count that has reached its last value stays there.
    ghost faults: { Self → ℕ };

    /// The most octets that one call has asked for.
    ghost asked: { Self → ℕ };

    /// Moves the next octets to the front of `into`, and answers how many.
    ///
    /// 0 for an `into` that is not empty is the end of the octets. Failed: nothing was taken, and a
    /// later call may succeed.
    fn read(&mut self, into: &mut [u8]) -> Result<usize, Failed>
        ensures count { IfOk result (λ n. n ≤ length into.old) }
        ensures moved { IfOk result (λ n. Took (left self.old) (take n into.new) (left self.new)) }
        ensures end { IfOk result (λ n. n ≡ 0 → 0 < length into.old → IsAtEnd (left self.new)) }
        ensures failed { OnErr result (HasRisen (faults self.old) (faults self.new)) }
        ensures kept { OnErr result (left self.new ≡ left self.old) }
        ensures faultless { OnOk result (faults self.new ≡ faults self.old) }
        ensures one_fault { faults self.new ≤ faults self.old + 1 }
        ensures faults_stay { faults self.old ≤ faults self.new }
        ensures asked { asked self.new ≡ max (asked self.old) (length into.old) };
}
