//! Where a program's octets go.

ghost use Rattle.std.specs.Prelude.{◌≡◌, ◌⊎◌, ◌+◌, ◌<◌, ◌≤◌, List, ℕ, Option, length, take, IfOk, OnErr, IsErrOf};
ghost use Rattle.osi_base.specs.Ends.{HasRisen, Put};
ghost use Rattle.osi_base.specs.declared.refusal.WriteRefusal.TheVariants.{Failed, NoMemory};

use crate::WriteRefusal;

/// Takes octets in pieces, whole or in part, and may fail at any call.
pub trait Sink {
    /// The octets that were written, where the sink tells.
    ghost held: { Self → Option (List ℕ) };

    /// How often a call has failed. A count that has reached its last value stays there.
    ghost faults: { Self → ℕ };

    /// Appends the first octets of `piece`, and answers how many.
    ///
    /// An error appended nothing. 0 for a piece that is not empty counts as a fault, and the caller
    /// treats it as Failed.
    fn write(&mut self, piece: &[u8]) -> Result<usize, WriteRefusal>
        ensures count { IfOk result (λ n. n ≤ length piece.now) }
        ensures moved { IfOk result (λ n. Put (held self.old) (take n piece.now) (held self.new)) }
        ensures stuck { IfOk result (λ n. n ≡ 0 → 0 < length piece.now → HasRisen (faults self.old) (faults self.new)) }
        ensures failed { IsErrOf result Failed → HasRisen (faults self.old) (faults self.new) }
        ensures kept { OnErr result (held self.new ≡ held self.old) }
        ensures faultless { IfOk result (λ n. (0 < n) ⊎ (length piece.now ≡ 0) → faults self.new ≡ faults self.old) }
        ensures memory { IsErrOf result NoMemory → faults self.new ≡ faults self.old }
        ensures one_fault { faults self.new ≤ faults self.old + 1 }
        ensures faults_stay { faults self.old ≤ faults self.new };
}
