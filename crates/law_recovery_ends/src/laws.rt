//! What an end knows of its receiver (X.224, class 4 state tables; explicit flow control).

ghost use Rattle.law_recovery_ends.specs.Laws.{BeginnersKnow, DirectionsRest, EndsAreUndue, HearersKnow, KeepersKnow, NumbersAreSent, RowsKnow};

/// Over each row of an end, where the timers of all ends give one credit: its sending half knows that credit, or what it knew, or
/// what an AK said that came.
pub fn rows_know()
    ensures { RowsKnow }
{}

/// So the sender of a line knows what it began with, for which its receiver had room, or what an AK of the line said.
pub fn lines_know()
    ensures begins { BeginnersKnow }
    ensures keeps { KeepersKnow }
    ensures hears { HearersKnow }
{}

/// An Opened end that is not due spoke and heard in time, and each number that is outstanding was sent less than T1 ticks ago, where
/// T1 ticks have passed since nothing is lost.
pub fn not_due()
    ensures ends { EndsAreUndue }
    ensures numbers { NumbersAreSent }
{}

/// Whatever was before: where nothing was lost from a tick on, nothing waits, neither end is due, and the longer of T1 and W has passed,
/// nothing is outstanding between two Opened ends in this direction, and both know the same.
pub fn directions_rest()
    ensures { DirectionsRest }
{}
