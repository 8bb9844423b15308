//! A refused line is the first refused line of the script.

ghost use Rattle.law_refusals.specs.Laws.{RefusesFirstFault, RefusesLastFault, RefusesLongLine};

use script_bench::Stage;

/// A line that is refused at its line feed, or where the input ends in it, is the first line of the script that has a fault, with the cause and
/// the column of that fault. A line that is refused at another octet has 40,000 octets before it, and the lines before it are a script.
pub fn refusals_are_first_faults<W: Stage>()
    ensures whole { RefusesFirstFault W.acts }
    ensures long { RefusesLongLine W.acts }
    ensures last { RefusesLastFault W.acts }
{}
