//! What holds of each call of a network by the inactive subset.

ghost use Rattle.std.specs.Prelude.{◌≡◌};
ghost use Rattle.law_inactive_answers.specs.Laws.{AnswersExactly, BeginsServing, InactiveServes, OneAnswer, OneNetAnswer};

use nsap::Port;
use osi_base::Carrier;

/// Over every carrier that answers in one way, each call of the network has one answer.
pub fn one_answer<C: Carrier<Addr = Port>>()
    ensures { OneAnswer C.link C.steps }
{}

/// So it is over the LANs.
pub fn one_network()
    ensures { OneNetAnswer }
{}

/// Over LANs with the ports of the end systems, an offer is dropped where there is no way, where the unit is too long, or where the
/// LANs are full, for the first of these that applies; else it is taken.
pub fn answers_exactly()
    ensures { AnswersExactly }
{}

/// While the network over the LANs stands, it serves: each call that may be asked is answered, then it still stands, and there is a
/// least pair that can be taken and was not yet, or none.
pub fn serves()
    ensures { InactiveServes }
{}

/// A network of end systems that the LANs serve stands, as it is made.
pub fn begins_serving()
    ensures { BeginsServing }
{}
