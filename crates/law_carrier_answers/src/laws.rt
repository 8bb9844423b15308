//! What waits in a carrier is taken up in one way, and can be.

ghost use Rattle.std.specs.Prelude.{◌≡◌, Bool};
ghost use Rattle.law_carrier_answers.specs.Answers.{AnswersOn, OneGathering, OneStep, SomeGathering};

use osi_base::Carrier;

/// Where each call has one answer, what waits is taken up in one way.
pub fn one_gathering<C: Carrier>()
    ensures { OneStep C.steps → OneGathering C.link C.steps }
{}

/// Where all that may be asked is answered from then on, what waits can be taken up, and then it still is.
pub fn some_gathering<C: Carrier>()
    ensures { (is_address : C.Addr → Bool) → SomeGathering C.link C.steps (AnswersOn is_address C.link C.steps) }
{}
