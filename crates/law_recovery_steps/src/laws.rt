//! Two Opened ends since when nothing is lost between them, step by step (X.224, class 4 state tables).

ghost use Rattle.std.specs.Prelude.{ℕ};
ghost use Rattle.law_tp4_pair.specs.Standing.{Party};
ghost use Rattle.law_recovery_pair.specs.Recovering.{Road};
ghost use Rattle.law_recovery_pair.specs.Urgent.{UrgentRoad};
ghost use Rattle.tp4_conn.specs.declared.end_record.EndRecord.{EndRecord};
ghost use Rattle.tp4_conn.specs.declared.states.InOpened.{InOpened};
ghost use Rattle.tp4_flow.specs.ReceivingHalf.{Half};
ghost use Rattle.tp4_sending.specs.SendingHalf.{FlowSender};
ghost use Rattle.law_recovery_steps.specs.Laws.{AksRide, CallsAsk, CallsGoOut, CallsOnward, CallsRide, CallsUrge, ClocksRide, ClocksUrge, DirectionsBegin, DtsRide, EaAsks, EasUrge, EdsAreYoung, EdsRest, EdsRide, EdsUrge, FirstAkGoesOut, GrantsRide, LevelsShow, PairsBegin, PairsLead, PairsRecover, PairsRest, PairsShow, PairsStep, RepeatsRide, TakesOnward, TicksOnward, AsksBegin, DataOpens, OpeningsStep, PairsOpen, PairsOpenLevel, PairsOpenRest, RefusalsEnd, RequestsAgain, RequestsLast, RequestsMet, RequestsStay, DtsFit, NumbersEnd, PairsPart, PartedInTime, LinesFit, NoneSendsEr, RowsKeepUp};
ghost use Rattle.law_recovery_steps.specs.Steps.{Since};

/// Each call of a sending half is moves of the road, and the DTs that it puts behind what waits are those that the road gets.
pub fn sends()
    ensures calls { (life size u : ℕ) → CallsGoOut life size u }
    ensures first_ak { (life size u : ℕ) → FirstAkGoesOut life size u }
{}

/// What waits in a direction is what waits on its road, whatever its two halves do, as long as what waits first comes first.
pub fn rides()
    ensures calls { (life size u : ℕ) (old : Road) (s : FlowSender) (h : Half) → CallsRide life size u old s h }
    ensures aks { (life size u : ℕ) (old : Road) (s : FlowSender) (h : Half) → AksRide life size u old s h }
    ensures dts { (life size u : ℕ) (old : Road) (s : FlowSender) (h : Half) → DtsRide life size u old s h }
    ensures eds { (life size u : ℕ) (old : Road) (s : FlowSender) (h : Half) → EdsRide life size u old s h }
    ensures grants { (life size u : ℕ) (old : Road) (s : FlowSender) (h : Half) → GrantsRide life size u old s h }
    ensures repeats { (life size u : ℕ) (old : Road) (s : FlowSender) (h : Half) → RepeatsRide life size u old s h }
    ensures clocks { (life size u : ℕ) (old : Road) (s : FlowSender) (h : Half) → ClocksRide life size u old s h }
{}

/// Each row of an Opened end leaves both directions so, or it parts.
pub fn rows()
    ensures takes { (life size u now : ℕ) (one other : Since) (first : Party) (o : InOpened) (b : EndRecord) (q : InOpened) → TakesOnward life size u now one other first o b q }
    ensures calls { (life size u now : ℕ) (one other : Since) (first : Party) (o : InOpened) (b : EndRecord) (q : InOpened) → CallsOnward life size u now one other first o b q }
    ensures ticks { (life size u now : ℕ) (one other : Since) (first : Party) (o : InOpened) (b : EndRecord) (q : InOpened) → TicksOnward life size u now one other first o b q }
{}

/// Whatever happens to a pair of Opened ends in order, what waits is what waits on the roads since then, or one of the ends has left.
pub fn pairs_ride()
    ensures step { (life size u : ℕ) (one other : Since) → PairsStep life size u one other }
    ensures lead { (life size u : ℕ) (one other : Since) → PairsLead life size u one other }
{}

/// Whatever was before a tick at which nothing waits: where nothing waits again, neither end is due, and the longer of T1 and W has passed,
/// nothing is outstanding either way and each knows what the other says; or one of the ends has left.
pub fn pairs_rest()
    ensures { PairsRest }
{}

/// Two ends of which all is known at a tick at which nothing waits, and that agreed, are such a pair.
pub fn pairs_begin()
    ensures directions { DirectionsBegin }
    ensures pairs { PairsBegin }
{}

/// So two ends of which all is known where nothing waits, and that agreed, are at rest where nothing waits again, neither end is due, and the
/// longer of T1 and W has passed, whatever happened in order: each unit that was submitted is shown, but for want of credit or by the number
/// rule; or one of the ends has left.
pub fn pairs_recover()
    ensures { PairsRecover }
{}

/// Where a pair is level, each unit that was submitted is shown, but for want of credit or by the number rule; pieces ahead may
/// be held.
pub fn pairs_show()
    ensures levels { LevelsShow }
    ensures pairs { PairsShow }
{}

/// Each call of a sending half is moves of the road of EDs and EAs, and the EDs that it puts behind what waits are those that the road gets.
pub fn asks()
    ensures calls { (life u : ℕ) → CallsAsk life u }
    ensures ea { (life u : ℕ) → EaAsks life u }
{}

/// What EDs and EAs wait in a direction is what waits on their road, over the calls of the sending half, the first
/// ED and the first EA that come, and the clock.
pub fn urges()
    ensures calls { (life u : ℕ) (old : UrgentRoad) (s : FlowSender) (h : Half) → CallsUrge life u old s h }
    ensures eds { (life u : ℕ) (old : UrgentRoad) (s : FlowSender) (h : Half) → EdsUrge life u old s h }
    ensures eas { (life u : ℕ) (old : UrgentRoad) (s : FlowSender) (h : Half) → EasUrge life u old s h }
    ensures clocks { (life u : ℕ) (old : UrgentRoad) (s : FlowSender) (h : Half) → ClocksUrge life u old s h }
{}

/// Where no ED and no EA waits, and the end is not due, T1 ticks after nothing was lost any more, no ED is outstanding, and the next one is
/// the one expected.
pub fn eds_rest()
    ensures young { EdsAreYoung }
    ensures rest { EdsRest }
{}

/// An end in AkWait takes an AK, a DT, an ED or an EA: it is Opened, and both directions ride on; or it has left.
pub fn data_opens()
    ensures { DataOpens }
{}

/// Whatever happens next to a pair of which the called end is in AkWait: it is so, or both are Opened; or one of the ends has left.
pub fn openings_step()
    ensures { OpeningsStep }
{}

/// An end in CrWait and one in AkWait, of which the halves are as they were made, but for units that wait, are what such a pair begins with.
pub fn asks_begin()
    ensures { AsksBegin }
{}

/// Whatever was lost before a tick at which nothing waits: T1 ticks later, where nothing waits again and neither end is due, both are Opened; or
/// one of the ends has left. And where the longer of T1 and W has passed, nothing is outstanding either way, and each knows what the other says: so
/// each unit that was submitted is shown, but for want of credit or by the number rule.
pub fn pairs_open()
    ensures opened { PairsOpen }
    ensures level { PairsOpenLevel }
    ensures rest { PairsOpenRest }
{}

/// Where the calling end is in CrWait and the called one in UserWait they are so, whatever happens in order, until the user accepts; or one has left.
pub fn requests_stay()
    ensures next { RequestsStay }
    ensures last { RequestsLast }
{}

/// T1 ticks after any tick an end in CrWait that is not due has sent its CR since. Where that comes a called end is there, or is made and
/// waits for its user; or a DR goes back, which ends the calling end: since the called one is frozen, no user is at the selector, or no reference is free.
pub fn requests_come()
    ensures again { RequestsAgain }
    ensures answered { RequestsMet }
    ensures refused { RefusalsEnd }
{}

/// Whatever was lost up to a tick: T1 ticks later, where nothing waits and no number is due, none is outstanding.
pub fn numbers_end()
    ensures { NumbersEnd }
{}

/// Of two Opened ends since when nothing is lost, whatever happens to them in order: both are Opened, or the first to leave did so by its user, by what
/// it had tried N times by then, at most T1 ticks later, by what it had not heard since before then, at most W ticks later, or by a TPDU
/// that it may not take; and where nothing waits the other has left too.
pub fn pairs_part()
    ensures { PairsPart }
{}

/// So by a tick later than the longer of T1 and W after that none leaves.
pub fn parted_in_time()
    ensures { PartedInTime }
{}

/// A DT afloat that carries the piece of its number, of units none of which is too large, makes none too large where it comes.
pub fn dts_fit()
    ensures { DtsFit }
{}

/// Of two Opened ends in the lines of their connection, whatever happens to them in order from a tick on at which nothing waits: no DT that comes
/// makes a unit too large, and no ED comes where expedited data is not agreed.
pub fn lines_fit()
    ensures { LinesFit }
{
    law_tp4_history::flowed();
}

/// Over each row an Opened end that is up to date since a tick is so still, whatever is lost; or its user disconnected, or a DR, an ER or a TPDU that it may not take came, or so many ticks have
/// passed since then that it may be exhausted or inactive.
pub fn rows_keep_up()
    ensures { RowsKeepUp }
{}

/// No step of an entity sends an ER.
pub fn none_sends_er()
    ensures { NoneSendsEr }
{}
