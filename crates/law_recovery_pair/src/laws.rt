//! Each call of a half is moves of the road between two ends since when nothing is lost (X.224, class 4: retransmission, explicit flow
//! control).

ghost use Rattle.std.specs.Prelude.{ℕ};
ghost use Rattle.law_recovery_pair.specs.Laws.{AkOn, AksTakeView, CallsKeepView, ClockOn, DtFits, DtOn, EmptyFits, FirstAkOn, GrantFits, GrantOn, LateAkOn, LateDtOn, SubmitsOn, TicksOn, UrgesOn, EventsRecover, EventsSpeak, KnowsNoNewer, NewerIsTaken, UrgentRecover, ViewsRecover, ViewsRise};

/// What a sending half does, as it is called: it sends what may go, hears an AK, or sends again what is due.
pub fn sends()
    ensures submits { (life size u : ℕ) → SubmitsOn life size u }
    ensures urges { (life size u : ℕ) → UrgesOn life size u }
    ensures ticks { (life size u : ℕ) → TicksOn life size u }
    ensures first_ak { (life size u : ℕ) → FirstAkOn life size u }
    ensures late_ak { (life size u : ℕ) → LateAkOn life size u }
{}

/// What a receiving half does: it takes a DT and says so, gives a credit and says so, or says again what it says.
pub fn receives()
    ensures dt { (life size u : ℕ) → DtOn life size u }
    ensures late_dt { (life size u : ℕ) → LateDtOn life size u }
    ensures grant { (life size u : ℕ) → GrantOn life size u }
    ensures ak { (life size u : ℕ) → AkOn life size u }
    ensures clock { (life size u : ℕ) → ClockOn life size u }
{}

/// What a sending half knows of its receiver changes by an AK alone, and no number goes beyond the window.
pub fn keeps_view()
    ensures calls { CallsKeepView }
    ensures aks { AksTakeView }
{}

/// A receiving half has a place for each number within its credit, and the number expected is never held, as long as no unit is too
/// large.
pub fn fits()
    ensures empty { EmptyFits }
    ensures dt { DtFits }
    ensures grant { GrantFits }
{}

/// After any events, whatever was lost, repeated, delayed or reordered, what a receiver says only rises, and a
/// sender takes each AK afloat that is newer than what it knows.
pub fn views()
    ensures rise { ViewsRise }
    ensures takes { NewerIsTaken }
    ensures speaks { EventsSpeak }
    ensures knows { KnowsNoNewer }
{}

/// Whatever was lost up to a tick: where all that was sent after it was handed over, AKs in order, none of it waits, no end
/// is due, and as many ticks passed as the longer of T1 and W, sender and receiver know the same, and nothing is outstanding.
pub fn recovers()
    ensures events { EventsRecover }
    ensures views { ViewsRecover }
{}

/// Whatever was lost up to a tick: where each ED and EA sent after it was handed over in order, none of them waits,
/// none is due, and T1 ticks passed, no ED is outstanding, and the next one is the one expected.
pub fn recovers_urgently()
    ensures { UrgentRecover }
{}
