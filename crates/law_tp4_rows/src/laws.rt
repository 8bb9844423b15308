//! No row changes what an end is made with (X.224, class 4 state tables).

ghost use Rattle.law_tp4_rows.specs.Laws.{RowsLeave, ConnectsGive, IndicatesGive, RowsGive};

/// Each row leaves an end its reference, the address of its partner, which of the two it is, its timers and what was proposed;
/// the partner's reference, once it is known; what is agreed, unless halves begin; and an end that is frozen is so since that
/// tick, or as it was.
pub fn leaves()
    ensures { RowsLeave }
{}

/// Where all ends have timers with one credit, each CR and each CC gives it, also one that is sent again; and what an end
/// knows of its partner by them is that credit.
pub fn gives()
    ensures row { RowsGive }
    ensures connect { ConnectsGive }
    ensures indicate { IndicatesGive }
{}
