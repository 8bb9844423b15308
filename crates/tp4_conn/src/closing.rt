//! Closing: a DR was sent (X.224, class 4 state tables).

ghost use Rattle.std.specs.Prelude.{◌≡◌, IfOk};
ghost use Rattle.tpdu.specs.Values.{tpdu_of};
ghost use Rattle.tp4_conn.specs.declared.states.StateData.TheVariants.{Closing};
ghost use Rattle.tp4_conn.specs.Closing.{closing_tpdu, closing_tick};
ghost use Rattle.tp4_conn.specs.End.{Does};
ghost use Rattle.tp4_conn.specs.steps.Kept.{IsEnd, IsSound};

use crate::{EndRecord, InClosing, StateData};
use osi_base::NoMemory;
use std::alloc::Global;
use tp4_flow::Step;
use tp4_sending::is_past;
use tpdu::TpduRef;

/// A TPDU came.
#[tactic(auto, unfolding(crate::specs::Closing::closing_tpdu))]
pub(crate) fn on_tpdu(
    base: &EndRecord,
    close: InClosing,
    tpdu: &TpduRef<'_>,
    out: &Step,
) -> StateData
    requires end { IsEnd base.now (Closing close) }
    ensures step { Does (closing_tpdu base.now close (tpdu_of tpdu.now)) base.now result out.now out.now }
    ensures sound { IsSound base.now result }
{
    match *tpdu {
        TpduRef::Dc { .. } | TpduRef::Dr { .. } => StateData::Frozen { at: base.clock },
        TpduRef::Cr { .. }
        | TpduRef::Cc { .. }
        | TpduRef::Dt { .. }
        | TpduRef::Ed { .. }
        | TpduRef::Ak { .. }
        | TpduRef::Ea { .. }
        | TpduRef::Er { .. } => StateData::Closing(close),
    }
}

/// A tick of the clock.
#[tactic(auto, unfolding(crate::specs::Closing::closing_tick))]
pub(crate) fn on_tick(
    alloc: Global,
    base: &EndRecord,
    mut close: InClosing,
    out: &mut Step,
) -> Result<StateData, NoMemory>
    requires end { IsEnd base.now (Closing close) }
    ensures step { IfOk result (λ stage. Does (closing_tick base.now close) base.now stage out.old out.new) }
    ensures sound { IfOk result (λ stage. IsSound base.now stage) }
{
    let span = base.timers.span();
    if is_past(close.from, span, base.clock) {
        return Ok(StateData::Frozen { at: base.clock });
    }
    if is_past(close.last, base.timers.t1, base.clock) {
        base.send_release(alloc, close.reason, close.octets.as_slice(), out)?;
        close.last = base.clock;
    }
    Ok(StateData::Closing(close))
}
