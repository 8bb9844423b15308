//! WaitBeforeClose: a CR was sent, and the user disconnected (X.224, class 4 state tables).

ghost use Rattle.std.specs.Prelude.{◌≡◌, IfOk};
ghost use Rattle.tpdu.specs.Values.{tpdu_of};
ghost use Rattle.tp4_conn.specs.declared.states.StateData.TheVariants.{WaitBeforeClose};
ghost use Rattle.tp4_conn.specs.End.{Does};
ghost use Rattle.tp4_conn.specs.WaitBeforeClose.{wait_before_close_tpdu, wait_before_close_tick};
ghost use Rattle.tp4_conn.specs.steps.Kept.{IsEnd, IsKept, IsSound};

use crate::end_record::EndRecord;
use crate::release::NORMAL;
use crate::{InWaitBeforeClose, StateData};
use osi_base::NoMemory;
use std::alloc::Global;
use tp4_flow::Step;
use tpdu::TpduRef;

/// A TPDU came.
#[tactic(auto, unfolding(crate::specs::WaitBeforeClose::wait_before_close_tpdu))]
pub(crate) fn on_tpdu(
    alloc: Global,
    base: &mut EndRecord,
    wait: InWaitBeforeClose,
    tpdu: &TpduRef<'_>,
    out: &mut Step,
) -> Result<StateData, NoMemory>
    requires end { IsEnd base.old (WaitBeforeClose wait) }
    ensures step { IfOk result (λ stage. Does (wait_before_close_tpdu base.old wait (tpdu_of tpdu.now)) base.new stage out.old out.new) }
    ensures sound { IfOk result (λ stage. IsSound base.new stage) }
    ensures kept { IsKept base.old base.new }
{
    match *tpdu {
        TpduRef::Cc { source, .. } => {
            base.partner = source;
            base.close(alloc, NORMAL, wait.octets, base.clock, out)
        }
        TpduRef::Dr { source, .. } => {
            base.send_dc(source, out)?;
            Ok(StateData::Frozen { at: base.clock })
        }
        TpduRef::Cr { .. }
        | TpduRef::Dc { .. }
        | TpduRef::Dt { .. }
        | TpduRef::Ed { .. }
        | TpduRef::Ak { .. }
        | TpduRef::Ea { .. }
        | TpduRef::Er { .. } => Ok(StateData::WaitBeforeClose(wait)),
    }
}

/// A tick of the clock.
#[tactic(auto, unfolding(crate::specs::WaitBeforeClose::wait_before_close_tick))]
pub(crate) fn on_tick(
    alloc: Global,
    base: &EndRecord,
    mut wait: InWaitBeforeClose,
    out: &mut Step,
) -> Result<StateData, NoMemory>
    requires end { IsEnd base.now (WaitBeforeClose wait) }
    ensures step { IfOk result (λ stage. Does (wait_before_close_tick base.now wait) base.now stage out.old out.new) }
    ensures sound { IfOk result (λ stage. IsSound base.now stage) }
{
    let tries = wait.request.tries;
    if !tries.is_due(base.timers.t1, base.clock) {
        return Ok(StateData::WaitBeforeClose(wait));
    }
    if tries.count < base.timers.sendings {
        base.send_request(alloc, wait.request.octets.as_slice(), out)?;
        wait.request.tries = tries.again(base.clock);
        return Ok(StateData::WaitBeforeClose(wait));
    }
    Ok(StateData::Frozen { at: base.clock })
}
