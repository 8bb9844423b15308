//! AkWait: a CC was sent (X.224, class 4 state tables).

ghost use Rattle.std.specs.Prelude.{◌≡◌, IfOk, None};
ghost use Rattle.tpdu.specs.Values.{tpdu_of};
ghost use Rattle.tpdu.specs.Writing.{IsAllowed};
ghost use Rattle.tp4_number.specs.Number;
ghost use Rattle.tp4_conn.specs.declared.states.StateData.TheVariants.{AkWait};
ghost use Rattle.tp4_conn.specs.AkWait.{ak_wait_tpdu, ak_wait_tick, opening};
ghost use Rattle.tp4_conn.specs.Calls.{call_refusal};
ghost use Rattle.tp4_conn.specs.End.{Does, agreed_format};
ghost use Rattle.tp4_conn.specs.Table.{on_call};
ghost use Rattle.tp4_conn.specs.steps.Kept.{IsEnd, IsSound};

use crate::end_record::{EndRecord, copied};
use crate::release::PROTOCOL_ERROR;
use crate::{InAkWait, InOpened, StateData, UserCall, opened};
use osi_base::NoMemory;
use std::alloc::Global;
use tp4_flow::Step;
use tpdu::{GoneCause, TpduRef};

/// A TPDU came.
#[tactic(auto, unfolding(crate::specs::AkWait::ak_wait_tpdu))]
pub(crate) fn on_tpdu(
    alloc: Global,
    base: &EndRecord,
    wait: InAkWait,
    tpdu: &TpduRef<'_>,
    out: &mut Step,
) -> Result<StateData, NoMemory>
    requires end { IsEnd base.now (AkWait wait) }
    requires allowed { IsAllowed (agreed_format base.now.agreed) (tpdu_of tpdu.now) }
    ensures step { IfOk result (λ stage. Does (ak_wait_tpdu Number.wire base.now wait (tpdu_of tpdu.now)) base.now stage out.old out.new) }
    ensures sound { IfOk result (λ stage. IsSound base.now stage) }
{
    match *tpdu {
        TpduRef::Ak { .. } | TpduRef::Dt { .. } | TpduRef::Ed { .. } | TpduRef::Ea { .. } => {
            open(alloc, base, wait, tpdu, out)
        }
        TpduRef::Dr {
            source,
            reason,
            octets,
            ..
        } => base.part(source, reason, copied(alloc, octets)?, out),
        TpduRef::Er { .. } => base.fail(
            alloc,
            GoneCause::Protocol,
            PROTOCOL_ERROR,
            wait.first,
            out,
        ),
        TpduRef::Cr { .. } => Ok(StateData::AkWait(wait)),
        TpduRef::Cc { .. } => Ok(StateData::AkWait(wait)),
        TpduRef::Dc { .. } => Ok(StateData::AkWait(wait)),
    }
}

/// Opened, and then the TPDU as there.
fn open(
    alloc: Global,
    base: &EndRecord,
    wait: InAkWait,
    tpdu: &TpduRef<'_>,
    out: &mut Step,
) -> Result<StateData, NoMemory>
    requires end { IsEnd base.now (AkWait wait) }
    requires allowed { IsAllowed (agreed_format base.now.agreed) (tpdu_of tpdu.now) }
    ensures step { IfOk result (λ stage. Does (opening Number.wire base.now wait.halves (tpdu_of tpdu.now)) base.now stage out.old out.new) }
    ensures sound { IfOk result (λ stage. IsSound base.now stage) }
{
    let mut halves = wait.halves;
    halves.get_mut().sending.open(base.clock, out)?;
    let open = InOpened {
        took: base.clock,
        acked: base.clock,
        halves,
    };
    opened::on_tpdu(alloc, base, open, tpdu, out)
}

/// A tick of the clock.
#[tactic(auto, unfolding(crate::specs::AkWait::ak_wait_tick))]
pub(crate) fn on_tick(
    alloc: Global,
    base: &EndRecord,
    mut wait: InAkWait,
    out: &mut Step,
) -> Result<StateData, NoMemory>
    requires end { IsEnd base.now (AkWait wait) }
    ensures step { IfOk result (λ stage. Does (ak_wait_tick base.now wait) base.now stage out.old out.new) }
    ensures sound { IfOk result (λ stage. IsSound base.now stage) }
{
    if !wait.tries.is_due(base.timers.t1, base.clock) {
        return Ok(StateData::AkWait(wait));
    }
    if wait.tries.count < base.timers.sendings {
        if let Some(options) = base.agreed {
            base.send_confirm(alloc, options, wait.octets.as_slice(), out)?;
        }
        wait.tries = wait.tries.again(base.clock);
        return Ok(StateData::AkWait(wait));
    }
    base.gone(alloc, GoneCause::Exhausted, out)?;
    Ok(StateData::Frozen { at: base.clock })
}

/// A call of the user that is not refused.
#[tactic(auto, using(crate::proofs::Takings::normal_waits, crate::proofs::Takings::urgent_waits))]
pub(crate) fn on_call(
    alloc: Global,
    base: &EndRecord,
    mut wait: InAkWait,
    call: UserCall,
    out: &mut Step,
) -> Result<StateData, NoMemory>
    requires end { IsEnd base.now (AkWait wait) }
    requires allowed { call_refusal base.now (AkWait wait) call ≡ None }
    ensures step { IfOk result (λ stage. Does (on_call base.now (AkWait wait) call) base.now stage out.old out.new) }
    ensures sound { IfOk result (λ stage. IsSound base.now stage) }
{
    match call {
        UserCall::Normal(unit) => {
            wait.halves.get_mut().submit(base.clock, unit, out)?;
            Ok(StateData::AkWait(wait))
        }
        UserCall::Urgent(unit) => {
            wait.halves.get_mut().expedite(base.clock, unit, out)?;
            Ok(StateData::AkWait(wait))
        }
        UserCall::Disconnect(octets) => base.disconnect(alloc, octets, wait.first, out),
        UserCall::Accept(..) | UserCall::Refuse(_) | UserCall::Window(_) => unreachable!(),
    }
}
