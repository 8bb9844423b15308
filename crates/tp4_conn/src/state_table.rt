//! The rows of each state (X.224, class 4 state tables).

ghost use Rattle.std.specs.Prelude.{◌≡◌, IfOk, None};
ghost use Rattle.tpdu.specs.Values.{tpdu_of};
ghost use Rattle.tpdu.specs.Writing.{IsAllowed};
ghost use Rattle.tp4_number.specs.Number;
ghost use Rattle.tp4_conn.specs.Calls.{IsCall, call_refusal};
ghost use Rattle.tp4_conn.specs.End.{Does, agreed_format};
ghost use Rattle.tp4_conn.specs.Table.{on_tpdu, on_tick, on_call};
ghost use Rattle.tp4_conn.specs.steps.Kept.{IsEnd, IsKept, IsSound};

use crate::{
    EndRecord, InWaitBeforeClose, StateData, UserCall, ak_wait, closing, cr_wait, opened,
    user_wait, wait_before_close,
};
use osi_base::NoMemory;
use std::alloc::Global;
use tp4_flow::Step;
use tpdu::TpduRef;

/// The row of a matching TPDU.
pub(crate) fn on_tpdu(
    alloc: Global,
    base: &mut EndRecord,
    stage: StateData,
    tpdu: &TpduRef<'_>,
    out: &mut Step,
) -> Result<StateData, NoMemory>
    requires end { IsEnd base.old stage }
    requires allowed { IsAllowed (agreed_format base.old.agreed) (tpdu_of tpdu.now) }
    ensures step { IfOk result (λ after. Does (on_tpdu Number.wire base.old stage (tpdu_of tpdu.now)) base.new after out.old out.new) }
    ensures sound { IfOk result (λ after. IsSound base.new after) }
    ensures kept { IsKept base.old base.new }
{
    match stage {
        StateData::CrWait(wait) => cr_wait::on_tpdu(alloc, base, wait, tpdu, out),
        StateData::WaitBeforeClose(wait) => wait_before_close::on_tpdu(
            alloc, base, wait, tpdu, out,
        ),
        StateData::UserWait { since } => Ok(StateData::UserWait { since }),
        StateData::AkWait(wait) => ak_wait::on_tpdu(alloc, base, wait, tpdu, out),
        StateData::Opened(mut flow) => {
            flow.took = base.clock;
            opened::on_tpdu(alloc, base, flow, tpdu, out)
        }
        StateData::Closing(close) => Ok(closing::on_tpdu(base, close, tpdu, out)),
        StateData::Frozen { at } => Ok(StateData::Frozen { at }),
    }
}

/// The row of a tick.
pub(crate) fn on_tick(
    alloc: Global,
    base: &EndRecord,
    stage: StateData,
    out: &mut Step,
) -> Result<StateData, NoMemory>
    requires end { IsEnd base.now stage }
    ensures step { IfOk result (λ after. Does (on_tick base.now stage) base.now after out.old out.new) }
    ensures sound { IfOk result (λ after. IsSound base.now after) }
{
    match stage {
        StateData::CrWait(wait) => cr_wait::on_tick(alloc, base, wait, out),
        StateData::WaitBeforeClose(wait) => wait_before_close::on_tick(alloc, base, wait, out),
        StateData::UserWait { since } => user_wait::on_tick(alloc, base, since, out),
        StateData::AkWait(wait) => ak_wait::on_tick(alloc, base, wait, out),
        StateData::Opened(flow) => opened::on_tick(alloc, base, flow, out),
        StateData::Closing(close) => closing::on_tick(alloc, base, close, out),
        StateData::Frozen { at } => Ok(StateData::Frozen { at }),
    }
}

/// The row of a call that is not refused.
pub(crate) fn on_call(
    alloc: Global,
    base: &mut EndRecord,
    stage: StateData,
    call: UserCall,
    out: &mut Step,
) -> Result<StateData, NoMemory>
    requires end { IsEnd base.old stage }
    requires call { IsCall call }
    requires allowed { call_refusal base.old stage call ≡ None }
    ensures step { IfOk result (λ after. Does (on_call base.old stage call) base.new after out.old out.new) }
    ensures sound { IfOk result (λ after. IsSound base.new after) }
    ensures kept { IsKept base.old base.new }
{
    match stage {
        StateData::CrWait(request) => match call {
            UserCall::Disconnect(octets) => {
                Ok(StateData::WaitBeforeClose(InWaitBeforeClose { request, octets }))
            }
            UserCall::Accept(..)
            | UserCall::Refuse(_)
            | UserCall::Normal(_)
            | UserCall::Urgent(_)
            | UserCall::Window(_) => unreachable!(),
        },
        StateData::UserWait { since } => match call {
            UserCall::Accept(asked, octets) => user_wait::accept(alloc, base, asked, octets, out),
            UserCall::Refuse(octets) => user_wait::refuse(alloc, base, octets.as_slice(), out),
            UserCall::Normal(_)
            | UserCall::Urgent(_)
            | UserCall::Window(_)
            | UserCall::Disconnect(_) => unreachable!(),
        },
        StateData::AkWait(wait) => ak_wait::on_call(alloc, base, wait, call, out),
        StateData::Opened(flow) => opened::on_call(alloc, base, flow, call, out),
        StateData::WaitBeforeClose(_) | StateData::Closing(_) | StateData::Frozen { .. } =>
            unreachable!(),
    }
}
