//! Opened: data flow both ways (X.224, class 4 state tables; flow control; inactivity control).

ghost use Rattle.std.specs.Prelude.{◌≡◌, ◌<◌, ◌≤◌, ◌*◌, IfOk, None};
ghost use Rattle.tpdu.specs.Values.{tpdu_of};
ghost use Rattle.tpdu.specs.Writing.{IsAllowed};
ghost use Rattle.tp4_number.specs.Formats.{block_of};
ghost use Rattle.tp4_number.specs.Number;
ghost use Rattle.tp4_conn.specs.declared.states.StateData.TheVariants.{Opened};
ghost use Rattle.tp4_conn.specs.End.{Does, agreed_format};
ghost use Rattle.tp4_conn.specs.Calls.{IsCall, call_refusal};
ghost use Rattle.tp4_conn.specs.Opened.{opened_tpdu, opened_tick, opened_window, on_dt};
ghost use Rattle.tp4_conn.specs.Table.{on_call};
ghost use Rattle.tp4_conn.specs.steps.Kept.{IsEnd, IsSound};

use crate::end_record::{EndRecord, copied};
use crate::inactivity::is_inactive;
use crate::release::{NORMAL, PROTOCOL_ERROR};
use crate::{InOpened, StateData, UserCall};
use osi_base::NoMemory;
use std::alloc::Global;
use tp4_flow::{Life, Step};
use tp4_number::Got;
use tp4_sending::is_past;
use tpdu::{EndTold, GoneCause, TpduRef};

/// A TPDU came, which counts as taken now.
#[tactic(auto, using(crate::proofs::Credits::granted_any), unfolding(crate::specs::Opened::opened_tpdu))]
pub(crate) fn on_tpdu(
    alloc: Global,
    base: &EndRecord,
    mut flow: InOpened,
    tpdu: &TpduRef<'_>,
    out: &mut Step,
) -> Result<StateData, NoMemory>
    requires end { IsEnd base.now (Opened flow) }
    requires allowed { IsAllowed (agreed_format base.now.agreed) (tpdu_of tpdu.now) }
    ensures step { IfOk result (λ stage. Does (opened_tpdu Number.wire base.now flow (tpdu_of tpdu.now)) base.now stage out.old out.new) }
    ensures sound { IfOk result (λ stage. IsSound base.now stage) }
{
    match *tpdu {
        TpduRef::Cc { .. } => {
            flow.halves.get().receiving.acknowledge(out)?;
            flow.acked = base.clock;
            Ok(StateData::Opened(flow))
        }
        TpduRef::Dr {
            source,
            reason,
            octets,
            ..
        } => base.part(source, reason, copied(alloc, octets)?, out),
        TpduRef::Er { .. } => base.fail(
            alloc,
            GoneCause::Protocol,
            PROTOCOL_ERROR,
            base.clock,
            out,
        ),
        TpduRef::Dt {
            last,
            number,
            octets,
            ..
        } => match flow
            .halves
            .get_mut()
            .receiving
            .on_dt(number, last, octets, out)?
        {
            Got::TooLarge => base.fail(alloc, GoneCause::Protocol, PROTOCOL_ERROR, base.clock, out),
            Got::Kept | Got::Old | Got::Outside => {
                flow.acked = base.clock;
                Ok(StateData::Opened(flow))
            }
        },
        TpduRef::Ed { number, octets, .. } => {
            if !base.is_expedited() {
                return base.fail(alloc, GoneCause::Protocol, PROTOCOL_ERROR, base.clock, out);
            }
            flow.halves.get_mut().receiving.on_ed(number, octets, out)?;
            Ok(StateData::Opened(flow))
        }
        TpduRef::Ak {
            number,
            credit,
            subsequence,
            ..
        } => {
            flow.halves
                .get_mut()
                .sending
                .on_ak(base.clock, number, credit, subsequence, out)?;
            Ok(StateData::Opened(flow))
        }
        TpduRef::Ea { number, .. } => {
            flow.halves
                .get_mut()
                .sending
                .on_ea(base.clock, number, out)?;
            Ok(StateData::Opened(flow))
        }
        TpduRef::Cr { .. } => Ok(StateData::Opened(flow)),
        TpduRef::Dc { .. } => Ok(StateData::Opened(flow)),
    }
}

/// A tick of the clock.
#[tactic(auto, unfolding(crate::specs::Opened::opened_tick))]
pub(crate) fn on_tick(
    alloc: Global,
    base: &EndRecord,
    mut flow: InOpened,
    out: &mut Step,
) -> Result<StateData, NoMemory>
    requires end { IsEnd base.now (Opened flow) }
    ensures step { IfOk result (λ stage. Does (opened_tick base.now flow) base.now stage out.old out.new) }
    ensures sound { IfOk result (λ stage. IsSound base.now stage) }
{
    if is_inactive(base, flow.took) {
        return base.fail(alloc, GoneCause::Inactive, NORMAL, base.clock, out);
    }
    match flow.halves.get_mut().sending.tick(base.clock, out)? {
        Life::Exhausted => return base.fail(alloc, GoneCause::Exhausted, NORMAL, base.clock, out),
        Life::Goes => {}
    }
    if !is_past(flow.acked, base.timers.window, base.clock) {
        return Ok(StateData::Opened(flow));
    }
    flow.halves.get().receiving.acknowledge(out)?;
    flow.acked = base.clock;
    Ok(StateData::Opened(flow))
}

/// A call of the user that is not refused.
#[tactic(auto, using(crate::proofs::Takings::normal_opened, crate::proofs::Takings::urgent_opened))]
pub(crate) fn on_call(
    alloc: Global,
    base: &EndRecord,
    mut flow: InOpened,
    call: UserCall,
    out: &mut Step,
) -> Result<StateData, NoMemory>
    requires end { IsEnd base.now (Opened flow) }
    requires call { IsCall call }
    requires allowed { call_refusal base.now (Opened flow) call ≡ None }
    ensures step { IfOk result (λ stage. Does (on_call base.now (Opened flow) call) base.now stage out.old out.new) }
    ensures sound { IfOk result (λ stage. IsSound base.now stage) }
{
    match call {
        UserCall::Normal(unit) => {
            flow.halves.get_mut().submit(base.clock, unit, out)?;
            Ok(StateData::Opened(flow))
        }
        UserCall::Urgent(unit) => {
            flow.halves.get_mut().expedite(base.clock, unit, out)?;
            Ok(StateData::Opened(flow))
        }
        UserCall::Window(credit) => grant(base, flow, credit, out),
        UserCall::Disconnect(octets) => base.disconnect(alloc, octets, base.clock, out),
        UserCall::Accept(..) | UserCall::Refuse(_) => unreachable!(),
    }
}

/// The user wants this credit.
fn grant(
    base: &EndRecord,
    mut flow: InOpened,
    credit: u16,
    out: &mut Step,
) -> Result<StateData, NoMemory>
    requires end { IsEnd base.now (Opened flow) }
    requires credit { credit ≤ 255 }
    ensures step { IfOk result (λ stage. Does (opened_window base.now flow credit) base.now stage out.old out.new) }
    ensures sound { IfOk result (λ stage. IsSound base.now stage) }
{
    let before = flow.halves.get().receiving.credit();
    let after = flow.halves.get_mut().receiving.grant(credit);
    base.tell(EndTold::Window(after), out)?;
    if after != before {
        flow.halves.get().receiving.acknowledge(out)?;
        flow.acked = base.clock;
    }
    Ok(StateData::Opened(flow))
}
