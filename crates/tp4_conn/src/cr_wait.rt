//! CrWait: a CR was sent (X.224, class 4 state tables).

ghost use Rattle.std.specs.Prelude.{◌≡◌, ◌≤◌, IfOk, Some};
ghost use Rattle.tpdu.specs.Values.{tpdu_of};
ghost use Rattle.tpdu.specs.Writing.{IsAllowed};
ghost use Rattle.tp4_conn.specs.declared.states.StateData.TheVariants.{CrWait};
ghost use Rattle.tp4_conn.specs.CrWait.{cr_wait_tpdu, cr_wait_tick, confirmed};
ghost use Rattle.tp4_conn.specs.End.{Does, IsSized, IsTimed, agreed_format};
ghost use Rattle.tp4_conn.specs.steps.Kept.{IsEnd, IsKept, IsSound};

use crate::end_record::{EndRecord, copied};
use crate::proposed::{is_within, options_in};
use crate::release::PROTOCOL_ERROR;
use crate::{InCrWait, InOpened, StateData};
use osi_base::NoMemory;
use std::alloc::Global;
use tp4_flow::Step;
use tpdu::{EndTold, GoneCause, Options, TpduRef};

/// A TPDU came.
#[tactic(auto, using(crate::proofs::Sizes::read_sized), unfolding(crate::specs::CrWait::cr_wait_tpdu))]
pub(crate) fn on_tpdu(
    alloc: Global,
    base: &mut EndRecord,
    wait: InCrWait,
    tpdu: &TpduRef<'_>,
    out: &mut Step,
) -> Result<StateData, NoMemory>
    requires end { IsEnd base.old (CrWait wait) }
    requires allowed { IsAllowed (agreed_format base.old.agreed) (tpdu_of tpdu.now) }
    ensures step { IfOk result (λ stage. Does (cr_wait_tpdu base.old wait (tpdu_of tpdu.now)) base.new stage out.old out.new) }
    ensures sound { IfOk result (λ stage. IsSound base.new stage) }
    ensures kept { IsKept base.old base.new }
{
    match *tpdu {
        TpduRef::Cc {
            credit,
            source,
            format,
            size,
            preferred,
            extra,
            octets,
            ..
        } => {
            base.partner = source;
            if !is_within(base.proposed, format, size, preferred, extra) {
                return base.fail(alloc, GoneCause::Protocol, PROTOCOL_ERROR, base.clock, out);
            }
            let options = options_in(format, size, preferred, extra);
            base.credit = u16::from(credit);
            base.agreed = Some(options);
            open(alloc, base, options, octets, out)
        }
        TpduRef::Dr {
            source,
            reason,
            octets,
            ..
        } => base.part(source, reason, copied(alloc, octets)?, out),
        TpduRef::Cr { .. }
        | TpduRef::Dc { .. }
        | TpduRef::Dt { .. }
        | TpduRef::Ed { .. }
        | TpduRef::Ak { .. }
        | TpduRef::Ea { .. }
        | TpduRef::Er { .. } => Ok(StateData::CrWait(wait)),
    }
}

/// Confirm; AK; Opened.
fn open(
    alloc: Global,
    base: &EndRecord,
    options: Options,
    octets: &[u8],
    out: &mut Step,
) -> Result<StateData, NoMemory>
    requires timers { IsTimed base.now.timers }
    requires size { IsSized options }
    requires credit { base.now.credit ≤ 15 }
    requires low { base.now.clock ≤ 4000000000 }
    requires agreed { base.now.agreed ≡ Some options }
    ensures step { IfOk result (λ stage. Does (confirmed base.now options octets.now) base.now stage out.old out.new) }
    ensures sound { IfOk result (λ stage. IsSound base.now stage) }
{
    let mut halves = base.halves(alloc, options)?;
    let octets = copied(alloc, octets)?;
    base.tell(EndTold::Confirm { options, octets }, out)?;
    halves.get_mut().sending.open(base.clock, out)?;
    halves.get().receiving.acknowledge(out)?;
    Ok(StateData::Opened(InOpened {
        took: base.clock,
        acked: base.clock,
        halves,
    }))
}

/// A tick of the clock.
#[tactic(auto, unfolding(crate::specs::CrWait::cr_wait_tick))]
pub(crate) fn on_tick(
    alloc: Global,
    base: &EndRecord,
    mut wait: InCrWait,
    out: &mut Step,
) -> Result<StateData, NoMemory>
    requires end { IsEnd base.now (CrWait wait) }
    ensures step { IfOk result (λ stage. Does (cr_wait_tick base.now wait) base.now stage out.old out.new) }
    ensures sound { IfOk result (λ stage. IsSound base.now stage) }
{
    if !wait.tries.is_due(base.timers.t1, base.clock) {
        return Ok(StateData::CrWait(wait));
    }
    if wait.tries.count < base.timers.sendings {
        base.send_request(alloc, wait.octets.as_slice(), out)?;
        wait.tries = wait.tries.again(base.clock);
        return Ok(StateData::CrWait(wait));
    }
    base.gone(alloc, GoneCause::Exhausted, out)?;
    Ok(StateData::Frozen { at: base.clock })
}
