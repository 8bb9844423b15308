//! UserWait: a CR came, and the user has not answered (X.224, class 4 state tables).

ghost use Rattle.std.specs.Prelude.{◌≡◌, ◌∷◌, ◌++◌, [], IfOk, OnOk};
ghost use Rattle.tp4_conn.specs.declared.states.StateData.TheVariants.{UserWait};
ghost use Rattle.tp4_conn.specs.End.{Does, IsSized};
ghost use Rattle.tp4_conn.specs.UserWait.{user_wait_accept, user_wait_refuse, user_wait_tick, refusing};
ghost use Rattle.tp4_conn.specs.steps.Kept.{IsEnd, IsKept, IsSound};

use crate::end_record::{EndRecord, copied};
use crate::inactivity::is_inactive;
use crate::proposed::agreed_by;
use crate::release::NORMAL;
use crate::{InAkWait, StateData};
use osi_base::{Bytes, NoMemory, Tick};
use std::alloc::Global;
use tp4_flow::Step;
use tp4_sending::Tries;
use tpdu::{EndTold, GoneCause, Options, Tpdu};

/// The user accepts.
#[tactic(auto, using(crate::proofs::Sizes::agreed_sized), unfolding(crate::specs::UserWait::user_wait_accept))]
pub(crate) fn accept(
    alloc: Global,
    base: &mut EndRecord,
    asked: Options,
    octets: Bytes,
    out: &mut Step,
) -> Result<StateData, NoMemory>
    requires end { IsEnd base.old (UserWait base.old.clock) }
    requires asked { IsSized asked }
    ensures step { IfOk result (λ stage. Does (user_wait_accept base.old asked octets) base.new stage out.old out.new) }
    ensures sound { IfOk result (λ stage. IsSound base.new stage) }
    ensures kept { IsKept base.old base.new }
{
    let options = agreed_by(base.proposed, asked);
    base.agreed = Some(options);
    let told = copied(alloc, octets.as_slice())?;
    base.tell(
        EndTold::Accept {
            options,
            octets: told,
        },
        out,
    )?;
    base.send_confirm(alloc, options, octets.as_slice(), out)?;
    Ok(StateData::AkWait(InAkWait {
        octets,
        first: base.clock,
        tries: Tries::once(base.clock),
        halves: base.halves(alloc, options)?,
    }))
}

/// The DR of an end that refuses.
fn send_refusal(
    alloc: Global,
    base: &EndRecord,
    octets: &[u8],
    out: &mut Step,
) -> Result<(), NoMemory>
    ensures { OnOk result (out.new ≡ record out.old { tpdus = out.old.tpdus ++ refusing base.now octets.now ∷ [] }) }
{
    let tpdu = Tpdu::Dr {
        destination: base.partner,
        source: 0,
        reason: NORMAL,
        info: None,
        octets: copied(alloc, octets)?,
    };
    base.send(tpdu, out)
}

/// The user refuses.
#[tactic(auto, unfolding(crate::specs::UserWait::user_wait_refuse))]
pub(crate) fn refuse(
    alloc: Global,
    base: &EndRecord,
    octets: &[u8],
    out: &mut Step,
) -> Result<StateData, NoMemory>
    ensures step { IfOk result (λ stage. Does (user_wait_refuse base.now octets.now) base.now stage out.old out.new) }
    ensures sound { IfOk result (λ stage. IsSound base.now stage) }
{
    send_refusal(alloc, base, octets, out)?;
    Ok(StateData::Frozen { at: base.clock })
}

/// A tick of the clock.
#[tactic(auto, unfolding(crate::specs::UserWait::user_wait_tick, crate::specs::UserWait::user_wait_refuse))]
pub(crate) fn on_tick(
    alloc: Global,
    base: &EndRecord,
    since: Tick,
    out: &mut Step,
) -> Result<StateData, NoMemory>
    requires end { IsEnd base.now (UserWait since) }
    ensures step { IfOk result (λ stage. Does (user_wait_tick base.now since) base.now stage out.old out.new) }
    ensures sound { IfOk result (λ stage. IsSound base.now stage) }
{
    if !is_inactive(base, since) {
        return Ok(StateData::UserWait { since });
    }
    base.gone(alloc, GoneCause::AnswerTime, out)?;
    refuse(alloc, base, &[], out)
}
