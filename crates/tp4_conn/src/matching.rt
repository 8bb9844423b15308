//! Which TPDUs match an end, and which have to have a checksum (X.224, class 4: association of TPDUs; checksum).

ghost use Rattle.std.specs.Prelude.{◌≡◌};
ghost use Rattle.tpdu.specs.Values.{tpdu_of, sum_of};
ghost use Rattle.tp4_conn.specs.Matching.{fits, is_answer, is_source, is_summed_confirm, wants_sum};

use crate::{EndRecord, StateData};
use tpdu::TpduRef;

/// Whether a TPDU has a checksum.
pub(crate) fn has_sum(tpdu: &TpduRef<'_>) -> bool
    ensures { result ≡ sum_of tpdu.now }
{
    match *tpdu {
        TpduRef::Cr { sum, .. }
        | TpduRef::Cc { sum, .. }
        | TpduRef::Dr { sum, .. }
        | TpduRef::Dc { sum, .. }
        | TpduRef::Dt { sum, .. }
        | TpduRef::Ed { sum, .. }
        | TpduRef::Ak { sum, .. }
        | TpduRef::Ea { sum, .. }
        | TpduRef::Er { sum, .. } => sum,
    }
}

/// Whether it is a CC that does not say no checksum.
fn is_summed_confirm(tpdu: &TpduRef<'_>) -> bool
    ensures { result ≡ is_summed_confirm (tpdu_of tpdu.now) }
{
    matches!(*tpdu, TpduRef::Cc { extra, .. } if extra / 2 % 2 == 0)
}

/// Whether a TPDU has to have a checksum.
pub(crate) fn wants_sum(base: &EndRecord, stage: &StateData, tpdu: &TpduRef<'_>) -> bool
    ensures { result ≡ wants_sum base.now stage.now (tpdu_of tpdu.now) }
{
    match stage {
        StateData::CrWait(_) | StateData::WaitBeforeClose(_) => is_summed_confirm(tpdu),
        StateData::UserWait { .. }
        | StateData::AkWait(_)
        | StateData::Opened(_)
        | StateData::Closing(_)
        | StateData::Frozen { .. } => match base.agreed {
            Some(options) => options.sum,
            None => false,
        },
    }
}

/// Whether the state takes the TPDU, and its source is right.
pub(crate) fn fits(base: &EndRecord, stage: &StateData, tpdu: &TpduRef<'_>) -> bool
    ensures { result ≡ fits base.now stage.now (tpdu_of tpdu.now) }
{
    match stage {
        StateData::CrWait(_) | StateData::WaitBeforeClose(_) => is_answer(tpdu),
        StateData::UserWait { .. } | StateData::Frozen { .. } => false,
        StateData::AkWait(_) => {
            is_source(base, tpdu) || matches!(*tpdu, TpduRef::Dr { source: 0, .. })
        }
        StateData::Opened(_) | StateData::Closing(_) => is_source(base, tpdu),
    }
}

/// Whether it is a CC or a DR.
fn is_answer(tpdu: &TpduRef<'_>) -> bool
    ensures { result ≡ is_answer (tpdu_of tpdu.now) }
{
    matches!(*tpdu, TpduRef::Cc { .. } | TpduRef::Dr { .. })
}

/// Whether the source of a CC, DR or DC is the partner's reference.
fn is_source(base: &EndRecord, tpdu: &TpduRef<'_>) -> bool
    ensures { result ≡ is_source base.now (tpdu_of tpdu.now) }
{
    match *tpdu {
        TpduRef::Cc { source, .. } | TpduRef::Dr { source, .. } | TpduRef::Dc { source, .. } => {
            source == base.partner
        }
        TpduRef::Cr { .. }
        | TpduRef::Dt { .. }
        | TpduRef::Ed { .. }
        | TpduRef::Ak { .. }
        | TpduRef::Ea { .. }
        | TpduRef::Er { .. } => true,
    }
}
