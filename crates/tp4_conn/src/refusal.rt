//! Why a call of the user is refused (X.224, class 4 state tables).

ghost use Rattle.std.specs.Prelude.{◌≡◌, length, option_copied};
ghost use Rattle.tp4_conn.specs.Calls.{call_refusal, is_listed, sending_of, too_long, unit_refusal, urgent_unit_refusal};

use crate::{CallRefusal, EndRecord, StateData, UserCall};
use osi_base::Bytes;
use tp4_flow::SubmitRefusal;
use tp4_sending::Sending;

/// The most octets of the user in a CC.
const MOST_IN_CC: usize = 32;

/// The most octets of the user in a DR.
const MOST_IN_DR: usize = 64;

/// Why a call is refused, the first that applies.
pub(crate) fn refusal(base: &EndRecord, stage: &StateData, call: &UserCall) -> Option<CallRefusal>
    ensures { result ≡ call_refusal base.now stage.now call.now }
{
    if !is_listed(stage, call) {
        return Some(CallRefusal::WrongState(stage.state()));
    }
    match call {
        UserCall::Accept(_, octets) => too_long(MOST_IN_CC, octets),
        UserCall::Refuse(octets) | UserCall::Disconnect(octets) => too_long(MOST_IN_DR, octets),
        UserCall::Normal(unit) => {
            let sending = sending_of(stage)?;
            unit_refusal(sending.refusal(unit.as_slice().len()))
        }
        UserCall::Urgent(unit) => {
            let sending = sending_of(stage)?;
            urgent_unit_refusal(
                base.is_expedited(),
                sending.urgent_refusal(unit.as_slice().len()),
            )
        }
        UserCall::Window(_) => None,
    }
}

/// Whether the state has a row for the call.
fn is_listed(stage: &StateData, call: &UserCall) -> bool
    ensures { result ≡ is_listed stage.now call.now }
{
    match stage {
        StateData::CrWait(_) => matches!(call, UserCall::Disconnect(_)),
        StateData::UserWait { .. } => matches!(call, UserCall::Accept(..) | UserCall::Refuse(_)),
        StateData::AkWait(_) => matches!(
            call,
            UserCall::Normal(_) | UserCall::Urgent(_) | UserCall::Disconnect(_)
        ),
        StateData::Opened(_) => matches!(
            call,
            UserCall::Normal(_)
                | UserCall::Urgent(_)
                | UserCall::Window(_)
                | UserCall::Disconnect(_)
        ),
        StateData::WaitBeforeClose(_) | StateData::Closing(_) | StateData::Frozen { .. } => false,
    }
}

/// The sending half of a state that has one.
fn sending_of(stage: &StateData) -> Option<&Sending>
    ensures { option_copied result ≡ sending_of stage.now }
{
    match stage {
        StateData::AkWait(wait) => Some(&wait.halves.get().sending),
        StateData::Opened(flow) => Some(&flow.halves.get().sending),
        StateData::CrWait(_)
        | StateData::WaitBeforeClose(_)
        | StateData::UserWait { .. }
        | StateData::Closing(_)
        | StateData::Frozen { .. } => None,
    }
}

/// More octets than these are too long.
fn too_long(most: usize, octets: &Bytes) -> Option<CallRefusal>
    ensures { result ≡ too_long most octets.now }
{
    if most < octets.as_slice().len() {
        Some(CallRefusal::TooLong)
    } else {
        None
    }
}

/// The refusal of a unit.
fn unit_refusal(why: Option<SubmitRefusal>) -> Option<CallRefusal>
    ensures { result ≡ unit_refusal why }
{
    match why? {
        SubmitRefusal::EmptyUnit => Some(CallRefusal::EmptyUnit),
        SubmitRefusal::TooLong => Some(CallRefusal::TooLong),
        SubmitRefusal::QueueFull => Some(CallRefusal::QueueFull),
    }
}

/// The refusal of an expedited unit.
fn urgent_unit_refusal(is_agreed: bool, why: Option<SubmitRefusal>) -> Option<CallRefusal>
    ensures { result ≡ urgent_unit_refusal is_agreed why }
{
    match why {
        Some(SubmitRefusal::EmptyUnit) => Some(CallRefusal::EmptyUnit),
        Some(SubmitRefusal::TooLong) => Some(CallRefusal::TooLong),
        Some(SubmitRefusal::QueueFull) if is_agreed => Some(CallRefusal::QueueFull),
        None if is_agreed => None,
        Some(SubmitRefusal::QueueFull) | None => Some(CallRefusal::NoExpedited),
    }
}
