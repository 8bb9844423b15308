//! The states of an end, with what it has in each alone (X.224, class 4 state tables).

ghost use Rattle.std.specs.Prelude.{◌≡◌};
ghost use Rattle.tp4_conn.specs.Calls.{state_of};

use crate::BoxedHalves;
use osi_base::{Bytes, Tick};
use tp4_sending::Tries;
use tpdu::State;

/// The octets of a CR, and its sendings.
#[derive(Drop)]
pub struct InCrWait {
    pub octets: Bytes,
    pub tries: Tries,
}

/// A CR, and the octets of the user who disconnected.
#[derive(Drop)]
pub struct InWaitBeforeClose {
    pub request: InCrWait,
    pub octets: Bytes,
}

/// The octets of a CC, its first sending and all its sendings; and the halves, not open yet.
#[derive(Drop)]
pub struct InAkWait {
    pub octets: Bytes,
    pub first: Tick,
    pub tries: Tries,
    pub halves: BoxedHalves,
}

/// When the last matching TPDU was taken and the last AK sent, each since Opened where there was none; and the halves.
#[derive(Drop)]
pub struct InOpened {
    pub took: Tick,
    pub acked: Tick,
    pub halves: BoxedHalves,
}

/// The reason and the octets of a DR, the tick from which its time counts, and its last sending.
#[derive(Drop)]
pub struct InClosing {
    pub reason: u8,
    pub octets: Bytes,
    pub from: Tick,
    pub last: Tick,
}

/// A state with what an end has in it alone.
#[derive(Drop)]
pub enum StateData {
    CrWait(InCrWait),
    WaitBeforeClose(InWaitBeforeClose),
    /// Since the connect indication.
    UserWait { since: Tick },
    AkWait(InAkWait),
    Opened(InOpened),
    Closing(InClosing),
    Frozen { at: Tick },
}

impl StateData {
    /// The state by name.
    pub(crate) fn state(&self) -> State
        ensures { result ≡ state_of self.now }
    {
        match self {
            StateData::CrWait(_) => State::CrWait,
            StateData::WaitBeforeClose(_) => State::WaitBeforeClose,
            StateData::UserWait { .. } => State::UserWait,
            StateData::AkWait(_) => State::AkWait,
            StateData::Opened(_) => State::Opened,
            StateData::Closing(_) => State::Closing,
            StateData::Frozen { .. } => State::Frozen,
        }
    }
}
