//! The refusals of the transport entities as a transcript has them (X.214, service primitives).

ghost use Rattle.std.specs.Prelude.{◌≡◌};
ghost use Rattle.tp4_world.specs.Telling.{told_call, told_connect, told_refusal};

use script_journal::Refused;
use tp4_conn::CallRefusal;
use tp4_entity::{ConnectRefusal, EntityRefusal};

/// Why an end refuses a call; want of memory is no refusal.
fn told_call(why: CallRefusal) -> Option<Refused>
    ensures { result ≡ told_call why }
{
    match why {
        CallRefusal::WrongState(state) => Some(Refused::WrongState(state)),
        CallRefusal::EmptyUnit => Some(Refused::EmptyUnit),
        CallRefusal::TooLong => Some(Refused::TooLong),
        CallRefusal::NoExpedited => Some(Refused::NoExpedited),
        CallRefusal::QueueFull => Some(Refused::QueueFull),
        CallRefusal::NoMemory => None,
    }
}

/// Why an entity refuses a call; want of memory is no refusal.
pub fn told_refusal(why: EntityRefusal) -> Option<Refused>
    ensures { result ≡ told_refusal why }
{
    match why {
        EntityRefusal::NoSuchEnd => Some(Refused::NoSuchEnd),
        EntityRefusal::Call(why) => told_call(why),
    }
}

/// Why a connection is not begun; want of memory is no refusal.
pub fn told_connect(why: ConnectRefusal) -> Option<Refused>
    ensures { result ≡ told_connect why }
{
    match why {
        ConnectRefusal::Silent => Some(Refused::Silent),
        ConnectRefusal::TooLong => Some(Refused::TooLong),
        ConnectRefusal::RefsSpent => Some(Refused::RefsSpent),
        ConnectRefusal::NoMemory => None,
    }
}
