//! Why a call could not do its work.

ghost use Rattle.std.specs.Prelude.{◌≡◌, false, OnOk};
ghost use Rattle.osi_base.specs.declared.refusal.WriteRefusal.TheVariants.{NoMemory as WriteNoMemory};
ghost use Rattle.osi_base.specs.declared.refusal.HeaderRefusal.TheVariants.{NoMemory as HeaderNoMemory};

use std::alloc::{AllocError, AllocFailed};

/// A read that failed.
#[derive(Clone, Copy, Debug, PartialEq, Eq)]
pub struct Failed;

/// Memory ran out.
#[derive(Clone, Copy, Debug, PartialEq, Eq)]
pub struct NoMemory;

impl From<AllocError> for NoMemory {
    fn from(_: AllocError) -> NoMemory {
        NoMemory
    }
}

impl<T: Drop> From<AllocFailed<T>> for NoMemory {
    fn from(_: AllocFailed<T>) -> NoMemory {
        NoMemory
    }
}

/// After a call that ended for want of memory each further one wants it again: what that one left half done is not known.
pub fn go_on(stopped: bool) -> Result<(), NoMemory>
    ensures { OnOk result (stopped ≡ false) }
{
    if stopped {
        return Err(NoMemory);
    }
    Ok(())
}

/// Why a piece was not written.
#[derive(Clone, Copy, Debug, PartialEq, Eq)]
pub enum WriteRefusal {
    /// The write failed.
    Failed,
    /// Memory ran out.
    NoMemory,
}

impl From<AllocError> for WriteRefusal {
    ghost from_gives = { λ _ e. e ≡ WriteNoMemory };

    fn from(_: AllocError) -> WriteRefusal {
        WriteRefusal::NoMemory
    }
}

/// Why a PDU was not written.
#[derive(Clone, Copy, Debug, PartialEq, Eq)]
pub enum HeaderRefusal {
    /// A length that the format's fields cannot hold.
    TooLong,
    /// Memory ran out.
    NoMemory,
}

impl From<AllocError> for HeaderRefusal {
    ghost from_gives = { λ _ e. e ≡ HeaderNoMemory };

    fn from(_: AllocError) -> HeaderRefusal {
        HeaderRefusal::NoMemory
    }
}

impl<T: Drop> From<AllocFailed<T>> for HeaderRefusal {
    ghost from_gives = { λ _ e. e ≡ HeaderNoMemory };

    fn from(_: AllocFailed<T>) -> HeaderRefusal {
        HeaderRefusal::NoMemory
    }
}
