//! The inactivity timer (X.224, inactivity control).

ghost use Rattle.std.specs.Prelude.{◌≡◌, ◌+◌, nat_le};

use crate::end_record::EndRecord;
use osi_base::Tick;
use tp4_sending::is_past;

/// Whether the inactivity time I passed since then: in Opened since a TPDU was taken, in UserWait since the CR came.
pub(crate) fn is_inactive(base: &EndRecord, since: Tick) -> bool
    ensures { result ≡ nat_le (since + base.now.timers.inactive) base.now.clock }
{
    is_past(since, base.timers.inactive, base.clock)
}
