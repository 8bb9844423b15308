//! All that waits in a carrier, taken up in a row (X.213, connectionless-mode network service).

ghost use Rattle.std.specs.Prelude.{IfOk};
ghost use Rattle.osi_base.specs.Gathering.{Gathers};

use crate::{Carrier, NoMemory, Up};
use std::alloc::Global;
use std::collections::VecDeque;

/// Takes up all that waits, in order.
///
/// At NoMemory the run ends.
pub fn gather<C: Carrier>(alloc: Global, carrier: &mut C) -> Result<VecDeque<Up<C::Addr>>, NoMemory>
where
    C::Addr: Drop,
    ensures { IfOk result (λ ups. Gathers C.link C.steps carrier.old ups.items carrier.new) }
{
    let mut ups = VecDeque::new(alloc);
    while let Some(up) = carrier.next_up() {
        ups.push_back(up)?;
    }
    Ok(ups)
}
