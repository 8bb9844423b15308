//! The units that wait for an end: where there are too many, both ends are disconnected; else the credit follows them.

ghost use Rattle.std.specs.Prelude.{◌≡◌, ◌<◌, ◌≤◌, List, length, IfOk, OnErr};
ghost use Rattle.tp4_relay.specs.Allowed.{AreAllowed};
ghost use Rattle.tp4_relay.specs.Pump.{credit_now};
ghost use Rattle.tp4_relay.specs.Service.{Tells};
ghost use Rattle.tp4_relay.specs.declared.unit.MarkedUnit.{MarkedUnit as Marked};
ghost use Rattle.tp4_relay.specs.steps.Serving.{Balanced, Parted};
ghost use Rattle.tp4_relay.specs.steps.Tables.{IsTied, kept_of};

use crate::pair::Heading;
use crate::reaction::nothing;
use crate::service::Service;
use crate::serving::{ask, near_end, way_of};
use crate::table::Table;
use osi_base::NoMemory;
use script_journal::Event;
use tp4_conn::UserCall;

/// So many units may wait for an end.
const MOST_WAITING: usize = 300;

/// Where more than may wait are left both ends are disconnected, the inbound one first; else the credit is lowered where units wait,
/// and raised where none does.
pub fn balance<S: Service>(
    table: &mut Table,
    service: &mut S,
    place: usize,
    heading: Heading,
    events: &mut Vec<Event>,
) -> Result<bool, NoMemory>
    requires tied { IsTied table.old }
    requires credit { table.old.rules.credit ≤ 255 }
    requires place { place < length table.old.pairs.items }
    ensures tied { IsTied table.new }
    ensures told { IfOk result (λ done. Tells events.old.items events.new.items (λ made. Balanced S.connects S.calls service.old (kept_of table.old) place heading done made service.new (kept_of table.new))) }
    ensures broken { OnErr result (Tells events.old.items events.new.items (AreAllowed (kept_of table.old))) }
{
    let way = way_of(&table.pairs[place], heading);
    let left = way.waiting.count();
    if left > MOST_WAITING {
        return part(table, service, place, events);
    }
    match credit_now(table.rules.credit, way.lowered, left) {
        Some(credit) => {
            let near = near_end(&table.pairs[place], heading);
            ask(table, service, near, UserCall::Window(credit), events)
        }
        None => Ok(false),
    }
}

/// The credit that is to be set now, where so many units are left.
fn credit_now(first: u16, lowered: bool, left: usize) -> Option<u16>
    ensures { (units : List Marked) → length units ≡ left → result ≡ credit_now first lowered units }
{
    if left == 0 {
        if lowered { Some(first) } else { None }
    } else if lowered {
        None
    } else {
        Some(0)
    }
}

/// Disconnects both ends of a pair.
fn part<S: Service>(
    table: &mut Table,
    service: &mut S,
    place: usize,
    events: &mut Vec<Event>,
) -> Result<bool, NoMemory>
    requires tied { IsTied table.old }
    requires place { place < length table.old.pairs.items }
    ensures tied { IsTied table.new }
    ensures told { IfOk result (λ done. Tells events.old.items events.new.items (λ made. Parted S.connects S.calls service.old (kept_of table.old) place done made service.new (kept_of table.new))) }
    ensures broken { OnErr result (Tells events.old.items events.new.items (AreAllowed (kept_of table.old))) }
{
    let inbound = table.pairs[place].inbound;
    let outbound = table.pairs[place].outbound;
    let first = UserCall::Disconnect(nothing(table.alloc));
    let one = ask(table, service, inbound, first, events)?;
    let second = UserCall::Disconnect(nothing(table.alloc));
    let other = ask(table, service, outbound, second, events)?;
    Ok(one || other)
}
