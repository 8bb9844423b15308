//! What a pump does for the pairs that are open: units that wait are submitted, and the credit of the end is set at which they were shown.

ghost use Rattle.std.specs.Prelude.{◌≡◌, ◌<◌, ◌≤◌, length, slice_get, Some, IfOk, OnErr};
ghost use Rattle.tp4_conn.specs.Calls.{IsCall};
ghost use Rattle.tp4_relay.specs.Allowed.{AreAllowed};
ghost use Rattle.tp4_relay.specs.Pairs.{open_places};
ghost use Rattle.tp4_relay.specs.Pump.{far_end, near_end, unit_call, way_of};
ghost use Rattle.tp4_relay.specs.Service.{Tells};
ghost use Rattle.tp4_relay.specs.declared.pair.Pair.{Pair as Joined};
ghost use Rattle.tp4_relay.specs.steps.Making.{MayAsk};
ghost use Rattle.tp4_relay.specs.steps.Serving.{Asked, IsOpenAt, ServedEach, ServedPair, ServedWay, Submitted, first_call};
ghost use Rattle.tp4_relay.specs.steps.Tables.{IsTied, kept_of};

use crate::backlog::balance;
use crate::pair::{Heading, Pair, Phase, Way};
use crate::service::Service;
use crate::table::{Table, note_from};
use crate::unit::MarkedUnit;
use osi_base::{Bytes, NoMemory};
use script_journal::Event;
use std::alloc::Global;
use tp4_conn::UserCall;

/// Serves each open pair, in the order in which they were joined; whether a call was done.
pub fn serve_all<S: Service>(
    table: &mut Table,
    service: &mut S,
    events: &mut Vec<Event>,
) -> Result<bool, NoMemory>
    requires tied { IsTied table.old }
    requires credit { table.old.rules.credit ≤ 255 }
    ensures tied { IsTied table.new }
    ensures told { IfOk result (λ done. Tells events.old.items events.new.items (λ made. ServedEach S.connects S.calls service.old (kept_of table.old) (open_places table.old.pairs.items) done made service.new (kept_of table.new))) }
    ensures broken { OnErr result (Tells events.old.items events.new.items (AreAllowed (kept_of table.old))) }
{
    let places = Vec::from_slice(table.alloc, &table.places)?;
    let mut done = false;
    for place in &places {
        if serve_pair(table, service, *place, events)? {
            done = true;
        }
    }
    Ok(done)
}

/// Serves both ways of a pair.
fn serve_pair<S: Service>(
    table: &mut Table,
    service: &mut S,
    place: usize,
    events: &mut Vec<Event>,
) -> Result<bool, NoMemory>
    requires tied { IsTied table.old }
    requires credit { table.old.rules.credit ≤ 255 }
    requires place { place < length table.old.pairs.items }
    ensures tied { IsTied table.new }
    ensures told { IfOk result (λ done. Tells events.old.items events.new.items (λ made. ServedPair S.connects S.calls service.old (kept_of table.old) place done made service.new (kept_of table.new))) }
    ensures broken { OnErr result (Tells events.old.items events.new.items (AreAllowed (kept_of table.old))) }
{
    let on = serve_way(table, service, place, Heading::On, events)?;
    let back = serve_way(table, service, place, Heading::Back, events)?;
    Ok(on || back)
}

/// Serves one way of a pair, where it is open.
fn serve_way<S: Service>(
    table: &mut Table,
    service: &mut S,
    place: usize,
    heading: Heading,
    events: &mut Vec<Event>,
) -> Result<bool, NoMemory>
    requires tied { IsTied table.old }
    requires credit { table.old.rules.credit ≤ 255 }
    requires place { place < length table.old.pairs.items }
    ensures tied { IsTied table.new }
    ensures told { IfOk result (λ done. Tells events.old.items events.new.items (λ made. ServedWay S.connects S.calls service.old (kept_of table.old) place heading done made service.new (kept_of table.new))) }
    ensures broken { OnErr result (Tells events.old.items events.new.items (AreAllowed (kept_of table.old))) }
{
    match table.pairs[place].phase {
        Phase::Open => {
            let submitted = submit(table, service, place, heading, events)?;
            let balanced = balance(table, service, place, heading, events)?;
            Ok(submitted || balanced)
        }
        Phase::Begun | Phase::Closed => Ok(false),
    }
}

/// Submits what waits, until nothing is left or a unit is refused; whether one was taken.
fn submit<S: Service>(
    table: &mut Table,
    service: &mut S,
    place: usize,
    heading: Heading,
    events: &mut Vec<Event>,
) -> Result<bool, NoMemory>
    requires tied { IsTied table.old }
    requires open { IsOpenAt table.old.pairs.items place }
    ensures tied { IsTied table.new }
    ensures told { IfOk result (λ done. Tells events.old.items events.new.items (λ made. Submitted S.connects S.calls service.old (kept_of table.old) place heading done made service.new (kept_of table.new))) }
    ensures broken { OnErr result (Tells events.old.items events.new.items (AreAllowed (kept_of table.old))) }
{
    let mut done = false;
    while let Some(call) = next_call(table, place, heading)? {
        let end = far_end(&table.pairs[place], heading);
        if !ask(table, service, end, call, events)? {
            return Ok(done);
        }
        done = true;
    }
    Ok(done)
}

/// The call by which the first unit that waits is submitted. The unit is kept.
fn next_call(table: &Table, place: usize, heading: Heading) -> Result<Option<UserCall>, NoMemory>
    requires { place < length table.now.pairs.items }
    ensures { IfOk result (λ call. (pair : Joined) → slice_get table.now.pairs.items place ≡ Some pair → call ≡ first_call (way_of heading pair).waiting) }
{
    let pair = &table.pairs[place];
    match way_of(pair, heading).waiting.first() {
        Some(unit) => Ok(Some(unit_call(table.alloc, unit)?)),
        None => Ok(None),
    }
}

/// Calls an end, and notes what comes of it.
pub fn ask<S: Service>(
    table: &mut Table,
    service: &mut S,
    end: u32,
    call: UserCall,
    events: &mut Vec<Event>,
) -> Result<bool, NoMemory>
    requires tied { IsTied table.old }
    requires call { IsCall call }
    requires may { MayAsk (kept_of table.old) end call }
    ensures tied { IsTied table.new }
    ensures told { IfOk result (λ done. Tells events.old.items events.new.items (λ made. Asked S.calls service.old (kept_of table.old) end call done made service.new (kept_of table.new))) }
    ensures broken { OnErr result (Tells events.old.items events.new.items (AreAllowed (kept_of table.old))) }
{
    let told = events.len();
    let done = service.call(end, call, events)?;
    note_from(table, told, events)?;
    Ok(done)
}

pub fn way_of(pair: &Pair, heading: Heading) -> &Way
    ensures { result.now ≡ way_of heading pair.now }
{
    match heading {
        Heading::On => &pair.on,
        Heading::Back => &pair.back,
    }
}

/// The end at which the units of this way are shown.
pub fn near_end(pair: &Pair, heading: Heading) -> u32
    ensures { result ≡ near_end heading pair.now }
{
    match heading {
        Heading::On => pair.inbound,
        Heading::Back => pair.outbound,
    }
}

/// The end at which they are submitted.
fn far_end(pair: &Pair, heading: Heading) -> u32
    ensures { result ≡ far_end heading pair.now }
{
    match heading {
        Heading::On => pair.outbound,
        Heading::Back => pair.inbound,
    }
}

/// The call by which a unit is submitted.
fn unit_call(alloc: Global, unit: &MarkedUnit) -> Result<UserCall, NoMemory>
    ensures { IfOk result (λ call. call ≡ unit_call unit.now) }
{
    match unit {
        MarkedUnit::Normal(octets) => Ok(UserCall::Normal(Bytes::copy(alloc, octets.as_slice())?)),
        MarkedUnit::Expedited(octets) => {
            Ok(UserCall::Urgent(Bytes::copy(alloc, octets.as_slice())?))
        }
    }
}
