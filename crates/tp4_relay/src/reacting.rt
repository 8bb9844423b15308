//! What a pump does about the events of a line, in order.

ghost use Rattle.std.specs.Prelude.{◌≡◌, ◌≤◌, ◌<◌, length, slice_get, Some, IfOk, OnErr, OnOk};
ghost use Rattle.std.specs.List.{AllByRecursion};
ghost use Rattle.script_journal.specs.declared.event.Event.TheVariants.{Connect};
ghost use Rattle.script_journal.specs.declared.event.Request.{Request as Requested};
ghost use Rattle.tp4_conn.specs.End.{IsSized};
ghost use Rattle.tp4_relay.specs.Allowed.{AreAllowed, AreLine};
ghost use Rattle.tp4_relay.specs.Kept.{kept_after, named_by, noted};
ghost use Rattle.tp4_relay.specs.Pump.{Does};
ghost use Rattle.tp4_relay.specs.Reaction.{reaction};
ghost use Rattle.tp4_relay.specs.Service.{Tells};
ghost use Rattle.tp4_relay.specs.declared.reaction.Reaction.TheVariants.{Begin};
ghost use Rattle.tp4_relay.specs.declared.row.RelayRow.{RelayRow as Row};
ghost use Rattle.tp4_relay.specs.steps.Making.{AreMadeBy, MayDo};
ghost use Rattle.tp4_relay.specs.steps.Serving.{CanDo, Did, IsIdle, Reacted};
ghost use Rattle.tp4_relay.specs.steps.Tables.{IsNotable, IsTied, kept_of};

use crate::reaction::{Reaction, nothing, reaction_to};
use crate::service::Service;
use crate::table::{Table, note, note_from};
use osi_base::NoMemory;
use script_journal::Event;
use std::alloc::Global;
use tp4_conn::{ConnectRequest, UserCall};

/// Does what is to be done about each event, in order; whether a call was done.
pub fn react_all<S: Service>(
    table: &mut Table,
    service: &mut S,
    events: &mut Vec<Event>,
) -> Result<bool, NoMemory>
    requires tied { IsTied table.old }
    requires has { AllByRecursion (λ (row : Row). S.has service.old row.system) table.old.rows.items }
    requires named { table.old.named ≤ S.ends service.old }
    requires line { AreLine (S.ends service.old) (kept_of table.old) events.old.items }
    ensures tied { IsTied table.new }
    ensures told { IfOk result (λ done. Tells events.old.items events.new.items (λ made. Reacted S.connects S.calls service.old (kept_of table.old) events.old.items done made service.new (kept_of table.new))) }
    ensures broken { OnErr result (AreAllowed (kept_of table.old) events.new.items) }
{
    let mut done = false;
    for at in 0..events.len() {
        let to_do = take_up(table, &events[at])?;
        if carry_out(table, service, to_do, events)? {
            done = true;
        }
    }
    Ok(done)
}

/// What is to be done about an event, which is noted.
fn take_up(table: &mut Table, event: &Event) -> Result<Reaction, NoMemory>
    requires tied { IsTied table.old }
    requires notable { IsNotable (kept_of table.old) event.now }
    ensures tied { IsTied table.new }
    ensures reaction { IfOk result (λ to_do. to_do ≡ reaction (kept_of table.old) event.now) }
    ensures noted { OnOk result (kept_of table.new ≡ noted (kept_of table.old) event.now) }
{
    let to_do = reaction_to(table, event)?;
    note(table, event)?;
    Ok(to_do)
}

/// Does what is to be done, and notes what comes of it; whether a call was done.
fn carry_out<S: Service>(
    table: &mut Table,
    service: &mut S,
    to_do: Reaction,
    events: &mut Vec<Event>,
) -> Result<bool, NoMemory>
    requires tied { IsTied table.old }
    requires may { MayDo (S.has service.old) (kept_of table.old) to_do }
    requires named { table.old.named ≤ S.ends service.old }
    ensures tied { IsTied table.new }
    ensures told { IfOk result (λ done. Tells events.old.items events.new.items (λ made. Did S.connects S.calls S.has S.ends service.old (kept_of table.old) to_do done made service.new (kept_of table.new))) }
    ensures broken { OnErr result (Tells events.old.items events.new.items (AreMadeBy (S.ends service.old) (kept_of table.old))) }
{
    let told = events.len();
    let done = act(table.alloc, service, to_do, events)?;
    note_from(table, told, events)?;
    Ok(done)
}

/// Does what is to be done; whether a call was done.
fn act<S: Service>(
    alloc: Global,
    service: &mut S,
    to_do: Reaction,
    events: &mut Vec<Event>,
) -> Result<bool, NoMemory>
    requires { CanDo (S.has service.old) to_do }
    ensures told { IfOk result (λ done. Tells events.old.items events.new.items (λ made. Does S.connects S.calls service.old to_do done made service.new)) }
    ensures broken { OnErr result (Tells events.old.items events.new.items (AllByRecursion IsIdle)) }
{
    match to_do {
        Reaction::Nothing => Ok(false),
        Reaction::Begin {
            inbound,
            system,
            request,
        } => begin(alloc, service, inbound, system, request, events),
        Reaction::Ask { end, call } => service.call(end, call, events),
    }
}

/// Asks for a connection, and joins its end to the inbound one; where it is refused, the inbound end is refused.
fn begin<S: Service>(
    alloc: Global,
    service: &mut S,
    inbound: u32,
    system: u8,
    request: ConnectRequest,
    events: &mut Vec<Event>,
) -> Result<bool, NoMemory>
    requires has { S.has service.old system }
    requires size { IsSized request.options }
    ensures told { IfOk result (λ done. Tells events.old.items events.new.items (λ made. Does S.connects S.calls service.old (Begin inbound system request) done made service.new)) }
    ensures broken { OnErr result (Tells events.old.items events.new.items (AllByRecursion IsIdle)) }
{
    let told = events.len();
    if service.connect(system, request, events)? {
        let outbound = made_end(events, told);
        events.push(Event::Joined { inbound, outbound })?;
        Ok(true)
    } else {
        service.call(inbound, UserCall::Refuse(nothing(alloc)), events)
    }
}

/// The end that the request at a place made.
fn made_end(events: &[Event], at: usize) -> u32
    requires { (asked : Requested) × (slice_get events.now at ≡ Some (Connect asked)) }
    ensures { (asked : Requested) → slice_get events.now at ≡ Some (Connect asked) → result ≡ asked.end }
{
    match &events[at] {
        Event::Connect(asked) => asked.get().end,
        _ => unreachable!(),
    }
}
