//! What a relay does about an event of a line (X.214, service primitives).

ghost use Rattle.std.specs.Prelude.{◌≡◌, [], Some, IfOk};
ghost use Rattle.script_journal.specs.declared.event.Event.TheVariants.{End};
ghost use Rattle.tp4_relay.specs.Kept.{row_for};
ghost use Rattle.tp4_relay.specs.Reaction.{begins, confirms, goes, inbound_goes, inbound_pair, outbound_goes, outbound_pair, reaction, request_for};
ghost use Rattle.tp4_relay.specs.steps.Rising.{IsRisingBy, inbound_of, outbound_of};
ghost use Rattle.tp4_relay.specs.steps.Tables.{IsTied, kept_of};

use crate::pair::Pair;
use crate::places::{inbound_place, outbound_place};
use crate::row::{RelayRow, row_for};
use crate::table::Table;
use osi_base::{Bytes, NoMemory};
use script_journal::{Event, Indication};
use std::alloc::Global;
use tp4_conn::{ConnectRequest, UserCall};
use tpdu::{EndTold, Options};

/// What is to be done about an event.
#[derive(Drop)]
pub enum Reaction {
    Nothing,
    /// A connection is asked for, and joined to the inbound end; else that end is refused.
    Begin {
        inbound: u32,
        system: u8,
        request: ConnectRequest,
    },
    /// A call on an end.
    Ask {
        end: u32,
        call: UserCall,
    },
}

/// What is to be done about an event of a line, before it is noted.
pub fn reaction_to(table: &Table, event: &Event) -> Result<Reaction, NoMemory>
    requires { IsTied table.now }
    ensures { IfOk result (λ to_do. to_do ≡ reaction (kept_of table.now) event.now) }
{
    match event {
        Event::Incoming(heard) => beginning(table, heard.get()),
        Event::End { number, what } => reaction_told(table, *number, what),
        _ => Ok(Reaction::Nothing),
    }
}

/// What is to be done about what an end tells.
fn reaction_told(table: &Table, end: u32, told: &EndTold) -> Result<Reaction, NoMemory>
    requires { IsTied table.now }
    ensures { IfOk result (λ to_do. to_do ≡ reaction (kept_of table.now) (End end told.now)) }
{
    match told {
        EndTold::Confirm { options, octets } => acceptance(
            table.alloc,
            &table.pairs,
            end,
            *options,
            octets,
        ),
        EndTold::Gone(..) => Ok(parting(table.alloc, &table.pairs, end)),
        EndTold::Accept { .. }
        | EndTold::Got(_)
        | EndTold::Urgent(_)
        | EndTold::Window(_)
        | EndTold::Held(..) => Ok(Reaction::Nothing),
    }
}

/// A connection that is indicated at a row is asked for again.
fn beginning(table: &Table, heard: &Indication) -> Result<Reaction, NoMemory>
    ensures { IfOk result (λ to_do. to_do ≡ begins heard.now (row_for table.now.rows.items heard.now)) }
{
    let Some(row) = row_for(&table.rows, heard) else {
        return Ok(Reaction::Nothing);
    };
    let request = request_for(table.alloc, row, heard)?;
    Ok(Reaction::Begin {
        inbound: heard.end,
        system: row.system,
        request,
    })
}

/// A pair whose outbound end is confirmed has its inbound end accepted.
fn acceptance(
    alloc: Global,
    pairs: &[Pair],
    end: u32,
    options: Options,
    octets: &Bytes,
) -> Result<Reaction, NoMemory>
    requires { IsRisingBy outbound_of pairs.now }
    ensures { IfOk result (λ to_do. to_do ≡ confirms options octets.now (outbound_pair pairs.now end)) }
{
    let Some(place) = outbound_place(pairs, end) else {
        return Ok(Reaction::Nothing);
    };
    if pairs[place].is_closed() {
        return Ok(Reaction::Nothing);
    }
    let octets = Bytes::copy(alloc, octets.as_slice())?;
    Ok(Reaction::Ask {
        end: pairs[place].inbound,
        call: UserCall::Accept(options, octets),
    })
}

/// Where one end of a pair goes that is not closed, the other one goes too.
fn parting(alloc: Global, pairs: &[Pair], end: u32) -> Reaction
    requires inbound { IsRisingBy inbound_of pairs.now }
    requires outbound { IsRisingBy outbound_of pairs.now }
    ensures { result ≡ goes pairs.now end (inbound_pair pairs.now end) }
{
    if let Some(place) = inbound_place(pairs, end) {
        return after_inbound(alloc, &pairs[place]);
    }
    if let Some(place) = outbound_place(pairs, end) {
        return after_outbound(alloc, &pairs[place]);
    }
    Reaction::Nothing
}

/// The inbound end went: the outbound one is disconnected.
fn after_inbound(alloc: Global, pair: &Pair) -> Reaction
    ensures { result ≡ inbound_goes pair.now }
{
    if pair.is_closed() {
        return Reaction::Nothing;
    }
    Reaction::Ask {
        end: pair.outbound,
        call: UserCall::Disconnect(nothing(alloc)),
    }
}

/// The outbound end went: an inbound end that was not accepted is refused, another one is disconnected.
fn after_outbound(alloc: Global, pair: &Pair) -> Reaction
    ensures { result ≡ outbound_goes (Some pair.now) }
{
    if pair.is_closed() {
        return Reaction::Nothing;
    }
    let octets = nothing(alloc);
    Reaction::Ask {
        end: pair.inbound,
        call: if pair.accepted {
            UserCall::Disconnect(octets)
        } else {
            UserCall::Refuse(octets)
        },
    }
}

/// No octets.
pub fn nothing(alloc: Global) -> Bytes
    ensures { result ≡ [] }
{
    Bytes::of(Vec::new(alloc))
}

/// The request for the second connection: from the row's selector, with the options and the octets of the first.
fn request_for(
    alloc: Global,
    row: &RelayRow,
    heard: &Indication,
) -> Result<ConnectRequest, NoMemory>
    ensures { IfOk result (λ request. request ≡ request_for row.now heard.now) }
{
    Ok(ConnectRequest {
        from_selector: Bytes::copy(alloc, row.selector.as_slice())?,
        to: row.to,
        to_selector: Bytes::copy(alloc, row.to_selector.as_slice())?,
        options: heard.options,
        octets: Bytes::copy(alloc, heard.octets.as_slice())?,
    })
}
