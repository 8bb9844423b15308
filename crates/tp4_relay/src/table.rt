//! What a relay keeps: the ends that were indicated at its rows, and the pairs of ends that it joined.

ghost use Rattle.std.specs.Prelude.{◌≡◌, ◌≤◌, ◌++◌, drop, length, max, OnErr, OnOk};
ghost use Rattle.script_journal.specs.declared.event.Event.TheVariants.{End};
ghost use Rattle.tp4_relay.specs.Kept.{claimed, claims_told, joined, kept_after, named_by, noted, owns, row_for};
ghost use Rattle.tp4_relay.specs.Pairs.{AtEnd, change_inbound, open_places, pairs_after};
ghost use Rattle.tp4_relay.specs.steps.Rising.{IsRisingBy, claim_of, inbound_of, outbound_of};
ghost use Rattle.tp4_relay.specs.steps.Tables.{AreNotable, IsNotable, IsTied, kept_of};

use crate::claim::{Claim, is_claimed, is_lost, lose_at};
use crate::pair::{Pair, Phase};
use crate::places::{accept_at, close_at, give_at, is_outbound, open_at, turn_at, wait_at};
use crate::row::{RelayRow, row_for};
use crate::unit::Mark;
use osi_base::NoMemory;
use script_journal::{Event, Indication};
use std::alloc::Global;
use tp4_conn::Timers;
use tpdu::EndTold;

/// What a relay keeps of a journal.
#[derive(Drop)]
pub struct Table {
    pub alloc: Global,
    pub rows: Vec<RelayRow>,
    pub rules: Timers,
    /// The greatest end that was named.
    pub named: u32,
    /// The ends that were indicated at rows.
    pub claims: Vec<Claim>,
    /// The pairs, in the order in which they were joined.
    pub pairs: Vec<Pair>,
    /// The places of the open ones.
    pub places: Vec<usize>,
}

/// Whether the relay has the end: it was indicated at a row, or asked for by the relay.
pub fn owns(table: &Table, end: u32) -> bool
    requires { IsTied table.now }
    ensures { result ≡ owns (kept_of table.now) end }
{
    is_claimed(&table.claims, end) || is_outbound(&table.pairs, end)
}

/// Keeps what an event tells.
pub fn note(table: &mut Table, event: &Event) -> Result<(), NoMemory>
    requires tied { IsTied table.old }
    requires notable { IsNotable (kept_of table.old) event.now }
    ensures noted { OnOk result (kept_of table.new ≡ noted (kept_of table.old) event.now) }
    ensures tied { IsTied table.new }
{
    raise(&mut table.named, named_by(event));
    match event {
        Event::Incoming(heard) => claim(&mut table.claims, &table.rows, heard.get()),
        Event::Joined { inbound, outbound } => {
            let pair = joined(table.alloc, &table.claims, *inbound, *outbound);
            table.pairs.push(pair)?;
            Ok(())
        }
        Event::End { number, what } => {
            lose_told(&mut table.claims, *number, what);
            change_pairs(table.alloc, &mut table.pairs, &mut table.places, event)
        }
        _ => change_pairs(table.alloc, &mut table.pairs, &mut table.places, event),
    }
}

/// Keeps what the events from a place on tell.
pub fn note_from(table: &mut Table, from: usize, events: &[Event]) -> Result<(), NoMemory>
    requires bound { from ≤ length events.now }
    requires tied { IsTied table.old }
    requires notable { AreNotable (kept_of table.old) (drop from events.now) }
    ensures noted { OnOk result (kept_of table.new ≡ kept_after (kept_of table.old) (drop from events.now)) }
    ensures tied { IsTied table.new }
{
    for at in from..events.len() {
        note(table, &events[at])?;
    }
    Ok(())
}

fn raise(named: &mut u32, end: u32)
    ensures { named.new ≡ max named.old end }
{
    if *named < end {
        *named = end;
    }
}

/// The end that an event names.
fn named_by(event: &Event) -> u32
    ensures { result ≡ named_by event.now }
{
    match event {
        Event::Incoming(heard) => heard.get().end,
        Event::Joined { outbound, .. } => *outbound,
        Event::End { number, what } => told_by(*number, what),
        Event::Data { end, .. }
        | Event::Expedite { end, .. }
        | Event::Refuse { end, .. }
        | Event::Disconnect { end, .. } => *end,
        _ => 0,
    }
}

/// The end that what it tells names: a number that is held back names none.
fn told_by(end: u32, told: &EndTold) -> u32
    ensures { result ≡ named_by (End end told.now) }
{
    match told {
        EndTold::Accept { .. }
        | EndTold::Confirm { .. }
        | EndTold::Got(_)
        | EndTold::Urgent(_)
        | EndTold::Window(_)
        | EndTold::Gone(..) => end,
        EndTold::Held(..) => 0,
    }
}

/// Where an end is gone, its claim is lost.
fn lose_told(claims: &mut [Claim], end: u32, told: &EndTold)
    requires { IsRisingBy claim_of claims.old }
    ensures { claims.new ≡ claims_told end told.now claims.old }
{
    match told {
        EndTold::Gone(..) => lose_at(claims, end),
        EndTold::Accept { .. }
        | EndTold::Confirm { .. }
        | EndTold::Got(_)
        | EndTold::Urgent(_)
        | EndTold::Window(_)
        | EndTold::Held(..) => {}
    }
}

/// An end that is indicated at a row is kept.
fn claim(claims: &mut Vec<Claim>, rows: &[RelayRow], heard: &Indication) -> Result<(), NoMemory>
    ensures ok { OnOk result (claims.new.items ≡ claims.old.items ++ claimed heard.now.end (row_for rows.now heard.now)) }
    ensures err { OnErr result (claims.new.items ≡ claims.old.items) }
{
    if row_for(rows, heard).is_some() {
        claims.push(Claim {
            end: heard.end,
            gone: false,
        })?;
    }
    Ok(())
}

/// Two ends that are joined; where the inbound one went meanwhile, they are closed.
fn joined(alloc: Global, claims: &[Claim], inbound: u32, outbound: u32) -> Pair
    requires { IsRisingBy claim_of claims.now }
    ensures { result ≡ joined claims.now inbound outbound }
{
    let phase = if is_lost(claims, inbound) {
        Phase::Closed
    } else {
        Phase::Begun
    };
    Pair::new(alloc, inbound, outbound, phase)
}

/// What an event that joins no ends does to pairs.
fn change_pairs(
    alloc: Global,
    pairs: &mut [Pair],
    places: &mut Vec<usize>,
    event: &Event,
) -> Result<(), NoMemory>
    requires inbound { IsRisingBy inbound_of pairs.old }
    requires outbound { IsRisingBy outbound_of pairs.old }
    requires places { places.old.items ≡ open_places pairs.old }
    ensures pairs { OnOk result (pairs.new ≡ pairs_after pairs.old event.now) }
    ensures part { OnErr result ((at : AtEnd) × (pairs.new ≡ change_inbound at pairs.old)) }
    ensures places { places.new.items ≡ open_places pairs.new }
{
    match event {
        Event::End { number, what } => change_told(alloc, pairs, places, *number, what),
        Event::Data { end, .. } | Event::Expedite { end, .. } => {
            give_at(pairs, *end);
            Ok(())
        }
        Event::Disconnect { end, .. } => {
            close_at(pairs, places, *end);
            Ok(())
        }
        _ => Ok(()),
    }
}

/// What an end tells does to pairs.
fn change_told(
    alloc: Global,
    pairs: &mut [Pair],
    places: &mut Vec<usize>,
    end: u32,
    told: &EndTold,
) -> Result<(), NoMemory>
    requires inbound { IsRisingBy inbound_of pairs.old }
    requires outbound { IsRisingBy outbound_of pairs.old }
    requires places { places.old.items ≡ open_places pairs.old }
    ensures pairs { OnOk result (pairs.new ≡ pairs_after pairs.old (End end told.now)) }
    ensures part { OnErr result ((at : AtEnd) × (pairs.new ≡ change_inbound at pairs.old)) }
    ensures places { places.new.items ≡ open_places pairs.new }
{
    match told {
        EndTold::Accept { .. } => {
            accept_at(pairs, end);
            Ok(())
        }
        EndTold::Confirm { .. } => open_at(pairs, places, end),
        EndTold::Got(octets) => wait_at(alloc, pairs, end, Mark::Normal, octets),
        EndTold::Urgent(octets) => wait_at(alloc, pairs, end, Mark::Expedited, octets),
        EndTold::Window(_) => {
            turn_at(pairs, end);
            Ok(())
        }
        EndTold::Held(..) => Ok(()),
        EndTold::Gone(..) => {
            close_at(pairs, places, end);
            Ok(())
        }
    }
}
