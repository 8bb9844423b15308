//! The pairs of a relay by their ends. Ends are numbered as they are made, so both columns of ends rise, and a pair is found by halving.

ghost use Rattle.std.specs.Prelude.{◌≡◌, ◌==◌, ◌⊎◌, ◌<◌, ◌++◌, ◌∷◌, [], length, get_or, set, Some, IfSome, IfNone, OnErr, OnOk};
ghost use Rattle.std.specs.List.{list_any};
ghost use Rattle.tp4_relay.specs.steps.Marks.{unit_of};
ghost use Rattle.tp4_relay.specs.Pairs.{Opens, Accepts, Closes, Waits, Gives, Turns, change_inbound, change_outbound, changed, open_places};
ghost use Rattle.tp4_relay.specs.steps.Rising.{IsGap, IsMissedBy, IsPlaceBy, IsRisingBy, inbound_of, outbound_of};
ghost use Rattle.tp4_relay.specs.declared.pair.Pair.{Pair as Joined};
ghost use Rattle.tp4_relay.specs.declared.pair.Heading.TheVariants.{On, Back};

use crate::pair::{Heading, Pair, Phase};
use crate::unit::{Mark, unit_of};
use osi_base::{Bytes, NoMemory};
use std::alloc::Global;

/// The place of the pair of an inbound end.
pub fn inbound_place(pairs: &[Pair], end: u32) -> Option<usize>
    requires { IsRisingBy inbound_of pairs.now }
    ensures some { IfSome result (λ place. IsPlaceBy inbound_of end place pairs.now) }
    ensures none { IfNone result (IsMissedBy inbound_of end pairs.now) }
{
    match pairs.binary_search_by_key(&end, |pair| pair.inbound) {
        Ok(place) => Some(place),
        Err(_) => None,
    }
}

/// The place of the pair of an outbound end.
pub fn outbound_place(pairs: &[Pair], end: u32) -> Option<usize>
    requires { IsRisingBy outbound_of pairs.now }
    ensures some { IfSome result (λ place. IsPlaceBy outbound_of end place pairs.now) }
    ensures none { IfNone result (IsMissedBy outbound_of end pairs.now) }
{
    match pairs.binary_search_by_key(&end, |pair| pair.outbound) {
        Ok(place) => Some(place),
        Err(_) => None,
    }
}

/// Whether the end is the outbound one of a pair.
pub fn is_outbound(pairs: &[Pair], end: u32) -> bool
    requires { IsRisingBy outbound_of pairs.now }
    ensures { result ≡ list_any (λ pair. pair.outbound == end) pairs.now }
{
    outbound_place(pairs, end).is_some()
}

/// The indication of an inbound end was accepted.
pub fn accept_at(pairs: &mut [Pair], end: u32)
    requires { IsRisingBy inbound_of pairs.old }
    ensures { pairs.new ≡ change_inbound (Some (end, Accepts)) pairs.old }
{
    if let Some(place) = inbound_place(pairs, end) {
        pairs[place].accept();
    }
}

/// An end shows a unit, which waits for the other end where the pair is open.
pub fn wait_at(
    alloc: Global,
    pairs: &mut [Pair],
    end: u32,
    mark: Mark,
    octets: &Bytes,
) -> Result<(), NoMemory>
    requires inbound { IsRisingBy inbound_of pairs.old }
    requires outbound { IsRisingBy outbound_of pairs.old }
    ensures ok { OnOk result (pairs.new ≡ change_outbound (Some (end, Waits Back (unit_of mark octets.now))) (change_inbound (Some (end, Waits On (unit_of mark octets.now))) pairs.old)) }
    ensures err { OnErr result ((pairs.new ≡ pairs.old) ⊎ (pairs.new ≡ change_inbound (Some (end, Waits On (unit_of mark octets.now))) pairs.old)) }
{
    wait_on(alloc, pairs, end, mark, octets)?;
    wait_back(alloc, pairs, end, mark, octets)
}

/// A unit that an inbound end shows waits for the outbound one.
fn wait_on(
    alloc: Global,
    pairs: &mut [Pair],
    end: u32,
    mark: Mark,
    octets: &Bytes,
) -> Result<(), NoMemory>
    requires { IsRisingBy inbound_of pairs.old }
    ensures ok { OnOk result (pairs.new ≡ change_inbound (Some (end, Waits On (unit_of mark octets.now))) pairs.old) }
    ensures err { OnErr result (pairs.new ≡ pairs.old) }
{
    if let Some(place) = inbound_place(pairs, end) {
        let unit = unit_of(alloc, mark, octets)?;
        pairs[place].wait(Heading::On, unit)?;
    }
    Ok(())
}

/// A unit that an outbound end shows waits for the inbound one.
fn wait_back(
    alloc: Global,
    pairs: &mut [Pair],
    end: u32,
    mark: Mark,
    octets: &Bytes,
) -> Result<(), NoMemory>
    requires { IsRisingBy outbound_of pairs.old }
    ensures ok { OnOk result (pairs.new ≡ change_outbound (Some (end, Waits Back (unit_of mark octets.now))) pairs.old) }
    ensures err { OnErr result (pairs.new ≡ pairs.old) }
{
    if let Some(place) = outbound_place(pairs, end) {
        let unit = unit_of(alloc, mark, octets)?;
        pairs[place].wait(Heading::Back, unit)?;
    }
    Ok(())
}

/// The first unit that waits for an end was submitted.
pub fn give_at(pairs: &mut [Pair], end: u32)
    requires inbound { IsRisingBy inbound_of pairs.old }
    requires outbound { IsRisingBy outbound_of pairs.old }
    ensures { pairs.new ≡ change_outbound (Some (end, Gives On)) (change_inbound (Some (end, Gives Back)) pairs.old) }
{
    give_back(pairs, end);
    give_on(pairs, end);
}

fn give_back(pairs: &mut [Pair], end: u32)
    requires { IsRisingBy inbound_of pairs.old }
    ensures { pairs.new ≡ change_inbound (Some (end, Gives Back)) pairs.old }
{
    if let Some(place) = inbound_place(pairs, end) {
        pairs[place].give(Heading::Back);
    }
}

fn give_on(pairs: &mut [Pair], end: u32)
    requires { IsRisingBy outbound_of pairs.old }
    ensures { pairs.new ≡ change_outbound (Some (end, Gives On)) pairs.old }
{
    if let Some(place) = outbound_place(pairs, end) {
        pairs[place].give(Heading::On);
    }
}

/// The credit of an end was set.
pub fn turn_at(pairs: &mut [Pair], end: u32)
    requires inbound { IsRisingBy inbound_of pairs.old }
    requires outbound { IsRisingBy outbound_of pairs.old }
    ensures { pairs.new ≡ change_outbound (Some (end, Turns Back)) (change_inbound (Some (end, Turns On)) pairs.old) }
{
    turn_on(pairs, end);
    turn_back(pairs, end);
}

fn turn_on(pairs: &mut [Pair], end: u32)
    requires { IsRisingBy inbound_of pairs.old }
    ensures { pairs.new ≡ change_inbound (Some (end, Turns On)) pairs.old }
{
    if let Some(place) = inbound_place(pairs, end) {
        pairs[place].turn(Heading::On);
    }
}

fn turn_back(pairs: &mut [Pair], end: u32)
    requires { IsRisingBy outbound_of pairs.old }
    ensures { pairs.new ≡ change_outbound (Some (end, Turns Back)) pairs.old }
{
    if let Some(place) = outbound_place(pairs, end) {
        pairs[place].turn(Heading::Back);
    }
}

/// An outbound end was confirmed.
pub fn open_at(pairs: &mut [Pair], places: &mut Vec<usize>, end: u32) -> Result<(), NoMemory>
    requires outbound { IsRisingBy outbound_of pairs.old }
    requires places { places.old.items ≡ open_places pairs.old }
    ensures pairs { OnOk result (pairs.new ≡ change_outbound (Some (end, Opens)) pairs.old) }
    ensures places { places.new.items ≡ open_places pairs.new }
    ensures err { OnErr result (pairs.new ≡ pairs.old) }
{
    if let Some(place) = outbound_place(pairs, end) {
        open_place(pairs, places, place)?;
    }
    Ok(())
}

/// The pair at a place opens, where it has begun.
fn open_place(pairs: &mut [Pair], places: &mut Vec<usize>, place: usize) -> Result<(), NoMemory>
    requires bound { place < length pairs.old }
    requires places { places.old.items ≡ open_places pairs.old }
    ensures pairs { OnOk result ((d : Joined) → pairs.new ≡ set pairs.old place (changed (get_or pairs.old place d) Opens)) }
    ensures places { places.new.items ≡ open_places pairs.new }
    ensures err { OnErr result (pairs.new ≡ pairs.old) }
{
    match pairs[place].phase {
        Phase::Begun => {
            let at = gap_for(places, place);
            places.insert(at, place)?;
            pairs[place].open();
            Ok(())
        }
        Phase::Open | Phase::Closed => {
            pairs[place].open();
            Ok(())
        }
    }
}

/// An end went, or was disconnected: its pair is closed.
pub fn close_at(pairs: &mut [Pair], places: &mut Vec<usize>, end: u32)
    requires inbound { IsRisingBy inbound_of pairs.old }
    requires outbound { IsRisingBy outbound_of pairs.old }
    requires places { places.old.items ≡ open_places pairs.old }
    ensures pairs { pairs.new ≡ change_outbound (Some (end, Closes)) (change_inbound (Some (end, Closes)) pairs.old) }
    ensures places { places.new.items ≡ open_places pairs.new }
{
    close_inbound(pairs, places, end);
    close_outbound(pairs, places, end);
}

fn close_inbound(pairs: &mut [Pair], places: &mut Vec<usize>, end: u32)
    requires inbound { IsRisingBy inbound_of pairs.old }
    requires places { places.old.items ≡ open_places pairs.old }
    ensures pairs { pairs.new ≡ change_inbound (Some (end, Closes)) pairs.old }
    ensures places { places.new.items ≡ open_places pairs.new }
{
    if let Some(place) = inbound_place(pairs, end) {
        close_place(pairs, places, place);
    }
}

fn close_outbound(pairs: &mut [Pair], places: &mut Vec<usize>, end: u32)
    requires outbound { IsRisingBy outbound_of pairs.old }
    requires places { places.old.items ≡ open_places pairs.old }
    ensures pairs { pairs.new ≡ change_outbound (Some (end, Closes)) pairs.old }
    ensures places { places.new.items ≡ open_places pairs.new }
{
    if let Some(place) = outbound_place(pairs, end) {
        close_place(pairs, places, place);
    }
}

/// The pair at a place is closed.
fn close_place(pairs: &mut [Pair], places: &mut Vec<usize>, place: usize)
    requires bound { place < length pairs.old }
    requires places { places.old.items ≡ open_places pairs.old }
    ensures pairs { (d : Joined) → pairs.new ≡ set pairs.old place (changed (get_or pairs.old place d) Closes) }
    ensures places { places.new.items ≡ open_places pairs.new }
{
    match pairs[place].phase {
        Phase::Open => {
            let at = gap_for(places, place);
            places.remove(at);
            pairs[place].close();
        }
        Phase::Begun | Phase::Closed => pairs[place].close(),
    }
}

/// Where a place stands among places that rise, or would stand.
fn gap_for(places: &[usize], place: usize) -> usize
    ensures { IsGap result place places.now }
{
    let mut at = places.len();
    while at > 0 && places[at - 1] >= place {
        at -= 1;
    }
    at
}
