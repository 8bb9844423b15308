//! The rows of a table, which are found by their addresses (ISO 9542, configuration information).

ghost use Rattle.std.specs.Prelude.{◌≡◌, ◌<◌, ◌≤◌, ◌==◌, [], ◌∷◌, ◌++◌, false, OnOk, OnErr, length, position, take, option_copied, nat_eq, slice_get};
ghost use Rattle.std.specs.List.{All, remove};
ghost use Rattle.std.specs.Cmp.Lexicographic.{pointwise};
ghost use Rattle.esis_tables.specs.Rows.{row_at};
ghost use Rattle.esis_tables.specs.steps.Places.{IsRenewed};
ghost use Rattle.esis_tables.specs.steps.Tags.{AreTags, IsNextTagged, tag_from, tag_of};

use crate::holding_time::{Heard, Row};
use memchr::memchr;
use nsap::{Hop, Nsap};
use osi_base::NoMemory;
use std::alloc::Global;
use std::collections::VecDeque;
use std::marker::Model;

/// Fewer rows than these are looked through as they are.
const FEW_ROWS: usize = 8;

/// Rows in their order. Where they are not few, an address is compared with that of the rows whose tag it has, and no others.
#[derive(Drop)]
pub struct TaggedRows {
    // A ring, of which the shorter part moves where a row goes: none where it is the first, which is mostly the one that was heard longest ago.
    rows: VecDeque<Row>,
    /// The tag of the address of each row, in their order.
    tags: Vec<u8>,
}

// The tags are exactly those of the rows.
impl Model for TaggedRows {
    ghost use Rattle.std.specs.Prelude.{List};
    ghost use Rattle.esis_tables.specs.declared.holding_time.Row.{Row};
    ghost use Rattle.esis_tables.specs.steps.Tags.{AreTags};

    ghost Value = { List Row };

    ghost view = { λ a. a.rows.items };

    ghost invariant = { λ a. AreTags a.rows.items a.tags.items };
}

impl TaggedRows {
    /// No rows.
    pub fn new(alloc: Global) -> TaggedRows
        ensures { result ≡ [] }
    {
        TaggedRows {
            rows: VecDeque::new(alloc),
            tags: Vec::new(alloc),
        }
    }

    /// The rows in their order.
    pub fn ring(&self) -> &VecDeque<Row>
        ensures { result.now.items ≡ self.now }
    {
        &self.rows
    }

    /// The row of an address.
    pub fn row(&self, address: &Nsap) -> Option<&Row>
        ensures { option_copied result ≡ row_at self.now address.now }
    {
        if self.rows.len() < FEW_ROWS {
            return self.rows.iter().find(|row| row.address == *address);
        }
        match place_tagged(&self.rows, &self.tags, address) {
            Some(place) => at_place(&self.rows, place),
            None => None,
        }
    }

    /// The place of the row of an address.
    pub fn place_in(&self, address: &Nsap) -> Option<usize>
        ensures { result ≡ position (λ row. pointwise nat_eq row.address address.now) self.now }
    {
        if self.rows.len() < FEW_ROWS {
            return self.rows.iter().position(|row| row.address == *address);
        }
        place_tagged(&self.rows, &self.tags, address)
    }

    /// Puts a row behind the others.
    pub fn put(&mut self, address: Nsap, heard: &Heard) -> Result<(), NoMemory>
        ensures ok { OnOk result (self.new ≡ self.old ++ record { address = address; heard = heard.now } ∷ []) }
        ensures err { OnErr result (self.new ≡ self.old) }
    {
        self.tags.reserve(1)?;
        put(&mut self.rows, address, heard)?;
        self.tags.push_reserved(tag_of(&address));
        Ok(())
    }

    /// The rows at these places hold what was heard.
    pub fn renew(&mut self, heard: &Heard, places: &[usize])
        requires { All (λ place. place < length self.old) places.now }
        ensures { IsRenewed heard.now places.now self.old self.new }
    {
        renew(&mut self.rows, heard, places);
    }

    /// The rows from that place on go.
    pub fn truncate(&mut self, len: usize)
        ensures { self.new ≡ take len self.old }
    {
        self.rows.truncate(len);
        self.tags.truncate(len);
    }

    /// The row at a place goes.
    pub fn remove(&mut self, place: usize)
        requires { place < length self.old }
        ensures { self.new ≡ remove self.old place }
    {
        take_out(&mut self.rows, place);
        self.tags.remove(place);
    }
}

// The row at a place, where one stands there.
fn at_place(rows: &VecDeque<Row>, place: usize) -> Option<&Row>
    ensures { option_copied result ≡ slice_get rows.now.items place }
{
    rows.get(place)
}

// The place of the row of an address, by its tag.
fn place_tagged(rows: &VecDeque<Row>, tags: &[u8], address: &Nsap) -> Option<usize>
    requires { AreTags rows.now.items tags.now }
    ensures { result ≡ position (λ row. pointwise nat_eq row.address address.now) rows.now.items }
{
    let tag = tag_of(address);
    let mut place = next_tagged(tags, tag, 0);
    while place < rows.len() {
        if rows[place].address == *address {
            return Some(place);
        }
        place = next_tagged(tags, tag, place + 1);
    }
    None
}

// The first place of that tag from a place on; behind the last where there is none.
fn next_tagged(tags: &[u8], tag: u8, from: usize) -> usize
    requires { from ≤ length tags.now }
    ensures { IsNextTagged tags.now tag from result }
{
    // Where many are alike, the next is mostly this one.
    if from < tags.len() && tags[from] == tag {
        return from;
    }
    match memchr(tag, &tags[from..]) {
        Some(place) => from + place,
        None => tags.len(),
    }
}

// A sum of the octets of an address.
fn tag_of(address: &Nsap) -> u8
    ensures { result ≡ tag_of address.now }
{
    tag_after(address.octets())
}

// A sum of octets, in which those that differ in one place alone have other sums.
fn tag_after(octets: &[u8]) -> u8
    ensures { result ≡ tag_from 0 octets.now }
{
    let mut tag: u8 = 0;
    for octet in octets {
        tag = tag.wrapping_mul(251).wrapping_add(*octet);
    }
    tag
}

// Puts a row behind the others.
fn put(rows: &mut VecDeque<Row>, address: Nsap, heard: &Heard) -> Result<(), NoMemory>
    ensures ok { OnOk result (rows.new.items ≡ rows.old.items ++ record { address = address; heard = heard.now } ∷ []) }
    ensures err { OnErr result (rows.new.items ≡ rows.old.items) }
{
    let title: Option<Nsap> = heard.hop.title;
    let hop = Hop {
        port: heard.hop.port,
        title,
    };
    let heard = Heard { hop, ..*heard };
    rows.push_back(Row { address, heard })?;
    Ok(())
}

// The rows at these places hold what was heard.
fn renew(rows: &mut VecDeque<Row>, heard: &Heard, places: &[usize])
    requires { All (λ place. place < length rows.old.items) places.now }
    ensures { IsRenewed heard.now places.now rows.old.items rows.new.items }
{
    for place in places {
        rows[*place].heard = *heard;
    }
}

// The row at a place goes.
fn take_out(rows: &mut VecDeque<Row>, place: usize)
    requires { place < length rows.old.items }
    ensures { rows.new.items ≡ remove rows.old.items place }
{
    rows.remove(place);
}
