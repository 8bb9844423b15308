//! Rows by address, as far as they are known (ISO 9542, configuration information).
//!
//! Profile: a table has at most 256 rows.

ghost use Rattle.std.specs.Prelude.{◌≡◌, ◌<◌, ◌≤◌, ◌↔◌, [], Err, None, IsTrue, OnOk, OnErr, IfOk, length};
ghost use Rattle.std.specs.List.{All, filter};
ghost use Rattle.esis_tables.specs.declared.address_table.HearRefusal.TheVariants.{Full};
ghost use Rattle.esis_tables.specs.Rows.{IsTable, find_row, heard_table, is_row_known, no_rows, router_in, swept_table};
ghost use Rattle.esis_tables.specs.Room.{count_with};
ghost use Rattle.esis_tables.specs.steps.Places.{told_by};
ghost use Rattle.esis_tables.specs.steps.Deadlines.{AreDeadlines, IsKept, IsListed, IsMade, deadline_at};
ghost use Rattle.esis_tables.specs.steps.Least.{IsRouterHop};

use crate::holding_time::{Heard, Row};
use crate::least_router::hop_to_router;
use crate::room::{MOST_ROWS, places_of};
use crate::rows::TaggedRows;
use due_links::DueList;
use nsap::{Hop, Nsap};
use osi_base::{NoMemory, Tick};
use std::alloc::Global;
use std::collections::VecDeque;
use std::marker::Model;

/// Why a hello was not heard.
#[derive(Clone, Copy, Debug, PartialEq, Eq)]
pub enum HearRefusal {
    /// The addresses that it names and that are not there would pass 256 rows.
    Full,
    /// Memory ran out.
    NoMemory,
}

impl From<NoMemory> for HearRefusal {
    ghost use Rattle.std.specs.Prelude.{◌≡◌};
    ghost use Rattle.esis_tables.specs.declared.address_table.HearRefusal.TheVariants.{NoMemory as HearNoMemory};

    ghost from_gives = { λ _ e. e ≡ HearNoMemory };

    fn from(_: NoMemory) -> HearRefusal {
        HearRefusal::NoMemory
    }
}

/// The rows of a table, and the latest tick of a call that changed them.
#[derive(Drop)]
pub struct AddressTable {
    alloc: Global,
    clock: Tick,
    rows: TaggedRows,
    /// When rows are known no longer, in their order: a tick takes out those alone, and looks at none where none is due. Made by the first hello.
    due: Option<DueList>,
}

// An address has at most one row, and there are at most 256. What is due is exactly the deadline of each row, and no row is
// kept before that is made.
impl Model for AddressTable {
    ghost use Rattle.esis_tables.specs.Rows.{Rows, IsTable};
    ghost use Rattle.esis_tables.specs.steps.Deadlines.{IsDue};

    ghost Value = { Rows };

    ghost view = { λ a. record { clock = a.clock; rows = a.rows } };

    ghost invariant = { λ a. IsTable a.rows × IsDue a.due a.rows };
}

impl AddressTable {
    /// No rows.
    pub fn new(alloc: Global) -> AddressTable
        ensures { result ≡ no_rows }
    {
        AddressTable {
            alloc,
            clock: 0,
            rows: TaggedRows::new(alloc),
            due: None,
        }
    }

    /// The hop to an address, where it has a row that is known.
    pub fn find(&self, now: Tick, address: &Nsap) -> Option<Hop>
        ensures { result ≡ find_row self.now.rows now address.now }
    {
        let row = self.rows.row(address)?;
        if row.is_known(now) {
            Some(row.heard.hop)
        } else {
            None
        }
    }

    /// Whether no address has a row.
    pub fn is_empty(&self) -> bool
        ensures { IsTrue result ↔ (self.now.rows ≡ []) }
    {
        self.rows.ring().is_empty()
    }

    /// The hop to the known intermediate system of least title.
    pub fn router(&self, now: Tick) -> Option<Hop>
        ensures least { IsRouterHop self.now.rows now result }
        ensures value { result ≡ router_in self.now.rows now }
    {
        hop_to_router(self.rows.ring(), now)
    }

    /// Hears a hello that names these addresses.
    pub fn hear(&mut self, names: &[Nsap], heard: &Heard) -> Result<(), HearRefusal>
        ensures ok { OnOk result (self.new ≡ heard_table self.old (told_by names.now heard.now)) }
        ensures room { OnOk result (count_with self.old.rows (told_by names.now heard.now) ≤ 256) }
        ensures full { result ≡ Err Full → 256 < count_with self.old.rows (told_by names.now heard.now) }
        ensures err { OnErr result (self.new ≡ self.old) }
    {
        let mut due = made(self.due.take(), self.alloc)?;
        let stood = self.rows.ring().len();
        match places_of(self.alloc, &mut self.rows, names, heard) {
            Ok(places) => {
                self.rows.renew(heard, &places);
                list_new(&mut due, self.rows.ring(), stood);
                keep_noted(&mut due, self.rows.ring(), &places);
                self.due = Some(due);
                self.clock = heard.tick;
                Ok(())
            }
            Err(refusal) => {
                self.rows.truncate(stood);
                self.due = Some(due);
                Err(refusal)
            }
        }
    }

    /// Takes away the rows that are no longer known. Looks at none where none is due.
    pub fn tick(&mut self, now: Tick)
        ensures { self.new ≡ swept_table self.old now }
    {
        self.clock = now;
        if let Some(due) = &mut self.due {
            sweep_due(due, &mut self.rows, now);
        }
    }
}

// What is due is the deadline of each row, made where it was not.
fn made(due: Option<DueList>, alloc: Global) -> Result<DueList, NoMemory>
    ensures ok { IfOk result (λ new. IsMade due new) }
    ensures err { OnErr result (due ≡ None) }
{
    match due {
        Some(due) => Ok(due),
        None => DueList::new(alloc, MOST_ROWS as u32),
    }
}

// The deadline of the row at a place, where one stands there.
fn deadline_at(rows: &VecDeque<Row>, place: usize) -> Option<Tick>
    ensures { result ≡ deadline_at rows.now.items place }
{
    rows.get(place)?.deadline()
}

// The rows from that place on are listed, due at their deadlines.
fn list_new(due: &mut DueList, rows: &VecDeque<Row>, stood: usize)
    requires stood { length due.old.ticks ≡ stood }
    requires order { stood ≤ length rows.now.items }
    requires few { length rows.now.items ≤ due.old.most }
    ensures ticks { IsListed rows.now.items (length rows.now.items) due.old.ticks due.new.ticks }
    ensures most { due.new.most ≡ due.old.most }
{
    for place in stood..rows.len() {
        due.push(deadline_at(rows, place));
    }
}

// The rows at these places are due at their deadlines.
fn keep_noted(due: &mut DueList, rows: &VecDeque<Row>, places: &[usize])
    requires { All (λ place. place < length due.old.ticks) places.now }
    ensures ticks { IsKept rows.now.items places.now due.old.ticks due.new.ticks }
    ensures most { due.new.most ≡ due.old.most }
{
    for place in places {
        due.set(*place, deadline_at(rows, *place));
    }
}

// Only the rows that are known stay. None is looked at where none is due; where one goes, the shorter part of the ring beside it moves.
// Apart, so that a tick before the first hello has no room for these values to clear.
#[inline(never)]
fn sweep_due(due: &mut DueList, rows: &mut TaggedRows, now: Tick)
    requires { AreDeadlines rows.old due.old.ticks }
    ensures due { AreDeadlines rows.new due.new.ticks }
    ensures most { due.new.most ≡ due.old.most }
    ensures rows { rows.new ≡ filter (is_row_known now) rows.old }
{
    while let Some(place) = due.pop(now) {
        rows.remove(place);
    }
}
