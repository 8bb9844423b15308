//! The table of routes of a system (X.233, route PDU function).
//!
//! Profile: a table has at most 256 rows, and each prefix at most once.

ghost use Rattle.std.specs.Prelude.{◌≡◌, ◌<◌, ◌≤◌, ◌↔◌, [], ◌∷◌, ◌++◌, true, false, length, option_copied, Err, OnOk, OnErr};
ghost use Rattle.clnp_route.specs.declared.table.AddRefusal.TheVariants.{Duplicate, Full};
ghost use Rattle.clnp_route.specs.Routes.{has_prefix, IsNext, next_hop};
ghost use Rattle.clnp_route.specs.steps.Best.{IsBest, is_better};

use nsap::{Hop, Nsap, Port, Prefix};
use osi_base::NoMemory;
use std::alloc::Global;
use std::marker::Model;

/// The most rows of a table.
const MOST_ROWS: usize = 256;

/// A row: PDUs for the addresses that the prefix covers go to the hop.
#[derive(Clone, Copy, Debug)]
pub struct RouteRow {
    /// What these addresses begin with.
    pub prefix: Prefix,
    /// The next system on the way.
    pub hop: Hop,
}

/// Why a row was not added.
#[derive(Clone, Copy, Debug, PartialEq, Eq)]
pub enum AddRefusal {
    /// The table has a row of that prefix.
    Duplicate,
    /// The table has 256 rows.
    Full,
    /// Memory ran out.
    NoMemory,
}

impl From<NoMemory> for AddRefusal {
    ghost use Rattle.std.specs.Prelude.{◌≡◌};
    ghost use Rattle.clnp_route.specs.declared.table.AddRefusal.TheVariants.{NoMemory as AddNoMemory};

    ghost from_gives = { λ _ e. e ≡ AddNoMemory };

    fn from(_: NoMemory) -> AddRefusal {
        AddRefusal::NoMemory
    }
}

/// The rows of a system, which contracts see as their list, in the order in which they were added.
pub struct Table {
    rows: Vec<RouteRow>,
}

// By hand, so that it is proved here alone: what is derived is proved again in each crate that lets one go.
impl Drop for Table {
    fn drop(self) {
        let Table { rows: _ } = self;
    }
}

// No two rows have one prefix, and there are at most 256.
impl Model for Table {
    ghost use Rattle.std.specs.Prelude.{List};
    ghost use Rattle.clnp_route.specs.declared.table.RouteRow.{RouteRow};
    ghost use Rattle.clnp_route.specs.Routes.{IsTable};

    ghost Value = { List RouteRow };

    ghost view = { λ a. a.rows.items };

    ghost invariant = { λ a. IsTable a.rows.items };
}

impl Table {
    /// A table without rows.
    pub fn new(alloc: Global) -> Table
        ensures { result ≡ [] }
    {
        Table {
            rows: Vec::new(alloc),
        }
    }

    /// The hop of the longest prefix that covers the address; None exactly where none covers it.
    ///
    /// Each row is looked at once.
    pub fn next(&self, address: &Nsap) -> Option<Hop>
        ensures longest { IsNext self.now address.now result }
        ensures value { result ≡ next_hop self.now address.now }
    {
        next_in(&self.rows, address)
    }

    /// Adds a row behind the others.
    ///
    /// `Duplicate` comes exactly where the prefix has a row, else `Full` exactly at 256 rows. The table is unchanged where
    /// the row is refused.
    pub fn add(&mut self, prefix: Prefix, hop: Hop) -> Result<(), AddRefusal>
        ensures ok { OnOk result (self.new ≡ self.old ++ record { prefix = prefix; hop = hop } ∷ []) }
        ensures duplicate { (result ≡ Err Duplicate) ↔ (has_prefix self.old prefix ≡ true) }
        ensures full { (result ≡ Err Full) ↔ ((has_prefix self.old prefix ≡ false) × (256 ≤ length self.old)) }
        ensures err { OnErr result (self.new ≡ self.old) }
    {
        if self.has(&prefix) {
            return Err(AddRefusal::Duplicate);
        }
        if self.rows.len() >= MOST_ROWS {
            return Err(AddRefusal::Full);
        }
        self.push(prefix, hop.port, hop.title)?;
        Ok(())
    }

    // Puts a row behind the others; the hop comes in its parts.
    fn push(&mut self, prefix: Prefix, port: Port, title: Option<Nsap>) -> Result<(), NoMemory>
        requires fresh { has_prefix self.old prefix ≡ false }
        requires room { length self.old < 256 }
        ensures ok { OnOk result (self.new ≡ self.old ++ record { prefix = prefix; hop = record { port = port; title = title } } ∷ []) }
        ensures err { OnErr result (self.new ≡ self.old) }
    {
        let hop = Hop { port, title };
        self.rows.push(RouteRow { prefix, hop })?;
        Ok(())
    }

    // Whether a row has that prefix.
    fn has(&self, prefix: &Prefix) -> bool
        ensures { result ≡ has_prefix self.now prefix.now }
    {
        self.rows.iter().any(|row| row.prefix == *prefix)
    }
}

// The hop of the longest prefix that covers the address.
fn next_in(rows: &[RouteRow], address: &Nsap) -> Option<Hop>
    ensures { IsNext rows.now address.now result }
{
    best_row(rows, address).map(|row| row.hop)
}

// The row of the longest prefix that covers the address.
fn best_row<'a>(rows: &'a [RouteRow], address: &Nsap) -> Option<&'a RouteRow>
    ensures { IsBest rows.now address.now (option_copied result) }
{
    let mut best = None;
    for row in rows {
        if is_better(row, best, address) {
            best = Some(row);
        }
    }
    best
}

// Whether the row covers the address, with a longer prefix than the best one so far.
fn is_better(row: &RouteRow, best: Option<&RouteRow>, address: &Nsap) -> bool
    ensures { result ≡ is_better row.now (option_copied best.entry) address.now }
{
    let longer = match best {
        Some(best) => best.prefix.octets().len() < row.prefix.octets().len(),
        None => true,
    };
    longer && row.prefix.covers(address)
}
