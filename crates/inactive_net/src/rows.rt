//! The end systems of a network, by address and by port (X.233, Inactive Network Layer Protocol subset, subnetwork addresses).

ghost use Rattle.std.specs.Prelude.{◌≡◌, option_copied};
ghost use Rattle.inactive_step.specs.Rows.{bound_in, longest, room_in, row_at, row_on};

use inactive_step::InactiveRow;
use nsap::{Nsap, Port};
use std::marker::Model;

/// The bound, and the room, for an address that no end system has.
const NOWHERE: u32 = 1;

/// The end systems.
#[derive(Drop)]
pub struct Rows {
    list: Vec<InactiveRow>,
    greatest: u32,
}

// The greatest bound is kept beside them.
impl Model for Rows {
    ghost use Rattle.std.specs.Prelude.{◌≡◌, List};
    ghost use Rattle.inactive_step.specs.declared.row.InactiveRow.{InactiveRow};
    ghost use Rattle.inactive_step.specs.Rows.{longest};

    ghost Value = { List InactiveRow };

    ghost view = { λ a. a.list.items };

    ghost invariant = { λ a. a.greatest ≡ longest a.list.items };
}

impl Rows {
    /// These end systems.
    pub fn new(list: Vec<InactiveRow>) -> Rows
        ensures { result ≡ list.items }
    {
        let greatest = longest_of(&list);
        Rows { list, greatest }
    }

    /// The end system that has an address.
    pub fn with_address(&self, address: &Nsap) -> Option<&InactiveRow>
        ensures { option_copied result ≡ row_at self.now address.now }
    {
        self.list.iter().find(|row| row.address == *address)
    }

    /// The end system that has a port.
    pub fn with_port(&self, port: &Port) -> Option<&InactiveRow>
        ensures { option_copied result ≡ row_on self.now port.now }
    {
        self.list.iter().find(|row| row.port == *port)
    }

    /// How many ticks a unit to an address may float.
    pub fn bound(&self, to: &Nsap) -> u32
        ensures { result ≡ bound_in (row_at self.now to.now) }
    {
        match self.with_address(to) {
            Some(row) => row.bound,
            None => NOWHERE,
        }
    }

    /// How many octets a unit to an address may have.
    pub fn room(&self, to: &Nsap) -> u32
        ensures { result ≡ room_in (row_at self.now to.now) }
    {
        match self.with_address(to) {
            Some(row) => row.room.saturating_sub(1),
            None => NOWHERE,
        }
    }

    /// The greatest bound of all.
    pub fn longest(&self) -> u32
        ensures { result ≡ longest self.now }
    {
        self.greatest
    }
}

/// The greatest bound.
fn longest_of(rows: &[InactiveRow]) -> u32
    ensures { result ≡ longest rows.now }
{
    let mut greatest = NOWHERE;
    for row in rows {
        greatest = greatest.max(row.bound);
    }
    greatest
}
