//! The systems that are known by their hellos (ISO 9542, record configuration function, flush old configuration function).

ghost use Rattle.std.specs.Prelude.{◌≡◌, ◌<◌, ◌≤◌, Err, IfOk, List, OnOk, OnErr, ◌↔◌, [], IsTrue};
ghost use Rattle.esis_pdu.specs.Lent.{listed, value_of};
ghost use Rattle.esis_tables.specs.declared.address_table.HearRefusal.TheVariants.{Full};
ghost use Rattle.esis_tables.specs.Told.{IsConfiguration, IsRouter, Told, known_hop, told_of};
ghost use Rattle.esis_tables.specs.Rows.{find_row, heard_table, no_rows, router_in, swept_table};
ghost use Rattle.esis_tables.specs.Room.{count_with};
ghost use Rattle.esis_tables.specs.Stands.{Stands, StandsStill, StandsWith};

use crate::HearRefusal;
use crate::address_table::AddressTable;
use crate::holding_time::Heard;
use esis_pdu::{AddressesRef, HelloRef};
use nsap::{Hop, Nsap, Port};
use osi_base::{NoMemory, Tick};
use std::alloc::Global;
use std::marker::Model;

/// The addresses that end systems and intermediate systems told, each with the port that told it last.
pub struct Neighbours {
    alloc: Global,
    known: AddressTable,
}

// By hand, so that it is proved here alone: what is derived is proved again in each crate that lets one go.
impl Drop for Neighbours {
    fn drop(self) {
        let Neighbours { alloc: _, known: _ } = self;
    }
}

impl Model for Neighbours {
    ghost use Rattle.esis_tables.specs.Rows.{Rows};

    ghost Value = { Rows };

    ghost view = { λ a. a.known };
}

impl Neighbours {
    /// No neighbours.
    pub fn new(alloc: Global) -> Neighbours
        ensures { result ≡ no_rows }
    {
        Neighbours {
            alloc,
            known: AddressTable::new(alloc),
        }
    }

    /// Whether no address has a row.
    pub fn is_empty(&self) -> bool
        ensures { IsTrue result ↔ (self.now.rows ≡ []) }
    {
        self.known.is_empty()
    }

    /// The hop to an address; None exactly where the latest hello that named it is known no longer, or none did.
    pub fn find(&self, now: Tick, address: &Nsap) -> Option<Hop>
        requires { self.now.clock ≤ now }
        ensures stands { (hellos : List Told) → Stands self.now hellos self.now.clock → result ≡ known_hop hellos now address.now }
        ensures value { result ≡ find_row self.now.rows now address.now }
    {
        self.known.find(now, address)
    }

    /// The hop to the known intermediate system of least title; None exactly where none is known.
    pub fn any_router(&self, now: Tick) -> Option<Hop>
        requires { self.now.clock ≤ now }
        ensures stands { (hellos : List Told) → Stands self.now hellos self.now.clock → IsRouter hellos now result }
        ensures value { result ≡ router_in self.now.rows now }
    {
        self.known.router(now)
    }

    /// Hears an ESH or an ISH that came from a port.
    ///
    /// `Full` comes only where the addresses that have no row would pass 256 rows. The table is unchanged where the hello is
    /// refused.
    pub fn hear(&mut self, now: Tick, hello: &HelloRef<'_>, port: Port) -> Result<(), HearRefusal>
        requires later { self.old.clock ≤ now }
        requires kind { IsConfiguration (value_of hello.now) }
        ensures stands { OnOk result (StandsWith self.old (told_of now port (value_of hello.now)) self.new) }
        ensures value { OnOk result (self.new ≡ heard_table self.old (told_of now port (value_of hello.now))) }
        ensures room { OnOk result (count_with self.old.rows (told_of now port (value_of hello.now)) ≤ 256) }
        ensures full { result ≡ Err Full → 256 < count_with self.old.rows (told_of now port (value_of hello.now)) }
        ensures err { OnErr result (self.new ≡ self.old) }
        ensures clock { self.new.clock ≤ now }
    {
        match hello {
            HelloRef::Esh {
                hold,
                addresses,
                ..
            } => {
                let names = names_of(self.alloc, addresses)?;
                self.known.hear(&names, &Heard::of(now, *hold, port, None))
            }
            HelloRef::Ish { hold, title, .. } => {
                self.known
                    .hear(&[*title], &Heard::of(now, *hold, port, Some(*title)))
            }
            HelloRef::Rd { .. } => Ok(()),
        }
    }

    /// Takes away exactly the addresses that are known no longer.
    pub fn tick(&mut self, now: Tick)
        requires { self.old.clock ≤ now }
        ensures stands { StandsStill self.old self.new }
        ensures value { self.new ≡ swept_table self.old now }
    {
        self.known.tick(now);
    }
}

// The addresses of an ESH.
fn names_of(alloc: Global, addresses: &AddressesRef<'_>) -> Result<Vec<Nsap>, NoMemory>
    ensures { IfOk result (λ names. names.items ≡ listed addresses.now) }
{
    let mut names = Vec::new(alloc);
    while let Some(address) = addresses.nth(names.len()) {
        names.push(address)?;
    }
    Ok(names)
}
