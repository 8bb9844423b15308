//! The better hops that an end system was told (ISO 9542, record redirect function, flush old redirect function).

ghost use Rattle.std.specs.Prelude.{◌≡◌, ◌<◌, ◌≤◌, Err, List, OnOk, OnErr, ◌↔◌, [], IsTrue};
ghost use Rattle.esis_pdu.specs.Lent.{value_of};
ghost use Rattle.esis_tables.specs.declared.address_table.HearRefusal.TheVariants.{Full};
ghost use Rattle.esis_tables.specs.Told.{IsRedirect, Told, known_hop, on_lan, told_of};
ghost use Rattle.esis_tables.specs.Rows.{find_row, heard_table, no_rows, swept_table};
ghost use Rattle.esis_tables.specs.Room.{count_with};
ghost use Rattle.esis_tables.specs.Stands.{Stands, StandsStill, StandsWith};

use crate::HearRefusal;
use crate::address_table::AddressTable;
use crate::holding_time::Heard;
use esis_pdu::HelloRef;
use nsap::{Hop, Nsap, Port};
use osi_base::Tick;
use std::alloc::Global;
use std::marker::Model;

/// The addresses of which a redirect told a hop, each with the one that was told last.
pub struct Redirects {
    known: AddressTable,
}

// By hand, so that it is proved here alone: what is derived is proved again in each crate that lets one go.
impl Drop for Redirects {
    fn drop(self) {
        let Redirects { known: _ } = self;
    }
}

impl Model for Redirects {
    ghost use Rattle.esis_tables.specs.Rows.{Rows};

    ghost Value = { Rows };

    ghost view = { λ a. a.known };
}

impl Redirects {
    /// No redirects.
    pub fn new(alloc: Global) -> Redirects
        ensures { result ≡ no_rows }
    {
        Redirects {
            known: AddressTable::new(alloc),
        }
    }

    /// Whether no address has a row.
    pub fn is_empty(&self) -> bool
        ensures { IsTrue result ↔ (self.now.rows ≡ []) }
    {
        self.known.is_empty()
    }

    /// The hop to an address; None exactly where the latest redirect that named it is known no longer, or none did.
    pub fn find(&self, now: Tick, address: &Nsap) -> Option<Hop>
        requires { self.now.clock ≤ now }
        ensures stands { (hellos : List Told) → Stands self.now hellos self.now.clock → result ≡ known_hop hellos now address.now }
        ensures value { result ≡ find_row self.now.rows now address.now }
    {
        self.known.find(now, address)
    }

    /// Hears an RD that came on a LAN.
    ///
    /// `Full` comes only where the address has no row and there are 256. The table is unchanged where the redirect is refused.
    pub fn hear(&mut self, now: Tick, hello: &HelloRef<'_>, lan: u8) -> Result<(), HearRefusal>
        requires later { self.old.clock ≤ now }
        requires kind { IsRedirect (value_of hello.now) }
        ensures stands { OnOk result (StandsWith self.old (told_of now (on_lan lan) (value_of hello.now)) self.new) }
        ensures value { OnOk result (self.new ≡ heard_table self.old (told_of now (on_lan lan) (value_of hello.now))) }
        ensures room { OnOk result (count_with self.old.rows (told_of now (on_lan lan) (value_of hello.now)) ≤ 256) }
        ensures full { result ≡ Err Full → 256 < count_with self.old.rows (told_of now (on_lan lan) (value_of hello.now)) }
        ensures err { OnErr result (self.new ≡ self.old) }
        ensures clock { self.new.clock ≤ now }
    {
        match hello {
            HelloRef::Rd {
                hold,
                address,
                snpa,
                title,
                ..
            } => {
                let port = Port { lan, snpa: *snpa };
                self.known
                    .hear(&[*address], &Heard::of(now, *hold, port, *title))
            }
            HelloRef::Esh { .. } | HelloRef::Ish { .. } => Ok(()),
        }
    }

    /// Takes away exactly the addresses that are known no longer.
    pub fn tick(&mut self, now: Tick)
        requires { self.old.clock ≤ now }
        ensures stands { StandsStill self.old self.new }
        ensures value { self.new ≡ swept_table self.old now }
    {
        self.known.tick(now);
    }
}
