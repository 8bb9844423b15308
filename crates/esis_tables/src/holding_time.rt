//! What a table holds of an address, and when its holding time ends (ISO 9542, configuration information).

ghost use Rattle.std.specs.Prelude.{◌≡◌, ◌*◌};
ghost use Rattle.esis_tables.specs.Rows.{is_row_known, is_router};
ghost use Rattle.esis_tables.specs.steps.Deadlines.{deadline_of};

use nsap::{Hop, Nsap, Port};
use osi_base::Tick;

/// What the latest hello told.
#[derive(Clone, Copy, Debug)]
pub struct Heard {
    /// When it was heard.
    pub tick: Tick,
    /// Its holding time in ticks.
    pub ticks: u32,
    /// The hop to the addresses that it named.
    pub hop: Hop,
}

impl Heard {
    /// What a hello of that holding time in seconds told.
    pub fn of(now: Tick, hold: u16, port: Port, title: Option<Nsap>) -> Heard
        ensures { result ≡ record { tick = now; ticks = 2 * hold; hop = record { port = port; title = title } } }
    {
        Heard {
            tick: now,
            ticks: 2 * u32::from(hold),
            hop: Hop { port, title },
        }
    }
}

/// An address that a hello named, and what the latest one told.
#[derive(Clone, Copy, Debug)]
pub struct Row {
    pub address: Nsap,
    pub heard: Heard,
}

impl Row {
    /// Whether the holding time lasts.
    pub fn is_known(&self, now: Tick) -> bool
        ensures { result ≡ is_row_known now self.now }
    {
        u64::from(now) < u64::from(self.heard.tick) + u64::from(self.heard.ticks)
    }

    /// The tick from which on the holding time lasts no longer; None where that passes the last tick.
    pub fn deadline(&self) -> Option<Tick>
        ensures { result ≡ deadline_of self.now }
    {
        self.heard.tick.checked_add(self.heard.ticks)
    }

    /// Whether this is the row of an intermediate system that is known, by its title.
    pub fn is_router(&self, now: Tick) -> bool
        ensures { result ≡ is_router now self.now }
    {
        let named = match self.heard.hop.title {
            Some(title) => title == self.address,
            None => false,
        };
        self.is_known(now) && named
    }
}
