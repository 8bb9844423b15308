//! The times and limits of the transport entities of a script (X.224, class 4: timers, frozen references).

ghost use Rattle.std.specs.Prelude.{◌≡◌};
ghost use Rattle.script_setup.specs.SetUp.{timers_of, usual_limits};

use script_lines::{Key, default_of};
use tp4_conn::Timers;

/// The times and limits of transport. The times are in ticks.
#[derive(Clone, Copy)]
pub struct Limits {
    /// T1, after which a TPDU without its answer is sent again: 1 to 255.
    pub t1: u8,
    /// N, how often a TPDU is sent: 2 to 16.
    pub sendings: u8,
    /// W, after which an AK is sent again: 1 to 255.
    pub window: u8,
    /// I, after which an end to which nothing comes is closed: 1 to 255.
    pub inactive: u8,
    /// The credit that an end gives at first: 0 to 15.
    pub credit: u8,
    /// The references of a system: 1 to 64.
    pub references: u8,
}

impl Limits {
    /// Those of a script that sets none.
    pub fn new() -> Limits
        ensures { result ≡ usual_limits }
    {
        Limits {
            t1: default_of(Key::T1) as u8,
            sendings: default_of(Key::N) as u8,
            window: default_of(Key::W) as u8,
            inactive: default_of(Key::I) as u8,
            credit: default_of(Key::Credit) as u8,
            references: default_of(Key::Refs) as u8,
        }
    }

    /// The times and counts of an end, where a TPDU is under way for so many ticks at most.
    pub fn timers(self, life: u8) -> Timers
        ensures { result ≡ timers_of life self }
    {
        Timers {
            life: u32::from(life),
            t1: u32::from(self.t1),
            sendings: u32::from(self.sendings),
            window: u32::from(self.window),
            inactive: u32::from(self.inactive),
            credit: u16::from(self.credit),
        }
    }
}
