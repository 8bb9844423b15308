//! A relay: what it does about the events of a line, and for the pairs that are open (X.214, service primitives).

ghost use Rattle.std.specs.Prelude.{◌≡◌, ◌≤◌, ◌==◌, ℕ, List, IfOk, OnOk};
ghost use Rattle.std.specs.List.{AllByRecursion, list_any};
ghost use Rattle.tp4_relay.specs.Allowed.{AreAllowed, AreLine};
ghost use Rattle.tp4_relay.specs.Kept.{kept_after, nothing_kept, owns};
ghost use Rattle.tp4_relay.specs.Leaving.{ServesAll};
ghost use Rattle.tp4_relay.specs.Pump.{PumpStep};
ghost use Rattle.tp4_relay.specs.Service.{Tells};
ghost use Rattle.tp4_relay.specs.declared.row.RelayRow.{RelayRow as Row};

use crate::reacting::react_all;
use crate::row::RelayRow;
use crate::service::Service;
use crate::serving::serve_all;
use crate::table::{Table, owns};
use osi_base::NoMemory;
use script_journal::Event;
use std::alloc::Global;
use std::marker::Model;
use tp4_conn::Timers;

/// Joins connections that are indicated at rows of its table to connections that it asks for.
#[derive(Drop)]
pub struct Relay {
    table: Table,
}

impl Model for Relay {
    ghost use Rattle.tp4_relay.specs.Kept.{Kept};
    ghost use Rattle.tp4_relay.specs.steps.Tables.{IsTied, kept_of};

    ghost Value = { Kept };

    ghost view = { λ r. kept_of r.table };

    ghost invariant = { λ r. IsTied r.table };
}

impl Relay {
    /// A relay with these rows, before the first event. The credit that it gives at its ends is that of these rules.
    pub fn new(alloc: Global, rows: Vec<RelayRow>, rules: Timers) -> Relay
        ensures { result ≡ nothing_kept rows.items rules }
    {
        Relay {
            table: Table {
                alloc,
                rows,
                rules,
                named: 0,
                claims: Vec::new(alloc),
                pairs: Vec::new(alloc),
                places: Vec::new(alloc),
            },
        }
    }

    /// Whether a row of its table is at the system.
    pub fn is_at(&self, system: u8) -> bool
        ensures { result ≡ list_any (λ row. row.system == system) self.now.rows }
    {
        self.table.rows.iter().any(|row| row.system == system)
    }

    /// Whether the end was indicated at a row, or asked for by the relay.
    pub fn owns(&self, end: u32) -> bool
        ensures { result ≡ owns self.now end }
    {
        owns(&self.table, end)
    }

    /// Reads the events that a line made, and does what is to be done about them and for the pairs that are open; the events of that follow.
    /// Whether one of its calls was done.
    ///
    /// At NoMemory the run ends.
    pub fn pump<S: Service>(
        &mut self,
        service: &mut S,
        events: &mut Vec<Event>,
    ) -> Result<bool, NoMemory>
        requires has { AllByRecursion (λ (row : Row). S.has service.old row.system) self.old.rows }
        requires named { self.old.named ≤ S.ends service.old }
        requires credit { self.old.rules.credit ≤ 255 }
        requires line { AreLine (S.ends service.old) self.old events.old.items }
        ensures step { IfOk result (λ done. Tells events.old.items events.new.items (λ made. PumpStep S.connects S.calls service.old self.old events.old.items done made service.new self.new)) }
        ensures stands { OnOk result (self.new ≡ kept_after self.old events.new.items) }
        ensures served { IfOk result (λ done. Tells events.old.items events.new.items (λ made. ServesAll S.connects S.calls service.old self.old events.old.items done made service.new self.new)) }
        ensures allowed { AreAllowed self.old events.new.items }
    {
        let reacted = react_all(&mut self.table, service, events)?;
        let served = serve_all(&mut self.table, service, events)?;
        Ok(reacted || served)
    }
}
