//! A tick of a system (X.233, reassembly function; ISO 9542, configuration timer, flush old configuration function, flush old redirect
//! function, report configuration function).

ghost use Rattle.std.specs.Prelude.{◌≡◌, ◌++◌, ◌≤◌, IfOk, map};
ghost use Rattle.clnp_system.specs.Node.{reaction_of};
ghost use Rattle.clnp_system.specs.Tables.{rows_tables};
ghost use Rattle.clnp_system.specs.Ticking.{ExpiresAll, NodeTicks, ReportsEach, discarded_unit, expiry_note};
ghost use Rattle.clnp_entity.specs.steps.Flushed.{Flushes};
ghost use Rattle.clnp_entity.specs.Kept.{IsKept};
ghost use Rattle.clnp_entity.specs.steps.Lost.{lost_pdu};

use crate::entity::NetEntity;
use crate::reporting::DiscardedPdu;
use clnp_header::Reason;
use clnp_segment::{Expired, Store};
use clnp_system::Handled;
use nsap::{Nsap, Port};
use osi_base::{NoMemory, Note, Tick, Unit, Up};
use std::alloc::Global;

impl NetEntity {
    /// What comes of a tick.
    ///
    /// What is known of others no longer is dropped, and the units whose lifetime ended before all their segments came are discarded,
    /// each with its note and its report. Then hellos go out where they are due: at tick 0 those of the start.
    pub fn tick(&mut self, now: Tick) -> Result<Handled, NoMemory>
        requires clock { self.old.clock ≤ now }
        requires end { now ≤ 4000000000 }
        ensures ticks { IfOk result (λ handled. NodeTicks rows_tables self.old now (reaction_of handled) self.new) }
        ensures kept { IsKept self.new }
        ensures clock { self.new.clock ≤ now }
    {
        let expired = self.flush(now)?;
        let ups = self.notes(&expired)?;
        let reports = self.reports(now, &expired)?;
        let hellos = self.setup.hellos(self.alloc, now)?;
        let frames = joined(reports, hellos)?;
        Ok(Handled { ups, frames })
    }

    /// What is known of others no longer is dropped, and so are the units whose lifetime ended.
    fn flush(&mut self, now: Tick) -> Result<Vec<Expired>, NoMemory>
        requires clock { self.old.clock ≤ now }
        requires end { now ≤ 4000000000 }
        ensures flushes { IfOk result (λ expired. Flushes self.old now expired.items self.new) }
        ensures kept { IsKept self.new }
        ensures clock { self.new.clock ≤ now }
    {
        self.clock = now;
        self.neighbours.tick(now);
        self.redirects.tick(now);
        expire_all(self.alloc, &mut self.store, now)
    }

    /// The note of each unit that was given up.
    fn notes(&self, expired: &[Expired]) -> Result<Vec<Up<Nsap>>, NoMemory>
        ensures { IfOk result (λ ups. ups.items ≡ map (expiry_note self.now.setup.system) expired.now) }
    {
        let mut ups = Vec::new(self.alloc);
        for unit in expired {
            ups.push(expiry_note(self.setup.system, unit))?;
        }
        Ok(ups)
    }

    /// The reports about the units that were given up, in order.
    fn reports(&self, now: Tick, expired: &[Expired]) -> Result<Vec<Unit<Port>>, NoMemory>
        requires clock { self.now.clock ≤ now }
        ensures { IfOk result (λ frames. ReportsEach rows_tables self.now now expired.now frames.items) }
    {
        let mut frames = Vec::new(self.alloc);
        for unit in expired {
            let mut report = self.report(now, &lost(unit))?;
            frames.append(&mut report)?;
        }
        Ok(frames)
    }
}

/// All units whose lifetime ended, one after another.
fn expire_all(alloc: Global, store: &mut Store, now: Tick) -> Result<Vec<Expired>, NoMemory>
    requires clock { store.old.clock ≤ now }
    requires end { now ≤ 4000000000 }
    ensures all { IfOk result (λ expired. ExpiresAll store.old now expired.items store.new) }
    ensures within { (store.new.clock ≤ now) × (store.new.units ≡ store.old.units) × (store.new.octets ≡ store.old.octets) }
{
    let mut expired = Vec::new(alloc);
    while let Some(unit) = store.expire(now) {
        expired.push(unit)?;
    }
    Ok(expired)
}

/// These frames, and others behind them. Where there are none, the others are not moved.
fn joined(frames: Vec<Unit<Port>>, mut others: Vec<Unit<Port>>) -> Result<Vec<Unit<Port>>, NoMemory>
    ensures { IfOk result (λ all. all.items ≡ frames.items ++ others.items) }
{
    if frames.is_empty() {
        return Ok(others);
    }
    let mut all = frames;
    all.append(&mut others)?;
    Ok(all)
}

/// The note of a unit that was given up.
fn expiry_note(system: u8, unit: &Expired) -> Up<Nsap>
    ensures { result ≡ expiry_note system unit.now }
{
    let _ = unit;
    Up::Note(Note::Discard {
        system,
        reason: Reason::LifetimeExpiredInReassembly.code(),
        place: 0,
    })
}

/// A unit that was given up, as what is discarded.
fn lost(unit: &Expired) -> DiscardedPdu<'_>
    ensures { lost_pdu result ≡ discarded_unit unit.now }
{
    DiscardedPdu {
        wanted: unit.reportable,
        source: unit.source,
        header: unit.header.as_slice(),
        reason: Reason::LifetimeExpiredInReassembly,
        place: 0,
    }
}
