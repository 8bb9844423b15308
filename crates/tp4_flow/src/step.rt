//! What an end tells and sends, in order.

ghost use Rattle.std.specs.Prelude.{◌≡◌, [], ◌∷◌, ◌++◌, OnOk, OnErr};

use nsap::Nsap;
use osi_base::{Bytes, NoMemory};
use std::alloc::Global;
use std::marker::Model;
use std::mem;
use tpdu::{EndTold, Format, Kind, Options, Tpdu, TpduCause};

/// What an entity tells.
#[derive(Drop, Debug)]
pub enum What {
    /// A connect indication: the calling address, the partner's reference, both selectors, what is proposed.
    Incoming {
        from: Nsap,
        partner: u16,
        calling: Bytes,
        called: Bytes,
        options: Options,
        octets: Bytes,
    },
    /// What an end of its tells.
    End(EndTold),
    /// A TPDU was not taken; the octet at fault from 1, or 0 for none.
    BadTpdu(TpduCause, u32),
    /// A TPDU of this kind matches no end.
    Unknown(Kind),
    /// A unit came to an entity that is silent.
    Silent,
}

/// What the end of a reference tells; the reference is 0 where no end is concerned.
#[derive(Drop)]
pub struct EndEvent {
    pub reference: u16,
    pub what: What,
}

/// A TPDU on its way to an address, in a format, with a checksum or without.
#[derive(Drop)]
pub struct Sent {
    pub to: Nsap,
    pub tpdu: Tpdu,
    pub format: Format,
    pub sum: bool,
}

/// Events and TPDUs, each in order.
#[derive(Drop)]
pub struct Step {
    events: Vec<EndEvent>,
    tpdus: Vec<Sent>,
}

impl Model for Step {
    ghost use Rattle.tp4_flow.specs.Told.{Told};

    ghost Value = { Told };

    ghost view = { λ s. record { events = s.events.items; tpdus = s.tpdus.items } };
}

impl Step {
    /// Nothing yet.
    pub fn new(alloc: Global) -> Step
        ensures { result ≡ record { events = []; tpdus = [] } }
    {
        Step {
            events: Vec::new(alloc),
            tpdus: Vec::new(alloc),
        }
    }

    /// The events, in order.
    pub fn events(&self) -> &[EndEvent]
        ensures { result.now ≡ self.now.events }
    {
        &self.events
    }

    /// The TPDUs, in order.
    pub fn tpdus(&self) -> &[Sent]
        ensures { result.now ≡ self.now.tpdus }
    {
        &self.tpdus
    }

    /// The events, in order, which leave it.
    pub fn take_events(&mut self, alloc: Global) -> Vec<EndEvent>
        ensures events { result.items ≡ self.old.events }
        ensures rest { self.new ≡ record self.old { events = [] } }
    {
        mem::replace(&mut self.events, Vec::new(alloc))
    }

    /// Nothing is left in it, and room for as many TPDUs as it had.
    pub fn clear(&mut self)
        ensures { self.new ≡ record { events = []; tpdus = [] } }
    {
        self.events.clear();
        self.tpdus.clear();
    }

    /// One event more.
    pub fn event(&mut self, event: EndEvent) -> Result<(), NoMemory>
        ensures ok { OnOk result (self.new ≡ record self.old { events = self.old.events ++ event ∷ [] }) }
        ensures err { OnErr result (self.new ≡ self.old) }
    {
        self.events.push(event)?;
        Ok(())
    }

    /// One TPDU more.
    pub fn send(&mut self, sent: Sent) -> Result<(), NoMemory>
        ensures ok { OnOk result (self.new ≡ record self.old { tpdus = self.old.tpdus ++ sent ∷ [] }) }
        ensures err { OnErr result (self.new ≡ self.old) }
    {
        self.tpdus.push(sent)?;
        Ok(())
    }
}
