//! Two ends that a relay joined, with what waits for each of them.

ghost use Rattle.std.specs.Prelude.{◌≡◌, OnErr, OnOk};
ghost use Rattle.tp4_relay.specs.Pairs.{changed, is_closed, new_pair, Opens, Accepts, Closes, Waits, Gives, Turns};

use crate::unit::{MarkedUnit, Waiting};
use osi_base::NoMemory;
use std::alloc::Global;

/// How far a pair has come.
#[derive(Clone, Copy, Debug, PartialEq, Eq)]
pub enum Phase {
    /// Its outbound end was asked for.
    Begun,
    /// Its outbound end was confirmed.
    Open,
    /// One of its ends went.
    Closed,
}

/// Which way units go through a pair.
#[derive(Clone, Copy, Debug, PartialEq, Eq)]
pub enum Heading {
    /// From the inbound end to the outbound end.
    On,
    /// From the outbound end to the inbound end.
    Back,
}

/// One way of a pair.
#[derive(Drop)]
pub struct Way {
    /// Units that were shown at the one end, and were not submitted at the other.
    pub waiting: Waiting,
    /// Whether the credit of the end that shows them is lowered.
    pub lowered: bool,
}

/// Two ends that were joined.
#[derive(Drop)]
pub struct Pair {
    /// The end that was indicated.
    pub inbound: u32,
    /// The end that was asked for.
    pub outbound: u32,
    pub phase: Phase,
    /// Whether the indication was accepted.
    pub accepted: bool,
    /// What goes from the inbound end to the outbound one.
    pub on: Way,
    /// What goes from the outbound end to the inbound one.
    pub back: Way,
}

impl Pair {
    /// A pair in this phase, through which nothing went.
    pub fn new(alloc: Global, inbound: u32, outbound: u32, phase: Phase) -> Pair
        ensures { result ≡ new_pair inbound outbound phase }
    {
        Pair {
            inbound,
            outbound,
            phase,
            accepted: false,
            on: Way {
                waiting: Waiting::new(alloc),
                lowered: false,
            },
            back: Way {
                waiting: Waiting::new(alloc),
                lowered: false,
            },
        }
    }

    /// Whether one of its ends went.
    pub fn is_closed(&self) -> bool
        ensures { result ≡ is_closed self.now.phase }
    {
        match self.phase {
            Phase::Closed => true,
            Phase::Begun | Phase::Open => false,
        }
    }

    /// The outbound end was confirmed.
    pub fn open(&mut self)
        ensures { self.new ≡ changed self.old Opens }
    {
        match self.phase {
            Phase::Begun => self.phase = Phase::Open,
            Phase::Open | Phase::Closed => {}
        }
    }

    /// The indication was accepted.
    pub fn accept(&mut self)
        ensures { self.new ≡ changed self.old Accepts }
    {
        self.accepted = true;
    }

    /// One of the ends went: nothing waits any more.
    pub fn close(&mut self)
        ensures { self.new ≡ changed self.old Closes }
    {
        self.phase = Phase::Closed;
        self.on.waiting.clear();
        self.back.waiting.clear();
    }

    /// A unit was shown: it waits where the pair is open.
    pub fn wait(&mut self, heading: Heading, unit: MarkedUnit) -> Result<(), NoMemory>
        ensures ok { OnOk result (self.new ≡ changed self.old (Waits heading unit)) }
        ensures err { OnErr result (self.new ≡ self.old) }
    {
        match self.phase {
            Phase::Open => match heading {
                Heading::On => self.on.waiting.add(unit),
                Heading::Back => self.back.waiting.add(unit),
            },
            Phase::Begun | Phase::Closed => Ok(()),
        }
    }

    /// The first that waits was submitted.
    pub fn give(&mut self, heading: Heading)
        ensures { self.new ≡ changed self.old (Gives heading) }
    {
        match heading {
            Heading::On => self.on.waiting.drop_first(),
            Heading::Back => self.back.waiting.drop_first(),
        }
    }

    /// A credit was set.
    pub fn turn(&mut self, heading: Heading)
        ensures { self.new ≡ changed self.old (Turns heading) }
    {
        match heading {
            Heading::On => self.on.lowered = !self.on.lowered,
            Heading::Back => self.back.lowered = !self.back.lowered,
        }
    }
}
