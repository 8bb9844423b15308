//! A network with its transport entities, which a script runs once it is set up.

ghost use Rattle.std.specs.Prelude.{◌≡◌, [], length, OnOk};
ghost use Rattle.tp4_number.specs.Number.{wire};
ghost use Rattle.tp4_world.specs.Run.{RunsLine};
ghost use Rattle.law_clnp_net.specs.Standing.{is_nsap};
ghost use Rattle.law_setup.specs.Lines.{RunsAt};
ghost use Rattle.tp4_world.specs.Total.{CanRun};
ghost use Rattle.script_world.specs.Transports.{strays_in};

use crate::asking::connect_request;
use crate::network::Network;
use crate::placed::entities;
use crate::play::Play;
use nsap::Nsap;
use osi_base::{Items, NoMemory};
use script_journal::Event;
use script_lines::{Line, Names};
use script_setup::SetUp;
use std::alloc::Global;
use std::marker::Model;
use tp4_conn::{Timers, UserCall};
use tp4_world::TpWorld;

/// A network with its transport entities, the titles of its systems, and the times of its entities.
pub struct TpPlay<N: Network + Drop> {
    titles: Items<Nsap>,
    timers: Timers,
    ends: TpWorld<N>,
}

// By hand, so that it is proved here alone: what is derived is proved again in each crate that lets a network go.
impl<N: Network + Drop> Drop for TpPlay<N> {
    fn drop(self) {
        let TpPlay {
            titles: _,
            timers: _,
            ends: _,
        } = self;
    }
}

impl<N: Network + Drop> Model for TpPlay<N> {
    ghost use Rattle.script_world.specs.Transports.{TransportRun};

    ghost Value = { TransportRun N };

    ghost view = { λ p. record { titles = p.titles; timers = p.timers; ends = p.ends } };
}

impl<N: Network + Drop> TpPlay<N> {
    /// The network with its transport entities.
    pub fn ends(&self) -> &TpWorld<N>
        ensures { result.now ≡ self.now.ends }
    {
        &self.ends
    }
}

impl<N: Network + Drop> Play for TpPlay<N> {
    ghost use Rattle.script_world.specs.Transports.{tp_play};
    ghost use Rattle.script_world.specs.steps.Transported.{tp_going, tp_laws};

    ghost play = { tp_play N.link N.steps N.makes N.dialect };

    ghost going = { tp_going N.link N.steps N.dialect };

    fn names(alloc: Global) -> Names {
        N::names(alloc)
    }

    fn start(alloc: Global, setup: SetUp, events: &mut Vec<Event>) -> Result<TpPlay<N>, NoMemory> {
        let titles = setup.titles()?;
        let entities = entities(alloc, &setup)?;
        let timers = setup.timers();
        let ends = TpWorld::start(alloc, N::make(setup)?, entities, events)?;
        Ok(TpPlay {
            titles,
            timers,
            ends,
        })
    }

    fn run_line(&mut self, line: Line, events: &mut Vec<Event>) -> Result<(), NoMemory> {
        run_line(&mut self.ends, self.titles.as_slice(), line, events)
    }

    fn strays(&self) -> Option<u32> {
        strays_in(self.ends.carrier())
    }

    ghost laws = { tp_laws N.link N.steps N.keeps N.makes N.dialect N.lines N.laws };
}

/// How many arrivals equalled no unit afloat, where something was injected.
fn strays_in<N: Network>(net: &N) -> Option<u32>
    ensures { result ≡ strays_in N.link net.now }
{
    if net.honest() {
        None
    } else {
        Some(net.strays())
    }
}

/// A line of a running network.
pub fn run_line<N: Network + Drop>(
    ends: &mut TpWorld<N>,
    titles: &[Nsap],
    line: Line,
    events: &mut Vec<Event>,
) -> Result<(), NoMemory>
    requires none { events.old.items ≡ [] }
    requires known { RunsAt (length titles.now) (N.link ends.old.carrier).clock line }
    requires there { CanRun is_nsap titles.now N.link ends.old line }
    ensures { OnOk result (RunsLine N.link N.steps wire titles.now ends.old line events.new.items ends.new) }
{
    match line {
        Line::Nothing => Ok(()),
        Line::Connect {
            system,
            selector,
            to,
            called,
            options,
            octets,
        } => {
            let to = &titles[usize::from(to)];
            let request = connect_request(selector, to, called, options, octets);
            ends.connect(system, request, events)
        }
        Line::Accept {
            end,
            options,
            octets,
        } => ends.call(end, UserCall::Accept(options, octets), events),
        Line::Refuse { end, octets } => ends.call(end, UserCall::Refuse(octets), events),
        Line::Disconnect { end, octets } => ends.call(end, UserCall::Disconnect(octets), events),
        Line::Data { end, octets } => ends.call(end, UserCall::Normal(octets), events),
        Line::Expedite { end, octets } => ends.call(end, UserCall::Urgent(octets), events),
        Line::Window { end, credit } => ends.call(end, UserCall::Window(credit), events),
        Line::Unit {
            system,
            to,
            wish,
            octets,
        } => {
            let (sender, receiver) = (titles[usize::from(system)], titles[usize::from(to)]);
            ends.unit(system, &sender, &receiver, wish, octets, events)
        }
        Line::Tick => ends.tick(events),
        Line::Settle => ends.settle(events),
        Line::Deliver { frame, system } => ends.deliver(frame, system, events),
        Line::Inject {
            lan,
            system,
            octets,
        } => ends.inject(lan, system, octets.into_vec(), events),
        Line::Restart { system } => ends.restart(system, events),
        // These lines are of the set-up.
        Line::Version(_)
        | Line::Set { .. }
        | Line::Lan { .. }
        | Line::Es { .. }
        | Line::Is { .. }
        | Line::Port { .. }
        | Line::Route { .. }
        | Line::Path { .. }
        | Line::Tsap { .. }
        | Line::Relay { .. }
        | Line::Start
        // This line is of another command.
        | Line::Send { .. } => unreachable!(),
    }
}
