//! A network whose users send one another datagrams, which a script runs once it is set up (X.214, connectionless-mode service).

ghost use Rattle.std.specs.Prelude.{◌≡◌, [], OnOk};
ghost use Rattle.law_datagram_run.specs.Datagrams.{RunsLine};
ghost use Rattle.law_datagram_run.proofs.Played.{MayRun};

use crate::users::users;
use cltp::{ClWorld, Request};
use nsap::{Nsap, TRANSPORT};
use osi_base::{Items, NoMemory};
use script_journal::Event;
use script_lines::{Line, Names};
use script_setup::SetUp;
use script_world::{Network, Play};
use std::alloc::Global;
use std::marker::Model;

/// The titles of the systems, the lifetime of their PDUs in ticks, and the network with its users.
pub struct ClPlay<N: Network + Drop> {
    titles: Items<Nsap>,
    life: u8,
    world: ClWorld<N>,
}

// By hand, so that it is proved here alone: what is derived is proved again in each crate that lets a network go.
impl<N: Network + Drop> Drop for ClPlay<N> {
    fn drop(self) {
        let ClPlay {
            titles: _,
            life: _,
            world: _,
        } = self;
    }
}

impl<N: Network + Drop> Model for ClPlay<N> {
    ghost use Rattle.law_datagram_run.specs.Datagrams.{DatagramRun};

    ghost Value = { DatagramRun N };

    ghost view = { λ p. record { titles = p.titles; life = p.life; world = p.world } };
}

impl<N: Network + Drop> Play for ClPlay<N> {
    ghost use Rattle.law_datagram_run.specs.Datagrams.{cl_play};
    ghost use Rattle.law_datagram_run.proofs.Played.{cl_going, cl_laws};

    ghost play = { cl_play N.link N.steps N.makes };

    ghost going = { cl_going N.link N.steps };

    fn names(alloc: Global) -> Names {
        Names::datagrams(alloc)
    }

    fn start(alloc: Global, setup: SetUp, events: &mut Vec<Event>) -> Result<ClPlay<N>, NoMemory> {
        let titles = setup.titles()?;
        let life = setup.life();
        let users = users(alloc, setup.systems())?;
        let world = ClWorld::start(alloc, N::make(setup)?, users, events)?;
        Ok(ClPlay {
            titles,
            life,
            world,
        })
    }

    fn run_line(&mut self, line: Line, events: &mut Vec<Event>) -> Result<(), NoMemory> {
        run_line(&mut self.world, self.titles.as_slice(), line, events)
    }

    fn strays(&self) -> Option<u32> {
        None
    }

    ghost laws = { cl_laws N.link N.steps N.keeps N.makes N.laws };
}

/// A line of a running network.
fn run_line<N: Network + Drop>(
    world: &mut ClWorld<N>,
    titles: &[Nsap],
    line: Line,
    events: &mut Vec<Event>,
) -> Result<(), NoMemory>
    requires none { events.old.items ≡ [] }
    requires known { MayRun N.link titles.now world.old line }
    ensures { OnOk result (RunsLine N.link N.steps titles.now world.old line events.new.items world.new) }
{
    match line {
        Line::Nothing => Ok(()),
        Line::Send {
            system,
            selector,
            to,
            called,
            octets,
        } => {
            let request = Request {
                from_selector: selector,
                to: titles[usize::from(to)].with_selector(TRANSPORT),
                to_selector: called,
                octets,
            };
            let _answer = world.send(system, request, events)?;
            Ok(())
        }
        Line::Tick => world.tick(events),
        Line::Settle => {
            let _answer = world.settle(events)?;
            Ok(())
        }
        Line::Deliver { frame, system } => {
            let _answer = world.deliver(frame, system, events)?;
            Ok(())
        }
        // These lines are of the set-up, or of other commands.
        Line::Version(_)
        | Line::Set { .. }
        | Line::Lan { .. }
        | Line::Es { .. }
        | Line::Is { .. }
        | Line::Port { .. }
        | Line::Route { .. }
        | Line::Path { .. }
        | Line::Tsap { .. }
        | Line::Relay { .. }
        | Line::Start
        | Line::Connect { .. }
        | Line::Accept { .. }
        | Line::Refuse { .. }
        | Line::Disconnect { .. }
        | Line::Data { .. }
        | Line::Expedite { .. }
        | Line::Window { .. }
        | Line::Unit { .. }
        | Line::Inject { .. }
        | Line::Restart { .. } => unreachable!(),
    }
}
