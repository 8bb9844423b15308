//! The transport entities of a network as a relay sees them (X.214, service primitives).

ghost use Rattle.std.specs.Prelude.{◌≡◌, [], false, length, OnOk, IfOk};
ghost use Rattle.law_clnp_net.specs.Standing.{is_nsap};
ghost use Rattle.law_setup.specs.Lines.{RunsAt};
ghost use Rattle.script_lines.specs.Commands.{HasLine};
ghost use Rattle.script_lines.specs.declared.words.Dialect.TheVariants.{Relay as OfRelay};
ghost use Rattle.tp4_number.specs.Number.{wire};
ghost use Rattle.tp4_world.specs.Run.{RunsLine, Settles};
ghost use Rattle.tp4_world.specs.Total.{CanRun};
ghost use Rattle.law_relay.specs.Services.{IsInOrder, is_done};

use nsap::Nsap;
use osi_base::{Carrier, NoMemory, go_on};
use script_journal::Event;
use script_lines::Line;
use script_world::Network;
use std::alloc::Global;
use std::marker::Model;
use tp4_conn::{ConnectRequest, UserCall};
use tp4_relay::Service;
use tp4_world::TpWorld;

/// The transport entities of a network, as a service.
#[derive(Drop)]
pub struct WorldService<C: Carrier<Addr = Nsap> + Drop> {
    alloc: Global,
    ends: TpWorld<C>,
    /// Want of memory broke off a call.
    stopped: bool,
}

// After want of memory nothing is known of the entities.
impl<C: Carrier<Addr = Nsap> + Drop> Model for WorldService<C> {
    ghost use Rattle.std.specs.Prelude.{◌≡◌, false};
    ghost use Rattle.tp4_world.specs.World.{World};
    ghost use Rattle.law_relay.specs.Services.{IsInOrder};

    ghost Value = { World C };

    ghost view = { λ s. s.ends };

    ghost invariant = { λ s. s.stopped ≡ false → IsInOrder C.link s.ends };
}

impl<C: Carrier<Addr = Nsap> + Drop> WorldService<C> {
    /// These transport entities.
    pub fn new(alloc: Global, ends: TpWorld<C>) -> WorldService<C>
        requires { IsInOrder C.link ends }
        ensures { result ≡ ends }
    {
        WorldService {
            alloc,
            ends,
            stopped: false,
        }
    }
}

impl<N: Network + Drop> WorldService<N> {
    /// A line of a network, where the systems have these titles.
    ///
    /// At NoMemory the run ends.
    pub fn run_line(
        &mut self,
        titles: &[Nsap],
        line: Line,
        events: &mut Vec<Event>,
    ) -> Result<(), NoMemory>
        requires none { events.old.items ≡ [] }
        requires known { RunsAt (length titles.now) (N.link self.old.carrier).clock line }
        requires there { CanRun is_nsap titles.now N.link self.old line }
        requires listed { HasLine OfRelay line }
        ensures { OnOk result (RunsLine N.link N.steps wire titles.now self.old line events.new.items self.new) }
    {
        go_on(self.stopped)?;
        self.stopped = true;
        script_world::run_line(&mut self.ends, titles, line, events)?;
        self.stopped = false;
        Ok(())
    }

    /// The network settles.
    ///
    /// At NoMemory the run ends.
    pub fn settle(&mut self, events: &mut Vec<Event>) -> Result<(), NoMemory>
        requires none { events.old.items ≡ [] }
        ensures { OnOk result (Settles N.link N.steps wire 0 self.old events.new.items self.new) }
    {
        go_on(self.stopped)?;
        self.stopped = true;
        self.ends.settle(events)?;
        self.stopped = false;
        Ok(())
    }
}

impl<C: Carrier<Addr = Nsap> + Drop> Service for WorldService<C> {
    ghost use Rattle.law_relay.specs.Services.{AsksEnd, AsksFor, ends_of, has_system, is_honest};
    ghost use Rattle.law_relay.proofs.Serving.{world_serves};

    ghost has = { has_system };

    ghost ends = { ends_of };

    ghost honest = { is_honest C.link };

    ghost connects = { AsksFor C.link C.steps };

    ghost calls = { AsksEnd C.link C.steps };

    fn connect(
        &mut self,
        system: u8,
        request: ConnectRequest,
        events: &mut Vec<Event>,
    ) -> Result<bool, NoMemory> {
        go_on(self.stopped)?;
        self.stopped = true;
        let mut made = Vec::new(self.alloc);
        self.ends.connect(system, request, &mut made)?;
        let done = is_done(&made);
        events.append(&mut made)?;
        self.stopped = false;
        Ok(done)
    }

    fn call(
        &mut self,
        end: u32,
        call: UserCall,
        events: &mut Vec<Event>,
    ) -> Result<bool, NoMemory> {
        go_on(self.stopped)?;
        self.stopped = true;
        let mut made = Vec::new(self.alloc);
        self.ends.call(end, call, &mut made)?;
        let done = is_done(&made);
        events.append(&mut made)?;
        self.stopped = false;
        Ok(done)
    }

    ghost laws = { world_serves C.link C.steps C.keeps };
}

/// Whether the events of a call are those of one that was done: a call that is refused tells the refusal alone.
fn is_done(made: &[Event]) -> bool
    ensures { result ≡ is_done made.now }
{
    match made.first() {
        Some(Event::No { .. }) => false,
        _ => true,
    }
}
