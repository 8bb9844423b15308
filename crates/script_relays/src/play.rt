//! A network with transport entities and relays, which a script runs once it is set up (X.214, model of the transport service).

ghost use Rattle.std.specs.Prelude.{◌≡◌, [], ℕ, Bool, List, length, OnOk, IfOk};
ghost use Rattle.law_clnp_net.specs.Standing.{is_nsap};
ghost use Rattle.law_setup.specs.Lines.{RunsAt};
ghost use Rattle.script_journal.specs.declared.event.Event.{Event as Told};
ghost use Rattle.script_lines.specs.Commands.{HasLine};
ghost use Rattle.script_lines.specs.declared.words.Dialect.TheVariants.{Relay as OfRelay};
ghost use Rattle.tp4_number.specs.Number.{wire};
ghost use Rattle.tp4_world.specs.Run.{Settles};
ghost use Rattle.tp4_world.specs.Total.{CanRun};
ghost use Rattle.law_relay.specs.Asked.{is_relayed};
ghost use Rattle.law_relay.specs.Relays.{Answers, PumpsAfter, RunsPart, Turns, is_more, is_stop, is_stopped, part_of};
ghost use Rattle.law_relay.proofs.Playing.{Plays};

use crate::rows::rows;
use crate::service::WorldService;
use nsap::Nsap;
use osi_base::{Items, NoMemory};
use script_journal::{Event, Refused, Settled};
use script_lines::{Line, Names};
use script_setup::SetUp;
use script_world::{Network, Play, entities};
use std::alloc::Global;
use std::marker::Model;
use tp4_relay::Relay;
use tp4_world::TpWorld;

/// The most turns of a `settle` line.
const MOST_TURNS: u32 = 64;

/// The titles of the systems, the transport entities, and the relays.
pub struct RelayPlay<N: Network + Drop> {
    alloc: Global,
    titles: Items<Nsap>,
    service: WorldService<N>,
    relay: Relay,
}

// By hand, so that it is proved here alone: what is derived is proved again in each crate that lets a network go.
impl<N: Network + Drop> Drop for RelayPlay<N> {
    fn drop(self) {
        let RelayPlay {
            alloc: _,
            titles: _,
            service: _,
            relay: _,
        } = self;
    }
}

impl<N: Network + Drop> Model for RelayPlay<N> {
    ghost use Rattle.law_relay.specs.Relays.{RelayRun};

    ghost Value = { RelayRun N };

    ghost view = { λ p. record { titles = p.titles; ends = p.service; relay = p.relay } };
}

impl<N: Network + Drop> Play for RelayPlay<N> {
    ghost use Rattle.law_relay.specs.Relays.{relay_play};
    ghost use Rattle.law_relay.proofs.Played.{relay_going, relay_laws};

    ghost play = { relay_play N.link N.steps N.makes };

    ghost going = { relay_going N.link N.steps };

    fn names(alloc: Global) -> Names {
        Names::relay(alloc)
    }

    fn start(
        alloc: Global,
        setup: SetUp,
        events: &mut Vec<Event>,
    ) -> Result<RelayPlay<N>, NoMemory> {
        let titles = setup.titles()?;
        let rows = rows(alloc, titles.as_slice(), setup.relays())?;
        let relay = Relay::new(alloc, rows, setup.timers());
        let entities = entities(alloc, &setup)?;
        let ends = TpWorld::start(alloc, N::make(setup)?, entities, events)?;
        Ok(RelayPlay {
            alloc,
            titles,
            service: WorldService::new(alloc, ends),
            relay,
        })
    }

    fn run_line(&mut self, line: Line, events: &mut Vec<Event>) -> Result<(), NoMemory> {
        let titles = self.titles.as_slice();
        run_line(
            self.alloc,
            &mut self.service,
            &mut self.relay,
            titles,
            line,
            events,
        )
    }

    fn strays(&self) -> Option<u32> {
        None
    }

    ghost laws = { relay_laws N.link N.steps N.keeps N.makes N.laws };
}

/// A line of a running network with relays. After each event line a pump follows; a `settle` line has turns.
fn run_line<N: Network + Drop>(
    alloc: Global,
    service: &mut WorldService<N>,
    relay: &mut Relay,
    titles: &[Nsap],
    line: Line,
    events: &mut Vec<Event>,
) -> Result<(), NoMemory>
    requires none { events.old.items ≡ [] }
    requires known { RunsAt (length titles.now) (N.link service.old.carrier).clock line }
    requires there { CanRun is_nsap titles.now N.link service.old line }
    requires listed { HasLine OfRelay line }
    requires plays { Plays N.link service.old relay.old }
    ensures { OnOk result (RunsPart N.link N.steps (part_of line) (record { titles = titles.now; ends = service.old; relay = relay.old }) line events.new.items service.new relay.new) }
{
    match line {
        Line::Nothing => Ok(()),
        Line::Settle => settle(alloc, service, relay, events),
        line => {
            answer(service, relay, titles, line, events)?;
            let _pumped = relay.pump(service, events)?;
            Ok(())
        }
    }
}

/// What a line does before the pump: what is of a relay is refused before all else.
fn answer<N: Network + Drop>(
    service: &mut WorldService<N>,
    relay: &Relay,
    titles: &[Nsap],
    line: Line,
    events: &mut Vec<Event>,
) -> Result<(), NoMemory>
    requires none { events.old.items ≡ [] }
    requires known { RunsAt (length titles.now) (N.link service.old.carrier).clock line }
    requires there { CanRun is_nsap titles.now N.link service.old line }
    requires listed { HasLine OfRelay line }
    ensures { OnOk result (Answers N.link N.steps (is_relayed relay.now line) titles.now line service.old events.new.items service.new) }
{
    if is_relayed(relay, &line) {
        events.push(Event::No {
            cause: Refused::Relayed,
        })?;
        return Ok(());
    }
    service.run_line(titles, line, events)
}

/// Whether the line is a user's about an end of a relay, or a request at a system with a relay.
fn is_relayed(relay: &Relay, line: &Line) -> bool
    ensures { result ≡ is_relayed relay.now line.now }
{
    match line {
        Line::Connect { system, .. } => relay.is_at(*system),
        Line::Accept { end, .. }
        | Line::Refuse { end, .. }
        | Line::Disconnect { end, .. }
        | Line::Data { end, .. }
        | Line::Expedite { end, .. }
        | Line::Window { end, .. } => relay.owns(*end),
        _ => false,
    }
}

/// The turns of a `settle` line, until a pump did nothing, the network was stopped, or there were as many as there may be.
fn settle<N: Network + Drop>(
    alloc: Global,
    service: &mut WorldService<N>,
    relay: &mut Relay,
    events: &mut Vec<Event>,
) -> Result<(), NoMemory>
    requires none { events.old.items ≡ [] }
    requires plays { Plays N.link service.old relay.old }
    ensures { OnOk result (Turns N.link N.steps 0 service.old relay.old events.new.items service.new relay.new) }
{
    for _ in 0..MOST_TURNS {
        let mut turn = Vec::new(alloc);
        let more = settle_once(service, relay, &mut turn)?;
        events.append(&mut turn)?;
        if !more {
            return Ok(());
        }
    }
    Ok(())
}

/// One turn: the network settles, and a pump follows. Whether another turn is to follow.
fn settle_once<N: Network + Drop>(
    service: &mut WorldService<N>,
    relay: &mut Relay,
    events: &mut Vec<Event>,
) -> Result<bool, NoMemory>
    requires none { events.old.items ≡ [] }
    requires plays { Plays N.link service.old relay.old }
    ensures turn { IfOk result (λ more. (pumped : Bool) × (settled : List Told)
        × PumpsAfter N.link N.steps (Settles N.link N.steps wire 0) service.old relay.old pumped settled events.new.items service.new relay.new × (more ≡ is_more pumped settled)) }
    ensures plays { OnOk result (Plays N.link service.new relay.new) }
{
    service.settle(events)?;
    let stopped = is_stopped(events);
    let pumped = relay.pump(service, events)?;
    Ok(pumped && !stopped)
}

/// Whether the last event tells that the network was stopped as it settled.
fn is_stopped(events: &[Event]) -> bool
    ensures { result ≡ is_stopped events.now }
{
    match events.last() {
        Some(event) => is_stop(event),
        None => false,
    }
}

/// Whether the event tells that the network was stopped as it settled.
fn is_stop(event: &Event) -> bool
    ensures { result ≡ is_stop event.now }
{
    match event {
        Event::Settle { answer } => match answer {
            Settled::Stopped(_) => true,
            Settled::Settled(_) => false,
        },
        _ => false,
    }
}
