//! A user of a network with transport entities, who makes one call after another: what the calls tell is lawful, over any carrier.

ghost use Rattle.std.specs.Prelude.{◌≡◌, ◌≤◌, ◌++◌, List, ℕ, [], ◌∷◌, length, true, IfOk, IsSome};
ghost use Rattle.std.specs.List.{AllByRecursion};
ghost use Rattle.lan_step.specs.Bag.{new_bag};
ghost use Rattle.script_journal.specs.Lawful.{Lawful};
ghost use Rattle.tp4_conn.specs.End.{IsSized, IsTimed, frozen_for};
ghost use Rattle.tp4_conn.specs.declared.timers.Timers.{Timers as Times};
ghost use Rattle.tp4_entity.specs.Dues.{AreLater};
ghost use Rattle.tp4_world.specs.First.{IsFirst};
ghost use Rattle.tp4_world.specs.World.{entity_at};
ghost use Rattle.tp4_world.specs.steps.Parts.{AreBehind, AreLaterAll};
ghost use Rattle.law_tp4_lawful.specs.First.{AreDistinct, IsUntouched};

use inactive_net::{InactiveNet, InactiveRow};
use lan_bag::{Lan, LanBag, PortRow};
use law_tp4_lawful::over_calls;
use nsap::{Nsap, Port, Snpa};
use osi_base::{Bytes, Carrier, NoMemory};
use script_journal::Event;
use std::alloc::Global;
use std::process::Abort;
use std::test::Fail;
use tp4_conn::{ConnectRequest, Timers, UserCall};
use tp4_entity::{TpEntity, TsapRefusal};
use tp4_world::{Placed, TpWorld, calls_stay_honest};
use tpdu::{EndTold, Format, Options};

/// A lifetime of 4 ticks, T1 of 8, 4 sendings, W of 20, I of 60 and a credit of 8.
const TIMERS: Timers = Timers {
    life: 4,
    t1: 8,
    sendings: 4,
    window: 20,
    inactive: 60,
    credit: 8,
};

/// What is asked for and agreed to.
const OPTIONS: Options = Options {
    format: Format::Normal,
    size: 128,
    expedited: true,
    sum: true,
    preferred: false,
};

/// The one LAN.
const LANS: [Lan; 1] = [Lan {
    bound: 2,
    room: 264,
}];

/// What each call told.
#[derive(Drop)]
struct Told {
    begun: Vec<Event>,
    asked: Vec<Event>,
    heard: Vec<Event>,
    accepted: Vec<Event>,
    confirmed: Vec<Event>,
    submitted: Vec<Event>,
    shown: Vec<Event>,
}

/// A user of system 1 asks for a connection; where it is indicated the called user accepts; and then the first one submits a unit.
fn talk<C: Carrier<Addr = Nsap> + Drop>(
    alloc: Global,
    carrier: C,
    systems: Vec<Placed>,
    request: ConnectRequest,
    options: Options,
    unit: Bytes,
) -> Result<Told, NoMemory>
    requires low { (C.link carrier).clock ≤ 4000000000 }
    requires listed { IsSome (entity_at systems.items 1) }
    requires behind { AreBehind (C.link carrier).clock systems.items }
    requires later { AreLaterAll (C.link carrier).clock systems.items }
    requires asked { IsSized request.options }
    requires agreed { IsSized options }
    // Whatever the carrier loses, repeats, delays and reorders, each end shows what its partner submitted.
    ensures { IfOk result (λ told. (titles : List (List ℕ)) (timers : Times) → IsTimed timers → AreDistinct titles
        → IsFirst timers.life titles (C.link carrier) systems.items → AllByRecursion (IsUntouched timers) systems.items
        → length request.from_selector ≤ 32 → length request.to_selector ≤ 32 → Lawful (frozen_for timers) titles
        (told.begun.items ++ (told.asked.items ++ (told.heard.items ++ (told.accepted.items ++ (told.confirmed.items ++ (told.submitted.items ++ told.shown.items))))))) }
{
    calls_stay_honest::<C>();
    over_calls::<C>();
    let mut begun = Vec::new(alloc);
    let mut world = TpWorld::start(alloc, carrier, systems, &mut begun)?;
    let mut asked = Vec::new(alloc);
    world.connect(1, request, &mut asked)?;
    let mut heard = Vec::new(alloc);
    world.settle(&mut heard)?;
    let mut accepted = Vec::new(alloc);
    let accept = UserCall::Accept(options, Bytes::of(Vec::new(alloc)));
    world.call(2, accept, &mut accepted)?;
    let mut confirmed = Vec::new(alloc);
    world.settle(&mut confirmed)?;
    let mut submitted = Vec::new(alloc);
    world.call(1, UserCall::Normal(unit), &mut submitted)?;
    let mut shown = Vec::new(alloc);
    world.settle(&mut shown)?;
    Ok(Told {
        begun,
        asked,
        heard,
        accepted,
        confirmed,
        submitted,
        shown,
    })
}

/// A port on the LAN.
fn port(last: u8) -> Port
    ensures { result ≡ record { lan = 0; snpa = 2 ∷ 0 ∷ 0 ∷ 0 ∷ 0 ∷ last ∷ [] } }
{
    Port {
        lan: 0,
        snpa: Snpa::of([2, 0, 0, 0, 0, last]),
    }
}

/// An end system's port.
fn end(system: u8, last: u8) -> PortRow
    ensures { result ≡ record { system = system; end = true; port = record { lan = 0; snpa = 2 ∷ 0 ∷ 0 ∷ 0 ∷ 0 ∷ last ∷ [] } } }
{
    PortRow {
        system,
        end: true,
        port: port(last),
    }
}

/// An address of three octets.
fn address(octets: [u8; 3]) -> Nsap
    ensures { result ≡ octets }
{
    let Some(address) = Nsap::of(&octets) else {
        unreachable!();
    };
    address
}

/// The addresses of the transport users of both end systems.
const FIRST: [u8; 3] = [0x49, 0x0a, 1];

const SECOND: [u8; 3] = [0x49, 0x0b, 1];

/// An end system with its address, its port, and the numbers of its LAN.
fn row(system: u8, address: Nsap, port: Port, lan: Lan) -> InactiveRow
    ensures { result ≡ record { system = system; address = address; port = port; bound = lan.bound; room = lan.room } }
{
    InactiveRow {
        system,
        address,
        port,
        bound: lan.bound,
        room: lan.room,
    }
}

/// The LAN with the ports of both end systems.
fn lan(alloc: Global) -> Result<LanBag, NoMemory>
    ensures { IfOk result (λ bag. bag ≡ new_bag (record { bound = 2; room = 264 } ∷ [])
        (record { system = 1; end = true; port = record { lan = 0; snpa = 2 ∷ 0 ∷ 0 ∷ 0 ∷ 0 ∷ 11 ∷ [] } }
        ∷ record { system = 2; end = true; port = record { lan = 0; snpa = 2 ∷ 0 ∷ 0 ∷ 0 ∷ 0 ∷ 12 ∷ [] } } ∷ [])) }
{
    let ports = [end(1, 11), end(2, 12)];
    LanBag::new(alloc, &LANS, &ports)
}

/// The network of both end systems.
fn net(alloc: Global) -> Result<InactiveNet<LanBag>, NoMemory> {
    let link = lan(alloc)?;
    let rows = vec![in alloc;
        row(1, address(FIRST), port(11), LANS[0]),
        row(2, address(SECOND), port(12), LANS[0]),
    ]?;
    InactiveNet::new(alloc, link, rows)
}

/// The transport entity of a system, where connections are taken at one selector.
fn placed(alloc: Global, system: u8, own: Nsap, selector: &[u8]) -> Result<Placed, NoMemory>
    ensures system { IfOk result (λ one. one.system ≡ system) }
    ensures clock { IfOk result (λ one. one.entity.clock ≡ 0) }
    ensures later { IfOk result (λ one. AreLater 0 one.entity.ends) }
{
    let mut entity = TpEntity::new(alloc, own, 2, TIMERS)?;
    match entity.register(selector) {
        Ok(()) => Ok(Placed { system, entity }),
        Err(TsapRefusal::NoMemory) => Err(NoMemory),
        Err(TsapRefusal::TsapTaken) => unreachable!(),
    }
}

/// Whether the events show the unit at an end.
fn shows(events: &[Event], at: u32, unit: &[u8]) -> bool {
    for event in events {
        if let Event::End {
            number,
            what: EndTold::Got(octets),
        } = event
            && *number == at
            && octets.as_slice() == unit
        {
            return true;
        }
    }
    false
}

/// The transport entities of both end systems.
fn both(alloc: Global) -> Result<Vec<Placed>, NoMemory>
    ensures listed { IfOk result (λ systems. IsSome (entity_at systems.items 1)) }
    ensures behind { IfOk result (λ systems. AreBehind 0 systems.items) }
    ensures later { IfOk result (λ systems. AreLaterAll 0 systems.items) }
{
    let first = placed(alloc, 1, address(FIRST), b"\xaa")?;
    let second = placed(alloc, 2, address(SECOND), b"\xbb")?;
    let systems = vec![in alloc; first, second]?;
    Ok(systems)
}

/// A user of the first system asks for a connection to the user of the second.
fn request(alloc: Global) -> Result<ConnectRequest, NoMemory>
    ensures { IfOk result (λ request. IsSized request.options) }
{
    Ok(ConnectRequest {
        from_selector: Bytes::of(b"\xaa".to_vec(alloc)?),
        to: address(SECOND),
        to_selector: Bytes::of(b"\xbb".to_vec(alloc)?),
        options: OPTIONS,
        octets: Bytes::of(Vec::new(alloc)),
    })
}

#[test]
fn a_unit_is_shown_at_the_partner(rt: HostRuntime) -> Result<(), Fail> {
    let alloc = rt.alloc();
    let systems = both(alloc)?;
    let request = request(alloc)?;
    let unit = Bytes::of(b"hi".to_vec(alloc)?);
    let carrier = net(alloc)?;
    if carrier.now() != 0 {
        return Err(Fail::from("the network is not new"));
    }
    let told = talk(alloc, carrier, systems, request, OPTIONS, unit)?;
    assert!(rt; shows(told.shown.as_slice(), 2, b"hi"));
    assert!(rt; !shows(told.confirmed.as_slice(), 2, b"hi"));
    Ok(())
}
