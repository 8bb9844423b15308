//! A network by the inactive subset over two LANs: each unit is one frame, counted by hand.

ghost use Rattle.std.specs.Prelude.{◌≡◌, ◌∷◌, [], true, IfOk};
ghost use Rattle.lan_step.specs.Bag.{new_bag};

use crate::carriers::answer;
use crate::lans::frame;
use inactive_net::{InactiveNet, InactiveRow};
use lan_bag::{Lan, LanBag, PortRow};
use nsap::{Nsap, Port, Snpa};
use osi_base::NoMemory;
use std::alloc::Global;
use std::test::Fail;

type Net = InactiveNet<LanBag>;

/// A port on a LAN.
fn port(lan: u8, last: u8) -> Port
    ensures { result ≡ record { lan = lan; snpa = 2 ∷ 0 ∷ 0 ∷ 0 ∷ 0 ∷ last ∷ [] } }
{
    Port {
        lan,
        snpa: Snpa::of([2, 0, 0, 0, 0, last]),
    }
}

/// An address of three octets.
fn address(octets: [u8; 3]) -> Nsap
    ensures { result ≡ octets }
{
    let Some(address) = Nsap::of(&octets) else {
        unreachable!();
    };
    address
}

/// An end system's port.
fn end(system: u8, lan: u8, last: u8) -> PortRow
    ensures { result ≡ record { system = system; end = true; port = record { lan = lan; snpa = 2 ∷ 0 ∷ 0 ∷ 0 ∷ 0 ∷ last ∷ [] } } }
{
    PortRow {
        system,
        end: true,
        port: port(lan, last),
    }
}

/// An end system with its address, its port, and the numbers of its LAN.
fn row(system: u8, address: Nsap, port: Port, lan: Lan) -> InactiveRow
    ensures { result ≡ record { system = system; address = address; port = port; bound = lan.bound; room = lan.room } }
{
    InactiveRow {
        system,
        address,
        port,
        bound: lan.bound,
        room: lan.room,
    }
}

/// The LANs: 0 of bound 2 and room 264, 1 of bound 1.
const LANS: [Lan; 2] = [
    Lan {
        bound: 2,
        room: 264,
    },
    Lan {
        bound: 1,
        room: 1497,
    },
];

/// The LANs with the ports of all three end systems.
fn lans(alloc: Global) -> Result<LanBag, NoMemory>
    ensures { IfOk result (λ bag. bag ≡ new_bag (record { bound = 2; room = 264 } ∷ record { bound = 1; room = 1497 } ∷ [])
        (record { system = 1; end = true; port = record { lan = 0; snpa = 2 ∷ 0 ∷ 0 ∷ 0 ∷ 0 ∷ 11 ∷ [] } }
        ∷ record { system = 2; end = true; port = record { lan = 0; snpa = 2 ∷ 0 ∷ 0 ∷ 0 ∷ 0 ∷ 12 ∷ [] } }
        ∷ record { system = 3; end = true; port = record { lan = 1; snpa = 2 ∷ 0 ∷ 0 ∷ 0 ∷ 0 ∷ 13 ∷ [] } } ∷ [])) }
{
    let ports = [end(1, 0, 11), end(2, 0, 12), end(3, 1, 13)];
    LanBag::new(alloc, &LANS, &ports)
}

/// The network of the three end systems.
fn net(alloc: Global) -> Result<Net, NoMemory> {
    let link = lans(alloc)?;
    let rows = vec![in alloc;
        row(1, address([0x49, 0x0a, 1]), port(0, 11), LANS[0]),
        row(2, address([0x49, 0x0b, 1]), port(0, 12), LANS[0]),
        row(3, address([0x49, 0x0c, 1]), port(1, 13), LANS[1]),
    ]?;
    InactiveNet::new(alloc, link, rows)
}

/// Each call with what comes of it; a comment begins anew.
const CALLS: &str =
    "# The octets of the frame by hand: an octet 0 and the unit, and it may be delivered again.
offer 490a01 490b01 6869 = Taken
up = Frame { number: 1, lan: 0, system: 1, snpa: [2, 0, 0, 0, 0, 12], length: 20 }
frame 1 = 02000000000c02000000000b0006fefe03006869
fresh = Some((1, 2))
choose 1 2 = Taken
up = unit 2 490a01 490b01 6869
choose 1 2 = Taken
up = unit 2 490a01 490b01 6869
up = nothing
# The length that is told: 17 of the frame and one of the protocol, for an empty unit too.
offer 490a01 490b01 7*23 = Taken
up = Frame { number: 1, lan: 0, system: 1, snpa: [2, 0, 0, 0, 0, 12], length: 41 }
offer 490a01 490b01 7*9 = Taken
up = Frame { number: 2, lan: 0, system: 1, snpa: [2, 0, 0, 0, 0, 12], length: 27 }
offer 490a01 490b01 7*14 = Taken
up = Frame { number: 3, lan: 0, system: 1, snpa: [2, 0, 0, 0, 0, 12], length: 32 }
offer 490a01 490b01 - = Taken
up = Frame { number: 4, lan: 0, system: 1, snpa: [2, 0, 0, 0, 0, 12], length: 18 }
choose 4 2 = Taken
up = unit 2 490a01 490b01 -
# Which offers have no route: to oneself, to another LAN, to an address that no system has, from one.
offer 490a01 490a01 6869 = Dropped(NoRoute)
offer 490a01 490c01 7*2000 = Dropped(NoRoute)
offer 490a01 490b02 7*2000 = Dropped(NoRoute)
offer 490a02 490b01 6869 = Dropped(NoRoute)
up = nothing
# Bound and room by address, and the first unit that is too long.
bound 490b01 = 2
room 490b01 = 263
bound 490c01 = 1
room 490c01 = 1496
bound 490b02 = 1
room 490b02 = 1
offer 490a01 490b01 7*264 = Dropped(TooLong)
up = nothing
offer 490a01 490b01 7*263 = Taken
up = Frame { number: 1, lan: 0, system: 1, snpa: [2, 0, 0, 0, 0, 12], length: 281 }
# The last tick at which it is taken and the first at which it is late, and who may not take it.
offer 490a01 490b01 6869 = Taken
up = Frame { number: 1, lan: 0, system: 1, snpa: [2, 0, 0, 0, 0, 12], length: 20 }
choose 1 1 = NotOurs
choose 1 3 = NotThere
tick = 1
tick = 2
choose 1 2 = Taken
up = unit 2 490a01 490b01 6869
tick = 3
choose 1 2 = Late
up = nothing
honest = true
# A system must not take what is CLNP's, what is empty, what an unknown port sent, or what is no frame.
inject 0 2 02000000000c02000000000b0006fefe03816869 = Taken
up = Alien { system: 2 }
inject 0 2 02000000000c02000000000b0003fefe03 = Taken
up = Alien { system: 2 }
inject 0 2 02000000000c0200000000630006fefe03006869 = Taken
up = Alien { system: 2 }
inject 0 2 6869 = Taken
up = Alien { system: 2 }
up = nothing
strays = 0
honest = false
# What is injected counts only where nothing equal is afloat, at the border of its time.
inject 0 2 02000000000c02000000000b0006fefe03006869 = Taken
up = unit 2 490a01 490b01 6869
strays = 1
offer 490a01 490b01 6869 = Taken
up = Frame { number: 1, lan: 0, system: 1, snpa: [2, 0, 0, 0, 0, 12], length: 20 }
inject 0 2 02000000000c02000000000b0006fefe03006869 = Taken
up = unit 2 490a01 490b01 6869
tick = 1
tick = 2
inject 0 2 02000000000c02000000000b0006fefe03006869 = Taken
strays = 1
tick = 3
inject 0 2 02000000000c02000000000b0006fefe03006869 = Taken
strays = 2
# The 16,385th live frame: the limit of the LANs is handed on.
many 16384 490a01 490b01 - = Taken
offer 490a01 490b01 - = Dropped(Full)
";

/// The octets and lengths of frames, ways, rooms, bounds, what is alien and what is a stray.
#[test]
fn each_call_of_the_network(rt: HostRuntime) -> Result<(), Fail> {
    let alloc = rt.alloc();
    let mut network = Box::new(alloc, net(alloc)?)?;
    for line in CALLS.lines() {
        let Some((call, wanted)) = line.split_once(" = ") else {
            network = Box::new(alloc, net(alloc)?)?;
            continue;
        };
        let got = match call.strip_prefix("frame ") {
            Some(number) => frame(alloc, network.link(), number.parse()?)?,
            None => answer(alloc, &mut *network, call)?,
        };
        assert_eq!(rt; got.as_str(), wanted, "{line}");
    }
    Ok(())
}
