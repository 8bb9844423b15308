//! Frames that are offered, taken, injected and late, counted by hand.

ghost use Rattle.std.specs.Prelude.{◌≡◌, ◌∷◌, []};

use crate::carriers::{answer, digits_of};
use lan_bag::{Lan, LanBag, PortRow};
use nsap::{Port, Snpa};
use osi_base::NoMemory;
use std::alloc::Global;
use std::test::Fail;

/// A port on a LAN.
fn port(lan: u8, last: u8) -> Port
    ensures { result ≡ record { lan = lan; snpa = 2 ∷ 0 ∷ 0 ∷ 0 ∷ 0 ∷ last ∷ [] } }
{
    Port {
        lan,
        snpa: Snpa::of([2, 0, 0, 0, 0, last]),
    }
}

/// A system's port.
fn row(system: u8, end: bool, lan: u8, last: u8) -> PortRow
    ensures { result ≡ record { system = system; end = end; port = record { lan = lan; snpa = 2 ∷ 0 ∷ 0 ∷ 0 ∷ 0 ∷ last ∷ [] } } }
{
    PortRow {
        system,
        end,
        port: port(lan, last),
    }
}

/// Two end systems 1 and 2 and an intermediate system 3 on LAN 0, of bound 1; 3 and 4 on LAN 1.
fn bag(alloc: Global) -> Result<LanBag, NoMemory> {
    let lans = [
        Lan {
            bound: 1,
            room: 1497,
        },
        Lan {
            bound: 2,
            room: 264,
        },
    ];
    let rows = [
        row(1, true, 0, 11),
        row(2, true, 0, 12),
        row(3, false, 0, 13),
        row(3, false, 1, 33),
        row(4, true, 1, 14),
    ];
    LanBag::new(alloc, &lans, &rows)
}

/// Each call with what comes of it; a comment begins anew.
const CALLS: &str = "# A frame may be repeated: its octets by hand, twice.
offer 0/02000000000b 0/02000000000c 8178 = Taken
up = Frame { number: 1, lan: 0, system: 1, snpa: [2, 0, 0, 0, 0, 12], length: 19 }
frame 1 = 02000000000c02000000000b0005fefe038178
choose 1 2 = Taken
up = unit 2 0/02000000000b 0/02000000000c 8178
choose 1 2 = Taken
up = unit 2 0/02000000000b 0/02000000000c 8178
up = nothing
# A choice is answered by the first that applies, each at its border.
offer 0/02000000000b 0/02000000000c 81 = Taken
choose 0 2 = NoSuch
choose 2 2 = NoSuch
choose 1 4 = NotThere
choose 1 1 = NotOurs
choose 1 3 = NotOurs
tick = 1
choose 1 2 = Taken
tick = 2
choose 1 2 = Late
choose 1 4 = Late
frame 1 = none
now = 2
# An offer is dropped for the first cause, each at its border.
offer 0/02000000000b 1/02000000000e 129*300 = Dropped(NoRoute)
offer 0/020000000063 0/02000000000c 81 = Dropped(NoRoute)
room 1/02000000000e = 264
offer 1/020000000021 1/02000000000e 129*300 = Dropped(TooLong)
up = nothing
many 16384 0/02000000000b 0/02000000000c 81 = Taken
offer 1/020000000021 1/02000000000e 81 = Dropped(Full)
# A group is heard by systems of its kind and not by its sender; the least pair moves on as they take it.
offer 0/02000000000d 0/09002b000004 82 = Taken
offer 0/02000000000b 0/02000000000d 82 = Taken
fresh = Some((1, 1))
choose 1 2 = Taken
choose 1 1 = Taken
fresh = Some((2, 3))
choose 2 3 = Taken
fresh = None
# The least pair over ticks: it leaves frames out at the tick after their bound.
offer 0/02000000000b 0/02000000000c 81 = Taken
offer 1/020000000021 1/02000000000e 81 = Taken
tick = 1
tick = 2
fresh = Some((2, 4))
tick = 3
fresh = None
offer 0/02000000000b 0/02000000000c 81 = Taken
fresh = Some((3, 2))
# At ticks that no script of 100,000 lines comes to, on both sides of 2^17, a frame keeps its bound.
ticks 131071 = 131071
offer 0/02000000000b 0/02000000000c 81 = Taken
tick = 131072
fresh = Some((1, 2))
choose 1 2 = Taken
tick = 131073
choose 1 2 = Late
offer 1/020000000021 1/02000000000e 81 = Taken
ticks 2 = 131075
choose 2 4 = Taken
tick = 131076
fresh = None
choose 2 4 = Late
# What is injected is a frame or alien, and a stray where nothing equal is afloat.
inject 1 2 02000000000c02000000000b0005fefe038178 = NotThere
honest = true
offer 0/02000000000b 0/02000000000c 8178 = Taken
up = Frame { number: 1, lan: 0, system: 1, snpa: [2, 0, 0, 0, 0, 12], length: 19 }
inject 0 2 02000000000c02000000000b0005fefe038178 = Taken
honest = false
strays = 0
up = unit 2 0/02000000000b 0/02000000000c 8178
inject 0 3 02000000000c02000000000b0005fefe0381 = Taken
up = Alien { system: 3 }
strays = 0
tick = 1
tick = 2
inject 0 2 02000000000c02000000000b0005fefe038178 = Taken
strays = 1
# The bound and the room are total: the least numbers stand for a LAN that there is not.
bound 7/020000000001 = 1
room 7/020000000001 = 264
# One that waits stands beside the list of the others: the order goes over both.
offer 0/02000000000b 0/02000000000c 81 = Taken
choose 1 2 = Taken
gather = Frame { number: 1, lan: 0, system: 1, snpa: [2, 0, 0, 0, 0, 12], length: 18 };unit 2 0/02000000000b 0/02000000000c 81;
up = nothing
";

/// The answers in their order, each at its border.
#[test]
fn each_call_of_the_lans(rt: HostRuntime) -> Result<(), Fail> {
    let alloc = rt.alloc();
    let mut lans = Box::new(alloc, bag(alloc)?)?;
    for line in CALLS.lines() {
        let Some((call, wanted)) = line.split_once(" = ") else {
            lans = Box::new(alloc, bag(alloc)?)?;
            continue;
        };
        let got = match call.strip_prefix("frame ") {
            Some(number) => frame(alloc, &lans, number.parse()?)?,
            None => answer(alloc, &mut *lans, call)?,
        };
        assert_eq!(rt; got.as_str(), wanted, "{line}");
    }
    Ok(())
}

/// The octets of a frame that may be taken.
pub fn frame(alloc: Global, lans: &LanBag, number: u32) -> Result<String, Fail> {
    match lans.frame_octets(number) {
        Some(octets) => digits_of(alloc, octets),
        None => Ok(format!(in alloc; "none")?),
    }
}
