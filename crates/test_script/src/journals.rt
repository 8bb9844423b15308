//! The lines of events that no script comes to, or none of a few lines, as the format of the transcript states them. All others stand in `examples/`, in
//! `examples/rows` those that no example has (`connection-lines.rows`, `network-lines.rows`, `datagram-words.rows`).

use osi_base::{Address, Bytes, DropCause, Note};
use script_journal::{Boxed, Event, Indication, Journal, Refused, Settled, UdCause, write_event};
use script_lines::Names;
use std::alloc::Global;
use std::process::Abort;
use std::test::Fail;
use tpdu::{EndTold, Format, HeldKind, Kind, Options};

const LINES: &str = "drop frame b
stopped 65536
unknown a cr
held 1 ed 4294967296
no full
no idsspent
drop a full
drop a idsspent
badud b short 3
badud b length 3
badud b code 3
badud b param 3
badud b unknown 3
badud b missing 3
badud b checksum 3
data 3 -
sent b 490b01 -
incoming 2 b 3 490a01 9 aa 490b01 - normal 1024 exp sum 00ff
";

const NORMAL: Options = Options {
    format: Format::Normal,
    size: 1024,
    preferred: false,
    expedited: true,
    sum: true,
};

fn bytes(alloc: Global, octets: &[u8]) -> Result<Bytes, Fail> {
    Ok(Bytes::of(octets.to_vec(alloc)?))
}

/// The indication of a CR without the selector that is called.
fn indication(alloc: Global) -> Result<Event, Fail> {
    let indication = Indication {
        end: 2,
        system: 1,
        reference: 3,
        calling: Address::of(&[0x49, 0x0a, 1]),
        partner: 9,
        calling_selector: bytes(alloc, &[0xaa])?,
        called: Address::of(&[0x49, 0x0b, 1]),
        called_selector: bytes(alloc, &[])?,
        options: NORMAL,
        octets: bytes(alloc, &[0, 0xff])?,
    };
    let boxed = Boxed::new(alloc, indication).ok().ok_or("no memory")?;
    Ok(Event::Incoming(boxed))
}

/// The event of a line, where `a` and `b` are the systems 0 and 1.
fn event_of(alloc: Global, line: &str) -> Result<Event, Fail> {
    match line {
        "drop frame b" => Ok(Event::Net(Note::DropFrame { system: 1 })),
        "stopped 65536" => {
            let answer = Settled::Stopped(65_536);
            Ok(Event::Settle { answer })
        }
        "unknown a cr" => {
            let kind = Kind::Cr;
            Ok(Event::Unknown { system: 0, kind })
        }
        "held 1 ed 4294967296" => Ok(Event::End {
            number: 1,
            what: EndTold::Held(HeldKind::Ed, 4_294_967_296),
        }),
        "data 3 -" => Ok(Event::Data {
            end: 3,
            octets: Bytes::of(Vec::new(alloc)),
        }),
        "sent b 490b01 -" => Ok(Event::Sent {
            system: 1,
            to: Address::of(&[0x49, 0x0b, 1]),
            octets: Bytes::of(Vec::new(alloc)),
        }),
        _ => cause_of(alloc, line),
    }
}

/// The same of a line that ends by a cause.
fn cause_of(alloc: Global, line: &str) -> Result<Event, Fail> {
    match line {
        "no full" => Ok(Event::No {
            cause: Refused::Full,
        }),
        "no idsspent" => Ok(Event::No {
            cause: Refused::IdsSpent,
        }),
        "drop a full" => Ok(Event::Dropped {
            system: 0,
            cause: DropCause::Full,
        }),
        "drop a idsspent" => Ok(Event::Dropped {
            system: 0,
            cause: DropCause::IdsSpent,
        }),
        "badud b short 3" => Ok(bad_ud(UdCause::Short)),
        "badud b length 3" => Ok(bad_ud(UdCause::Length)),
        "badud b code 3" => Ok(bad_ud(UdCause::Code)),
        "badud b param 3" => Ok(bad_ud(UdCause::Param)),
        "badud b unknown 3" => Ok(bad_ud(UdCause::Unknown)),
        "badud b missing 3" => Ok(bad_ud(UdCause::Missing)),
        "badud b checksum 3" => Ok(bad_ud(UdCause::Checksum)),
        _ => indication(alloc),
    }
}

fn bad_ud(cause: UdCause) -> Event {
    Event::BadUd {
        system: 1,
        cause,
        place: 3,
    }
}

/// The line of an event.
fn told(alloc: Global, names: &Names, event: &Event) -> Result<Vec<u8>, Fail> {
    let mut out = Vec::new(alloc);
    write_event(event, names, &mut out).ok().ok_or("no memory")?;
    Ok(out)
}

/// A journal with ample memory: what is added stands there.
#[test]
fn a_journal_has_its_events_in_order(rt: HostRuntime) {
    let mut journal = Journal::new(rt.alloc());
    assert!(rt; journal.add(Event::Tick { now: 0 }).is_ok());
    assert!(rt; journal.add(Event::Net(Note::Alien { system: 3 })).is_ok());
    let events = journal.events();
    assert_eq!(rt; events.len(), 2);
    assert!(rt; matches!(&events[0], Event::Tick { now: 0 }));
    assert!(rt; matches!(&events[1], Event::Net(Note::Alien { system: 3 })));
}

fn check_line(rt: &impl Abort, alloc: Global, names: &Names, line: &str) -> Result<(), Fail> {
    let event = event_of(alloc, line)?;
    let out = told(alloc, names, &event)?;
    assert_eq!(*rt; out.strip_suffix(b"\n"), Some(line.as_bytes()), "{line}");
    Ok(())
}

/// The fields of each line, in their order and form, and each word as it is printed.
#[test]
fn each_event_has_its_line(rt: HostRuntime) -> Result<(), Fail> {
    let alloc = rt.alloc();
    let mut names = Names::new(alloc);
    for line in ["es a 490a00", "es b 490b00"] {
        let _line = names.read_line(line.as_bytes());
    }
    for line in LINES.lines() {
        check_line(&rt, alloc, &names, line)?;
    }
    Ok(())
}
