//! What lines say, as the format of the script states them.

mod commands;
mod rows;

use self::commands::{DATAGRAMS, INACTIVE, RELAY, RUN};
use self::rows::{CONTROLS, LINES, VERSION_1, VERSION_2};
use osi_base::Wish;
use script_lines::{Line, LineRefusal, Names};
use std::alloc::Global;
use std::process::Abort;
use std::test::Fail;
use tpdu::{Format, Options};

/// The numbers of a line, in the order of its fields; a word that is chosen is 1, and one that is not is 0.
fn numbers_of(line: &Line) -> (&'static str, [u32; 6]) {
    match line {
        Line::Nothing => ("nothing", [0; 6]),
        Line::Version(version) => ("version", [*version, 0, 0, 0, 0, 0]),
        Line::Set { key, value } => ("set", [*key as u32, *value, 0, 0, 0, 0]),
        Line::Lan { name, bound, room } => ("lan", [u32::from(*name), *bound, *room, 0, 0, 0]),
        Line::Es { name, .. } => ("es", [u32::from(*name), 0, 0, 0, 0, 0]),
        Line::Is { name, .. } => ("is", [u32::from(*name), 0, 0, 0, 0, 0]),
        Line::Port { system, lan, .. } => ("port", pair(*system, *lan)),
        Line::Route {
            system,
            next,
            lan,
            ..
        } => (
            "route",
            [
                u32::from(*system),
                u32::from(*next),
                u32::from(*lan),
                0,
                0,
                0,
            ],
        ),
        Line::Path { name, kind, .. } => ("path", [u32::from(*name), *kind as u32, 0, 0, 0, 0]),
        Line::Tsap { system, .. } => ("tsap", pair(*system, 0)),
        Line::Relay { system, to, .. } => ("relay", pair(*system, *to)),
        Line::Start => ("start", [0; 6]),
        Line::Connect {
            system,
            to,
            options,
            ..
        } => (
            word_with("connect", "connect p", *options),
            agreed(u32::from(*system), u32::from(*to), *options),
        ),
        Line::Accept { end, options, .. } => (
            word_with("accept", "accept p", *options),
            agreed(*end, 0, *options),
        ),
        Line::Refuse { end, .. } => ("refuse", [*end, 0, 0, 0, 0, 0]),
        Line::Disconnect { end, .. } => ("disconnect", [*end, 0, 0, 0, 0, 0]),
        Line::Data { end, .. } => ("data", [*end, 0, 0, 0, 0, 0]),
        Line::Expedite { end, .. } => ("expedite", [*end, 0, 0, 0, 0, 0]),
        Line::Window { end, credit } => ("window", [*end, u32::from(*credit), 0, 0, 0, 0]),
        Line::Unit {
            system,
            to,
            wish,
            ..
        } => ("unit", wished(*system, *to, *wish)),
        Line::Tick => ("tick", [0; 6]),
        Line::Settle => ("settle", [0; 6]),
        Line::Deliver { frame, system } => ("deliver", [*frame, u32::from(*system), 0, 0, 0, 0]),
        Line::Inject { lan, system, .. } => ("inject", pair(*lan, *system)),
        Line::Restart { system } => ("restart", [u32::from(*system), 0, 0, 0, 0, 0]),
        Line::Send { system, to, .. } => ("send", pair(*system, *to)),
    }
}

/// The second word for a preferred size, else the first.
fn word_with(listed: &'static str, preferred: &'static str, options: Options) -> &'static str {
    if options.preferred { preferred } else { listed }
}

fn pair(first: u8, second: u8) -> [u32; 6] {
    [u32::from(first), u32::from(second), 0, 0, 0, 0]
}

fn agreed(first: u32, second: u32, options: Options) -> [u32; 6] {
    [
        first,
        second,
        u32::from(options.format == Format::Extended),
        u32::from(options.size),
        u32::from(options.expedited),
        u32::from(options.sum),
    ]
}

fn wished(system: u8, to: u8, wish: Wish) -> [u32; 6] {
    [
        u32::from(system),
        u32::from(to),
        u32::from(wish.cut),
        u32::from(wish.report),
        u32::from(wish.trace),
        u32::from(wish.path),
    ]
}

/// The octets of a line, in the order of its fields; the numbers of a source route's systems are some too.
fn octets_of(line: &Line) -> [&[u8]; 3] {
    match line {
        Line::Es { title, .. } | Line::Is { title, .. } => [title.octets(), &[], &[]],
        Line::Port { snpa, .. } => [snpa.octets(), &[], &[]],
        Line::Route { prefix, .. } => [prefix.octets(), &[], &[]],
        Line::Path { systems, .. } => [systems.as_slice(), &[], &[]],
        Line::Tsap { selector, .. } => [selector.as_slice(), &[], &[]],
        Line::Relay {
            selector,
            called,
            ..
        } => [selector.as_slice(), called.as_slice(), &[]],
        Line::Connect {
            selector,
            called,
            octets,
            ..
        }
        | Line::Send {
            selector,
            called,
            octets,
            ..
        } => [selector.as_slice(), called.as_slice(), octets.as_slice()],
        Line::Accept { octets, .. }
        | Line::Refuse { octets, .. }
        | Line::Disconnect { octets, .. }
        | Line::Data { octets, .. }
        | Line::Expedite { octets, .. }
        | Line::Unit { octets, .. }
        | Line::Inject { octets, .. } => [octets.as_slice(), &[], &[]],
        Line::Nothing
        | Line::Version(_)
        | Line::Set { .. }
        | Line::Lan { .. }
        | Line::Start
        | Line::Window { .. }
        | Line::Tick
        | Line::Settle
        | Line::Deliver { .. }
        | Line::Restart { .. } => [&[], &[], &[]],
    }
}

/// What a line says, or the column and the cause of its first fault.
fn answer(alloc: Global, names: &mut Names, line: &[u8]) -> Result<String, Fail> {
    match names.read_line(line) {
        Ok(line) => {
            let (word, numbers) = numbers_of(&line);
            let mut text = format!(in alloc; "{word} {numbers:?}")?;
            for octets in octets_of(&line) {
                text.push_str(" ")?;
                text.push_str(&hex::encode(alloc, octets)?)?;
            }
            Ok(text)
        }
        Err(LineRefusal::Fault(fault)) => {
            Ok(format!(in alloc; "{} {}", fault.column, fault.cause.text())?)
        }
        Err(LineRefusal::NoMemory) => Err(Fail::new("no memory")),
    }
}

/// The rows have their answers: what a line says, or its fault. A row with no answer is a line that is read.
fn check(rt: &impl Abort, alloc: Global, names: &mut Names, rows: &str) -> Result<(), Fail> {
    for row in rows.split('\n') {
        match row.split_once(" | ") {
            Some((line, wanted)) => {
                let answer = answer(alloc, names, line.as_bytes())?;
                assert_eq!(rt; answer.trim_end(), wanted, "at {row}");
            }
            None => assert!(rt; names.read_line(row.as_bytes()).is_ok(), "{row}"),
        }
    }
    Ok(())
}

/// What each line of each command says, and which words it has.
#[test]
fn a_line_has_its_answer(rt: HostRuntime) -> Result<(), Fail> {
    let alloc = rt.alloc();
    for rows in [LINES, VERSION_1, VERSION_2, RUN, CONTROLS] {
        check(&rt, alloc, &mut Names::new(alloc), rows)?;
    }
    check(&rt, alloc, &mut Names::datagrams(alloc), DATAGRAMS)?;
    check(&rt, alloc, &mut Names::inactive(alloc), INACTIVE)?;
    check(&rt, alloc, &mut Names::relay(alloc), RELAY)
}
