//! Lines that were made by hand, and words that were made by a program of its own.

use osi_base::{Address, Bytes, Note};
use script_journal::{Boxed, Event, Indication, Request};
use script_lines::Names;
use script_storm::{Counts, Storm, Words, push_line, push_summary, set_up};
use std::alloc::Global;
use std::process::Abort;
use std::test::Fail;
use tpdu::{EndTold, Format, GoneCause, Options};

const fn storm(seed: u32, count: u32) -> Storm {
    Storm { seed, count }
}

/// Each row has a word, how many frames were numbered and ends made, and its line.
const LINES: &str = "0 0 0 connect a aa b bb normal 128 exp sum -
16 0 0 connect a aa b bb extended 128 exp sum -
49 0 5 accept 2 extended 128 exp sum -
49 0 3 accept 1 extended 128 exp sum -
10930 0 10 data 7 ababab
1228803 0 2 data 2 00
644 0 0 data 1 28
165 0 3 expedite 1 0a
4085 0 100 expedite 97 ff
6 9 0 deliver 9 a
6 0 0 deliver 1 a
391 5 0 deliver 5 a
24 5 0 deliver 4 a
313 3 0 deliver 1 r
154 5 0 deliver 4 b
379 8 0 deliver 1 r
252 20 0 deliver 13 b
13 0 0 tick
4294967294 7 7 tick
287 0 2 refuse 1 -
4294967295 0 2000 window 1997 255
1224948 0 0 data 1 0f0f0f0f0f0f0f0f0f0f0f0f0f0f0f0f0f0f0f0f0f0f0f0f0f0f0f0f0f0f0f0f0f0f0f0f0f0f0f0f0f0f0f0f0f0f0f0f0f0f0f0f0f0f0f0f0f0f0f0f0f0f0f0f0f0f0f0f0f0f0f0f0f0f0f0f0f0f0f0f0f0f0f0f0f0f0f0f0f0f0f0f0f0f0f0f0f0f0f0f0f0f0f0f0f0f0f0f0f0f0f0f0f0f0f0f0f0f0f0f0f0f0f0f0f0f0f0f0f0f0f0f0f0f0f0f0f0f0f0f0f0f0f0f0f0f0f0f0f0f0f0f0f0f0f0f0f0f0f0f0f0f0f0f0f0f0f0f0f0f0f0f0f0f0f0f0f0f0f0f0f0f0f0f0f0f0f0f0f0f0f0f0f0f0f0f0f0f0f0f0f0f0f0f0f0f0f0f0f0f0f0f0f0f0f0f0f0f0f0f0f0f0f0f0f0f0f0f0f0f0f0f0f0f0f0f0f0f0f0f0f0f0f0f0f0f0f0f0f0f0f0f0f0f0f0f0f0f0f0f0f0f0f0f0f0f0f0f0f0f0f0f0f0f0f0f0f0f0f0f0f0f0f0f0f0f0f0f0f0f0f0f0f0f0f0f0f0f0f0f
15 0 2 disconnect 2 -
";

/// The line of a word in a run with so many frames and ends.
fn line(alloc: Global, word: u32, frames: u32, ends: u32) -> Result<Vec<u8>, Fail> {
    let counts = Counts {
        ticks: 0,
        frames,
        ends,
        got: 0,
        urgent: 0,
        gone: 0,
    };
    let mut out = Vec::new(alloc);
    push_line(word, &counts, &mut out).ok().ok_or("no memory")?;
    Ok(out)
}

fn check_row(rt: &impl Abort, alloc: Global, row: &str) -> Result<(), Fail> {
    let (word, row) = row.split_once(' ').ok_or("a word")?;
    let (frames, row) = row.split_once(' ').ok_or("frames")?;
    let (ends, wanted) = row.split_once(' ').ok_or("ends")?;
    let line = line(alloc, word.parse()?, frames.parse()?, ends.parse()?)?;
    assert_eq!(*rt; line.as_slice(), wanted.as_bytes(), "{word}");
    Ok(())
}

/// Words for each kind of line, with no, few and many frames and ends: the lines by hand.
#[test]
fn a_word_has_its_line(rt: HostRuntime) -> Result<(), Fail> {
    assert_eq!(rt; LINES.lines().count(), 23);
    for row in LINES.lines() {
        check_row(&rt, rt.alloc(), row)?;
    }
    Ok(())
}

/// A generated script is a script: no line of it is refused.
#[test]
fn a_script_is_read(rt: HostRuntime) -> Result<(), Fail> {
    let mut names = Names::new(rt.alloc());
    for line in set_up() {
        assert!(rt; names.read_line(line.as_bytes()).is_ok(), "{line}");
    }
    for word in Words::new(storm(1, 500)) {
        let line = line(rt.alloc(), word, 3, 2)?;
        assert!(rt; names.read_line(&line).is_ok(), "{word}");
    }
    Ok(())
}

/// The words of the seed 1.
const WORDS: [u32; 8] = [
    0xc982_8f91,
    0x1592_e274,
    0xc026_2657,
    0xa5c2_b6d3,
    0xaf81_1256,
    0x6c1c_2879,
    0x3013_0b26,
    0x9cc2_1c33,
];

/// The words come from a program of its own: a seed means the same everywhere.
#[test]
fn the_words_are_those_of_the_generator(rt: HostRuntime) {
    assert!(rt; Words::new(storm(1, 8)).eq(WORDS.iter().copied()));
    assert_eq!(rt; Words::new(storm(0, 1)).next(), Some(0x0f5d_eba9));
    assert_eq!(rt; Words::new(storm(999_999_999, 1)).next(), Some(0x06cb_e736));
}

/// The limits of both numbers, and forms that std would read as numbers.
#[test]
fn two_numbers_ask_for_a_script(rt: HostRuntime) {
    for [seed, count] in [["1", "2000"], ["0", "0"], ["999999999", "20000"]] {
        assert!(rt; Storm::read(seed, count).is_some(), "{seed} {count}");
    }
    for [seed, count] in [
        ["01", "5"],
        ["1", "20001"],
        ["1000000000", "5"],
        ["99999999999999999999", "5"],
        ["", "5"],
        ["+1", "5"],
        ["-1", "5"],
        ["1", "00"],
        ["1", " 5"],
        ["1", "5\n"],
        ["1", "0x5"],
        ["1", ""],
    ] {
        assert_eq!(rt; Storm::read(seed, count), None, "{seed} {count}");
    }
}

fn nothing(alloc: Global) -> Bytes {
    Bytes::of(Vec::new(alloc))
}

/// A connect request, and the indication of it.
fn two_ends(alloc: Global) -> Result<[Event; 2], Fail> {
    let request = Request {
        end: 1,
        system: 0,
        reference: 1,
        calling: Address::of(&[0x49, 0x0a, 1]),
        calling_selector: nothing(alloc),
        called: Address::of(&[0x49, 0x0b, 1]),
        called_selector: nothing(alloc),
        octets: nothing(alloc),
    };
    let indication = Indication {
        end: 2,
        system: 1,
        reference: 1,
        calling: Address::of(&[0x49, 0x0a, 1]),
        partner: 1,
        calling_selector: nothing(alloc),
        called: Address::of(&[0x49, 0x0b, 1]),
        called_selector: nothing(alloc),
        options: Options {
            format: Format::Normal,
            size: 128,
            preferred: false,
            expedited: true,
            sum: true,
        },
        octets: nothing(alloc),
    };
    let request = Boxed::new(alloc, request).ok().ok_or("no memory")?;
    let indication = Boxed::new(alloc, indication).ok().ok_or("no memory")?;
    Ok([Event::Connect(request), Event::Incoming(indication)])
}

/// Adds so many units that were shown, an expedited one, and four ends that are gone.
fn show(alloc: Global, counts: &mut Counts, units: u32) {
    for _ in 0..units {
        counts.count(&Event::End {
            number: 2,
            what: EndTold::Got(nothing(alloc)),
        });
    }
    counts.count(&Event::End {
        number: 2,
        what: EndTold::Urgent(nothing(alloc)),
    });
    for end in 1..5 {
        counts.count(&Event::End {
            number: end,
            what: EndTold::Gone(GoneCause::Inactive, nothing(alloc)),
        });
    }
}

/// Which events count, and where an end is made: by hand.
#[test]
fn a_summary_has_the_counts_of_the_events(rt: HostRuntime) -> Result<(), Fail> {
    let alloc = rt.alloc();
    let mut counts = Counts::new();
    let mut out = Vec::new(alloc);
    assert!(rt; push_summary(storm(1, 0), &counts, &mut out).is_ok());
    counts.count_all(&two_ends(alloc)?);
    counts.count_all(&[
        Event::Tick { now: 7 },
        Event::Net(Note::Frame {
            number: 1,
            lan: 0,
            system: 0,
            snpa: [2, 0, 0, 0, 0, 9],
            length: 60,
        }),
        Event::Net(Note::DropFrame { system: 0 }),
        Event::Data {
            end: 1,
            octets: nothing(alloc),
        },
        Event::Tick { now: 8 },
        Event::Deliver {
            number: 1,
            system: 1,
        },
    ]);
    show(alloc, &mut counts, 3);
    assert!(rt; push_summary(storm(999_999_999, 20_000), &counts, &mut out).is_ok());
    let lines = "storm 1 0 ticks 0 frames 0 ends 0 got 0 urgent 0 gone 0\n\
        storm 999999999 20000 ticks 8 frames 1 ends 2 got 3 urgent 1 gone 4\n";
    assert_eq!(rt; out.as_slice(), lines.as_bytes());
    Ok(())
}
