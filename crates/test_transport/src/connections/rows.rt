//! Each row of the table, with formats and checksums as both ends ask for them.

use super::Play;
use super::table::TABLE;
use crate::words::word;
use std::alloc::Global;
use std::process::Abort;
use std::test::Fail;

/// The words of the table that stand for what both ends ask for.
const NAMES: [&str; 6] = [
    "{format}", "{sum}", "{extra}", "{Format}", "{Sum}", "{mark}",
];

/// What they stand for. Each row once more in extended formats and without a checksum: the table must not hang on either.
const ASKED: [[&str; 6]; 4] = [
    ["normal", "sum", "1", "Normal", "true", ""],
    ["normal", "nosum", "3", "Normal", "false", " nosum"],
    ["extended", "sum", "1", "Extended", "true", " extended"],
    [
        "extended",
        "nosum",
        "3",
        "Extended",
        "false",
        " extended nosum",
    ],
];

#[test]
fn each_state_with_each_tpdu_and_each_call(rt: HostRuntime) -> Result<(), Fail> {
    for asked in ASKED {
        let table = filled(rt.alloc(), asked)?;
        play_table(&rt, rt.alloc(), table.as_str(), asked[1] == "sum")?;
    }
    Ok(())
}

/// The table with what both ends ask for in it.
fn filled(alloc: Global, asked: [&str; 6]) -> Result<String, Fail> {
    let mut text = TABLE.to_string(alloc)?;
    for (name, word) in NAMES.iter().zip(asked.iter()) {
        text = text.replace(alloc, *name, word)?;
    }
    Ok(text)
}

fn play_table(rt: &impl Abort, alloc: Global, table: &str, sum: bool) -> Result<(), Fail> {
    // What is shown of a state, and the lines that lead there.
    let mut place = Vec::new(alloc);
    for line in table.lines() {
        let Some((word, rest)) = line.split_once(' ') else {
            continue;
        };
        match word {
            "#" => {}
            "state" => {
                place.clear();
                place.push(rest)?;
            }
            "do" => place.push(rest)?,
            _ => play_row(rt, alloc, &place, word, rest, sum)?,
        }
    }
    Ok(())
}

/// The calls or the TPDUs of a row, each at an end of its own: a TPDU with a checksum, without one, and from another address.
fn play_row(
    rt: &impl Abort,
    alloc: Global,
    place: &[&str],
    word: &str,
    row: &str,
    sum: bool,
) -> Result<(), Fail> {
    let (calls, want) = row.split_once(" = ").ok_or("a row has what comes of it")?;
    for call in calls.split(", ") {
        match word {
            "call" => expect(rt, alloc, place, call, want)?,
            _ => expect_tpdu(rt, alloc, place, call, want, word == "take" && sum)?,
        }
    }
    Ok(())
}

/// A TPDU with a checksum, without one, and from another address.
fn expect_tpdu(
    rt: &impl Abort,
    alloc: Global,
    place: &[&str],
    tpdu: &str,
    want: &str,
    wants_sum: bool,
) -> Result<(), Fail> {
    let here = word(place, 0);
    let lacks = [here, " / BadTpdu Checksum 0 of 0"].concat(alloc)?;
    let unknown = ["unknown ", here].concat(alloc)?;
    let bare = if wants_sum { lacks.as_str() } else { want };
    for (form, want) in [
        ("tpdu ", want),
        ("bare ", bare),
        ("alien ", unknown.as_str()),
    ] {
        let call = [form, tpdu].concat(alloc)?;
        expect(rt, alloc, place, call.as_str(), want)?;
    }
    Ok(())
}

/// What comes of a call at an end in that state.
fn expect(
    rt: &impl Abort,
    alloc: Global,
    place: &[&str],
    call: &str,
    want: &str,
) -> Result<(), Fail> {
    let mut play = Box::new(alloc, Play::begin(alloc)?)?;
    for line in place.iter().skip(1) {
        play.run(line)?;
    }
    let got = play.run(call)?;
    assert_eq!(rt; got.as_str(), want, "{call}");
    Ok(())
}
