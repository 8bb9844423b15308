//! The words of the scripts and of the table, and of what comes of them.

use osi_base::Bytes;
use std::alloc::Global;
use std::test::Fail;
use tp4_conn::Timers;
use tp4_flow::{Step, What};

/// A lifetime of 32 ticks, T1 of 8, 4 sendings, W of 20, I of 60 and a credit of 8: a reference is frozen for 156 ticks.
pub const TIMERS: Timers = Timers {
    life: 32,
    t1: 8,
    sendings: 4,
    window: 20,
    inactive: 60,
    credit: 8,
};

/// The word at that place.
pub fn word<'a>(words: &[&'a str], at: usize) -> &'a str {
    match words.get(at) {
        Some(word) => *word,
        None => "-",
    }
}

pub fn octet(words: &[&str], at: usize) -> Result<u8, Fail> {
    Ok(word(words, at).parse()?)
}

pub fn pair(words: &[&str], at: usize) -> Result<u16, Fail> {
    Ok(word(words, at).parse()?)
}

pub fn number(words: &[&str], at: usize) -> Result<u32, Fail> {
    Ok(word(words, at).parse()?)
}

/// The octets of hexadecimal digits, none for `-`, or so many octets 07 of a number behind a star.
pub fn bytes(alloc: Global, digits: &str) -> Result<Bytes, Fail> {
    if let Some(count) = digits.strip_prefix('*') {
        let count: u16 = count.parse()?;
        return Ok(Bytes::of(vec![in alloc; 7; usize::from(count)]?));
    }
    if digits == "-" {
        return Ok(Bytes::of(Vec::new(alloc)));
    }
    Ok(Bytes::of(hex::decode(alloc, digits)?))
}

/// The events of a step, each behind a slash; its reference where that is not 1.
pub fn events_of(alloc: Global, out: &Step) -> Result<String, Fail> {
    let mut text = String::new(alloc);
    for event in out.events() {
        let what = plain(alloc, what_debug(alloc, &event.what)?.as_str())?;
        text.push_str(" /")?;
        text.push_str(what.as_str())?;
        if event.reference != 1 {
            text.push_str(format!(in alloc; " of {}", event.reference)?.as_str())?;
        }
    }
    Ok(text)
}

/// The `Debug` text of an event, without the address of an indication.
fn what_debug(alloc: Global, what: &What) -> Result<String, Fail> {
    match what {
        What::Incoming {
            partner,
            calling,
            called,
            options,
            octets,
            ..
        } => Ok(format!(in alloc;
            "Incoming {partner} {calling:?} {called:?} {options:?} {octets:?}"
        )?),
        What::End(told) => Ok(format!(in alloc; "{told:?}")?),
        _ => Ok(format!(in alloc; "{what:?}")?),
    }
}

/// The words of a `Debug` text without the names of its fields, each behind a blank; a word 7 that comes several times as one, with a star
/// and the count.
pub fn plain(alloc: Global, debug: &str) -> Result<String, Fail> {
    let mut flat = String::new(alloc);
    for letter in debug.chars() {
        flat.push(match letter {
            '(' | ')' | '{' | '}' | ',' => ' ',
            _ => letter,
        })?;
    }
    let mut text = String::new(alloc);
    let mut sevens = 0u32;
    for word in flat.as_str().split(' ') {
        if word.is_empty() || word.ends_with(':') || word == "Bytes" {
            continue;
        }
        if word == "7" {
            sevens = sevens.saturating_add(1);
            continue;
        }
        push_sevens(alloc, &mut text, sevens)?;
        sevens = 0;
        text.push_str(" ")?;
        text.push_str(word)?;
    }
    push_sevens(alloc, &mut text, sevens)?;
    Ok(text)
}

fn push_sevens(alloc: Global, text: &mut String, count: u32) -> Result<(), Fail> {
    match count {
        0 => {}
        1 => text.push_str(" 7")?,
        _ => text.push_str(format!(in alloc; " 7*{count}")?.as_str())?,
    }
    Ok(())
}
