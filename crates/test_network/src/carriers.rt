//! The calls of any carrier, as words: what each line of a table does, and what comes of it.

use nsap::{Nsap, Port, Snpa};
use osi_base::{Bytes, Carrier, Offered, Unit, Up, Wish, gather};
use std::alloc::Global;
use std::test::Fail;

const PLAIN: Wish = Wish {
    cut: true,
    report: false,
    trace: false,
    path: 0,
};

/// An address in a table: of a port its LAN and its SNPA.
pub trait Spelled: Sized + Drop {
    /// The address of the word, where it is one.
    fn read_word(word: &str) -> Option<Self>;

    /// The word of the address.
    fn word_of(&self, alloc: Global) -> Result<String, Fail>;
}

impl Spelled for Port {
    fn read_word(word: &str) -> Option<Port> {
        let (lan, snpa) = word.split_once('/')?;
        Some(Port {
            lan: lan.parse().ok()?,
            snpa: Snpa::read(snpa).ok()?,
        })
    }

    fn word_of(&self, alloc: Global) -> Result<String, Fail> {
        Ok(format!(in alloc; "{}/{}", self.lan, self.snpa)?)
    }
}

impl Spelled for Nsap {
    fn read_word(word: &str) -> Option<Nsap> {
        Nsap::read(word).ok()
    }

    fn word_of(&self, alloc: Global) -> Result<String, Fail> {
        Ok(format!(in alloc; "{self}")?)
    }
}

/// What comes of the call of a line.
pub fn answer<C: Carrier + Drop>(alloc: Global, carrier: &mut C, call: &str) -> Result<String, Fail>
where
    C::Addr: Spelled,
{
    let words: Vec<&str> = call.split(' ').collect(alloc)?;
    match word(&words, 0) {
        "offer" => offer(alloc, carrier, &words),
        "many" => offer_many(alloc, carrier, &words),
        "choose" => {
            let answer = carrier.choose(word(&words, 1).parse()?, word(&words, 2).parse()?)?;
            Ok(format!(in alloc; "{answer:?}")?)
        }
        "inject" => {
            let octets = octets_of(alloc, word(&words, 3))?;
            let answer = carrier.inject(
                word(&words, 1).parse()?,
                word(&words, 2).parse()?,
                octets,
            )?;
            Ok(format!(in alloc; "{answer:?}")?)
        }
        "up" => told(alloc, carrier.next_up()),
        "gather" => gathered(alloc, carrier),
        "tick" => pass(alloc, carrier, 1),
        "ticks" => pass(alloc, carrier, word(&words, 1).parse()?),
        _ => look(alloc, carrier, &words),
    }
}

/// What is asked of a carrier and changes nothing.
fn look<C: Carrier>(alloc: Global, carrier: &C, words: &[&str]) -> Result<String, Fail>
where
    C::Addr: Spelled,
{
    match word(words, 0) {
        "fresh" => Ok(format!(in alloc; "{:?}", carrier.fresh())?),
        "now" => Ok(format!(in alloc; "{}", carrier.now())?),
        "honest" => Ok(format!(in alloc; "{}", carrier.honest())?),
        "strays" => Ok(format!(in alloc; "{}", carrier.strays())?),
        "bound" => Ok(format!(in alloc; "{}", carrier.bound(&address(word(words, 1))?))?),
        "room" => Ok(format!(in alloc; "{}", carrier.room(&address(word(words, 1))?))?),
        _ => Err(Fail::from("a call")),
    }
}

fn offer<C: Carrier>(alloc: Global, carrier: &mut C, words: &[&str]) -> Result<String, Fail>
where
    C::Addr: Spelled,
{
    let unit = unit(alloc, word(words, 1), word(words, 2), word(words, 3))?;
    let answer = carrier.offer(unit, PLAIN)?;
    Ok(format!(in alloc; "{answer:?}")?)
}

/// The same unit so many times: the first other answer than that it is taken.
fn offer_many<C: Carrier>(alloc: Global, carrier: &mut C, words: &[&str]) -> Result<String, Fail>
where
    C::Addr: Spelled,
{
    let count: u32 = word(words, 1).parse()?;
    for number in 0..count {
        let unit = unit(alloc, word(words, 2), word(words, 3), word(words, 4))?;
        let answer = carrier.offer(unit, PLAIN)?;
        if answer != Offered::Taken {
            return Ok(format!(in alloc; "{answer:?} after {number}")?);
        }
    }
    Ok(format!(in alloc; "{:?}", Offered::Taken)?)
}

/// So many ticks pass: the clock behind them.
fn pass<C: Carrier>(alloc: Global, carrier: &mut C, count: u32) -> Result<String, Fail> {
    for _ in 0..count {
        if carrier.now() < 4_000_000_000 {
            carrier.tick()?;
        }
    }
    Ok(format!(in alloc; "{}", carrier.now())?)
}

/// All that waits, with semicolons between.
fn gathered<C: Carrier>(alloc: Global, carrier: &mut C) -> Result<String, Fail>
where
    C::Addr: Spelled,
{
    let mut text = String::new(alloc);
    for up in gather(alloc, carrier)? {
        text.push_str(told(alloc, Some(up))?.as_str())?;
        text.push_str(";")?;
    }
    Ok(text)
}

/// What came up.
fn told<A: Spelled>(alloc: Global, up: Option<Up<A>>) -> Result<String, Fail> {
    match up {
        None => Ok(format!(in alloc; "nothing")?),
        Some(Up::Note(note)) => Ok(format!(in alloc; "{note:?}")?),
        Some(Up::Unit(arrival)) => {
            let unit = &arrival.unit;
            let (from, to) = (unit.from.word_of(alloc)?, unit.to.word_of(alloc)?);
            let octets = digits_of(alloc, unit.octets.as_slice())?;
            Ok(format!(in alloc; "unit {} {from} {to} {octets}", arrival.system)?)
        }
    }
}

fn unit<A: Spelled>(alloc: Global, from: &str, to: &str, octets: &str) -> Result<Unit<A>, Fail> {
    Ok(Unit {
        from: address(from)?,
        to: address(to)?,
        octets: Bytes::of(octets_of(alloc, octets)?),
    })
}

fn address<A: Spelled>(word: &str) -> Result<A, Fail> {
    Ok(A::read_word(word).ok_or("an address")?)
}

/// The word at that place.
fn word<'a>(words: &[&'a str], at: usize) -> &'a str {
    match words.get(at) {
        Some(word) => *word,
        None => "-",
    }
}

/// The octets of hexadecimal digits, none for `-`, or of `7*300` the octet 7 so many times.
fn octets_of(alloc: Global, word: &str) -> Result<Vec<u8>, Fail> {
    if let Some((octet, count)) = word.split_once('*') {
        let count: u16 = count.parse()?;
        return Ok(vec![in alloc; octet.parse()?; usize::from(count)]?);
    }
    if word == "-" {
        return Ok(Vec::new(alloc));
    }
    Ok(hex::decode(alloc, word)?)
}

/// The octets in hexadecimal digits, `-` for none.
pub fn digits_of(alloc: Global, octets: &[u8]) -> Result<String, Fail> {
    if octets.is_empty() {
        return Ok(format!(in alloc; "-")?);
    }
    Ok(hex::encode(alloc, octets)?)
}
