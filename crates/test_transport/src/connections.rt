//! Each row of each state, for each TPDU and each call, by hand.

ghost use Rattle.std.specs.Prelude.{◌≡◌, ◌≤◌, IfOk, OnOk};
ghost use Rattle.tpdu.specs.Values.{tpdu_of};
ghost use Rattle.tpdu.specs.Writing.{IsAllowed, kind_for};
ghost use Rattle.tpdu.specs.declared.kind.Kind.TheVariants.{Cr};
ghost use Rattle.tpdu.specs.declared.tpdu.Format.TheVariants.{Normal};
ghost use Rattle.tp4_conn.specs.Calls.{IsCall};
ghost use Rattle.tp4_conn.specs.End.{IsSized, IsTimed, agreed_format};
ghost use Rattle.tp4_conn.specs.Living.{IsInTime};
ghost use Rattle.tp4_conn.specs.Table.{due};

mod rows;
mod script;
mod table;
mod tpdus;
mod words;

use crate::words::{TIMERS, bytes, events_of, number, pair, plain, word};
use nsap::Nsap;
use osi_base::{Bytes, Tick};
use script::SCRIPT;
use std::alloc::Global;
use std::process::Abort;
use std::test::Fail;
use tp4_conn::{ConnectCall, ConnectRequest, Connection, Uncounted, UserCall};
use tp4_flow::{Sent, Step};
use tpdu::{Format, Options, TpduRef};
use tpdus::TpduLine;
use words::{Sizes, options};

/// An end, what its last line told and sent, and its clock.
#[derive(Drop)]
struct Play {
    alloc: Global,
    end: Box<Connection<Uncounted>>,
    out: Step,
    clock: Tick,
    ghost behind: { end.value.base.clock ≤ clock },
    ghost low: { clock ≤ 4000000000 },
}

/// The state table is a definition, and the code follows it: these rows were counted by hand.
#[test]
fn each_row_of_each_state(rt: HostRuntime) -> Result<(), Fail> {
    let alloc = rt.alloc();
    let mut play = Box::new(alloc, Play::begin(alloc)?)?;
    for line in SCRIPT.lines() {
        if !line.is_empty() && !line.starts_with('#') {
            play_line(&rt, &mut play, line)?;
        }
    }
    Ok(())
}

fn play_line(rt: &impl Abort, play: &mut Play, line: &str) -> Result<(), Fail> {
    let (call, want) = line.split_once(" = ").ok_or("a line has what comes of it")?;
    let got = play.run(call)?;
    assert_eq!(rt; got.as_str(), want, "{line}");
    Ok(())
}

impl Play {
    /// An end that calls.
    fn begin(alloc: Global) -> Result<Play, Fail> {
        let mut out = Step::new(alloc);
        let options = options(&["", "normal", "1024", "exp", "sum"])?;
        let call = call(alloc, options, Bytes::of(Vec::new(alloc)))?;
        let end = Connection::connect(alloc, 0, call, &mut out)?;
        Ok(Play {
            alloc,
            end: Box::new(alloc, end)?,
            out,
            clock: 0,
        })
    }

    /// What comes of a call.
    fn run(&mut self, call: &str) -> Result<String, Fail> {
        let words: Vec<&str> = call.split(' ').collect(self.alloc)?;
        self.out = Step::new(self.alloc);
        let answer = self.act(&words)?;
        self.shown(&answer)
    }

    /// What a line does, and its answer.
    fn act(&mut self, words: &[&str]) -> Result<String, Fail> {
        match word(words, 0) {
            "connect" => self.connect(words),
            "incoming" => self.incoming(words),
            "calledby" => self.called_by(words),
            "tick" => self.tick(words),
            "tpdu" => self.take(words, 0x0b, true),
            "bare" => self.take(words, 0x0b, false),
            "alien" => self.take(words, 0x0c, true),
            _ => self.ask(words),
        }
    }

    fn connect(&mut self, words: &[&str]) -> Result<String, Fail> {
        let call = call(
            self.alloc,
            options(words)?,
            bytes(self.alloc, word(words, 5))?,
        )?;
        let end = Connection::connect(self.alloc, 0, call, &mut self.out)?;
        self.end = Box::new(self.alloc, end)?;
        self.clock = 0;
        Ok(String::new(self.alloc))
    }

    fn incoming(&mut self, words: &[&str]) -> Result<String, Fail> {
        let octets = bytes(self.alloc, word(words, 5))?;
        let end = called(
            self.alloc,
            options(words)?,
            octets.as_slice(),
            &mut self.out,
        )?;
        self.end = Box::new(self.alloc, end)?;
        self.clock = 0;
        Ok(String::new(self.alloc))
    }

    /// Whether the partner's end of that reference called it.
    fn called_by(&self, words: &[&str]) -> Result<String, Fail> {
        if self
            .end
            .is_called_by(&system(0x0b)?, pair(words, 1)?, &mut Uncounted)
        {
            return Ok(format!(in self.alloc; "yes ")?);
        }
        Ok(format!(in self.alloc; "no ")?)
    }

    fn tick(&mut self, words: &[&str]) -> Result<String, Fail> {
        self.clock = number(words, 1)?.max(self.clock).min(4_000_000_000);
        self.in_time()?;
        self.end.tick(self.clock, &mut self.out, &mut Uncounted)?;
        Ok(String::new(self.alloc))
    }

    /// A tick at which the end was due may not be left out.
    fn in_time(&self) -> Result<(), Fail>
        ensures { OnOk result (IsInTime (due self.now.end.value.base self.now.end.value.stage) self.now.clock) }
    {
        match self.end.next_due(&mut Uncounted) {
            Some(due) if due < self.clock => Err(Fail::from("a due tick was left out")),
            _ => Ok(()),
        }
    }

    /// A TPDU from a system, where it matches.
    fn take(&mut self, words: &[&str], from: u8, sum: bool) -> Result<String, Fail> {
        let place = match word(words, 1) {
            "cc" => 7,
            "dr" | "dt" => 4,
            "ed" => 3,
            _ => words.len(),
        };
        let octets = bytes(self.alloc, word(words, place))?;
        let line = TpduLine {
            words,
            format: self.end.format(&mut Uncounted),
            sum,
            octets: octets.as_slice(),
        };
        let tpdu = line.tpdu()?;
        if !self.end.matches(&system(from)?, &tpdu, &mut Uncounted) {
            return Ok(format!(in self.alloc; "unknown ")?);
        }
        self.in_time()?;
        self.end
            .on_tpdu(self.clock, &tpdu, &mut self.out, &mut Uncounted)?;
        Ok(String::new(self.alloc))
    }

    fn ask(&mut self, words: &[&str]) -> Result<String, Fail> {
        let call = user_call(self.alloc, words)?;
        self.in_time()?;
        match self
            .end
            .user(self.clock, call, &mut self.out, &mut Uncounted)
        {
            Ok(()) => Ok(String::new(self.alloc)),
            Err(why) => Ok(format!(in self.alloc; "no {why:?} ")?),
        }
    }

    /// The answer, the state, the due tick, the events and the TPDUs.
    fn shown(&self, answer: &str) -> Result<String, Fail> {
        let alloc = self.alloc;
        let mut text = format!(in alloc; "{answer}{:?}", self.end.state(&mut Uncounted))?;
        if let Some(due) = self.end.next_due(&mut Uncounted) {
            text.push_str(format!(in alloc; " {due}")?.as_str())?;
        }
        text.push_str(events_of(alloc, &self.out)?.as_str())?;
        for sent in self.out.tpdus() {
            text.push_str(show_tpdu(alloc, sent)?.as_str())?;
        }
        Ok(text)
    }
}

/// A TPDU; its format and checksum where these are not the normal ones, and its address where that is not the partner's.
fn show_tpdu(alloc: Global, sent: &Sent) -> Result<String, Fail> {
    let format = match sent.format {
        Format::Normal => "",
        Format::Extended => " extended",
    };
    let sum = if sent.sum { "" } else { " nosum" };
    let astray = if sent.to.octets() == b"\x49\x0b\x01".as_slice() {
        ""
    } else {
        " astray"
    };
    let debug = format!(in alloc; "{:?}", sent.tpdu)?;
    let tpdu = plain(alloc, debug.as_str())?;
    Ok(format!(in alloc; " /{tpdu}{format}{sum}{astray}")?)
}

fn system(octet: u8) -> Result<Nsap, Fail> {
    Ok(Nsap::of(&[0x49, octet, 1]).ok_or("an address")?)
}

fn call(alloc: Global, options: Options, octets: Bytes) -> Result<ConnectCall, Fail>
    ensures { IfOk result (λ call. (call.request.options ≡ options) × IsTimed call.rules) }
{
    let request = ConnectRequest {
        from_selector: bytes(alloc, "aa")?,
        to: system(0x0b)?,
        to_selector: bytes(alloc, "bb")?,
        options,
        octets,
    };
    Ok(ConnectCall {
        own: 1,
        request,
        rules: TIMERS,
    })
}

/// An end that the CR of the end 7 of the partner calls.
fn called(
    alloc: Global,
    options: Options,
    octets: &[u8],
    out: &mut Step,
) -> Result<Connection<Uncounted>, Fail>
    requires { IsSized options }
    ensures { IfOk result (λ end. end.base.clock ≡ 0) }
{
    let cr = request(options, octets)?;
    let end = Connection::incoming(alloc, 0, 1, system(0x0b)?, &cr, TIMERS, out)?;
    Ok(end)
}

/// The CR.
fn request<'a>(options: Options, octets: &'a [u8]) -> Result<TpduRef<'a>, Fail>
    requires { IsSized options }
    ensures kind { IfOk result (λ cr. kind_for (tpdu_of cr) ≡ Cr) }
    ensures allowed { IfOk result (λ cr. IsAllowed Normal (tpdu_of cr)) }
{
    if 32 < octets.len() {
        return Err(Fail::from("a CR has 32 octets of data at most"));
    }
    let sizes = Sizes::of(options);
    Ok(TpduRef::Cr {
        credit: 8,
        source: 7,
        format: options.format,
        calling: b"\xaa",
        called: b"\xbb",
        size: sizes.size,
        preferred: sizes.preferred,
        extra: u8::from(options.expedited) + if options.sum { 0 } else { 2 },
        version: None,
        classes: None,
        ack_time: None,
        sum: true,
        octets,
    })
}

/// The call of a line.
fn user_call(alloc: Global, words: &[&str]) -> Result<UserCall, Fail>
    ensures { IfOk result IsCall }
{
    match word(words, 0) {
        "accept" => Ok(UserCall::Accept(options(words)?, bytes(alloc, word(words, 5))?)),
        "refuse" => Ok(UserCall::Refuse(bytes(alloc, word(words, 1))?)),
        "normal" => Ok(UserCall::Normal(bytes(alloc, word(words, 1))?)),
        "urgent" => Ok(UserCall::Urgent(bytes(alloc, word(words, 1))?)),
        "window" => Ok(UserCall::Window(pair(words, 1)?.min(255))),
        _ => Ok(UserCall::Disconnect(bytes(alloc, word(words, 1))?)),
    }
}
