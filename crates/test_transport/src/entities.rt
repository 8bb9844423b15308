//! An entity of address 490b01 that takes connections at the selector `bb`, call by call.

ghost use Rattle.std.specs.Prelude.{◌≡◌, ◌<◌, ◌≤◌, ◌+◌, if◌then◌else◌, IfOk, OnOk};
ghost use Rattle.tp4_conn.specs.Calls.{IsCall};
ghost use Rattle.tp4_conn.specs.End.{IsSized};
ghost use Rattle.tp4_entity.specs.Dues.{AreFrom};

mod script;

use crate::words::{TIMERS, bytes, events_of, number, pair, word};
use nsap::Nsap;
use osi_base::{Bytes, NoMemory, Tick};
use script::SCRIPT;
use std::alloc::Global;
use std::marker::Brand;
use std::process::Abort;
use std::sync::ledger::{Blank, Ledger};
use std::test::Fail;
use tp4_conn::{ConnectRequest, Counted, Looks, Uncounted, UserCall};
use tp4_entity::TpEntity;
use tp4_flow::{Sent, Step};
use tpdu::{Format, Options, write_tpdu};

/// An entity, what its last line told and sent, and its clock.
#[derive(Drop)]
struct Play {
    alloc: Global,
    entity: Box<TpEntity<Uncounted>>,
    out: Step,
    clock: Tick,
    ghost behind: { entity.value.clock ≤ clock },
    ghost low: { clock ≤ 4000000000 },
}

/// Each call of an entity with ample memory, and what it tells and sends, counted by hand.
#[test]
fn each_call_by_hand(rt: HostRuntime) -> Result<(), Fail> {
    let alloc = rt.alloc();
    let mut play = Box::new(alloc, Play::begin(alloc, 64)?)?;
    for line in SCRIPT.lines() {
        if !line.starts_with('#') {
            play_line(&rt, &mut play, line)?;
        }
    }
    Ok(())
}

/// The ticks of an entity whose end calls at 0, and is due at 8: looks at it are counted in a ledger.
#[test]
fn ticks_in_a_ledger(rt: HostRuntime) -> Result<(), Fail> {
    tick_twice::<Brand>(&rt, rt.alloc(), Blank::new(1))
}

fn tick_twice<L: Ledger>(rt: &impl Abort, alloc: Global, blank: Blank) -> Result<(), Fail>
    requires name { blank.name ≡ L.name }
    requires parts { blank.parts ≡ L.parts }
    requires some { 0 < blank.parts }
{
    let mut looks = Counted::<L>::new(blank);
    let mut out = Step::new(alloc);
    let mut entity = Box::new(alloc, TpEntity::new(alloc, address("490b01")?, 2, TIMERS)?)?;
    let request = connect_request(alloc, Bytes::of(Vec::new(alloc)))?;
    in_time(&entity, 0)?;
    let _ = entity.connect(0, request, &mut out, &mut looks);
    in_time(&entity, 7)?;
    let was_due = tick_counted(&mut entity, 7, &mut out, &mut looks)?;
    assert!(rt; !was_due);
    in_time(&entity, 8)?;
    let was_due = tick_counted(&mut entity, 8, &mut out, &mut looks)?;
    assert!(rt; was_due);
    Ok(())
}

/// A tick in a ledger: two looks at most where an end was due, and none where none was.
fn tick_counted<L: Ledger>(
    entity: &mut TpEntity<Counted<L>>,
    now: Tick,
    out: &mut Step,
    looks: &mut Counted<L>,
) -> Result<bool, NoMemory>
    requires clock { entity.old.clock ≤ now }
    requires now { now ≤ 4000000000 }
    requires due { AreFrom now entity.old.ends }
    ensures looks { IfOk result (λ was_due. looks.new ≤ looks.old + (if was_due then 2 else 0)) }
    ensures clock { entity.new.clock ≤ now }
{
    entity.tick_next(now, out, looks)
}

/// A tick at which an end was due may not be left out.
fn in_time<K: Looks>(entity: &TpEntity<K>, clock: Tick) -> Result<(), Fail>
    ensures { OnOk result (AreFrom clock entity.now.ends) }
{
    if clock > 0 && entity.due_by(clock - 1) {
        return Err(Fail::from("a due tick was left out"));
    }
    Ok(())
}

fn play_line(rt: &impl Abort, play: &mut Play, line: &str) -> Result<(), Fail> {
    let (call, want) = line.split_once(" =").ok_or("a line has what comes of it")?;
    let got = play.run(call)?;
    let shown = got.as_str();
    assert_eq!(rt;
        shown.strip_prefix(" / ").unwrap_or(shown),
        want.trim(),
        "{line}"
    );
    Ok(())
}

impl Play {
    /// An entity with so many references.
    fn begin(alloc: Global, references: u16) -> Result<Play, Fail> {
        let mut entity = TpEntity::new(alloc, address("490b01")?, references.clamp(1, 64), TIMERS)?;
        let _ = entity.register(b"\xbb");
        Ok(Play {
            alloc,
            entity: Box::new(alloc, entity)?,
            out: Step::new(alloc),
            clock: 0,
        })
    }

    /// What comes of a call.
    fn run(&mut self, call: &str) -> Result<String, Fail> {
        let words: Vec<&str> = call.split(' ').collect(self.alloc)?;
        self.out.clear();
        let answer = self.act(&words)?;
        self.shown(&answer)
    }

    /// What a line does, and its answer.
    fn act(&mut self, words: &[&str]) -> Result<String, Fail> {
        match word(words, 0) {
            "start" => self.start(words),
            "register" => self.register(words),
            "at" => self.pass(words),
            "unit" => self.hear(words),
            "call" => self.call(words),
            "tick" => self.tick(),
            "spend" => self.spend(),
            "restart" => self.restart(),
            "silent" => Ok(format!(in self.alloc; "{}", self.entity.is_silent(self.clock))?),
            "free" => self.free(words),
            "state" => self.state(words),
            "own" => Ok(format!(in self.alloc; "{}", self.entity.own())?),
            _ => self.ask(words),
        }
    }

    fn start(&mut self, words: &[&str]) -> Result<String, Fail> {
        *self = Play::begin(self.alloc, pair(words, 1)?)?;
        Ok(String::new(self.alloc))
    }

    fn register(&mut self, words: &[&str]) -> Result<String, Fail> {
        let selector = bytes(self.alloc, word(words, 1))?;
        match self.entity.register(selector.as_slice()) {
            Ok(()) => Ok(String::new(self.alloc)),
            Err(why) => Ok(format!(in self.alloc; "no {why:?}")?),
        }
    }

    fn pass(&mut self, words: &[&str]) -> Result<String, Fail> {
        self.clock = number(words, 1)?.max(self.clock).min(4_000_000_000);
        Ok(String::new(self.alloc))
    }

    fn hear(&mut self, words: &[&str]) -> Result<String, Fail> {
        let octets = bytes(self.alloc, word(words, 2))?;
        self.in_time()?;
        self.entity.on_unit(
            self.clock,
            address(word(words, 1))?,
            octets.as_slice(),
            &mut self.out,
            &mut Uncounted,
        )?;
        Ok(String::new(self.alloc))
    }

    fn call(&mut self, words: &[&str]) -> Result<String, Fail> {
        let request = connect_request(self.alloc, bytes(self.alloc, word(words, 1))?)?;
        self.in_time()?;
        match self
            .entity
            .connect(self.clock, request, &mut self.out, &mut Uncounted)
        {
            Ok(reference) => Ok(format!(in self.alloc; "{reference}")?),
            Err(why) => Ok(format!(in self.alloc; "no {why:?}")?),
        }
    }

    fn ask(&mut self, words: &[&str]) -> Result<String, Fail> {
        let call = user_call(self.alloc, words)?;
        self.in_time()?;
        match self.entity.user(
            self.clock,
            pair(words, 1)?,
            call,
            &mut self.out,
            &mut Uncounted,
        ) {
            Ok(()) => Ok(String::new(self.alloc)),
            Err(why) => Ok(format!(in self.alloc; "no {why:?}")?),
        }
    }

    fn tick(&mut self) -> Result<String, Fail> {
        self.in_time()?;
        let was_due = self
            .entity
            .tick_next(self.clock, &mut self.out, &mut Uncounted)?;
        Ok(format!(in self.alloc; "{was_due}")?)
    }

    fn in_time(&self) -> Result<(), Fail>
        ensures { OnOk result (AreFrom self.now.clock self.now.entity.value.ends) }
    {
        in_time(&self.entity, self.clock)
    }

    /// 64 ends call, and each is refused.
    fn spend(&mut self) -> Result<String, Fail> {
        for reference in 1..=64 {
            let request = connect_request(self.alloc, Bytes::of(Vec::new(self.alloc)))?;
            self.in_time()?;
            self.entity
                .connect(self.clock, request, &mut self.out, &mut Uncounted)?;
            let refusal = [6, 0x80, 0, reference, 0, 0, 3];
            self.entity.on_unit(
                self.clock,
                address("490a01")?,
                &refusal,
                &mut self.out,
                &mut Uncounted,
            )?;
        }
        self.out = Step::new(self.alloc);
        Ok(String::new(self.alloc))
    }

    fn restart(&mut self) -> Result<String, Fail> {
        self.entity.restart(self.clock);
        Ok(String::new(self.alloc))
    }

    fn free(&mut self, words: &[&str]) -> Result<String, Fail> {
        let is_free = self
            .entity
            .is_free(self.clock, pair(words, 1)?, &mut Uncounted);
        Ok(format!(in self.alloc; "{is_free}")?)
    }

    fn state(&mut self, words: &[&str]) -> Result<String, Fail> {
        match self.entity.state_of(pair(words, 1)?, &mut Uncounted) {
            Some(state) => Ok(format!(in self.alloc; "{state:?}")?),
            None => Ok(format!(in self.alloc; "none")?),
        }
    }

    /// The answer, the events and the TPDUs.
    fn shown(&self, answer: &str) -> Result<String, Fail> {
        let alloc = self.alloc;
        let mut text = answer.to_string(alloc)?;
        text.push_str(events_of(alloc, &self.out)?.as_str())?;
        for sent in self.out.tpdus() {
            text.push_str(show_sent(alloc, sent)?.as_str())?;
        }
        Ok(text)
    }
}

/// The address that a TPDU goes to, and its octets.
fn show_sent(alloc: Global, sent: &Sent) -> Result<String, Fail> {
    let octets = write_tpdu(alloc, &sent.tpdu, sent.format, sent.sum)?;
    let digits = hex::encode(alloc, octets)?;
    Ok(format!(in alloc; " / {}:{digits}", sent.to)?)
}

const OPTIONS: Options = Options {
    format: Format::Normal,
    size: 1024,
    expedited: true,
    sum: true,
    preferred: false,
};

#[tactic(auto, using(tp4_conn::proofs::Sizes::size_known))]
fn connect_request(alloc: Global, octets: Bytes) -> Result<ConnectRequest, Fail>
    ensures { IfOk result (λ request. IsSized request.options) }
{
    Ok(ConnectRequest {
        from_selector: bytes(alloc, "aa")?,
        to: address("490a01")?,
        to_selector: bytes(alloc, "bb")?,
        options: OPTIONS,
        octets,
    })
}

/// The call of a line.
#[tactic(auto, using(tp4_conn::proofs::Sizes::size_known))]
fn user_call(alloc: Global, words: &[&str]) -> Result<UserCall, Fail>
    ensures { IfOk result IsCall }
{
    let octets = Bytes::of(Vec::new(alloc));
    match word(words, 0) {
        "accept" => Ok(UserCall::Accept(options(word(words, 2)), octets)),
        "refuse" => Ok(UserCall::Refuse(octets)),
        _ => Ok(UserCall::Disconnect(octets)),
    }
}

#[tactic(auto, using(tp4_conn::proofs::Sizes::size_known))]
fn options(format: &str) -> Options
    ensures { IsSized result }
{
    let format = match format {
        "extended" => Format::Extended,
        _ => Format::Normal,
    };
    Options { format, ..OPTIONS }
}

fn address(digits: &str) -> Result<Nsap, Fail> {
    match Nsap::read(digits) {
        Ok(address) => Ok(address),
        Err(_) => Err(Fail::from("an address")),
    }
}
